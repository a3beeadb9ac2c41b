//! The rows of each instance.
ghost use Rattle.std.specs.Prelude.{◌≡◌, ◌++◌, true, IfOk, OnOk, map, flat_map};
ghost use Rattle.sdl_instances_packed_log.specs.Packed.{event_shown};
ghost use Rattle.sdl_chart_page.specs.Entries.{AreStored};
ghost use Rattle.sdl_chart_text.specs.Rows.{gathered_from};
ghost use Rattle.sdl_chart_msc.specs.Places.{place_of, made_in, places_of_event, places_at, ArePlacesOf, is_same};

use crate::rows::event_of;
use sdl_chart_page::Row;
use sdl_instances_log::Done;
use sdl_instances_packed_log::{Shown, Shows};
use sdl_signal::{Pid, SetId};
use std::alloc::{AllocError, Global};

/// A row that concerns an instance, which the numbers of its set and in it tell.
#[derive(Clone, Copy, PartialEq, Eq, PartialOrd, Ord)]
pub struct Place {
    pub set: u32,
    pub serial: u32,
    /// The row, counted from 0.
    pub row: usize,
    /// Whether it is a turn of the instance. Else a signal entered its port, or it was made there.
    pub acts: bool,
}

/// Whether the places are of one instance.
pub(crate) fn is_same(one: Place, other: Place) -> bool
    ensures { result ≡ is_same one other }
{
    one.set == other.set && one.serial == other.serial
}

/// Adds a place of the instance.
fn add(places: &mut Vec<Place>, acts: bool, row: usize, pid: Pid) -> Result<(), AllocError>
    ensures { OnOk result (places.new.items ≡ places.old.items ++ place_of acts row pid) }
{
    match pid {
        Pid::Null => Ok(()),
        Pid::Env => Ok(()),
        Pid::Inst(SetId(set), serial) => {
            places.push(Place {
                set,
                serial,
                row,
                acts,
            })?;
            Ok(())
        }
    }
}

/// Adds a place of the instance that an action made.
fn add_made(places: &mut Vec<Place>, row: usize, done: &Done) -> Result<(), AllocError>
    ensures { OnOk result (places.new.items ≡ places.old.items ++ made_in row done.now) }
{
    match done {
        Done::Sent(_) => Ok(()),
        Done::NoRoute(_, _) => Ok(()),
        Done::Made(pid) => add(places, false, row, *pid),
    }
}

/// Adds a place of each instance that was made in a turn.
fn add_all_made(places: &mut Vec<Place>, row: usize, all: &[Done]) -> Result<(), AllocError>
    ensures { OnOk result (places.new.items ≡ places.old.items ++ flat_map (made_in row) all.now) }
{
    for done in all {
        add_made(places, row, done)?;
    }
    Ok(())
}

/// Adds the places of a turn of the instance.
fn add_turn(places: &mut Vec<Place>, row: usize, pid: Pid, done: &[Done]) -> Result<(), AllocError>
    ensures { OnOk result (places.new.items ≡ places.old.items ++ (place_of true row pid ++ flat_map (made_in row) done.now)) }
{
    add(places, true, row, pid)?;
    add_all_made(places, row, done)
}

/// Adds the places of an event.
fn add_event(places: &mut Vec<Place>, row: usize, event: Shown) -> Result<(), AllocError>
    ensures { OnOk result (places.new.items ≡ places.old.items ++ places_of_event row (event_shown event.entry)) }
{
    match event {
        Shown::Entered(_, pid) => add(places, false, row, pid),
        Shown::Discarded(_, _) => Ok(()),
        Shown::Turn {
            pid,
            trigger: _,
            frame: _,
            step: _,
            done,
            stopped: _,
        } => add_turn(places, row, pid, done),
    }
}

/// Adds the places of the event of this row, which has this number.
fn add_row<K: Shows>(
    places: &mut Vec<Place>,
    logs: &[K],
    number: usize,
    row: Row,
) -> Result<(), AllocError>
    requires { AreStored K.stores logs.now }
    ensures { OnOk result (places.new.items ≡ places.old.items ++ places_at (map K.events logs.now) number row) }
{
    match event_of(logs, row.list, row.number) {
        Some(event) => add_event(places, number, event),
        None => Ok(()),
    }
}

/// The places of all rows.
fn all_places<K: Shows>(alloc: Global, logs: &[K], rows: &[Row]) -> Result<Vec<Place>, AllocError>
    requires { AreStored K.stores logs.now }
    ensures { IfOk result (λ places. places.items ≡ gathered_from (places_at (map K.events logs.now)) 0 rows.now) }
{
    let mut places = Vec::with_capacity(alloc, rows.len())?;
    for index in 0..rows.len() {
        add_row(&mut places, logs, index, rows[index])?;
    }
    Ok(places)
}

/// The places of all rows: instances by set and number, and of each its rows from the top.
pub(crate) fn places_of<K: Shows>(
    alloc: Global,
    logs: &[K],
    rows: &[Row],
) -> Result<Vec<Place>, AllocError>
    requires { AreStored K.stores logs.now }
    ensures { IfOk result (λ places. ArePlacesOf (map K.events logs.now) rows.now places.items) }
{
    let mut places = all_places(alloc, logs, rows)?;
    places.sort_unstable();
    Ok(places)
}
