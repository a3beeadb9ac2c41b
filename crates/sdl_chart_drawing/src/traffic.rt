//! Which items are output in the rows of a page, and which arrive there.
ghost use Rattle.std.specs.Prelude.{◌≡◌, true, ◌+◌, ◌<◌, ◌≤◌, ◌^◌, ◌++◌, OnOk, IfOk, IfSome, IfNone, Some, slice_get, length, map, flat_map};
ghost use Rattle.sdl_instances_packed_log.specs.Packed.{event_shown};
ghost use Rattle.sdl_chart_page.specs.Entries.{AreStored};
ghost use Rattle.sdl_chart_drawing.specs.Traffic.{arrival_in, arrival_at, outputs_by, outputs_in, outputs_put, outputs_at, outputs_of, arrivals_of, listed, all_at};

use sdl_chart_page::{Lists, Row};
use sdl_instances_log::Done;
use sdl_instances_packed_log::{Shown, Shows};
use sdl_run_outcome::EnvOut;
use sdl_signal::Origin;
use std::alloc::{AllocError, Global};

/// An output of an item: its row.
#[derive(Clone, Copy, PartialEq, Eq)]
pub struct Output {
    pub row: usize,
    pub origin: Origin,
}

/// An arrival of an item: its row, and whether the item was discarded there.
#[derive(Clone, Copy)]
pub struct Arrival {
    pub row: usize,
    pub origin: Origin,
    pub discarded: bool,
}

/// The arrival that an event of a block is.
fn arrival_in(number: usize, event: Shown) -> Option<Arrival>
    ensures { result ≡ arrival_in number (event_shown event.entry) }
{
    match event {
        Shown::Entered(item, _) => Some(Arrival {
            row: number,
            origin: item.origin,
            discarded: false,
        }),
        Shown::Discarded(item, _) => Some(Arrival {
            row: number,
            origin: item.origin,
            discarded: true,
        }),
        Shown::Turn { .. } => None,
    }
}

/// The arrival that an event of a log is.
fn logged_arrival<K: Shows>(lists: &Lists<K>, number: usize, row: Row) -> Option<Arrival>
    requires stored { AreStored K.stores lists.now.logs.now }
    requires within { row.list < length lists.now.logs.now }
    ensures { result ≡ arrival_at (map K.events lists.now.logs.now) lists.now.received.now number row }
{
    match lists.logs[row.list].event(row.number) {
        Some(event) => arrival_in(number, event),
        None => None,
    }
}

/// The arrival of a row, where its event is one.
fn arrival_at<K: Shows>(lists: &Lists<K>, number: usize, row: Row) -> Option<Arrival>
    requires { AreStored K.stores lists.now.logs.now }
    ensures { result ≡ arrival_at (map K.events lists.now.logs.now) lists.now.received.now number row }
{
    let blocks = lists.logs.len();
    if row.list < blocks {
        logged_arrival(lists, number, row)
    } else if row.list == blocks {
        match lists.received.get(row.number) {
            Some(item) => Some(Arrival {
                row: number,
                origin: item.origin,
                discarded: false,
            }),
            None => None,
        }
    } else {
        None
    }
}

/// Adds the arrival of a row, where its event is one.
fn add_arrival<K: Shows>(
    arrivals: &mut Vec<Arrival>,
    lists: &Lists<K>,
    number: usize,
    row: Row,
) -> Result<(), AllocError>
    requires { AreStored K.stores lists.now.logs.now }
    ensures { OnOk result (arrivals.new.items ≡ arrivals.old.items ++ listed (arrival_at (map K.events lists.now.logs.now) lists.now.received.now number row)) }
{
    match arrival_at(lists, number, row) {
        Some(arrival) => arrivals.push(arrival)?,
        None => {}
    }
    Ok(())
}

/// All arrivals in the rows of a page, which count from 0.
pub fn arrivals_of<K: Shows>(
    alloc: Global,
    lists: &Lists<K>,
    rows: &[Row],
) -> Result<Vec<Arrival>, AllocError>
    requires { AreStored K.stores lists.now.logs.now }
    ensures { IfOk result (λ arrivals. arrivals.items ≡ arrivals_of K.events lists.now 0 rows.now) }
{
    let mut arrivals = Vec::new(alloc);
    for index in 0..rows.len() {
        add_arrival(&mut arrivals, lists, index, rows[index])?;
    }
    Ok(arrivals)
}

/// Adds the output that an action made.
fn add_done(outputs: &mut Vec<Output>, number: usize, done: &Done) -> Result<(), AllocError>
    ensures { OnOk result (outputs.new.items ≡ outputs.old.items ++ outputs_by number done.now) }
{
    match done {
        Done::Sent(item) => outputs.push(Output {
            row: number,
            origin: item.origin,
        })?,
        Done::NoRoute(_, _) => {}
        Done::Made(_) => {}
    }
    Ok(())
}

/// Adds the outputs that actions made.
fn add_all_done(outputs: &mut Vec<Output>, number: usize, all: &[Done]) -> Result<(), AllocError>
    ensures { OnOk result (outputs.new.items ≡ outputs.old.items ++ flat_map (outputs_by number) all.now) }
{
    for done in all {
        add_done(outputs, number, done)?;
    }
    Ok(())
}

/// Adds the outputs of an event of a block.
fn add_shown(outputs: &mut Vec<Output>, number: usize, event: Shown) -> Result<(), AllocError>
    ensures { OnOk result (outputs.new.items ≡ outputs.old.items ++ outputs_in number (event_shown event.entry)) }
{
    match event {
        Shown::Entered(_, _) => Ok(()),
        Shown::Discarded(_, _) => Ok(()),
        Shown::Turn { done, .. } => add_all_done(outputs, number, done),
    }
}

/// Adds the outputs of the event of this place in a log.
fn add_event<K: Shows>(
    outputs: &mut Vec<Output>,
    log: &K,
    number: usize,
    place: usize,
) -> Result<(), AllocError>
    requires { K.stores log.now ≡ true }
    ensures { OnOk result (outputs.new.items ≡ outputs.old.items ++ all_at (outputs_in number) (K.events log.now) place) }
{
    match log.event(place) {
        Some(event) => add_shown(outputs, number, event),
        None => Ok(()),
    }
}

/// Adds the outputs of a row of a log.
fn add_logged<K: Shows>(
    outputs: &mut Vec<Output>,
    lists: &Lists<K>,
    number: usize,
    row: Row,
) -> Result<(), AllocError>
    requires stored { AreStored K.stores lists.now.logs.now }
    requires within { row.list < length lists.now.logs.now }
    ensures { OnOk result (outputs.new.items ≡ outputs.old.items ++ outputs_at (map K.events lists.now.logs.now) lists.now.put.now number row) }
{
    add_event(outputs, &lists.logs[row.list], number, row.number)
}

/// Adds an output of the environment.
fn add_put(outputs: &mut Vec<Output>, number: usize, put: &EnvOut) -> Result<(), AllocError>
    ensures { OnOk result (outputs.new.items ≡ outputs.old.items ++ outputs_put number put.now) }
{
    match put {
        EnvOut::Sent(item) => outputs.push(Output {
            row: number,
            origin: item.origin,
        })?,
        EnvOut::NoRoute(_, _) => {}
    }
    Ok(())
}

/// The output of the environment of this place.
fn put_at(puts: &[EnvOut], place: usize) -> Option<&EnvOut>
    ensures some { IfSome result (λ put. slice_get puts.now place ≡ Some put.now) }
    ensures none { IfNone result (length puts.now ≤ place) }
{
    puts.get(place)
}

/// Adds the output of the environment of this place.
fn add_put_at(
    outputs: &mut Vec<Output>,
    puts: &[EnvOut],
    number: usize,
    place: usize,
) -> Result<(), AllocError>
    ensures { OnOk result (outputs.new.items ≡ outputs.old.items ++ all_at (outputs_put number) puts.now place) }
{
    match put_at(puts, place) {
        Some(put) => add_put(outputs, number, put),
        None => Ok(()),
    }
}

/// Adds the outputs of a row.
fn add_outputs<K: Shows>(
    outputs: &mut Vec<Output>,
    lists: &Lists<K>,
    number: usize,
    row: Row,
) -> Result<(), AllocError>
    requires { AreStored K.stores lists.now.logs.now }
    ensures { OnOk result (outputs.new.items ≡ outputs.old.items ++ outputs_at (map K.events lists.now.logs.now) lists.now.put.now number row) }
{
    let blocks = lists.logs.len();
    if row.list < blocks {
        add_logged(outputs, lists, number, row)
    } else if row.list == blocks {
        Ok(())
    } else {
        add_put_at(outputs, lists.put, number, row.number)
    }
}

/// All outputs of items in rows, of which the first has this number.
pub(crate) fn outputs_of<K: Shows>(
    alloc: Global,
    lists: &Lists<K>,
    first: usize,
    rows: &[Row],
) -> Result<Vec<Output>, AllocError>
    requires stored { AreStored K.stores lists.now.logs.now }
    requires few { first + length rows.now < 2 ^ 64 }
    ensures { IfOk result (λ outputs. outputs.items ≡ outputs_of K.events lists.now first rows.now) }
{
    let mut outputs = Vec::new(alloc);
    for index in 0..rows.len() {
        add_outputs(&mut outputs, lists, first + index, rows[index])?;
    }
    Ok(outputs)
}
