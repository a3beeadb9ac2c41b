//! An item as a chart writes it: what it is and where it was output, who sent it, to whom it goes, and where it is left.
ghost use Rattle.std.specs.Prelude.{◌≡◌, ◌≤◌, OnOk, length, flat_map};
ghost use Rattle.std.specs.Io.KnownBytes.{Appends};
ghost use Rattle.sdl_instances_log.specs.Log.{sent_by};
ghost use Rattle.sdl_chart_page.specs.Entries.{AreStored, entries_of, entry_at, entry_seen};
ghost use Rattle.sdl_chart_text.specs.Legends.{legend_of, spot_text, left_text, has_several};
ghost use Rattle.sdl_chart_text.specs.Rows.{known_text, sender_text, whom_text};

use crate::chart::Chart;
use crate::left::{Left, write_left};
use crate::names::finish_name;
use crate::signals::{write_pid, write_signal};
use sdl_chart_page::{Lists, Row, Seen};
use sdl_instances_log::Done;
use sdl_instances_packed_log::Shows;
use sdl_run_outcome::EnvOut;
use sdl_signal::{Item, Origin};
use std::io::{Result, Write};

/// Writes the signal of an item, and where on the page the item was output.
pub(crate) fn write_known<K: Shows, W: Write>(
    output: &mut W,
    chart: &Chart<K>,
    item: &Item,
) -> Result<()>
    requires { AreStored K.stores chart.now.lists.now.logs.now }
    ensures { OnOk result (Appends (W.contents output.old) (W.contents output.new) (known_text (legend_of K.events chart.now) item.now)) }
{
    write_signal(output, chart.structure, &item.signal)?;
    write_spot(output, chart, item.origin)
}

/// Writes where on the page an item was output: the number of the line, and the item's place in it where it has several.
fn write_spot<K: Shows, W: Write>(output: &mut W, chart: &Chart<K>, origin: Origin) -> Result<()>
    requires { AreStored K.stores chart.now.lists.now.logs.now }
    ensures { OnOk result (Appends (W.contents output.old) (W.contents output.new) (spot_text (legend_of K.events chart.now) origin)) }
{
    let Some(spot) = chart.page.spot(origin) else {
        return Ok(());
    };
    let line = spot.row as u128 + 1;
    let place = spot.among as u128 + 1;
    if sends_several(chart, spot.row) {
        write!(output, " @{line}.{place}")
    } else {
        write!(output, " @{line}")
    }
}

/// How many items were sent in a turn.
fn sent_among(done: &[Done]) -> usize
    ensures count { result ≡ length (flat_map sent_by done.now) }
    ensures few { result ≤ length done.now }
{
    match done {
        [] => 0,
        [first, rest @ ..] => match first {
            Done::Sent(_) => sent_among(rest) + 1,
            Done::NoRoute(_, _) => sent_among(rest),
            Done::Made(_) => sent_among(rest),
        },
    }
}

/// How many items were sent in an event.
pub fn sent_in(seen: &Seen) -> usize
    ensures { result ≡ length (entry_seen seen.now).sent }
{
    match seen {
        Seen::Arrival(_) => 0,
        Seen::Turn(done) => sent_among(done),
        Seen::Put(output) => match output {
            EnvOut::Sent(_) => 1,
            EnvOut::NoRoute(_, _) => 0,
        },
    }
}

/// Whether several items were sent in the event of this number of a list.
fn event_has_several<K: Shows>(lists: &Lists<K>, row: Row) -> bool
    requires { AreStored K.stores lists.now.logs.now }
    ensures { result ≡ has_several (entry_at (entries_of K.events lists.now) row.list row.number) }
{
    match lists.seen(row.list, row.number) {
        Some(seen) => sent_in(&seen) > 1,
        None => false,
    }
}

/// Whether several items were sent in the row.
fn sends_several<K: Shows>(chart: &Chart<K>, row: usize) -> bool
    requires { AreStored K.stores chart.now.lists.now.logs.now }
    ensures { result ≡ (legend_of K.events chart.now).several row }
{
    match chart.page.rows().get(row) {
        Some(found) => event_has_several(chart.lists, *found),
        None => false,
    }
}

/// Writes who sent an item.
pub(crate) fn write_sender<K: Shows, W: Write>(
    output: &mut W,
    chart: &Chart<K>,
    item: &Item,
) -> Result<()>
    ensures { OnOk result (Appends (W.contents output.old) (W.contents output.new) (sender_text (legend_of K.events chart.now) item.now)) }
{
    write!(output, " from ")?;
    write_pid(output, chart.structure, item.sender)
}

/// Writes to whom an item goes: the Pid that TO named, and else the set or the environment at the end of its route.
pub(crate) fn write_whom<K: Shows, W: Write>(
    output: &mut W,
    chart: &Chart<K>,
    item: &Item,
) -> Result<()>
    ensures { OnOk result (Appends (W.contents output.old) (W.contents output.new) (whom_text (legend_of K.events chart.now) item.now)) }
{
    write!(output, " to ")?;
    match item.to {
        Some(pid) => write_pid(output, chart.structure, pid),
        None => {
            let name = finish_name(chart.structure, chart.routes, item.route);
            write!(output, "{name}")
        }
    }
}

/// Writes where an item is, if it did not arrive.
pub(crate) fn write_left_of<K: Shows, W: Write>(
    output: &mut W,
    chart: &Chart<K>,
    origin: Origin,
) -> Result<()>
    ensures { OnOk result (Appends (W.contents output.old) (W.contents output.new) (left_text chart.now.structure.now ((legend_of K.events chart.now).left origin))) }
{
    write_left(output, chart.structure, left_of(chart, origin))
}

/// Where an item is that was output and did not arrive.
fn left_of<K: Shows>(chart: &Chart<K>, origin: Origin) -> Left
    ensures { result ≡ (legend_of K.events chart.now).left origin }
{
    chart.left.at(origin).unwrap_or(Left::Nowhere)
}
