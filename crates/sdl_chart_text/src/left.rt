//! Where the signals are that did not arrive.
ghost use Rattle.std.specs.Prelude.{◌≡◌, ◌++◌, OnOk, codes};
ghost use Rattle.std.specs.Io.KnownBytes.{Appends};
ghost use Rattle.sdl_chart_text.specs.Legends.{hop_text, worker_text, station_text, place_text, comma_text, left_text, left_at, reason_of};

use sdl_app_file_commands::names::{block_name, channel_name};
use sdl_block_hand::Hand;
use sdl_chart_page::{ByOrigin, Page};
use sdl_forward_opening::{Worker, workers_of};
use sdl_queue::Rest;
use sdl_routes::{Hop, Station};
use sdl_signal::Origin;
use sdl_structure_parts::Structure;
use std::alloc::{AllocError, Global};
use std::io::{Result as IoResult, Write};

/// Where a signal is that did not arrive.
#[derive(Clone, Copy)]
pub enum Left {
    /// It arrived.
    Nowhere,
    /// It waits at the station.
    At(Station),
    /// The worker has yet to put it on its way, or to hand it on.
    InHand(Worker),
    /// The worker took it, and it could not arrive.
    KeptBy(Worker),
}

/// Where an item is that the worker took: a forwarder has yet to hand it on.
fn kept_by(worker: Worker) -> Left {
    match worker {
        Worker::Block(_) => Left::KeptBy(worker),
        Worker::Environment => Left::KeptBy(worker),
        Worker::Forwarder(_) => Left::InHand(worker),
    }
}

/// Notes the items that the worker holds.
fn note_hand(lefts: &mut ByOrigin<Left>, worker: Worker, hand: &Hand) {
    match &hand.kept {
        Some(item) => lefts.put(item.origin, kept_by(worker)),
        None => {}
    }
    for item in hand.outgoing.as_slice() {
        lefts.put(item.origin, Left::InHand(worker));
    }
}

/// Notes the items that wait at the station, in a queue of one thread.
fn note_rest(lefts: &mut ByOrigin<Left>, station: Station, rest: &Rest) {
    match rest {
        Rest::Serial(queue) => {
            for item in queue.left() {
                lefts.put(item.origin, Left::At(station));
            }
        }
        Rest::Ruled(_) => {}
        Rest::Ring(_) => {}
    }
}

/// For each output of the page's lists where its item is, by what the workers hold and what is left at the stations.
pub fn lefts_of(
    alloc: Global,
    structure: &Structure,
    page: &Page,
    hands: &[Hand],
    rests: &[(Station, Rest)],
) -> Result<ByOrigin<Left>, AllocError> {
    let mut lefts = page.by_output(alloc, Left::Nowhere)?;
    let workers = workers_of(alloc, structure)?;
    for (worker, hand) in workers.as_slice().iter().zip(hands) {
        note_hand(&mut lefts, *worker, hand);
    }
    for number in 0..rests.len() {
        let (station, rest) = &rests[number];
        note_rest(&mut lefts, *station, rest);
    }
    Ok(lefts)
}

/// Writes a path of a channel.
fn write_hop<W: Write>(output: &mut W, structure: &Structure, hop: Hop) -> IoResult<()>
    ensures { OnOk result (Appends (W.contents output.old) (W.contents output.new) (hop_text structure.now hop)) }
{
    let channel = channel_name(structure, hop.channel);
    let sign = if hop.back { "-" } else { "+" };
    write!(output, "{channel}{sign}")
}

/// Writes the name of a worker.
fn write_worker<W: Write>(output: &mut W, structure: &Structure, worker: Worker) -> IoResult<()>
    ensures { OnOk result (Appends (W.contents output.old) (W.contents output.new) (worker_text structure.now worker)) }
{
    match worker {
        Worker::Block(block) => {
            let name = block_name(structure, block);
            write!(output, "{name}")
        }
        Worker::Environment => write!(output, "env"),
        Worker::Forwarder(hop) => write_hop(output, structure, hop),
    }
}

/// Writes a station.
fn write_station<W: Write>(output: &mut W, structure: &Structure, station: Station) -> IoResult<()>
    ensures { OnOk result (Appends (W.contents output.old) (W.contents output.new) (station_text structure.now station)) }
{
    match station {
        Station::Line(hop) => write_hop(output, structure, hop),
        Station::Inlet(block) => {
            let name = block_name(structure, block);
            write!(output, "inlet of {name}")
        }
        Station::Outlet => write!(output, "outlet"),
    }
}

/// Writes at which station a signal waits.
fn write_waiting<W: Write>(output: &mut W, structure: &Structure, station: Station) -> IoResult<()>
    ensures { OnOk result (Appends (W.contents output.old) (W.contents output.new) (codes "left in " ++ station_text structure.now station)) }
{
    write!(output, "left in ")?;
    write_station(output, structure, station)
}

/// Writes which worker has a signal, behind this text.
fn write_held<W: Write>(
    output: &mut W,
    structure: &Structure,
    text: &str,
    worker: Worker,
) -> IoResult<()>
    ensures { OnOk result (Appends (W.contents output.old) (W.contents output.new) (text.now ++ worker_text structure.now worker)) }
{
    write!(output, "{text}")?;
    write_worker(output, structure, worker)
}

/// Writes where a signal is that did not arrive.
fn write_place<W: Write>(output: &mut W, structure: &Structure, left: Left) -> IoResult<()>
    ensures { OnOk result (Appends (W.contents output.old) (W.contents output.new) (place_text structure.now left)) }
{
    match left {
        Left::Nowhere => Ok(()),
        Left::At(station) => write_waiting(output, structure, station),
        Left::InHand(worker) => write_held(output, structure, "left in hand of ", worker),
        Left::KeptBy(worker) => write_held(output, structure, "kept by ", worker),
    }
}

/// What stands between an output and where its signal is.
fn comma_of(left: Left) -> &'static str
    ensures { result.now ≡ comma_text left }
{
    match left {
        Left::Nowhere => "",
        Left::At(_) => ", ",
        Left::InHand(_) => ", ",
        Left::KeptBy(_) => ", ",
    }
}

/// Writes where a signal is that did not arrive, behind its output.
pub(crate) fn write_left<W: Write>(
    output: &mut W,
    structure: &Structure,
    left: Left,
) -> IoResult<()>
    ensures { OnOk result (Appends (W.contents output.old) (W.contents output.new) (left_text structure.now left)) }
{
    let comma = comma_of(left);
    write!(output, "{comma}")?;
    write_place(output, structure, left)
}

/// Where the item of an output is, if it did not arrive.
fn left_at(left: &ByOrigin<Left>, origin: Origin) -> Left
    ensures { result ≡ left_at left.now origin }
{
    left.at(origin).unwrap_or(Left::Nowhere)
}

/// Writes where the item of an output is, if it did not arrive: the reason why it did not, in the words of the lines.
pub fn write_reason<W: Write>(
    output: &mut W,
    structure: &Structure,
    left: &ByOrigin<Left>,
    origin: Origin,
) -> IoResult<()>
    ensures { OnOk result (Appends (W.contents output.old) (W.contents output.new) (reason_of structure.now left.now origin)) }
{
    write_place(output, structure, left_at(left, origin))
}
