//! The queues of all stations are opened, and each worker is given its ends.
ghost use Rattle.std.specs.Prelude.{◌≡◌, ◌≤◌, [], Some, length, slice_get, IfOk, OnOk};
ghost use Rattle.std.specs.List.{AllByRecursion};
ghost use Rattle.sdl_routes.specs.Routes.{AreRoutesOf, EachOnce};
ghost use Rattle.sdl_forward_ends.specs.Stations.{stations_of as stations_in};
ghost use Rattle.sdl_forward_opening.specs.Workers.{Among, taker as taker_of};
ghost use Rattle.sdl_forward_opening.specs.Hands.{AddsQueue};
ghost use Rattle.sdl_queue.specs.Ends.{fresh_feeds};
ghost use Rattle.sdl_forward_opening.specs.Opens.{IsOpenedAs, AreOpen};

use crate::Worker;
use crate::givers::{count_of, marks_at, taker};
use crate::order::workers_of;
use crate::shares::{Share, distribute, no_shares};
use crate::stations::stations_of;
use sdl_forward_ends::{Ends, Shelf};
use sdl_queue::{AnyFeed, AnyTap, any_queue, any_ring};
use sdl_routes::laws::routes_are_short;
use sdl_routes::{Routes, Station};
use sdl_structure_parts::Checked;
use std::alloc::{AllocError, Global};
use std::sync::Wait;

/// The place of a worker among the workers.
fn place_of(workers: &[Worker], worker: Worker) -> usize
    requires { Among worker workers.now }
    ensures { slice_get workers.now result ≡ Some worker }
{
    for (place, other) in workers.iter().enumerate() {
        if *other == worker {
            return place;
        }
    }
    unreachable!()
}

/// Opens the ends of a station with so many feeders: of a ring where it is a delaying path that only one worker feeds, and of a
/// queue else.
fn open_line<R: Wait>(
    rt: &R,
    alloc: Global,
    station: Station,
    feeders: u32,
) -> Result<(Vec<AnyFeed>, AnyTap), AllocError>
    ensures feeds { IfOk result (λ ends. ends.0.items ≡ fresh_feeds ends.1.opening feeders) }
    ensures tap { IfOk result (λ ends. (ends.1.feeders ≡ feeders) × (ends.1.taken ≡ [])) }
    ensures kind { IfOk result (λ ends. IsOpenedAs ends.1.opening station feeders) }
{
    match (station, feeders) {
        (Station::Line(_), 1) => any_ring(alloc),
        _ => any_queue(rt, alloc, feeders),
    }
}

/// Opens the queue of a station: a feed for each worker that is marked, in order, and the tap for its taker. What a refusal leaves
/// is not said.
fn open_station<R: Wait>(
    rt: &R,
    alloc: Global,
    workers: &[Worker],
    marks: &[bool],
    station: Station,
    shares: &mut Vec<Share>,
    shelf: &mut Shelf,
) -> Result<(), AllocError>
    requires taker { Among (taker_of station) workers.now }
    requires few { length workers.now ≤ 193 }
    requires marks { length marks.now ≡ length workers.now }
    requires shares { length shares.old.items ≡ length workers.now }
    ensures { OnOk result (AddsQueue workers.now marks.now station shares.old.items shares.new.items shelf.old shelf.new) }
{
    let feeders = count_of(marks) as u32;
    let (feeds, tap) = open_line(rt, alloc, station, feeders)?;
    shelf.add(alloc, station, feeders)?;
    distribute(shares, marks, station, feeds)?;
    let place = place_of(workers, taker(station));
    shares[place].set_tap(station, tap);
    Ok(())
}

/// The ends of each worker, of what it was given.
fn put_together(alloc: Global, shares: Vec<Share>) -> Result<Vec<Ends>, AllocError>
    requires { AllByRecursion (λ e. EachOnce (stations_in e.feeds)) shares.items }
    ensures { IfOk result (λ ends. ends.items ≡ shares.items) }
{
    let mut ends = Vec::with_capacity(alloc, shares.len())?;
    for share in shares {
        ends.push(share.into_ends(alloc)?)?;
    }
    Ok(ends)
}

/// Opens a queue for each station of some route, with a feed for each worker that puts there. It gives the ends to the workers,
/// by number: the blocks, the environment, and then the forwarders of the delaying paths that carry a signal. Beside them comes
/// the room for what comes back. Where memory is refused there is nothing.
pub fn ends_open<R: Wait>(
    rt: &R,
    alloc: Global,
    checked: &Checked,
    routes: &Routes,
) -> Result<(Vec<Ends>, Shelf), AllocError>
    requires { AreRoutesOf checked.now routes.now }
    ensures { IfOk result (λ r. AreOpen checked.now routes.now r.0.items r.1) }
{
    let structure = checked.structure();
    routes_are_short(checked);
    let workers = workers_of(alloc, structure)?;
    let stations = stations_of(alloc, routes)?;
    let mut shares = no_shares(alloc, workers.len())?;
    let mut shelf = Shelf::new(alloc);
    for station in stations.as_slice() {
        let marks = marks_at(alloc, structure, routes, workers.as_slice(), *station)?;
        open_station(
            rt,
            alloc,
            workers.as_slice(),
            marks.as_slice(),
            *station,
            &mut shares,
            &mut shelf,
        )?;
    }
    let ends = put_together(alloc, shares)?;
    Ok((ends, shelf))
}
