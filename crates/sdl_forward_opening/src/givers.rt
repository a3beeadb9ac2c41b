//! Who puts at a station.
ghost use Rattle.std.specs.Prelude.{◌≡◌, ◌≤◌, length, map, IfOk};
ghost use Rattle.std.specs.Option.{option_to_list};
ghost use Rattle.std.specs.List.{flat_map};
ghost use Rattle.sdl_routes.specs.declared.route.Source.{Source};
ghost use Rattle.sdl_routes.specs.Routes.{IsSource, AreRoutesOf};
ghost use Rattle.sdl_forward_opening.specs.Workers.{taker as taker_of, starter as starter_of};
ghost use Rattle.sdl_forward_opening.specs.Puts.{giver as giver_in, is_among as is_among_all, givers_at as givers_in, puts_at, count_true};

use crate::Worker;
use sdl_routes::{Routes, Station};
use sdl_signal::{GateId, RouteId, SetId};
use sdl_structure_parts::{Owner, Structure};
use std::alloc::{AllocError, Global};

/// The worker that takes from a station.
pub(crate) fn taker(station: Station) -> Worker
    ensures { result ≡ taker_of station }
{
    match station {
        Station::Line(hop) => Worker::Forwarder(hop),
        Station::Inlet(block) => Worker::Block(block),
        Station::Outlet => Worker::Environment,
    }
}

/// The worker where a route starts that starts at this gate.
fn starter(structure: &Structure, gate: GateId) -> Worker
    ensures { (source : Source) → IsSource structure.now gate source → result ≡ starter_of structure.now source }
{
    let Some(found) = structure.gates().get(gate.0 as usize) else {
        return Worker::Environment;
    };
    match found.owner {
        Owner::Set(set) => match structure.sets().get(set.0 as usize) {
            Some(set) => Worker::Block(set.block),
            None => Worker::Environment,
        },
        Owner::System => Worker::Environment,
        Owner::Block(_) => Worker::Environment,
    }
}

/// Along stations, at the first of which this worker puts, who puts at the station.
fn giver(first: Worker, stations: &[Station], station: Station) -> Option<Worker>
    ensures { result ≡ giver_in first stations.now station }
{
    let mut worker = first;
    for passed in stations {
        if *passed == station {
            return Some(worker);
        }
        worker = taker(*passed);
    }
    None
}

/// Who puts at the station, route by route.
fn givers_at(
    alloc: Global,
    structure: &Structure,
    routes: &Routes,
    station: Station,
) -> Result<Vec<Worker>, AllocError>
    requires { AreRoutesOf structure.now routes.now }
    ensures { IfOk result (λ givers. givers.items ≡ givers_in structure.now routes.now station) }
{
    let mut givers = Vec::new(alloc);
    for number in 0..routes.len() {
        let Some(route) = routes.get(RouteId(number as u32)) else {
            unreachable!()
        };
        let first = starter(structure, route.start);
        if let Some(giver) = giver(first, route.stations.as_slice(), station) {
            givers.push(giver)?;
        }
    }
    Ok(givers)
}

/// Whether the worker is one of these.
fn is_among(givers: &[Worker], worker: Worker) -> bool
    ensures { result ≡ is_among_all givers.now worker }
{
    for giver in givers {
        if *giver == worker {
            return true;
        }
    }
    false
}

/// For each worker, whether it puts at the station.
pub(crate) fn marks_at(
    alloc: Global,
    structure: &Structure,
    routes: &Routes,
    workers: &[Worker],
    station: Station,
) -> Result<Vec<bool>, AllocError>
    requires { AreRoutesOf structure.now routes.now }
    ensures { IfOk result (λ marks. marks.items ≡ map (puts_at structure.now routes.now station) workers.now) }
{
    let givers = givers_at(alloc, structure, routes, station)?;
    let mut marks = Vec::with_capacity(alloc, workers.len())?;
    for worker in workers {
        marks.push(is_among(givers.as_slice(), *worker))?;
    }
    Ok(marks)
}

/// How many are marked.
pub(crate) fn count_of(marks: &[bool]) -> usize
    ensures count { result ≡ count_true marks.now }
    ensures few { result ≤ length marks.now }
{
    let mut count = 0;
    for mark in marks {
        if *mark {
            count += 1;
        }
    }
    count
}
