//! Where routes start and end, and what they pass.
ghost use Rattle.std.specs.Prelude.{◌≡◌, ◌<◌, ◌≤◌, false, length};
ghost use Rattle.sdl_routes.specs.declared.route.Source.{Source};
ghost use Rattle.sdl_routes.specs.Routes.{IsSource, AreRoutesOf};
ghost use Rattle.sdl_forward_opening.specs.Workers.{worker_of_set, ways_in, starter as starter_of, finisher as finisher_of, place as place_of};
ghost use Rattle.sdl_run_recount.specs.Along.{starts_at, ends_at, stands_at};

use sdl_forward_opening::Worker;
use sdl_routes::{EndPoint, Routes, Station};
use sdl_signal::{GateId, RouteId, SetId};
use sdl_structure_parts::{Owner, Structure};

/// The worker of a set: its block.
fn worker_of(structure: &Structure, set: SetId) -> Worker
    ensures { result ≡ worker_of_set structure.now set }
{
    match structure.sets().get(set.0 as usize) {
        Some(found) => Worker::Block(found.block),
        None => Worker::Environment,
    }
}

/// The worker where a route starts that starts at this gate.
fn starter(structure: &Structure, gate: GateId) -> Worker
    ensures { (source : Source) → IsSource structure.now gate source → result ≡ starter_of structure.now source }
{
    let Some(found) = structure.gates().get(gate.0 as usize) else {
        return Worker::Environment;
    };
    match found.owner {
        Owner::Set(set) => worker_of(structure, set),
        Owner::System => Worker::Environment,
        Owner::Block(_) => Worker::Environment,
    }
}

/// The worker where a route ends that ends there.
fn finisher(structure: &Structure, end: EndPoint) -> Worker
    ensures { result ≡ finisher_of structure.now end }
{
    match end {
        EndPoint::Set(set) => worker_of(structure, set),
        EndPoint::Environment(_) => Worker::Environment,
    }
}

/// The station that a worker takes from.
pub(crate) fn place(worker: Worker) -> Station
    ensures { result ≡ place_of worker }
{
    match worker {
        Worker::Block(block) => Station::Inlet(block),
        Worker::Environment => Station::Outlet,
        Worker::Forwarder(hop) => Station::Line(hop),
    }
}

/// Whether there is such a route, and it starts at the worker.
pub(crate) fn starts(structure: &Structure, routes: &Routes, route: RouteId, worker: Worker) -> bool
    requires { AreRoutesOf structure.now routes.now }
    ensures known { route.0 < length routes.now → result ≡ starts_at (ways_in structure.now routes.now) worker route.0 }
    ensures unknown { length routes.now ≤ route.0 → result ≡ false }
{
    match routes.get(route) {
        Some(found) => worker == starter(structure, found.start),
        None => false,
    }
}

/// Whether there is such a route, and it ends at the worker.
pub(crate) fn ends(structure: &Structure, routes: &Routes, route: RouteId, worker: Worker) -> bool
    ensures known { route.0 < length routes.now → result ≡ ends_at (ways_in structure.now routes.now) worker route.0 }
    ensures unknown { length routes.now ≤ route.0 → result ≡ false }
{
    match routes.get(route) {
        Some(found) => worker == finisher(structure, found.end),
        None => false,
    }
}

/// Whether there is such a route, and the station is the one at this place of it.
pub(crate) fn stands(routes: &Routes, route: RouteId, place: usize, station: Station) -> bool
    ensures known { route.0 < length routes.now → result ≡ stands_at routes.now place station route.0 }
    ensures unknown { length routes.now ≤ route.0 → result ≡ false }
{
    match routes.get(route) {
        Some(found) => match found.stations.get(place) {
            Some(passed) => station == *passed,
            None => false,
        },
        None => false,
    }
}
