//! The route of a walk: its gates, its source and end, and its stations.
ghost use Rattle.std.specs.Prelude.{◌≡◌, ◌≢◌, ◌≤◌, ◌↔◌, [], ◌∷◌, ◌++◌, length, IfSome, IfNone, IsTrue};
ghost use Rattle.sdl_routes.specs.Routes.{IsRoute, IsWalk, MayStart, StartsAtGate, EndsAtGate, IsSource, IsEndPoint, IsLastStation, delaying};
ghost use Rattle.sdl_routes.specs.Finding.{Finds};

use crate::hops::{finish_of, is_delaying, last_hop, start_of};
use crate::route::{EndPoint, Hop, Route, Source, Station, TableRow};
use arrayvec::ArrayVec;
use sdl_signal::{GateId, SignalId};
use sdl_structure_parts::{Owner, Structure};

/// The gate at which the hops start.
fn start_gate(structure: &Structure, hops: &[Hop]) -> Option<GateId>
    ensures { Finds (StartsAtGate structure.now hops.now) result }
{
    match hops.first() {
        Some(first) => match start_of(structure, *first) {
            Some(start) => Some(start.gate),
            None => None,
        },
        None => None,
    }
}

/// The gate at which the hops end.
fn end_gate(structure: &Structure, hops: &[Hop]) -> Option<GateId>
    ensures { Finds (EndsAtGate structure.now hops.now) result }
{
    match last_hop(hops) {
        Some(last) => match finish_of(structure, last) {
            Some(finish) => Some(finish.gate),
            None => None,
        },
        None => None,
    }
}

/// Who outputs at the gate.
fn source_at(structure: &Structure, gate: GateId) -> Option<Source>
    ensures { Finds (IsSource structure.now gate) result }
{
    match structure.gates().get(gate.0 as usize) {
        Some(found) => match found.owner {
            Owner::Set(set) => Some(Source::Set(set)),
            Owner::System => Some(Source::Gate(gate)),
            Owner::Block(_) => None,
        },
        None => None,
    }
}

/// Whether a route may start with the hop: at a gate of a set or of the system. A walk from any other gate is part of a route at
/// most, and there may be very many.
pub fn may_start(structure: &Structure, hop: Hop) -> bool
    ensures { IsTrue result ↔ MayStart structure.now hop }
{
    match start_gate(structure, &[hop]) {
        Some(gate) => match source_at(structure, gate) {
            Some(_) => true,
            None => false,
        },
        None => false,
    }
}

/// Where a route ends that ends at the gate.
fn end_point_at(structure: &Structure, gate: GateId) -> Option<EndPoint>
    ensures { Finds (IsEndPoint structure.now gate) result }
{
    match structure.gates().get(gate.0 as usize) {
        Some(found) => match found.owner {
            Owner::Set(set) => Some(EndPoint::Set(set)),
            Owner::System => Some(EndPoint::Environment(gate)),
            Owner::Block(_) => None,
        },
        None => None,
    }
}

/// The last station of a route that ends so.
fn last_station(structure: &Structure, end: EndPoint) -> Option<Station>
    ensures { Finds (IsLastStation structure.now end) result }
{
    match end {
        EndPoint::Environment(_) => Some(Station::Outlet),
        EndPoint::Set(set) => match structure.sets().get(set.0 as usize) {
            Some(found) => Some(Station::Inlet(found.block)),
            None => None,
        },
    }
}

/// The delaying hops, and the last station.
fn stations_of(structure: &Structure, hops: &[Hop], last: Station) -> ArrayVec<Station, 10>
    requires { length hops.now ≤ 9 }
    ensures { result.items ≡ delaying structure.now hops.now ++ last ∷ [] }
{
    let mut stations = ArrayVec::new();
    for hop in hops {
        if is_delaying(structure, *hop) {
            stations.push(Station::Line(*hop));
        }
    }
    stations.push(last);
    stations
}

/// The same hops in a list of their own.
pub fn copied(hops: &[Hop]) -> ArrayVec<Hop, 9>
    requires { length hops.now ≤ 9 }
    ensures { result.items ≡ hops.now }
{
    let mut copy = ArrayVec::new();
    match copy.try_extend_from_slice(hops) {
        Ok(()) => copy,
        Err(_) => unreachable!(),
    }
}

/// The route of this walk, where it begins and ends at gates of sets or of the system.
pub fn row_of(structure: &Structure, signal: SignalId, hops: &[Hop]) -> Option<TableRow>
    requires walk { IsWalk structure.now signal hops.now }
    requires few { length hops.now ≤ 9 }
    ensures route { IfSome result (λ row. IsRoute structure.now row × (row.route.signal ≡ signal) × (row.route.hops.items ≡ hops.now)) }
    ensures none { IfNone result ((other : TableRow) → IsRoute structure.now other → other.route.hops.items ≢ hops.now) }
{
    let start = start_gate(structure, hops)?;
    let source = source_at(structure, start)?;
    let end_gate = end_gate(structure, hops)?;
    let end = end_point_at(structure, end_gate)?;
    let last = last_station(structure, end)?;
    let route = Route {
        signal,
        start,
        hops: copied(hops),
        end,
        end_gate,
        stations: stations_of(structure, hops, last),
    };
    Some(TableRow { route, source })
}
