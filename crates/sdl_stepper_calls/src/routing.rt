//! The calls on routes: `routes`, `route N`, `next ROUTE [STATION]` and `choose SOURCE SIGNAL GOAL VIA PICK`.
use crate::answers::Answers;
use crate::calls::{Call, write_meant};
use crate::naming::{
    gate_name, goal_of, set_name, signal_name, signal_of, source_of, station_of, via_of,
};
use crate::texts::{write_path, write_station, write_station_line};
use sdl_routes::{EndPoint, Hop, Route, Routes, Station, Wish};
use sdl_signal::{GateId, RouteId};
use sdl_structure_parts::Structure;
use std::io::Write;

const ALL: &str = "routes";

const CHOOSE: &str = "choose SOURCE SIGNAL GOAL VIA PICK";

const NEXT: &str = "next ROUTE [STATION]";

const ROUTE: &str = "route N";

/// A call on routes.
#[derive(Clone, Copy)]
enum OnRoutes {
    All,
    One,
    Next,
    Choose,
}

fn on_routes(name: &str) -> Option<OnRoutes> {
    match name {
        "routes" => Some(OnRoutes::All),
        "route" => Some(OnRoutes::One),
        "next" => Some(OnRoutes::Next),
        "choose" => Some(OnRoutes::Choose),
        _ => None,
    }
}

fn meant_by(what: OnRoutes) -> &'static str {
    match what {
        OnRoutes::All => ALL,
        OnRoutes::One => ROUTE,
        OnRoutes::Next => NEXT,
        OnRoutes::Choose => CHOOSE,
    }
}

/// Answers a call on routes, and says whether it was one.
pub fn call_routes<W: Write>(
    routes: &Routes,
    structure: &Structure,
    call: Call,
    answers: &mut Answers<W>,
) -> bool {
    let [name, words @ ..] = call.words else {
        return false;
    };
    let Some(what) = on_routes(name) else {
        return false;
    };
    if !use_routes(routes, structure, what, words, answers) {
        write_meant(answers, call.line, meant_by(what));
    }
    true
}

/// Answers a call on routes, and says whether its words were understood.
fn use_routes<W: Write>(
    routes: &Routes,
    structure: &Structure,
    what: OnRoutes,
    words: &[&str],
    answers: &mut Answers<W>,
) -> bool {
    match what {
        OnRoutes::All => {
            write_routes(answers, structure, routes);
            true
        }
        OnRoutes::One => route_call(routes, structure, words, answers),
        OnRoutes::Next => next_call(routes, structure, words, answers),
        OnRoutes::Choose => choose_call(routes, structure, words, answers),
    }
}

/// `choose`: the route that is chosen, or `none`.
fn choose_call<W: Write>(
    routes: &Routes,
    structure: &Structure,
    words: &[&str],
    answers: &mut Answers<W>,
) -> bool {
    let Some((wish, pick)) = wish_of(structure, words) else {
        return false;
    };
    match routes.choose(&wish, pick) {
        Some(route) => answers.number_line(route.0 as u64),
        None => answers.line("none"),
    }
    true
}

/// A wish and a pick by the words of a call.
fn wish_of(structure: &Structure, words: &[&str]) -> Option<(Wish, u32)> {
    let [source, signal, goal, via, pick] = words else {
        return None;
    };
    let wish = Wish {
        source: source_of(structure, source)?,
        signal: signal_of(structure, signal)?,
        goal: goal_of(structure, goal)?,
        via: via_of(structure, via)?,
    };
    Some((wish, pick.parse::<u32>().ok()?))
}

/// `next`: the station that follows on the route, or `none`.
fn next_call<W: Write>(
    routes: &Routes,
    structure: &Structure,
    words: &[&str],
    answers: &mut Answers<W>,
) -> bool {
    let Some((route, after)) = place_of(structure, words) else {
        return false;
    };
    match routes.next(route, after) {
        Some(station) => write_station_line(answers, structure, station),
        None => answers.line("none"),
    }
    true
}

/// A route, and a station where one is given.
fn place_of(structure: &Structure, words: &[&str]) -> Option<(RouteId, Option<Station>)> {
    match words {
        [route] => Some((RouteId(route.parse::<u32>().ok()?), None)),
        [route, station] => {
            let station = station_of(structure, station)?;
            Some((RouteId(route.parse::<u32>().ok()?), Some(station)))
        }
        _ => None,
    }
}

/// `route`: where the route of this number ends, and its stations in order, or `none`.
fn route_call<W: Write>(
    routes: &Routes,
    structure: &Structure,
    words: &[&str],
    answers: &mut Answers<W>,
) -> bool {
    let Some((number, None)) = place_of(structure, words) else {
        return false;
    };
    match routes.get(number) {
        Some(route) => write_stations(answers, structure, route),
        None => answers.line("none"),
    }
    true
}

fn write_stations<W: Write>(answers: &mut Answers<W>, structure: &Structure, route: &Route) {
    answers.text("to");
    write_end(answers, structure, route.end);
    answers.text(" by");
    for station in route.stations.as_slice() {
        answers.text(" ");
        write_station(answers, structure, *station);
    }
    answers.line("");
}

/// Writes where a route ends: its set, or its gate.
fn write_end<W: Write>(answers: &mut Answers<W>, structure: &Structure, end: EndPoint) {
    match end {
        EndPoint::Set(set) => {
            answers.text(" ");
            answers.text(set_name(structure, set));
        }
        EndPoint::Environment(gate) => write_gate(answers, structure, gate),
    }
}

/// Writes all routes by number, and how many there are.
fn write_routes<W: Write>(answers: &mut Answers<W>, structure: &Structure, routes: &Routes) {
    let mut number = 0u32;
    for _ in 0..routes.len() {
        if let Some(route) = routes.get(RouteId(number)) {
            write_route(answers, structure, number, route);
        }
        number = number.saturating_add(1);
    }
    answers.text("routes ");
    answers.number_line(routes.len() as u64);
}

/// Writes a route as the command `routes` does: its number, its signal, the gate where it starts, its hops, and the gate where
/// it ends.
fn write_route<W: Write>(
    answers: &mut Answers<W>,
    structure: &Structure,
    number: u32,
    route: &Route,
) {
    answers.number(number as u64);
    answers.text(" ");
    answers.text(signal_name(structure, route.signal));
    write_gate(answers, structure, route.start);
    write_hops(answers, structure, route.hops.as_slice());
    write_gate(answers, structure, route.end_gate);
    answers.line("");
}

fn write_hops<W: Write>(answers: &mut Answers<W>, structure: &Structure, hops: &[Hop]) {
    for hop in hops {
        answers.text(" ");
        write_path(answers, structure, *hop);
    }
}

fn write_gate<W: Write>(answers: &mut Answers<W>, structure: &Structure, gate: GateId) {
    let (agent, gate) = gate_name(structure, gate);
    answers.text(" ");
    answers.text(agent);
    answers.text(".");
    answers.text(gate);
}
