//! Echo as a graph, and in it an Echo whose row does not offer its output, and two that put their steps together in place.
use sdl_graph_program::{
    Design, Dest, Frame, Kind, Offer, SetDesign, SignalId, Sort, StateId, Step, StepBuilder, Value,
    Via, in_place, integer_parameter, no_offer, no_step,
};
use sdl_test_systems::{Part, Parts, offer_of};

const PING: SignalId = SignalId(0);

const PONG: SignalId = SignalId(1);

const IDLE: StateId = StateId(0);

/// The start, and a row that offers its output.
const START: Parts = Parts {
    sets: 1,
    vars: &[],
    parts: &[(1, Part::Next(IDLE))],
};

const ROW: Parts = Parts {
    parts: &[
        (1, Part::Row(IDLE, PING, &[Sort::Integer])),
        (1, Part::Output(PONG, &[Sort::Integer], Via::Any)),
        (1, Part::Next(IDLE)),
    ],
    ..START
};

const MUTE_ROW: Parts = Parts {
    parts: &[
        (1, Part::Row(IDLE, PING, &[Sort::Integer])),
        (1, Part::Next(IDLE)),
    ],
    ..START
};

/// The offers of all of them, each of a start and a row.
static OFFERS: [Parts; 8] = [START, ROW, START, MUTE_ROW, START, ROW, START, ROW];

fn ping_step(frame: &Frame) -> Step {
    let given = Value::Integer(integer_parameter(frame, 0).unwrap_or(0));
    StepBuilder::next_state(frame, IDLE)
        .output(PONG, &[given], Dest::Anywhere, Via::Any)
        .build()
}

fn fill_ping(frame: &Frame, id: SignalId, step: &mut Step) {
    let given = Value::Integer(integer_parameter(frame, 0).unwrap_or(0));
    in_place::next_state(step, frame, IDLE);
    in_place::output(step, id, &[given], Dest::Anywhere, Via::Any);
}

/// The number of the start of Echo, among those of all of these.
pub const SOUND: u32 = 0;

/// The number of the start of an Echo whose row does not offer the output that it makes.
pub const MUTE: u32 = 2;

/// The number of the start of an Echo whose row is put together in place alone.
pub const FILLED: u32 = 4;

/// The number of the start of an Echo whose row breaks its offer in place, and keeps to it where it is built.
pub const MENDED: u32 = 6;

/// A number that no transition has.
pub const ABSENT: u32 = 8;

/// The offers of all of them, from 0 on.
pub fn offer(number: u32) -> Offer {
    match OFFERS.get(number as usize) {
        Some(parts) => offer_of(parts),
        None => no_offer(),
    }
}

pub fn step(number: u32, frame: &Frame) -> Step {
    match number {
        0 | 2 | 4 | 6 => StepBuilder::next_state(frame, IDLE).build(),
        1 | 3 | 7 => ping_step(frame),
        _ => no_step(),
    }
}

pub fn fill(number: u32, frame: &Frame, step: &mut Step) -> bool {
    match number {
        5 => fill_ping(frame, PONG, step),
        7 => fill_ping(frame, PING, step),
        _ => return false,
    }
    true
}

pub const SET: SetDesign = SetDesign {
    name: "E",
    states: &["idle"],
    variables: &[],
    saves: &[],
    transitions: 2,
};

pub static DESIGN: Design = Design {
    uses: &[
        (Kind::Set, 0, "E"),
        (Kind::Signal, 0, "ping"),
        (Kind::Signal, 1, "pong"),
    ],
    sets: &[SET],
};
