//! An office: the door creates a desk and passes on to it. The desk saves what is put on it, and lets one of it through at each
//! `go`. It closes with what it has not let through.
use super::graphs::OFFICE_FROM;
use sdl_graph_program::{
    Design, Dest, Frame, Kind, Offer, SetDesign, SetId, SignalId, Sort, StateId, Step, StepBuilder,
    Value, Via, no_offer, no_step,
};
use sdl_test_systems::{Part, Parts, offer_of};

pub const OFFICE: &str = r#"version = 1
system = "Office"
signal = [
  { name = "open" },
  { name = "put", sorts = ["Integer"] },
  { name = "go" },
  { name = "close" },
  { name = "out", sorts = ["Integer"] },
]
gate = [{ name = "line", inward = ["open", "put", "go", "close"], outward = ["out"] }]
channel = [{ name = "street", ends = ["env.line", "Hall.g"], forth = ["open", "put", "go", "close"], back = ["out"] }]

[[block]]
name = "Hall"
gate = [{ name = "g", inward = ["open", "put", "go", "close"], outward = ["out"] }]
channel = [
  { name = "path", ends = ["env.g", "Door.g"], forth = ["open", "put", "go", "close"] },
  { name = "inner", ends = ["Door.on", "Desk.on"], forth = ["put", "go", "close"] },
  { name = "outer", ends = ["Desk.g", "env.g"], forth = ["out"] },
]

[[block.set]]
name = "Door"
gate = [{ name = "g", inward = ["open", "put", "go", "close"] }, { name = "on", outward = ["put", "go", "close"] }]

[[block.set]]
name = "Desk"
initial = 0
maximum = 1
gate = [{ name = "on", inward = ["put", "go", "close"] }, { name = "g", outward = ["out"] }]
"#;

const OPEN: SignalId = SignalId(0);

const PUT: SignalId = SignalId(1);

const GO: SignalId = SignalId(2);

const CLOSE: SignalId = SignalId(3);

const OUT: SignalId = SignalId(4);

const DESK: SetId = SetId(1);

/// The one state of the door.
const IDLE: StateId = StateId(0);

/// The state of a desk that lets nothing through, and that of one that lets the next through.
const WAIT: StateId = StateId(0);

const RUN: StateId = StateId(1);

/// The number of the office's first transition, among those of all graphs.
pub const START: u32 = OFFICE_FROM;

/// How many transitions the office has: the door's start and four rows, and the desk's start and three.
pub const TRANSITIONS: u32 = 9;

/// The door's start.
const DOOR: Parts = Parts {
    sets: 2,
    vars: &[],
    parts: &[(1, Part::Next(IDLE))],
};

/// The offers of the door's start and rows, and then of the desk's.
static OFFERS: [Parts; 9] = [
    DOOR,
    Parts {
        parts: &[
            (1, Part::Row(IDLE, OPEN, &[])),
            (1, Part::Create(DESK)),
            (1, Part::Next(IDLE)),
        ],
        ..DOOR
    },
    Parts {
        parts: &[
            (1, Part::Row(IDLE, PUT, &[Sort::Integer])),
            (1, Part::Output(PUT, &[Sort::Integer], Via::Any)),
            (1, Part::Next(IDLE)),
        ],
        ..DOOR
    },
    Parts {
        parts: &[
            (1, Part::Row(IDLE, GO, &[])),
            (1, Part::Output(GO, &[], Via::Any)),
            (1, Part::Next(IDLE)),
        ],
        ..DOOR
    },
    Parts {
        parts: &[
            (1, Part::Row(IDLE, CLOSE, &[])),
            (1, Part::Output(CLOSE, &[], Via::Any)),
            (1, Part::Next(IDLE)),
        ],
        ..DOOR
    },
    Parts {
        parts: &[(1, Part::Next(WAIT))],
        ..DOOR
    },
    Parts {
        parts: &[(1, Part::Row(WAIT, GO, &[])), (1, Part::Next(RUN))],
        ..DOOR
    },
    Parts {
        parts: &[(1, Part::Row(WAIT, CLOSE, &[])), (1, Part::Stop)],
        ..DOOR
    },
    Parts {
        parts: &[
            (1, Part::Row(RUN, PUT, &[Sort::Integer])),
            (1, Part::Output(OUT, &[Sort::Integer], Via::Any)),
            (1, Part::Next(WAIT)),
        ],
        ..DOOR
    },
];

pub fn offer(number: u32) -> Offer {
    match OFFERS.get(number as usize) {
        Some(parts) => offer_of(parts),
        None => no_offer(),
    }
}

/// The values of the signal that is consumed.
fn given(frame: &Frame) -> &[Value] {
    match &frame.signal {
        Some(signal) => signal.params.as_slice(),
        None => &[],
    }
}

/// Goes to the state, and sends what was consumed on as this signal.
fn send(frame: &Frame, state: StateId, signal: SignalId, dest: Dest) -> Step {
    StepBuilder::next_state(frame, state)
        .output(signal, given(frame), dest, Via::Any)
        .build()
}

/// The door passes on to the desk that was created last.
pub fn step(number: u32, frame: &Frame) -> Step {
    match number {
        0 => StepBuilder::next_state(frame, IDLE).build(),
        1 => StepBuilder::next_state(frame, IDLE).create(DESK).build(),
        2 => send(frame, IDLE, PUT, Dest::Offspring),
        3 => send(frame, IDLE, GO, Dest::Offspring),
        4 => send(frame, IDLE, CLOSE, Dest::Offspring),
        5 => StepBuilder::next_state(frame, WAIT).build(),
        6 => StepBuilder::next_state(frame, RUN).build(),
        7 => StepBuilder::stop(frame).build(),
        8 => send(frame, WAIT, OUT, Dest::Anywhere),
        _ => no_step(),
    }
}

const DOORS: SetDesign = SetDesign {
    name: "Door",
    states: &["idle"],
    variables: &[],
    saves: &[],
    transitions: 5,
};

const DESKS: SetDesign = SetDesign {
    name: "Desk",
    states: &["wait", "run"],
    variables: &[],
    saves: &[(WAIT, PUT)],
    transitions: 4,
};

pub static DESIGN: Design = Design {
    uses: &[
        (Kind::Set, 0, "Door"),
        (Kind::Set, 1, "Desk"),
        (Kind::Signal, 0, "open"),
        (Kind::Signal, 1, "put"),
        (Kind::Signal, 2, "go"),
        (Kind::Signal, 3, "close"),
        (Kind::Signal, 4, "out"),
    ],
    sets: &[DOORS, DESKS],
};
