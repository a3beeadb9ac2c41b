//! A wheel of 16 positions, its structure, and a wheel with a broken offer.
use sdl_graph::{OfferBuilder, StepBuilder, integer_variable, no_offer, no_step};
use sdl_graph_binding::{Design, SetDesign};
use sdl_signal::{SignalId, Sort, StateId, Value};
use sdl_transition_behaviour::{Dest, Frame, Kind, Offer, Step, Via};
use sdl_transition_conformance::Breach;

/// Signals: 0 turn, 1 back, 2 look, 3 halt, 4 at.
pub const WHEEL: &str = r#"version = 1
system = "Wheel"

[[signal]]
name = "turn"

[[signal]]
name = "back"

[[signal]]
name = "look"

[[signal]]
name = "halt"

[[signal]]
name = "at"
sorts = ["Integer", "Integer"]

[[gate]]
name = "g"
inward = ["turn", "back", "look", "halt"]
outward = ["at"]

[[block]]
name = "B"

[[block.gate]]
name = "g"
inward = ["turn", "back", "look", "halt"]
outward = ["at"]

[[block.set]]
name = "W"

[[block.set.gate]]
name = "g"
inward = ["turn", "back", "look", "halt"]
outward = ["at"]

[[block.channel]]
name = "inner"
ends = ["env.g", "W.g"]
forth = ["turn", "back", "look", "halt"]
back = ["at"]

[[channel]]
name = "outer"
ends = ["env.g", "B.g"]
forth = ["turn", "back", "look", "halt"]
back = ["at"]
"#;

const POSITIONS: u32 = 16;

/// How many transitions a wheel has: the start, three for each position, and the halt in position 0.
pub const TRANSITIONS: u32 = 50;

const HALT: u32 = 49;

const AT: SignalId = SignalId(4);

/// What a transition but the start is for.
#[derive(Clone, Copy, PartialEq, Eq)]
enum Move {
    Turn,
    Back,
    Look,
    Halt,
}

/// The position and the signal of a transition but the start.
fn row_of(number: u32) -> Option<(u32, Move)> {
    if number == 0 || number > HALT {
        None
    } else if number == HALT {
        Some((0, Move::Halt))
    } else {
        let place = number - 1;
        let moved = match place % 3 {
            0 => Move::Turn,
            1 => Move::Back,
            _ => Move::Look,
        };
        Some((place / 3, moved))
    }
}

fn signal_of(moved: Move) -> SignalId {
    match moved {
        Move::Turn => SignalId(0),
        Move::Back => SignalId(1),
        Move::Look => SignalId(2),
        Move::Halt => SignalId(3),
    }
}

/// The position that follows.
fn after(position: u32, moved: Move) -> u32 {
    match moved {
        Move::Turn => (position % POSITIONS + 1) % POSITIONS,
        Move::Back => (position % POSITIONS + (POSITIONS - 1)) % POSITIONS,
        Move::Look | Move::Halt => position,
    }
}

/// The offer of the transition.
fn wheel_offer(number: u32) -> Offer {
    let wheel = OfferBuilder::start(1, &[Sort::Integer]);
    if number == 0 {
        return wheel.next_state(StateId(0)).build();
    }
    match row_of(number) {
        None => no_offer(),
        Some((position, moved)) => {
            let row = wheel.row(StateId(position), signal_of(moved), &[]);
            match moved {
                Move::Halt => row.may_stop().build(),
                Move::Look => row
                    .output(AT, &[Sort::Integer, Sort::Integer], Via::Any)
                    .next_state(StateId(position))
                    .build(),
                Move::Turn | Move::Back => row.next_state(StateId(after(position, moved))).build(),
            }
        }
    }
}

/// The step of the transition: its variable counts the moves.
fn wheel_step(number: u32, frame: &Frame) -> Step {
    if number == 0 {
        return StepBuilder::next_state(frame, StateId(0)).build();
    }
    let moves = integer_variable(frame, 0).unwrap_or(0);
    match row_of(number) {
        None => no_step(),
        Some((_, Move::Halt)) => StepBuilder::stop(frame).build(),
        Some((position, Move::Look)) => StepBuilder::next_state(frame, StateId(position))
            .output(
                AT,
                &[Value::Integer(position as i64), Value::Integer(moves)],
                Dest::Anywhere,
                Via::Any,
            )
            .build(),
        Some((position, moved)) => StepBuilder::next_state(frame, StateId(after(position, moved)))
            .set_variable(0, Value::Integer(moves.saturating_add(1)))
            .build(),
    }
}

/// The number of the start of the wheel, among those of both.
pub const SOUND: u32 = 0;

/// The number of the start of a wheel in which a look in position 2 does not offer its output.
pub const FAULTY: u32 = TRANSITIONS;

/// The number of the transition whose offer is broken.
pub const BROKEN: u32 = FAULTY + 9;

/// What it does not offer.
pub const BREACH: Breach = Breach::Output(AT, Via::Any);

/// The offers of both wheels, from 0 on.
pub fn offer(number: u32) -> Offer {
    if number == BROKEN {
        OfferBuilder::start(1, &[Sort::Integer])
            .row(StateId(2), signal_of(Move::Look), &[])
            .next_state(StateId(2))
            .build()
    } else {
        wheel_offer(number % TRANSITIONS)
    }
}

pub fn step(number: u32, frame: &Frame) -> Step {
    wheel_step(number % TRANSITIONS, frame)
}

pub static DESIGN: Design = Design {
    uses: &[
        (Kind::Set, 0, "W"),
        (Kind::Signal, 0, "turn"),
        (Kind::Signal, 1, "back"),
        (Kind::Signal, 2, "look"),
        (Kind::Signal, 3, "halt"),
        (Kind::Signal, 4, "at"),
    ],
    sets: &[SetDesign {
        name: "W",
        states: &[
            "p0", "p1", "p2", "p3", "p4", "p5", "p6", "p7", "p8", "p9", "p10", "p11", "p12", "p13",
            "p14", "p15",
        ],
        variables: &[Value::Integer(0)],
        saves: &[],
        transitions: 50,
    }],
};
