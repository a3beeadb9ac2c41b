//! Steps that break their offer, each number in one way.
use super::sample::frame_on;
use sdl_graph::no_step;
use sdl_signal::{GateId, Pid, SetId, SignalId, Sort, StateId, Value};
use sdl_test_systems::{Doing, Doings, End, Part, Parts, offer_of, step_of};
use sdl_transition_behaviour::{Dest, Frame, Offer, Step, Via};
use sdl_transition_conformance::Breach;

const ASK: SignalId = SignalId(0);

const ANSWER: SignalId = SignalId(1);

const NOTICE: SignalId = SignalId(2);

const STRANGER: Pid = Pid::Inst(SetId(2), 1);

/// In a structure of two sets: an answer by any way, a notice by gate 0, a create of set 1, and two next states.
static OFFER: Parts = Parts {
    sets: 2,
    vars: &[Sort::Pid, Sort::Integer],
    parts: &[
        (1, Part::Row(StateId(0), ASK, &[Sort::Integer])),
        (1, Part::Output(ANSWER, &[Sort::Integer], Via::Any)),
        (1, Part::Output(NOTICE, &[Sort::Pid], Via::Gate(GateId(0)))),
        (1, Part::Create(SetId(1))),
        (1, Part::Next(StateId(0))),
        (1, Part::Next(StateId(1))),
    ],
};

pub fn offer() -> Offer {
    offer_of(&OFFER)
}

/// Steps on `ASK` with 7, each with what of it the offer does not allow.
pub static STEPS: [(Doings, Option<Breach>); 16] = [
    // It conforms.
    (
        Doings {
            end: End::Next(1),
            doings: &[
                (
                    1,
                    Doing::Output(ANSWER, &[Value::Integer(7)], Dest::Sender, Via::Any),
                ),
                (1, Doing::Create(SetId(1))),
                (1, Doing::Variable(1, Value::Integer(6))),
            ],
        },
        None,
    ),
    // another gate
    (
        Doings {
            end: End::Next(1),
            doings: &[(
                1,
                Doing::Output(
                    NOTICE,
                    &[Value::Pid(Pid::Null)],
                    Dest::Anywhere,
                    Via::Gate(GateId(1)),
                ),
            )],
        },
        Some(Breach::Output(NOTICE, Via::Gate(GateId(1)))),
    ),
    // no gate
    (
        Doings {
            end: End::Next(1),
            doings: &[(
                1,
                Doing::Output(NOTICE, &[Value::Pid(Pid::Null)], Dest::Anywhere, Via::Any),
            )],
        },
        Some(Breach::Output(NOTICE, Via::Any)),
    ),
    // another signal
    (
        Doings {
            end: End::Next(1),
            doings: &[(
                1,
                Doing::Output(ASK, &[Value::Integer(7)], Dest::Sender, Via::Any),
            )],
        },
        Some(Breach::Output(ASK, Via::Any)),
    ),
    // another sort
    (
        Doings {
            end: End::Next(1),
            doings: &[(
                1,
                Doing::Output(ANSWER, &[Value::Boolean(true)], Dest::Sender, Via::Any),
            )],
        },
        Some(Breach::Output(ANSWER, Via::Any)),
    ),
    // a parameter too few
    (
        Doings {
            end: End::Next(1),
            doings: &[(1, Doing::Output(ANSWER, &[], Dest::Sender, Via::Any))],
        },
        Some(Breach::Output(ANSWER, Via::Any)),
    ),
    // to an instance of a set that is not there
    (
        Doings {
            end: End::Next(1),
            doings: &[(
                1,
                Doing::Output(ANSWER, &[Value::Integer(7)], Dest::Pid(STRANGER), Via::Any),
            )],
        },
        Some(Breach::NoInstance(ANSWER)),
    ),
    // with such a Pid
    (
        Doings {
            end: End::Next(1),
            doings: &[(
                1,
                Doing::Output(
                    NOTICE,
                    &[Value::Pid(STRANGER)],
                    Dest::Anywhere,
                    Via::Gate(GateId(0)),
                ),
            )],
        },
        Some(Breach::NoInstance(NOTICE)),
    ),
    // another create
    (
        Doings {
            end: End::Next(1),
            doings: &[(1, Doing::Create(SetId(0)))],
        },
        Some(Breach::Create(SetId(0))),
    ),
    // a variable of another sort
    (
        Doings {
            end: End::Next(1),
            doings: &[(1, Doing::Variable(1, Value::Boolean(true)))],
        },
        Some(Breach::Variable(1)),
    ),
    // another next state
    (
        Doings {
            end: End::Next(2),
            doings: &[],
        },
        Some(Breach::NextState(StateId(2))),
    ),
    // a stop
    (
        Doings {
            end: End::Stop,
            doings: &[],
        },
        Some(Breach::Stop),
    ),
    // Of several such parts the first action is named, then the end, then the first variable.
    (
        Doings {
            end: End::Next(2),
            doings: &[
                (1, Doing::Variable(0, Value::Integer(1))),
                (1, Doing::Create(SetId(1))),
                (1, Doing::Create(SetId(0))),
            ],
        },
        Some(Breach::Create(SetId(0))),
    ),
    (
        Doings {
            end: End::Next(2),
            doings: &[
                (1, Doing::Variable(0, Value::Integer(1))),
                (1, Doing::Create(SetId(1))),
            ],
        },
        Some(Breach::NextState(StateId(2))),
    ),
    (
        Doings {
            end: End::Next(1),
            doings: &[
                (1, Doing::Variable(1, Value::Boolean(true))),
                (1, Doing::Variable(0, Value::Integer(1))),
            ],
        },
        Some(Breach::Variable(0)),
    ),
    (
        Doings {
            end: End::Nothing,
            doings: &[],
        },
        Some(Breach::NoInstance(SignalId(0))),
    ),
];

/// An instance of set 0, in the first state, on `ASK` with 7.
pub fn breaking_frame() -> Frame {
    frame_on(&[Value::Integer(7)])
}

/// The step of this number.
pub fn step(number: u32) -> Step {
    match STEPS.get(number as usize) {
        Some((doings, _)) => step_of(&breaking_frame(), doings),
        None => no_step(),
    }
}
