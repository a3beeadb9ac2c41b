//! A light of two transitions, as a designer writes it.
use super::graphs::{Graphs, LIGHT};
use super::sample::sample_frame;
use sdl_graph::{Graph, StepBuilder, answer, integer_parameter, no_step, pid_variable};
use sdl_signal::{Pid, SignalId, Sort, StateId, Value};
use sdl_test_systems::{Part, Parts};
use sdl_transition_behaviour::{Dest, Frame, Next, Step, Via};

const DARK: StateId = StateId(0);

const LIT: StateId = StateId(1);

const SWITCH: SignalId = SignalId(0);

const GLOW: SignalId = SignalId(1);

const START: Parts = Parts {
    sets: 1,
    vars: &[Sort::Pid, Sort::Integer],
    parts: &[(1, Part::Next(DARK))],
};

/// The offer of transition 2 lacks the output.
pub static OFFERS: [Parts; 3] = [
    START,
    Parts {
        parts: &[
            (1, Part::Row(DARK, SWITCH, &[Sort::Integer, Sort::Boolean])),
            (1, Part::Output(GLOW, &[Sort::Integer], Via::Any)),
            (1, Part::Next(LIT)),
        ],
        ..START
    },
    Parts {
        parts: &[
            (1, Part::Row(DARK, SWITCH, &[Sort::Integer, Sort::Boolean])),
            (1, Part::Next(LIT)),
        ],
        ..START
    },
];

fn glow(frame: &Frame) -> Step {
    let strength = Value::Integer(integer_parameter(frame, 0).unwrap_or(0));
    let owner = pid_variable(frame, 0).unwrap_or(Pid::Null);
    StepBuilder::next_state(frame, LIT)
        .output(GLOW, &[strength], Dest::Pid(owner), Via::Any)
        .build()
}

pub fn step(number: u32, frame: &Frame) -> Step {
    match number {
        0 => StepBuilder::next_state(frame, DARK).build(),
        1 | 2 => glow(frame),
        _ => no_step(),
    }
}

/// An output that is not offered is not made.
#[test]
fn a_graph_answers_what_it_offers(rt: HostRuntime) {
    for (number, outputs, next) in [(LIGHT, 0, DARK), (LIGHT + 1, 1, LIT), (LIGHT + 2, 0, LIT)] {
        let step = answer::<Graphs>(number, &Graphs::offer(number), &sample_frame());
        assert!(rt; step.actions.len() == outputs);
        assert!(rt; step.next == Next::State(next));
    }
}
