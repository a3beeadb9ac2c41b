//! A step that is put together where it stands is the one that a builder builds, part by part.
use super::sample::{ANSWER, sample_frame};
use sdl_graph::{StepBuilder, in_place};
use sdl_signal::{Pid, SetId, Sort, StateId, Value};
use sdl_test_systems::{Part, Parts, offer_of};
use sdl_transition_behaviour::{Dest, Frame, Step, Via};
use sdl_transition_conformance::conforms;

/// What is put into a step: so many outputs with so many parameters each, so many creates, and a variable at this place.
#[derive(Clone, Copy)]
struct Filling {
    outputs: usize,
    parameters: usize,
    creates: usize,
    place: usize,
    stops: bool,
}

static FIVE: [Value; 5] = [Value::Integer(9); 5];

fn parameters(filling: Filling) -> &'static [Value] {
    match FIVE.get(..filling.parameters) {
        Some(first) => first,
        None => FIVE.as_slice(),
    }
}

fn built(frame: &Frame, filling: Filling) -> Step {
    let mut step = if filling.stops {
        StepBuilder::stop(frame)
    } else {
        StepBuilder::next_state(frame, StateId(1))
    };
    for _ in 0..filling.outputs {
        step = step.output(ANSWER, parameters(filling), Dest::Sender, Via::Any);
    }
    for _ in 0..filling.creates {
        step = step.create(SetId(1));
    }
    step.set_variable(filling.place, Value::Pid(Pid::Null))
        .build()
}

fn filled(frame: &Frame, filling: Filling) -> Step {
    let mut step = Step::blank();
    if filling.stops {
        in_place::stop(&mut step, frame);
    } else {
        in_place::next_state(&mut step, frame, StateId(1));
    }
    for _ in 0..filling.outputs {
        in_place::output(
            &mut step,
            ANSWER,
            parameters(filling),
            Dest::Sender,
            Via::Any,
        );
    }
    for _ in 0..filling.creates {
        in_place::create(&mut step, SetId(1));
    }
    in_place::set_variable(&mut step, filling.place, Value::Pid(Pid::Null));
    step
}

/// Whether all of it finds room, in a frame with two variables.
fn fits(filling: Filling) -> bool {
    filling.outputs.saturating_add(filling.creates) <= 8
        && (filling.outputs == 0 || filling.parameters <= 4)
        && filling.place < 2
}

/// An offer that has all that is put in, as far as it can.
static ALL: Parts = Parts {
    sets: 2,
    vars: &[Sort::Pid, Sort::Integer],
    parts: &[
        (
            1,
            Part::Output(
                ANSWER,
                &[Sort::Integer, Sort::Integer, Sort::Integer, Sort::Integer],
                Via::Any,
            ),
        ),
        (1, Part::Output(ANSWER, &[], Via::Any)),
        (1, Part::Create(SetId(1))),
        (1, Part::Next(StateId(1))),
        (1, Part::Stop),
    ],
};

/// Whether the two steps are the same where the parts find room, and break the offer where they do not. One that is used again has
/// nothing of what it was before.
fn agree(filling: Filling) -> bool {
    let frame = sample_frame();
    let one = built(&frame, filling);
    let mut other = filled(&frame, filling);
    let agrees = if fits(filling) {
        one.actions.as_slice() == other.actions.as_slice()
            && one.vars.as_slice() == other.vars.as_slice()
            && one.next == other.next
    } else {
        let offer = offer_of(&ALL);
        !conforms(&offer, &one) && !conforms(&offer, &other)
    };
    other.clear();
    agrees && other.actions.is_empty() && other.vars.is_empty()
}

/// The filling of this number.
fn filling_of(number: usize) -> Filling {
    Filling {
        outputs: [0, 1, 2, 3, 8, 9][number % 6],
        parameters: [0, 1, 4, 5][number / 6 % 4],
        creates: [0, 1, 5, 8][number / 24 % 4],
        place: number / 96 % 3,
        stops: number / 288 == 0,
    }
}

#[test]
fn both_put_the_same_step_together(rt: HostRuntime) {
    for number in 0..576 {
        assert!(rt; agree(filling_of(number)), "filling {number}");
    }
}
