//! Agents that know their rows from their steps: a lamp with three states, which saves a press while it flashes.
use sdl_graph::{
    Agent, Answer, NoStep, OfferBuilder, SetLists, States, StepBuilder, answer_of, next_state,
    offer_in, parameter, transitions_of, variable,
};
use sdl_graph_binding::AgentSets;
use sdl_signal::{Pid, SetId, SignalId, Sort, StateId, Value};
use sdl_transition_behaviour::{Dest, Frame, Offer, Step, Via};
use std::alloc::AllocError;

const PRESS: SignalId = SignalId(0);

const DONE: SignalId = SignalId(1);

const LIGHT: SignalId = SignalId(2);

const LISTS: SetLists = SetLists {
    set: SetId(0),
    name: "Lamp",
    sets: 2,
    inward: &[(PRESS, &[]), (DONE, &[Sort::Integer])],
    outward: &[(LIGHT, &[Sort::Integer], Via::Any)],
    creates: &[SetId(0), SetId(1)],
};

#[derive(Clone, Copy, PartialEq, Eq)]
enum State {
    Idle,
    Lit,
    Flashing,
}

impl States for State {
    const STATES: &'static [(State, &'static str)] = &[
        (State::Idle, "idle"),
        (State::Lit, "lit"),
        (State::Flashing, "flashing"),
    ];
}

struct Lamp;

impl Agent for Lamp {
    type State = State;

    const LISTS: SetLists = LISTS;

    const VARIABLES: &'static [Value] = &[Value::Integer(40), Value::Pid(Pid::Null)];

    fn start(frame: &Frame) -> Step {
        next_state(frame, State::Idle).build()
    }

    fn step(state: State, signal: SignalId, frame: &Frame) -> Answer {
        match (state, signal) {
            (State::Idle, PRESS) => {
                let level = variable::integer(frame, 0)?.saturating_add(20);
                next_state(frame, State::Flashing)
                    .create(SetId(1))
                    .set_variable(0, Value::Integer(level))
                    .answer()
            }
            (State::Flashing, PRESS) => Err(NoStep::Save),
            (State::Flashing, DONE) => {
                let level = [Value::Integer(parameter::integer(frame, 0)?)];
                next_state(frame, State::Lit)
                    .output(LIGHT, &level, Dest::Anywhere, Via::Any)
                    .answer()
            }
            (State::Lit, PRESS) => {
                // There is no such variable.
                let to = variable::pid(frame, 2)?;
                StepBuilder::stop(frame)
                    .output(LIGHT, &[], Dest::Pid(to), Via::Any)
                    .answer()
            }
            _ => Err(NoStep::Implicit),
        }
    }
}

/// Whether the offer is that of DONE in the last state: a row may do all that its set may.
fn is_of_the_last_row(offer: &Offer) -> bool {
    let trigger = match &offer.signal {
        Some(signal) => signal.id == DONE && signal.sorts.as_slice() == [Sort::Integer].as_slice(),
        None => false,
    };
    let lists = offer.outputs.len() == 1 && offer.creates.len() == 2 && offer.nexts.len() == 3;
    let sorts = offer.vars.as_slice() == [Sort::Integer, Sort::Pid].as_slice();
    trigger && lists && sorts && offer.may_stop && offer.state == Some(StateId(2))
}

/// Rows are known from the step. What has no room has no offer.
#[test]
fn offers_are_known_from_the_step(rt: HostRuntime) {
    assert!(rt; transitions_of::<Lamp>() == 4);
    let mut left = 6;
    assert!(rt; offer_in::<Lamp>(&mut left).is_none());
    assert!(rt; left == 2);
    let offer = offer_in::<Lamp>(&mut 3);
    assert!(rt; offer.is_some_and(|offer| is_of_the_last_row(&offer)));
    let start = offer_in::<Lamp>(&mut 0);
    assert!(rt; start.is_some_and(|offer| offer.state.is_none() && offer.signal.is_none()));
    assert!(rt; OfferBuilder::all(&LISTS, 17, &[]).build().sets == 0);
}

/// A step is made for the state and the signal of the frame. What is missing is told from the implicit transition.
#[test]
fn a_step_is_made_for_its_frame(rt: HostRuntime) {
    let mut frame = Lamp::frame(State::Flashing, DONE, &[Value::Integer(7)]);
    let step = answer_of::<Lamp>(&frame);
    assert!(rt; step.actions.len() == 1 && step.vars.len() == 2);
    frame.state = None;
    frame.signal = None;
    assert!(rt; answer_of::<Lamp>(&frame).actions.len() == 0);
    let lit = Lamp::frame(State::Lit, PRESS, &[]);
    assert!(rt; Lamp::step(State::Lit, PRESS, &lit).err() == Some(NoStep::Missing));
    assert!(rt; Lamp::step(State::Lit, DONE, &lit).err() == Some(NoStep::Implicit));
}

#[test]
fn a_design_has_the_states_and_saves(rt: HostRuntime) -> Result<(), AllocError> {
    let mut sets = AgentSets::new(rt.alloc());
    sets.add::<Lamp>();
    assert!(rt; sets.transitions() == 4);
    let designs = sets.designs()?;
    let [lamp] = designs.as_slice() else {
        panic!(rt; "not one set");
    };
    assert!(rt; lamp.name == "Lamp" && lamp.states.len() == 3);
    assert!(rt; lamp.saves == [(StateId(2), PRESS)].as_slice());
    Ok(())
}
