//! Offers and steps as data, and how they are built of their parts.
use sdl_graph::{OfferBuilder, StepBuilder, no_step};
use sdl_signal::{SetId, SignalId, Sort, StateId, Value};
use sdl_transition_behaviour::{Dest, Frame, Offer, Step, Via};

/// A part of an offer.
#[derive(Clone, Copy)]
pub enum Part {
    Row(StateId, SignalId, &'static [Sort]),
    Output(SignalId, &'static [Sort], Via),
    Create(SetId),
    Next(StateId),
    Stop,
}

/// An offer: the number of sets, the sorts of the variables, and its parts, each so often.
#[derive(Clone, Copy)]
pub struct Parts {
    pub sets: u32,
    pub vars: &'static [Sort],
    pub parts: &'static [(u32, Part)],
}

fn with_part(offer: OfferBuilder, part: Part) -> OfferBuilder {
    match part {
        Part::Row(state, signal, sorts) => offer.row(state, signal, sorts),
        Part::Output(signal, sorts, via) => offer.output(signal, sorts, via),
        Part::Create(set) => offer.create(set),
        Part::Next(state) => offer.next_state(state),
        Part::Stop => offer.may_stop(),
    }
}

pub fn offer_of(parts: &Parts) -> Offer {
    let mut offer = OfferBuilder::start(parts.sets, parts.vars);
    for (count, part) in parts.parts {
        for _ in 0..*count {
            offer = with_part(offer, *part);
        }
    }
    offer.build()
}

/// How a step ends. One that does nothing is of no agent.
#[derive(Clone, Copy)]
pub enum End {
    Next(u32),
    Stop,
    Nothing,
}

/// What a step does.
#[derive(Clone, Copy)]
pub enum Doing {
    Output(SignalId, &'static [Value], Dest, Via),
    Create(SetId),
    Variable(usize, Value),
}

/// What a step does, each so often, and how it ends.
#[derive(Clone, Copy)]
pub struct Doings {
    pub end: End,
    pub doings: &'static [(u32, Doing)],
}

fn with_doing(step: StepBuilder, doing: Doing) -> StepBuilder {
    match doing {
        Doing::Output(signal, values, dest, via) => step.output(signal, values, dest, via),
        Doing::Create(set) => step.create(set),
        Doing::Variable(place, value) => step.set_variable(place, value),
    }
}

pub fn step_of(frame: &Frame, doings: &Doings) -> Step {
    let mut step = match doings.end {
        End::Next(state) => StepBuilder::next_state(frame, StateId(state)),
        End::Stop => StepBuilder::stop(frame),
        End::Nothing => return no_step(),
    };
    for (count, doing) in doings.doings {
        for _ in 0..*count {
            step = with_doing(step, *doing);
        }
    }
    step.build()
}
