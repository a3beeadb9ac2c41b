//! The agents of a process graph.
ghost use Rattle.sdl_transition_behaviour.specs.Offers.{IsFrameOf, Conforms};
ghost use Rattle.sdl_transition_conformance.specs.Stay.{CanEnd};
ghost use Rattle.sdl_graph.specs.Answers.{IsKept};

use crate::breaches::Breaches;
use sdl_graph::{Graph, judge};
use sdl_transition_behaviour::{Agents, Frame, Offer, Step};
use sdl_transition_conformance::conforms;
use std::marker::PhantomData;

/// The agents of a graph. Of each step it is promised that it meets its transition's offer, as of every step of a stored
/// transition, and no more.
#[derive(Drop)]
pub struct GraphAgents<G> {
    graph: PhantomData<G>,
}

impl<G: Graph> Agents for GraphAgents<G> {
    ghost may = { λ _ _ _. Unit {0} };

    /// What the graph puts together, where that conforms to the offer. Where it does not, the stored closure answers, which marks a
    /// step that breaks its offer.
    #[inline(always)]
    fn fill(number: u32, offer: &Offer, frame: &Frame, step: &mut Step) -> bool {
        G::fill(number, frame, step) && conforms(offer, step)
    }
}

/// Leaves a step that conforms to the offer as it is. Another is replaced by the one that does nothing, and its number is
/// marked, with what of it the offer does not allow.
pub fn keep_to_offer(
    number: u32,
    offer: &Offer,
    frame: &Frame,
    step: &mut Step,
    breaches: &Breaches,
)
    ensures kept { IsKept offer.now frame.now step.old step.new }
    ensures conforms { IsFrameOf offer.now frame.now → CanEnd offer.now → Conforms offer.now step.new }
{
    if let Some(breach) = judge(offer, frame, step) {
        breaches.note(number, breach);
    }
}
