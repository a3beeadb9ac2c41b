//! The stored transitions of a graph.
ghost use Rattle.std.specs.Prelude.{◌≡◌, ◌⊎◌, ◌==◌, if◌then◌else◌, true, false, [], ◌∷◌, ◌++◌, map, IfSome, IfOk, IfErr, IsOk, IsErr, Err, MatchOption, MatchResult};
ghost use Rattle.sdl_transition_behaviour.specs.Offers.{IsFrameOf, Conforms};
ghost use Rattle.sdl_transition_conformance.specs.Stay.{CanEnd};
ghost use Rattle.sdl_graph.specs.Answers.{IsKept};
ghost use Rattle.sdl_graph_binding.specs.Transitions.{IsOfferFault, IsOneMore};
ghost use Rattle.sdl_graph_binding.specs.declared.faults.GraphFault.TheVariants.{Memory, NoOffer, NoEnd};

use crate::agents::{GraphAgents, keep_to_offer};
use crate::breaches::Breaches;
use crate::faults::GraphFault;
use sdl_graph::Graph;
use sdl_transition_behaviour::{Frame, Offer, Run, Step, Transition};
use sdl_transition_conformance::{can_end, copied_offer};
use std::alloc::Global;
use std::marker::PhantomData;

/// The transitions of a graph so far, by number, with the breaches that they share; or the first fault that was met. After a
/// fault no transition is begun any more, `keep` stores on, and the fault is all that is given back.
#[derive(Drop)]
pub struct Stored<G> {
    transitions: Vec<Transition<GraphAgents<G>>>,
    /// The breaches, or the first fault.
    breaches: Result<Breaches, GraphFault>,
    /// A transition was begun and is not kept yet.
    begun: bool,
}

/// What answers the frames of one transition of a graph: its number, its offer, which can end, and its share of the breaches.
#[derive(Drop)]
pub struct Answering<G> {
    number: u32,
    offer: Offer,
    breaches: Breaches,
    graph: PhantomData<G>,
}

/// The graph's offer for the number, where there is one, and it can stop or go on.
pub fn ending_offer<G: Graph>(number: u32) -> Result<Offer, GraphFault>
    ensures ends { IfOk result CanEnd }
    ensures none { IfErr result (IsOfferFault number) }
{
    ending(number, G::offer(number))
}

/// The offer of the number, where it can stop or go on. One of no sets stands for none.
fn ending(number: u32, offer: Offer) -> Result<Offer, GraphFault>
    ensures ends { IfOk result (λ own. (own ≡ offer) × CanEnd offer) }
    ensures refused { IfErr result (λ _. ¬ CanEnd offer) }
    ensures fault { IfErr result (λ fault. fault ≡ (if offer.sets == 0 then NoOffer number else NoEnd number)) }
{
    if can_end(&offer) {
        Ok(offer)
    } else if offer.sets == 0 {
        Err(GraphFault::NoOffer(number))
    } else {
        Err(GraphFault::NoEnd(number))
    }
}

impl<G: Graph> Answering<G> {
    /// The transition's offer.
    pub fn offer(&self) -> Offer
        ensures { result ≡ self.now.offer }
    {
        copied_offer(&self.offer)
    }

    /// What the graph's transition answers, kept to its offer. The step is put together here, since each function on the way
    /// would copy it once.
    pub fn answer(&self, frame: &Frame) -> Step
        ensures kept { (own : _) × G.answers self.now.number frame.now own × IsKept self.now.offer frame.now own result }
        ensures conforms { IsFrameOf self.now.offer frame.now → CanEnd self.now.offer → Conforms self.now.offer result }
    {
        let mut step = G::step(self.number, frame);
        keep_to_offer(self.number, &self.offer, frame, &mut step, &self.breaches);
        step
    }
}

impl<G: Graph> Stored<G> {
    /// What answers the frames of the transition of this number, which is to be kept next. None after a fault, and where this is
    /// one: the graph has no offer of the number that can end; memory is refused; the transition before was not kept, as its
    /// closure found no memory.
    pub fn answering(&mut self, number: u32) -> Option<Answering<G>>
        ensures offered { IfSome result (λ own. (own.number ≡ number) × CanEnd own.offer) }
        ensures begun { MatchOption result (IsErr self.new.breaches) (λ _. IsOk self.new.breaches × (self.new.begun ≡ true)) }
        ensures fault { IfErr self.new.breaches (λ fault. MatchResult self.old.breaches (λ _. (fault ≡ Memory) ⊎ IsOfferFault number fault) (λ first. fault ≡ first)) }
        ensures unkept { self.old.begun ≡ true → IsErr self.new.breaches }
        ensures memory { self.old.begun ≡ true → IfErr self.new.breaches (λ fault. MatchResult self.old.breaches (λ _. fault ≡ Memory) (λ first. fault ≡ first)) }
        ensures same { self.new.transitions ≡ self.old.transitions }
    {
        match self.begin(number) {
            Ok(own) => {
                self.begun = true;
                Some(own)
            }
            Err(fault) => {
                self.breaches = Err(fault);
                None
            }
        }
    }

    /// What answers the frames of the transition of this number, or the first fault.
    fn begin(&self, number: u32) -> Result<Answering<G>, GraphFault>
        ensures offered { IfOk result (λ own. (own.number ≡ number) × CanEnd own.offer × IsOk self.now.breaches) }
        ensures kept { IfOk result (λ _. self.now.begun ≡ false) }
        ensures memory { self.now.begun ≡ true → IfErr result (λ fault. MatchResult self.now.breaches (λ _. fault ≡ Memory) (λ first. fault ≡ first)) }
        ensures fault { IfErr result (λ fault. MatchResult self.now.breaches (λ _. (fault ≡ Memory) ⊎ IsOfferFault number fault) (λ first. fault ≡ first)) }
    {
        let shared = match &self.breaches {
            Ok(shared) => shared,
            Err(fault) => return Err(*fault),
        };
        if self.begun {
            return Err(GraphFault::Memory);
        }
        let offer = ending_offer::<G>(number)?;
        Ok(Answering {
            number,
            offer,
            breaches: shared.share()?,
            graph: PhantomData,
        })
    }
}

impl<G: Graph> Stored<G> {
    /// No transitions.
    pub fn new(alloc: Global) -> Stored<G>
        ensures none { result.transitions.items ≡ [] }
        ensures begun { result.begun ≡ false }
        ensures fault { IfErr result.breaches (λ fault. fault ≡ Memory) }
    {
        let breaches = match Breaches::new(alloc) {
            Ok(breaches) => Ok(breaches),
            Err(_) => Err(GraphFault::Memory),
        };
        Stored {
            transitions: Vec::new(alloc),
            breaches,
            begun: false,
        }
    }

    /// Keeps what the transition of the number does, with its offer. Where memory is refused, that is the fault, unless there is
    /// one.
    pub fn keep(&mut self, number: u32, offer: Offer, run: Run)
        requires callable { (f : _) → IsFrameOf offer f.now → Run.pre run f }
        requires conforms { (f : _) (step : _) → IsFrameOf offer f.now → Run.post run f step → Conforms offer step }
        ensures kept { IfOk self.new.breaches (λ _. map (λ t. t.number) self.new.transitions.items ≡ map (λ t. t.number) self.old.transitions.items ++ number ∷ []) }
        ensures last { IfOk self.new.breaches (λ _. IsOneMore self.old.transitions.items number offer self.new.transitions.items) }
        ensures fault { IfErr self.new.breaches (λ fault. MatchResult self.old.breaches (λ _. fault ≡ Memory) (λ first. fault ≡ first)) }
        ensures before { IfErr self.old.breaches (λ _. IsErr self.new.breaches) }
        ensures begun { self.new.begun ≡ false }
    {
        self.begun = false;
        let stored = Transition::store_for_agents(number, offer, run);
        let pushed = self.transitions.push(stored);
        if pushed.is_err() && self.breaches.is_ok() {
            self.breaches = Err(GraphFault::Memory);
        }
    }

    /// The transitions, and the breaches; or the first fault, which is that memory was refused where the transition that was begun
    /// last was not kept.
    pub fn into_parts(self) -> Result<(Vec<Transition<GraphAgents<G>>>, Breaches), GraphFault>
        ensures transitions { IfOk result (λ parts. (parts.0 ≡ self.transitions) × IsOk self.breaches × (self.begun ≡ false)) }
        ensures fault { IfErr result (λ fault. MatchResult self.breaches (λ _. (fault ≡ Memory) × (self.begun ≡ true)) (λ first. fault ≡ first)) }
    {
        let Stored {
            transitions,
            breaches,
            begun,
        } = self;
        let breaches = breaches?;
        if begun {
            return Err(GraphFault::Memory);
        }
        Ok((transitions, breaches))
    }
}
