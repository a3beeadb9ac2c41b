//! A process graph, and what its transitions answer.
ghost use Rattle.std.specs.Prelude.{ℕ, IsTrue, ◌↔◌, IsNone, IfSome};
ghost use Rattle.sdl_transition_behaviour.specs.declared.step.Frame.{Frame as AFrame};
ghost use Rattle.sdl_transition_behaviour.specs.declared.step.Step.{Step as AStep};
ghost use Rattle.sdl_transition_behaviour.specs.Offers.{IsBlank, IsFrameOf, Conforms};
ghost use Rattle.sdl_transition_conformance.specs.Stay.{CanEnd};
ghost use Rattle.sdl_transition_conformance.specs.Breaches.{IsFirstBroken};
ghost use Rattle.sdl_graph.specs.Answers.{IsKept};

use sdl_transition_behaviour::{Frame, Offer, Step};
use sdl_transition_conformance::{Breach, conforms, first_broken, kept, stay};

/// What a designer writes of a system's agents: for the number of each transition what it offers and what it does. There
/// is nothing to prove. (This project's own.)
pub trait Graph {
    /// What is known of the steps: nothing, unless the graph says so.
    ghost answers: { ℕ → AFrame → AStep → Type 0 } = { λ _ _ _. Unit {0} };

    fn offer(number: u32) -> Offer;

    fn step(number: u32, frame: &Frame) -> Step
        ensures { answers number frame.now result };

    /// Puts what the transition of the number does into the blank step, where it stands, and says whether it did: for transitions
    /// that are made often (`in_place`). Where it did not, as it does unless the graph says otherwise, and where that breaks the
    /// offer, `step` answers.
    fn fill(number: u32, frame: &Frame, step: &mut Step) -> bool
        requires { IsBlank step.old }
        ensures { IsTrue result → answers number frame.now step.new }
    {
        let _ = number;
        let _ = frame;
        let _ = step;
        false
    }
}

/// What the graph's transition answers where that conforms to the offer, and else the step that does nothing.
pub fn answer<G: Graph>(number: u32, offer: &Offer, frame: &Frame) -> Step
    ensures kept { (own : _) × G.answers number frame.now own × IsKept offer.now frame.now own result }
    ensures conforms { IsFrameOf offer.now frame.now → CanEnd offer.now → Conforms offer.now result }
{
    kept(offer, frame, G::step(number, frame))
}

/// What of the step the offer does not allow, where the step does not conform to it. Then the step that does nothing is put in its
/// place.
pub fn judge(offer: &Offer, frame: &Frame, step: &mut Step) -> Option<Breach>
    ensures kept { IsKept offer.now frame.now step.old step.new }
    ensures exact { IsNone result ↔ Conforms offer.now step.old }
    ensures first { IfSome result (IsFirstBroken offer.now step.old) }
    ensures conforms { IsFrameOf offer.now frame.now → CanEnd offer.now → Conforms offer.now step.new }
{
    if conforms(offer, step) {
        return None;
    }
    let breach = first_broken(offer, step);
    *step = stay(offer, frame);
    breach
}
