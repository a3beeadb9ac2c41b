//! The step that does nothing, which stands in for a step that does not conform to its offer.
ghost use Rattle.std.specs.Prelude.{◌≡◌, ◌≤◌, IsTrue, ◌↔◌, length};
ghost use Rattle.sdl_transition_behaviour.specs.Offers.{IsFrameOf, IsNextOf, Conforms};
ghost use Rattle.sdl_transition_conformance.specs.Stay.{CanEnd, DoesNothing, next_of_stay};

use crate::conformance::conforms;
use arrayvec::ArrayVec;
use sdl_signal::Value;
use sdl_transition_behaviour::{Frame, Next, Offer, Step};

/// Whether a transition of the offer can end: it has a next state, or it may stop. To any other offer no step conforms.
#[tactic(auto, using(crate::proofs::Ends::ends_of_conforms))]
pub fn can_end(offer: &Offer) -> bool
    ensures exact { IsTrue result ↔ CanEnd offer.now }
    ensures needed { (step : _) → Conforms offer.now step → CanEnd offer.now }
{
    1 <= offer.nexts.len() || offer.may_stop
}

fn first_next(offer: &Offer) -> Next
    ensures value { result ≡ next_of_stay offer.now }
    ensures conforms { CanEnd offer.now → IsNextOf offer.now result }
{
    match offer.nexts.as_slice() {
        [state, ..] => Next::State(*state),
        [] => Next::Stop,
    }
}

fn copied_values(values: &[Value]) -> ArrayVec<Value, 8>
    requires { length values.now ≤ 8 }
    ensures { result.items ≡ values.now }
{
    let mut copy = ArrayVec::new();
    match copy.try_extend_from_slice(values) {
        Ok(()) => copy,
        Err(_) => unreachable!(),
    }
}

/// The step that does nothing: no action, the same variables, and the first next state of the offer, or a stop where it
/// has none. (This project's own.)
pub fn stay(offer: &Offer, frame: &Frame) -> Step
    ensures exact { DoesNothing offer.now frame.now result }
    ensures conforms { IsFrameOf offer.now frame.now → CanEnd offer.now → Conforms offer.now result }
{
    Step {
        actions: ArrayVec::new(),
        vars: copied_values(frame.vars.as_slice()),
        next: first_next(offer),
    }
}

/// The step where it conforms to the offer, and else the step that does nothing. (This project's own.)
pub fn kept(offer: &Offer, frame: &Frame, step: Step) -> Step
    ensures same { Conforms offer.now step → result ≡ step }
    ensures nothing { ¬ Conforms offer.now step → DoesNothing offer.now frame.now result }
    ensures conforms { IsFrameOf offer.now frame.now → CanEnd offer.now → Conforms offer.now result }
{
    if conforms(offer, &step) {
        step
    } else {
        stay(offer, frame)
    }
}
