//! What the author of a system's agents says that each transition does.
ghost use Rattle.std.specs.Prelude.{ℕ, IsTrue};
ghost use Rattle.sdl_transition_behaviour.specs.declared.step.Frame.{Frame as AFrame};
ghost use Rattle.sdl_transition_behaviour.specs.declared.step.Step.{Step as AStep};
ghost use Rattle.sdl_transition_behaviour.specs.Offers.{IsBlank, IsFrameOf, Conforms};

use crate::offer::Offer;
use crate::step::{Frame, Step};

/// The agents of a system, by one relation: `may k frame step` where the transition of number `k` may answer `step`
/// to `frame`. The author of the agents defines it, as exact as wanted. (This project's own.)
pub trait Agents {
    ghost may: { ℕ → AFrame → AStep → Type 0 };

    /// Puts what the transition of the number answers into the blank step, where it is to stand, and says whether it did; else the
    /// stored closure answers. The agents are asked for the transitions that are stored by `store_for_agents`. Unless they say
    /// otherwise, they put together none.
    fn fill(number: u32, offer: &Offer, frame: &Frame, step: &mut Step) -> bool
        requires frame { IsFrameOf offer.now frame.now }
        requires blank { IsBlank step.old }
        ensures allowed { IsTrue result → may number frame.now step.new }
        ensures conforms { IsTrue result → Conforms offer.now step.new }
    {
        let _ = number;
        let _ = offer;
        let _ = frame;
        let _ = step;
        false
    }
}
