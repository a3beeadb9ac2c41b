//! A stored transition.
ghost use Rattle.std.specs.Prelude.{◌≡◌};
ghost use Rattle.sdl_transition_behaviour.specs.Offers.{IsBlank, IsFrameOf, Conforms};

use crate::agents::Agents;
use crate::offer::Offer;
use crate::step::{Frame, Step};
use std::marker::PhantomData;

/// What a transition does: a closure from what the instance knows to what it does.
pub type Run = Box<dyn Fn(&Frame) -> Step + Send>;

/// A closure of the system `S` with its number and its offer. It may be called on every frame of the offer, and each
/// answer conforms to the offer.
#[derive(Drop)]
pub struct Transition<S> {
    pub number: u32,
    pub offer: Offer,
    run: Run,
    /// Whether the agents are asked first.
    asks_agents: bool,
    agents: PhantomData<S>,
    ghost callable: { (f : _) → IsFrameOf offer f.now → Run.pre run f },
    ghost conforms: { (f : _) (step : _) → IsFrameOf offer f.now → Run.post run f step → ∥ Conforms offer step ∥₁ },
}

impl<S: Agents> Transition<S> {
    ghost use Rattle.sdl_transition_behaviour.specs.Transitions.{IsAllowed};

    /// Keeps the closure with its number and its offer. No memory is taken.
    pub fn store(number: u32, offer: Offer, run: Run) -> Transition<S>
        requires callable { (f : _) → IsFrameOf offer f.now → Run.pre run f }
        requires allowed { (f : _) (step : _) → IsFrameOf offer f.now → Run.post run f step → S.may number f.now step }
        requires conforms { (f : _) (step : _) → IsFrameOf offer f.now → Run.post run f step → Conforms offer step }
        ensures number { result.number ≡ number }
        ensures offer { result.offer ≡ offer }
        ensures allowed { IsAllowed S.may result }
    {
        Transition {
            number,
            offer,
            run,
            asks_agents: false,
            agents: PhantomData,
        }
    }

    /// Keeps the closure as `store` does, for a transition that the agents may put together themselves (`Agents::fill`): the closure
    /// answers where they do not. No memory is taken.
    pub fn store_for_agents(number: u32, offer: Offer, run: Run) -> Transition<S>
        requires callable { (f : _) → IsFrameOf offer f.now → Run.pre run f }
        requires allowed { (f : _) (step : _) → IsFrameOf offer f.now → Run.post run f step → S.may number f.now step }
        requires conforms { (f : _) (step : _) → IsFrameOf offer f.now → Run.post run f step → Conforms offer step }
        ensures number { result.number ≡ number }
        ensures offer { result.offer ≡ offer }
        ensures allowed { IsAllowed S.may result }
    {
        let mut stored = Transition::store(number, offer, run);
        stored.asks_agents = true;
        stored
    }

    /// What the transition does, as its closure answers. It costs one call through a pointer, and no memory is taken.
    pub fn fire(&self, frame: &Frame) -> Step
        requires frame { IsFrameOf self.now.offer frame.now }
        requires allowed { IsAllowed S.may self.now }
        ensures allowed { S.may self.now.number frame.now result }
        ensures conforms { ∥ Conforms self.now.offer result ∥₁ }
    {
        (self.run)(frame)
    }

    /// What the transition does, put into the blank step: by the agents, where the transition asks them and they do, and else by
    /// its closure. The agents' answer needs no call through a pointer and no copy of the step. No memory is taken.
    #[inline(always)]
    pub fn fire_into(&self, frame: &Frame, step: &mut Step)
        requires frame { IsFrameOf self.now.offer frame.now }
        requires blank { IsBlank step.old }
        requires allowed { IsAllowed S.may self.now }
        ensures allowed { S.may self.now.number frame.now step.new }
        ensures conforms { ∥ Conforms self.now.offer step.new ∥₁ }
    {
        let filled = self.asks_agents && S::fill(self.number, &self.offer, frame, step);
        if !filled {
            *step = self.fire(frame);
        }
    }
}
