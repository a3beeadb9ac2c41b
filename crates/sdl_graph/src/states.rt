//! The states of the agents of a set: an enum, so that a misspelled state does not compile.
ghost use Rattle.std.specs.Prelude.{◌≡◌, ◌≢◌, [], true};
ghost use Rattle.sdl_transition_behaviour.specs.declared.step.Next.TheVariants as next;

use crate::steps::StepBuilder;
use sdl_signal::StateId;
use sdl_transition_behaviour::Frame;

/// The states of the agents of a set. A designer implements it for an enum. (This project's own.)
pub trait States: Copy + PartialEq + 'static {
    /// Each state once, with its name. The number of a state is its place here.
    const STATES: &'static [(Self, &'static str)];
}

/// The number of a state. One that the list of states does not have gets a number that no offer has.
pub fn number_of<S: States>(state: S) -> StateId {
    let place = S::STATES.iter().position(|(other, _)| *other == state);
    match place {
        Some(place) => StateId(u32::try_from(place).unwrap_or(u32::MAX)),
        None => StateId(u32::MAX),
    }
}

/// The state of a number.
pub fn state_of<S: States>(number: StateId) -> Option<S> {
    match S::STATES.get(number.0 as usize) {
        Some((state, _)) => Some(*state),
        None => None,
    }
}

/// A step that goes to the state, without actions, and leaves the variables as they are.
pub fn next_state<S: States>(frame: &Frame, state: S) -> StepBuilder
    ensures actions { result.step.actions.items ≡ [] }
    ensures goes_on { result.step.next ≢ next.Stop }
    ensures variables { result.step.vars ≡ frame.now.vars }
    ensures fits { result.fits ≡ true }
{
    StepBuilder::next_state(frame, number_of(state))
}
