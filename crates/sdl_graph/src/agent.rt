//! The agents of one set, as a designer writes them: what a signal makes in a state, known from the step alone.
ghost use Rattle.std.specs.Prelude.{◌≡◌, Ok, IsTrue, IfOk, IsOk};
ghost use Rattle.sdl_graph.specs.Drafts.{ConformsToNone};
ghost use Rattle.sdl_graph.specs.Lists.{frame_at_first};

use crate::lists::{SetLists, first_values};
use crate::states::{States, number_of, state_of};
use crate::steps::{StepBuilder, no_step};
use sdl_signal::{Pid, SetId, Signal, SignalId, StateId, Value};
use sdl_transition_behaviour::{Frame, Offer, Step};

/// What a signal makes in a state where it is no step.
#[derive(Clone, Copy, Debug, PartialEq, Eq)]
pub enum NoStep {
    /// The implicit transition: the signal is consumed and does nothing (Z.101, implicit transition).
    Implicit,
    /// The state saves the signal (Z.101, save).
    Save,
    /// There is a transition, and what it reads does not stand in its frame. Such an answer breaks the offer.
    Missing,
}

/// What a signal makes in a state.
pub type Answer = Result<Step, NoStep>;

/// What a designer writes of a set beside its states: its variables, its start, and what each signal makes in each state. There is
/// nothing to prove. (This project's own.)
pub trait Agent {
    type State: States;

    /// What the structure file lets the set do, as the skeleton writes it.
    const LISTS: SetLists;

    /// The variables as they are at first.
    const VARIABLES: &'static [Value];

    fn start(frame: &Frame) -> Step;

    /// What the signal makes in the state. Which of the three it is, a step, a save or the implicit transition, goes by the state and
    /// the signal alone: that is asked before a run, by the frame of `frame`.
    fn step(state: Self::State, signal: SignalId, frame: &Frame) -> Answer;

    /// An offer for a transition that is to promise less than all that its set may do, or has a VIA by a channel: of the start, or of a
    /// state and a signal.
    fn offer(trigger: Option<(Self::State, SignalId)>) -> Option<Offer> {
        let _ = trigger;
        None
    }

    /// The frame of a transition of the first instance, with its variables as they are at first, for a signal from the environment with
    /// these parameters. What is to be otherwise in a test is changed there.
    final fn frame(state: Self::State, signal: SignalId, parameters: &[Value]) -> Frame {
        let number = number_of(state);
        frame_of(Self::LISTS.set, number, Self::VARIABLES, signal, parameters)
    }
}

impl StepBuilder {
    /// The step that is built, as what a signal makes in a state.
    pub fn answer(self) -> Answer
        ensures whole { IsTrue self.fits → result ≡ Ok self.step }
        ensures ok { IsOk result }
        ensures none { ¬ IsTrue self.fits → IfOk result ConformsToNone }
    {
        Ok(self.build())
    }
}

/// Such a frame, of the set and the number of the state.
pub fn frame_of(
    set: SetId,
    state: StateId,
    variables: &[Value],
    id: SignalId,
    parameters: &[Value],
) -> Frame
    ensures { result ≡ frame_at_first set state variables.now id parameters.now }
{
    Frame {
        self_pid: Pid::Inst(set, 1),
        parent: Pid::Null,
        offspring: Pid::Null,
        sender: Pid::Env,
        state: Some(state),
        vars: first_values(variables),
        signal: Some(Signal {
            id,
            params: first_values(parameters),
        }),
    }
}

/// What the agents of a set do in a frame: their start, or their step for its state and signal. Where that is none, it is a step that
/// conforms to no offer.
pub fn answer_of<A: Agent>(frame: &Frame) -> Step {
    match answer_in::<A>(frame) {
        Some(Ok(step)) => step,
        Some(Err(_)) | None => no_step(),
    }
}

/// What is answered in the frame, where it has a state of the set and a signal, or neither.
fn answer_in<A: Agent>(frame: &Frame) -> Option<Answer> {
    let Some(number) = frame.state else {
        return Some(Ok(A::start(frame)));
    };
    let state = state_of::<A::State>(number)?;
    match &frame.signal {
        Some(signal) => Some(A::step(state, signal.id, frame)),
        None => None,
    }
}
