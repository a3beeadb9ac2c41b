//! What a transition is shown, and what it answers.
ghost use Rattle.sdl_transition_behaviour.specs.Offers.{IsBlank};

use arrayvec::ArrayVec;
use sdl_routes::Via;
use sdl_signal::{Pid, SetId, Signal, StateId, Value};

/// What the instance knows when a transition is made: its Pids (Z.101, the expressions SELF, PARENT, OFFSPRING and
/// SENDER), its state and variables, and the signal consumed. For a start there is neither a state nor a signal.
#[derive(Debug, Drop)]
pub struct Frame {
    pub self_pid: Pid,
    /// The creator, and Null for an initial instance.
    pub parent: Pid,
    /// The instance made last, and Null before any create.
    pub offspring: Pid,
    /// The sender of the signal consumed. For a start it is Null.
    pub sender: Pid,
    pub state: Option<StateId>,
    pub vars: ArrayVec<Value, 8>,
    pub signal: Option<Signal>,
}

/// To whom an output goes (Z.101, the TO part of an output). It is evaluated when the action is carried out, so that
/// `Offspring` after a create is the new instance.
#[derive(Clone, Copy, Debug, PartialEq, Eq)]
pub enum Dest {
    Anywhere,
    SelfPid,
    Parent,
    Offspring,
    Sender,
    Pid(Pid),
    Set(SetId),
}

/// An action of a transition.
#[derive(Debug, PartialEq, Eq, Drop)]
pub enum Action {
    /// An output of a signal, to `dest`, by way of one gate or one channel at most. (This project's own limit.)
    Output {
        signal: Signal,
        dest: Dest,
        via: Via,
    },
    /// A create of an instance of the set.
    Create(SetId),
}

// It only fills lists. Its bytes are zeros, which are written at once.
impl Default for Action {
    fn default() -> Self {
        Action::Output {
            signal: Signal::default(),
            dest: Dest::Anywhere,
            via: Via::Any,
        }
    }
}

/// How a transition ends: in a next state, or by a stop.
#[derive(Clone, Copy, Debug, PartialEq, Eq)]
pub enum Next {
    State(StateId),
    Stop,
}

/// What a transition does: the actions are carried out in order, and then the instance takes the variables and the
/// next state, or stops.
#[derive(Debug, Drop)]
pub struct Step {
    pub actions: ArrayVec<Action, 8>,
    pub vars: ArrayVec<Value, 8>,
    pub next: Next,
}

impl Step {
    /// A step that nothing was put into yet: without actions and variables, and with a stop at its end.
    #[inline(always)]
    pub fn blank() -> Step
        ensures { IsBlank result }
    {
        Step {
            actions: ArrayVec::new(),
            vars: ArrayVec::new(),
            next: Next::Stop,
        }
    }

    /// Takes the actions and the variables out.
    #[inline(always)]
    pub fn clear(&mut self)
        ensures { IsBlank self.new }
    {
        while let Some(_) = self.actions.pop() {}
        self.vars.clear();
    }
}
