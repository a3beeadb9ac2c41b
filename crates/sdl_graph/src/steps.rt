//! Steps, put together.
ghost use Rattle.std.specs.Prelude.{◌≡◌, ◌<◌, ◌≤◌, [], ◌∷◌, ◌++◌, ◌↔◌, true, IsTrue, length, slice_set};
ghost use Rattle.arrayvec.specs.ArrayVec.{array_vec_len};
ghost use Rattle.sdl_transition_behaviour.specs.declared.step.Action.TheVariants as action;
ghost use Rattle.sdl_transition_behaviour.specs.declared.step.Next.TheVariants as next;
ghost use Rattle.sdl_graph.specs.Drafts.{ConformsToNone};

use crate::limits::fitting_values;
use arrayvec::ArrayVec;
use sdl_signal::{Pid, SetId, Signal, SignalId, StateId, Value};
use sdl_transition_behaviour::{Action, Dest, Frame, Next, Step, Via};
use std::marker::Model;

/// A step that is being put together. What finds no room is remembered: then `build` gives a step that conforms to no offer.
#[derive(Drop)]
pub struct StepBuilder {
    step: Step,
    fits: bool,
}

impl Model for StepBuilder {
    ghost use Rattle.sdl_graph.specs.Drafts.{StepDraft};

    ghost Value = { StepDraft };

    ghost view = { λ b. record { step = b.step; fits = b.fits } };
}

/// A step that conforms to no offer: it outputs to an instance of serial number 0, which no instance has.
pub fn no_step() -> Step
    ensures { ConformsToNone result }
{
    let mut actions = ArrayVec::new();
    actions.push(Action::Output {
        signal: Signal::default(),
        dest: Dest::Pid(Pid::Inst(SetId(0), 0)),
        via: Via::Any,
    });
    Step {
        actions,
        vars: ArrayVec::new(),
        next: Next::Stop,
    }
}

impl StepBuilder {
    /// A step without actions that leaves the variables as they are and ends so.
    fn ends(frame: &Frame, next: Next) -> StepBuilder
        ensures { result ≡ record { step = record { actions = record { items = [] }; vars = frame.now.vars; next = next }; fits = true } }
    {
        match fitting_values(frame.vars.as_slice()) {
            Some(vars) => StepBuilder {
                step: Step {
                    actions: ArrayVec::new(),
                    vars,
                    next,
                },
                fits: true,
            },
            None => unreachable!(),
        }
    }

    /// A step that goes to the state, without actions, and leaves the variables as they are.
    pub fn next_state(frame: &Frame, state: StateId) -> StepBuilder
        ensures { result ≡ record { step = record { actions = record { items = [] }; vars = frame.now.vars; next = next.State state }; fits = true } }
    {
        StepBuilder::ends(frame, Next::State(state))
    }

    /// A step that stops, without actions.
    pub fn stop(frame: &Frame) -> StepBuilder
        ensures { result ≡ record { step = record { actions = record { items = [] }; vars = frame.now.vars; next = next.Stop }; fits = true } }
    {
        StepBuilder::ends(frame, Next::Stop)
    }

    fn act(self, action: Action) -> StepBuilder
        ensures fits { IsTrue result.fits ↔ (IsTrue self.fits × array_vec_len self.step.actions < 8) }
        ensures step { IsTrue result.fits → result.step ≡ record self.step { actions = record { items = self.step.actions.items ++ action ∷ [] } } }
    {
        let mut builder = self;
        let added = builder.step.actions.try_push(action).is_ok();
        builder.fits &= added;
        builder
    }

    /// Then it outputs the signal with these parameters, at most 4, to `dest`, with this VIA. There are at most 8 actions.
    pub fn output(self, id: SignalId, params: &[Value], dest: Dest, via: Via) -> StepBuilder
        ensures fits { IsTrue result.fits ↔ (IsTrue self.fits × length params.now ≤ 4 × array_vec_len self.step.actions < 8) }
        ensures step { IsTrue result.fits → result.step ≡ record self.step {
          actions = record { items = self.step.actions.items ++ action.Output (record { id = id; params = record { items = params.now } }) dest via ∷ [] };
        } }
    {
        match fitting_values(params) {
            Some(params) => {
                let signal = Signal { id, params };
                self.act(Action::Output { signal, dest, via })
            }
            None => {
                let mut builder = self;
                builder.fits = false;
                builder
            }
        }
    }

    /// Then it creates an instance of the set. There are at most 8 actions.
    pub fn create(self, set: SetId) -> StepBuilder
        ensures fits { IsTrue result.fits ↔ (IsTrue self.fits × array_vec_len self.step.actions < 8) }
        ensures step { IsTrue result.fits → result.step ≡ record self.step { actions = record { items = self.step.actions.items ++ action.Create set ∷ [] } } }
    {
        self.act(Action::Create(set))
    }

    /// The variable at this place, from 0, has the value after the step.
    pub fn set_variable(self, place: usize, value: Value) -> StepBuilder
        ensures fits { IsTrue result.fits ↔ (IsTrue self.fits × place < array_vec_len self.step.vars) }
        ensures step { IsTrue result.fits → result.step ≡ record self.step { vars = record { items = slice_set self.step.vars.items place value } } }
    {
        let mut builder = self;
        if place < builder.step.vars.len() {
            builder.step.vars[place] = value;
        } else {
            builder.fits = false;
        }
        builder
    }

    /// The step where all that was said of it found room, and else one that conforms to no offer.
    pub fn build(self) -> Step
        ensures whole { IsTrue self.fits → result ≡ self.step }
        ensures none { ¬ IsTrue self.fits → ConformsToNone result }
    {
        if self.fits { self.step } else { no_step() }
    }
}
