//! Steps that are put together where they stand, for `Graph::fill`.
ghost use Rattle.std.specs.Prelude.{◌≡◌, ◌<◌, ◌≤◌, ◌∷◌, [], ◌++◌, length, slice_set};
ghost use Rattle.arrayvec.specs.ArrayVec.{array_vec_len};
ghost use Rattle.sdl_transition_behaviour.specs.declared.step.Action.TheVariants as action;
ghost use Rattle.sdl_transition_behaviour.specs.declared.step.Next.TheVariants as next;
ghost use Rattle.sdl_graph.specs.Drafts.{ConformsToNone};

use crate::limits::fitting_values;
use crate::steps::no_step;
use sdl_signal::{SetId, Signal, SignalId, StateId, Value};
use sdl_transition_behaviour::{Action, Dest, Frame, Next, Step, Via};

/// The variables are those of the frame, and this is how the step ends.
#[inline(always)]
fn end(step: &mut Step, frame: &Frame, next: Next)
    ensures { step.new ≡ record step.old { vars = frame.now.vars; next = next } }
{
    step.vars.clear();
    match step.vars.try_extend_from_slice(frame.vars.as_slice()) {
        Ok(()) => step.next = next,
        Err(_) => unreachable!(),
    }
}

/// The step goes to the state, and leaves the variables as they are in the frame.
#[inline(always)]
pub fn next_state(step: &mut Step, frame: &Frame, state: StateId)
    ensures { step.new ≡ record step.old { vars = frame.now.vars; next = next.State state } }
{
    end(step, frame, Next::State(state));
}

/// The step stops.
#[inline(always)]
pub fn stop(step: &mut Step, frame: &Frame)
    ensures { step.new ≡ record step.old { vars = frame.now.vars; next = next.Stop } }
{
    end(step, frame, Next::Stop);
}

/// Adds an action. Where there are 8 already, the step becomes one that conforms to no offer.
#[inline(always)]
fn act(step: &mut Step, action: Action)
    ensures fits { length step.old.actions.items < 8 → step.new ≡ record step.old { actions = record { items = step.old.actions.items ++ action ∷ [] } } }
    ensures none { 8 ≤ length step.old.actions.items → ConformsToNone step.new }
{
    if step.actions.len() < 8 {
        step.actions.push(action);
    } else {
        *step = no_step();
    }
}

/// Then it outputs the signal with these parameters, at most 4, to `dest`, with this VIA. There are at most 8 actions. What finds
/// no room makes the step one that conforms to no offer.
#[inline(always)]
pub fn output(step: &mut Step, id: SignalId, params: &[Value], dest: Dest, via: Via)
    ensures fits { length params.now ≤ 4 → length step.old.actions.items < 8 → step.new ≡ record step.old {
      actions = record { items = step.old.actions.items ++ action.Output (record { id = id; params = record { items = params.now } }) dest via ∷ [] };
    } }
    ensures long { 4 < length params.now → ConformsToNone step.new }
    ensures none { 8 ≤ length step.old.actions.items → ConformsToNone step.new }
{
    match fitting_values(params) {
        Some(params) => {
            let signal = Signal { id, params };
            act(step, Action::Output { signal, dest, via });
        }
        None => *step = no_step(),
    }
}

/// Then it creates an instance of the set. There are at most 8 actions.
#[inline(always)]
pub fn create(step: &mut Step, set: SetId)
    ensures fits { length step.old.actions.items < 8 → step.new ≡ record step.old { actions = record { items = step.old.actions.items ++ action.Create set ∷ [] } } }
    ensures none { 8 ≤ length step.old.actions.items → ConformsToNone step.new }
{
    act(step, Action::Create(set));
}

/// The variable at this place, from 0, has the value after the step. Where there is none, the step becomes one that conforms to no
/// offer.
#[inline(always)]
pub fn set_variable(step: &mut Step, place: usize, value: Value)
    ensures fits { place < length step.old.vars.items → step.new ≡ record step.old { vars = record { items = slice_set step.old.vars.items place value } } }
    ensures none { length step.old.vars.items ≤ place → ConformsToNone step.new }
{
    if place < step.vars.len() {
        step.vars[place] = value;
    } else {
        *step = no_step();
    }
}
