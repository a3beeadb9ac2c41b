//! What of a step its offer does not allow.
ghost use Rattle.std.specs.Prelude.{◌≡◌, ◌≤◌, All, length, IsTrue, ◌↔◌, IsNone, IfSome, IfNone};
ghost use Rattle.sdl_transition_behaviour.specs.Offers.{IsLegalValue, IsLegalDest, IsActionOf, Conforms};
ghost use Rattle.sdl_signal.specs.Sorts.{AreOfSorts, sort_of};
ghost use Rattle.sdl_transition_conformance.specs.Breaches.{NamesLegal, IsBreachOfAction, IsFirstOfActions, IsFirstVariable, IsFirstBroken, breach_of_end};

use crate::conformance::{is_action_of, is_next_of};
use sdl_signal::{SetId, Signal, SignalId, Sort, StateId, Value};
use sdl_transition_behaviour::legality::{are_legal, is_legal_dest, is_legal_pid};
use sdl_transition_behaviour::{Action, Dest, Next, Offer, Step, Via};

/// A part of a step that the offer does not allow.
#[derive(Clone, Copy, Debug, PartialEq, Eq)]
pub enum Breach {
    /// An output of the signal names a Pid that no instance can have, as its destination or a parameter.
    NoInstance(SignalId),
    /// No output is offered of the signal with this VIA and with parameters of these sorts.
    Output(SignalId, Via),
    /// A create of the set is not offered.
    Create(SetId),
    /// The next state is not offered.
    NextState(StateId),
    /// A stop is not offered.
    Stop,
    /// The variable at this place has another sort than the offer says, or names a Pid that no instance can have; or one of the two
    /// has no variable there.
    Variable(usize),
}

/// Whether the Pids that an output names can be ones.
fn names_legal(offer: &Offer, signal: &Signal, dest: Dest) -> bool
    ensures { IsTrue result ↔ NamesLegal offer.now signal.now dest }
{
    are_legal(offer.sets as usize, signal.params.as_slice())
        && is_legal_dest(offer.sets as usize, dest)
}

/// What is said of an action that is not offered.
fn breach_by(offer: &Offer, action: &Action) -> Breach
    requires { ¬ IsActionOf offer.now action.now }
    ensures { IsBreachOfAction offer.now action.now result }
{
    match action {
        Action::Output { signal, dest, via } => {
            if names_legal(offer, signal, *dest) {
                Breach::Output(signal.id, *via)
            } else {
                Breach::NoInstance(signal.id)
            }
        }
        Action::Create(set) => Breach::Create(*set),
    }
}

/// What is said of the first action that is not offered.
#[tactic(auto, using(crate::proofs::Breaches::first_here, crate::proofs::Breaches::first_behind))]
fn first_of_actions(offer: &Offer, actions: &[Action]) -> Option<Breach>
    ensures some { IfSome result (IsFirstOfActions offer.now actions.now) }
    ensures none { IfNone result (All (IsActionOf offer.now) actions.now) }
{
    match actions {
        [] => None,
        [action, rest @ ..] => {
            if is_action_of(offer, action) {
                first_of_actions(offer, rest)
            } else {
                Some(breach_by(offer, action))
            }
        }
    }
}

/// Whether a variable has the sort, and can be one.
fn fits(sets: usize, value: &Value, sort: Sort) -> bool
    ensures { IsTrue result ↔ ((sort_of value.now ≡ sort) × IsLegalValue sets value.now) }
{
    value.sort() == sort
        && match value {
            Value::Pid(pid) => is_legal_pid(sets, *pid),
            Value::Integer(_) => true,
            Value::Boolean(_) => true,
        }
}

/// The first place at which the variables are not as offered.
#[tactic(auto, using(crate::proofs::Breaches::variable_behind, crate::proofs::Breaches::variables_behind, crate::proofs::Breaches::variable_missing, crate::proofs::Breaches::variable_over, crate::proofs::Breaches::variable_here))]
fn first_variable(sets: usize, values: &[Value], sorts: &[Sort]) -> Option<usize>
    ensures some { IfSome result (IsFirstVariable sets values.now sorts.now) }
    ensures none { IfNone result (AreOfSorts values.now sorts.now × All (IsLegalValue sets) values.now) }
    ensures within { IfSome result (λ place. place ≤ length values.now) }
{
    match (values, sorts) {
        ([], []) => None,
        ([value, values @ ..], [sort, sorts @ ..]) => {
            if fits(sets, value, *sort) {
                let place = first_variable(sets, values, sorts)?;
                Some(place + 1)
            } else {
                Some(0)
            }
        }
        ([], [_, ..]) => Some(0),
        ([_, ..], []) => Some(0),
    }
}

/// What is said of an end that is not offered.
fn breach_by_end(next: Next) -> Breach
    ensures { result ≡ breach_of_end next }
{
    match next {
        Next::State(state) => Breach::NextState(state),
        Next::Stop => Breach::Stop,
    }
}

/// What of a step its offer does not allow: the first of its actions, else its end, else the first of its variables. None where the
/// step conforms to the offer. No memory is taken.
#[tactic(auto, using(crate::proofs::Breaches::actions_break, crate::proofs::Breaches::end_breaks, crate::proofs::Breaches::variables_break))]
pub fn first_broken(offer: &Offer, step: &Step) -> Option<Breach>
    ensures exact { IsNone result ↔ Conforms offer.now step.now }
    ensures first { IfSome result (IsFirstBroken offer.now step.now) }
{
    if let Some(breach) = first_of_actions(offer, step.actions.as_slice()) {
        return Some(breach);
    }
    if !is_next_of(offer, step.next) {
        return Some(breach_by_end(step.next));
    }
    let vars = step.vars.as_slice();
    let place = first_variable(offer.sets as usize, vars, offer.vars.as_slice())?;
    Some(Breach::Variable(place))
}
