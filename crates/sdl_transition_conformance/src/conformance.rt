//! Whether a step conforms to the offer of its transition.
ghost use Rattle.std.specs.Prelude.{◌≡◌, ℕ, ◌<◌, IsTrue, ◌↔◌, All, Any, Contains, length};
ghost use Rattle.std.specs.List.{HoldsAt};
ghost use Rattle.sdl_transition_behaviour.specs.Offers.{IsLegalValue, IsLegalDest, IsOfferedAs, IsActionOf, IsNextOf, Conforms};

use sdl_signal::{SetId, Signal, StateId, Value};
use sdl_transition_behaviour::legality::{are_legal, is_legal_dest};
use sdl_transition_behaviour::{Action, Dest, Next, Offer, OfferedOutput, Step, Via};

/// What tells most outputs apart is compared first: the signal, then the VIA, and only then the sorts.
fn is_offered_as(signal: &Signal, via: Via, output: &OfferedOutput) -> bool
    ensures { IsTrue result ↔ IsOfferedAs signal.now via output.now }
{
    output.signal.id == signal.id
        && output.via == via
        && Value::are_of_sorts(signal.params.as_slice(), output.signal.sorts.as_slice())
}

fn is_offered(outputs: &[OfferedOutput], signal: &Signal, via: Via) -> bool
    ensures { IsTrue result ↔ Any (IsOfferedAs signal.now via) outputs.now }
{
    outputs
        .iter()
        .any(|output| is_offered_as(signal, via, output))
}

fn has_create(creates: &[SetId], set: SetId) -> bool
    ensures { IsTrue result ↔ Contains creates.now set }
{
    creates.iter().any(|other| *other == set)
}

fn has_next(nexts: &[StateId], state: StateId) -> bool
    ensures { IsTrue result ↔ Contains nexts.now state }
{
    nexts.iter().any(|other| *other == state)
}

fn offers_output(outputs: &[OfferedOutput], signal: &Signal, via: Via) -> bool
    ensures { IsTrue result ↔ ∥ ((k : ℕ) × (k < length outputs.now) × HoldsAt (IsOfferedAs signal.now via) outputs.now k) ∥₁ }
{
    is_offered(outputs, signal, via)
}

fn offers_create(creates: &[SetId], set: SetId) -> bool
    ensures { IsTrue result ↔ ∥ Contains creates.now set ∥₁ }
{
    has_create(creates, set)
}

fn offers_next(nexts: &[StateId], state: StateId) -> bool
    ensures { IsTrue result ↔ ∥ Contains nexts.now state ∥₁ }
{
    has_next(nexts, state)
}

fn is_output_of(outputs: &[OfferedOutput], sets: u32, signal: &Signal, to: Dest, via: Via) -> bool
    ensures { IsTrue result ↔ (∥ ((k : ℕ) × (k < length outputs.now) × HoldsAt (IsOfferedAs signal.now via) outputs.now k) ∥₁ × All (IsLegalValue sets) signal.now.params.items × IsLegalDest sets to) }
{
    offers_output(outputs, signal, via)
        && are_legal(sets as usize, signal.params.as_slice())
        && is_legal_dest(sets as usize, to)
}

pub(crate) fn is_action_of(offer: &Offer, action: &Action) -> bool
    ensures { IsTrue result ↔ IsActionOf offer.now action.now }
{
    match action {
        Action::Output { signal, dest, via } => is_output_of(
            offer.outputs.as_slice(),
            offer.sets,
            signal,
            *dest,
            *via,
        ),
        Action::Create(set) => offers_create(offer.creates.as_slice(), *set),
    }
}

fn are_actions_of(offer: &Offer, actions: &[Action]) -> bool
    ensures { IsTrue result ↔ All (IsActionOf offer.now) actions.now }
{
    actions.iter().all(|action| is_action_of(offer, action))
}

pub(crate) fn is_next_of(offer: &Offer, next: Next) -> bool
    ensures { IsTrue result ↔ IsNextOf offer.now next }
{
    match next {
        Next::State(state) => offers_next(offer.nexts.as_slice(), state),
        Next::Stop => offer.may_stop,
    }
}

/// Whether the step conforms to the offer. It costs a look at each variable and each action. An action costs one
/// comparison with each output of the offer up to the one that it is. No memory is taken.
pub fn conforms(offer: &Offer, step: &Step) -> bool
    ensures { IsTrue result ↔ Conforms offer.now step.now }
{
    is_next_of(offer, step.next)
        && Value::are_of_sorts(step.vars.as_slice(), offer.vars.as_slice())
        && are_legal(offer.sets as usize, step.vars.as_slice())
        && are_actions_of(offer, step.actions.as_slice())
}
