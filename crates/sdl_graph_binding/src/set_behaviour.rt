//! The behaviour of a set, made of the first of the transitions that are left.
ghost use Rattle.std.specs.Prelude.{◌≡◌, ◌+◌, ◌<◌, [], ◌∷◌, ◌++◌, map, length, position, bytes_eq, IfOk, IfSome, IfNone};
ghost use Rattle.std.specs.List.{AllByRecursion};
ghost use Rattle.sdl_signal.specs.Reading.{IsNamedAt, IsNowhere};
ghost use Rattle.sdl_transition_behaviour.specs.Transitions.{IsAllowedBehaviour};
ghost use Rattle.sdl_graph_binding.specs.Transitions.{IsByOffer, transitions_in, use_meant, use_made, save_made};

use crate::agents::GraphAgents;
use crate::faults::GraphFault;
use crate::sets::Use;
use arrayvec::ArrayVec;
use sdl_graph::Graph;
use sdl_signal::lists::take_first;
use sdl_signal::{Name, SetId, SignalId, StateId, name};
use sdl_structure_parts::Set;
use sdl_structure_parts::limits::{MOST_ROWS, MOST_USES};
use sdl_transition_behaviour::{Behaviour, Named, Row, Transition};
use sdl_transition_saves::MOST_SAVES;

/// The place of the first set whose name is `text`.
fn place_of_set(sets: &[Set], text: &str) -> Option<usize>
    ensures place { result ≡ position (λ t. bytes_eq t.name.bytes text.now) sets.now }
    ensures within { IfSome result (λ i. i < length sets.now) }
{
    sets.iter().position(|set| set.name.as_str() == text)
}

/// The first set of this name.
pub fn set_named(sets: &[Set], text: &str) -> Option<usize>
    ensures found { IfSome result (IsNamedAt (λ t. t.name.bytes) sets.now text.now) }
    ensures absent { IfNone result (IsNowhere (λ t. t.name.bytes) sets.now text.now) }
    ensures within { IfSome result (λ i. i < length sets.now) }
{
    let Some(place) = place_of_set(sets, text) else {
        return None;
    };
    Some(place)
}

/// The names of these texts, behind those that are there.
pub fn with_states(states: ArrayVec<Name, 16>, texts: &[&str]) -> Option<ArrayVec<Name, 16>>
    ensures { IfSome result (λ names. map (λ n. n.bytes) names.items ≡ map (λ n. n.bytes) states.items ++ map (λ t. t.now) texts.now) }
{
    match texts {
        [] => Some(states),
        [text, rest @ ..] => {
            let mut states = states;
            match states.try_push(name(text)?) {
                Ok(()) => with_states(states, rest),
                Err(_) => None,
            }
        }
    }
}

fn with_use<G: Graph>(
    behaviour: Behaviour<GraphAgents<G>>,
    used: Use,
) -> Result<Behaviour<GraphAgents<G>>, GraphFault>
    requires { IsAllowedBehaviour (λ _ _ _. Unit {0}) behaviour }
    ensures allowed { IfOk result (IsAllowedBehaviour (λ _ _ _. Unit {0})) }
    ensures added { IfOk result (λ b. map use_made b.uses.items ≡ map use_made behaviour.uses.items ++ use_meant used.entry ∷ []) }
    ensures same { IfOk result (λ b. b ≡ record behaviour { uses = b.uses }) }
{
    let mut behaviour = behaviour;
    let (kind, number, text) = used;
    let Some(name) = name(text) else {
        return Err(GraphFault::BadUses);
    };
    if behaviour.uses.len() >= MOST_USES {
        return Err(GraphFault::BadUses);
    }
    match behaviour.add_use(Named { kind, number, name }) {
        Ok(()) => Ok(behaviour),
        Err(_) => Err(GraphFault::Memory),
    }
}

/// The behaviour with these uses too.
pub fn with_uses<G: Graph>(
    behaviour: Behaviour<GraphAgents<G>>,
    uses: &[Use],
) -> Result<Behaviour<GraphAgents<G>>, GraphFault>
    requires { IsAllowedBehaviour (λ _ _ _. Unit {0}) behaviour }
    ensures allowed { IfOk result (IsAllowedBehaviour (λ _ _ _. Unit {0})) }
    ensures uses { IfOk result (λ b. map use_made b.uses.items ≡ map use_made behaviour.uses.items ++ map use_meant uses.now) }
    ensures same { IfOk result (λ b. b ≡ record behaviour { uses = b.uses }) }
{
    match uses {
        [] => Ok(behaviour),
        [one, rest @ ..] => with_uses(with_use(behaviour, *one)?, rest),
    }
}

fn with_save<G: Graph>(
    behaviour: Behaviour<GraphAgents<G>>,
    save: (StateId, SignalId),
) -> Result<Behaviour<GraphAgents<G>>, GraphFault>
    requires { IsAllowedBehaviour (λ _ _ _. Unit {0}) behaviour }
    ensures allowed { IfOk result (IsAllowedBehaviour (λ _ _ _. Unit {0})) }
    ensures added { IfOk result (λ b. map save_made b.saves.items ≡ map save_made behaviour.saves.items ++ save ∷ []) }
    ensures same { IfOk result (λ b. b ≡ record behaviour { saves = b.saves }) }
{
    let mut behaviour = behaviour;
    if behaviour.saves.len() >= MOST_SAVES {
        return Err(GraphFault::ManySaves(behaviour.set));
    }
    let (state, signal) = save;
    match behaviour.add_save(state, signal) {
        Ok(()) => Ok(behaviour),
        Err(_) => Err(GraphFault::Memory),
    }
}

/// The behaviour with these saves too.
pub fn with_saves<G: Graph>(
    behaviour: Behaviour<GraphAgents<G>>,
    saves: &[(StateId, SignalId)],
) -> Result<Behaviour<GraphAgents<G>>, GraphFault>
    requires { IsAllowedBehaviour (λ _ _ _. Unit {0}) behaviour }
    ensures allowed { IfOk result (IsAllowedBehaviour (λ _ _ _. Unit {0})) }
    ensures saves { IfOk result (λ b. map save_made b.saves.items ≡ map save_made behaviour.saves.items ++ saves.now) }
    ensures same { IfOk result (λ b. b ≡ record behaviour { saves = b.saves }) }
{
    match saves {
        [] => Ok(behaviour),
        [one, rest @ ..] => with_saves(with_save(behaviour, *one)?, rest),
    }
}

/// The row of a transition, for the state and the signal of its offer.
fn row_of<G: Graph>(
    transition: Transition<GraphAgents<G>>,
) -> Result<Row<GraphAgents<G>>, GraphFault>
    ensures transition { IfOk result (λ row. row.transition ≡ transition) }
    ensures by_offer { IfOk result IsByOffer }
{
    match (transition.offer.state, &transition.offer.signal) {
        (Some(state), Some(sorts)) => {
            let signal = sorts.id;
            Ok(Row {
                state,
                signal,
                transition,
            })
        }
        _ => Err(GraphFault::NoTrigger(transition.number)),
    }
}

/// The behaviour with one row more.
fn with_row<G: Graph>(
    behaviour: Behaviour<GraphAgents<G>>,
    row: Row<GraphAgents<G>>,
) -> Result<Behaviour<GraphAgents<G>>, GraphFault>
    requires { IsAllowedBehaviour (λ _ _ _. Unit {0}) behaviour }
    ensures allowed { IfOk result (IsAllowedBehaviour (λ _ _ _. Unit {0})) }
    ensures added { IfOk result (λ b. b.rows.items ≡ behaviour.rows.items ++ row ∷ []) }
    ensures same { IfOk result (λ b. b ≡ record behaviour { rows = b.rows }) }
{
    let mut behaviour = behaviour;
    if behaviour.rows.len() >= MOST_ROWS {
        return Err(GraphFault::ManyRows(behaviour.set));
    }
    match behaviour.add_row(row) {
        Ok(()) => Ok(behaviour),
        Err(_) => Err(GraphFault::Memory),
    }
}

/// The row of the first of the transitions that are left, for a set.
fn next_row<G: Graph>(
    set: SetId,
    left: &mut Vec<Transition<GraphAgents<G>>>,
) -> Result<Row<GraphAgents<G>>, GraphFault>
    ensures taken { IfOk result (λ row. left.old.items ≡ row.transition ∷ left.new.items) }
    ensures by_offer { IfOk result IsByOffer }
{
    if left.len() == 0 {
        return Err(GraphFault::FewTransitions(set));
    }
    row_of(take_first(left))
}

/// The behaviour with the first of the transitions that are left as its next rows, as many as `rows`.
pub fn with_rows<G: Graph>(
    behaviour: Behaviour<GraphAgents<G>>,
    left: &mut Vec<Transition<GraphAgents<G>>>,
    rows: usize,
) -> Result<Behaviour<GraphAgents<G>>, GraphFault>
    requires allowed { IsAllowedBehaviour (λ _ _ _. Unit {0}) behaviour }
    requires rows { AllByRecursion IsByOffer behaviour.rows.items }
    ensures allowed { IfOk result (IsAllowedBehaviour (λ _ _ _. Unit {0})) }
    ensures rows { IfOk result (λ b. AllByRecursion IsByOffer b.rows.items) }
    ensures count { IfOk result (λ b. length b.rows.items ≡ length behaviour.rows.items + rows) }
    ensures taken { IfOk result (λ b. transitions_in b ++ left.new.items ≡ transitions_in behaviour ++ left.old.items) }
    ensures same { IfOk result (λ b. b ≡ record behaviour { rows = b.rows }) }
{
    if rows == 0 {
        return Ok(behaviour);
    }
    let row = next_row(behaviour.set, left)?;
    let longer = with_row(behaviour, row)?;
    with_rows(longer, left, rows - 1)
}
