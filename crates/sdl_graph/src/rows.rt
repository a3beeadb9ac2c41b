//! The rows of the agents of a set, found by their steps, with their offers.
use crate::agent::{Agent, NoStep};
use crate::lists::{Inward, first_parameters};
use crate::offers::{OfferBuilder, no_offer};
use crate::states::{States, number_of};
use sdl_transition_behaviour::Offer;

/// Whether the state saves the signal, has no transition for it, or neither: what its step answers to the first frame.
fn made_by<A: Agent>(state: A::State, inward: Inward) -> Option<NoStep> {
    let (id, sorts) = inward;
    let most = sorts.len().min(4);
    let parameters = first_parameters(&sorts[..most]);
    let frame = A::frame(state, id, parameters.as_slice());
    A::step(state, id, &frame).err()
}

/// Whether the signal has a row in the state: a transition, also one that finds nothing to read there.
fn is_row<A: Agent>(state: A::State, inward: Inward) -> bool {
    matches!(made_by::<A>(state, inward), None | Some(NoStep::Missing))
}

/// Whether the state saves the signal.
pub fn is_saved<A: Agent>(state: A::State, inward: Inward) -> bool {
    matches!(made_by::<A>(state, inward), Some(NoStep::Save))
}

/// How many rows the state has.
fn rows_in<A: Agent>(state: A::State) -> usize {
    let mut rows = 0_usize;
    for inward in A::LISTS.inward {
        if is_row::<A>(state, *inward) {
            rows = rows.saturating_add(1);
        }
    }
    rows
}

/// How many transitions the agents of the set have: the start and the rows.
pub fn transitions_of<A: Agent>() -> usize {
    let mut transitions = 1_usize;
    for (state, _) in A::State::STATES {
        transitions = transitions.saturating_add(rows_in::<A>(*state));
    }
    transitions
}

/// The signal of a row of the state, which is the one behind `before` others.
fn row_in<A: Agent>(state: A::State, before: usize) -> Option<Inward> {
    let mut left = before;
    for inward in A::LISTS.inward {
        if is_row::<A>(state, *inward) {
            if left == 0 {
                return Some(*inward);
            }
            left -= 1;
        }
    }
    None
}

/// The state and the signal of a row of the set, which is the one behind `before` others. Rows are in the order of the states, and of a
/// state in the order of the signals.
fn row_at<A: Agent>(before: usize) -> Option<(A::State, Inward)> {
    let mut left = before;
    for (state, _) in A::State::STATES {
        let rows = rows_in::<A>(*state);
        if left < rows {
            return Some((*state, row_in::<A>(*state, left)?));
        }
        left -= rows;
    }
    None
}

/// The offer of all that the set may do, for a start.
fn all_of<A: Agent>() -> OfferBuilder {
    OfferBuilder::all(&A::LISTS, A::State::STATES.len(), A::VARIABLES)
}

/// The offer of a row: the designer's own, or all that the set may do.
fn offer_of_row<A: Agent>(state: A::State, inward: Inward) -> Offer {
    let (id, sorts) = inward;
    match A::offer(Some((state, id))) {
        Some(offer) => offer,
        None => all_of::<A>().row(number_of(state), id, sorts).build(),
    }
}

/// The offer of the transition of this number in the set, where 0 is the start.
fn offer_of<A: Agent>(number: usize) -> Offer {
    let Some(before) = number.checked_sub(1) else {
        return match A::offer(None) {
            Some(offer) => offer,
            None => all_of::<A>().build(),
        };
    };
    match row_at::<A>(before) {
        Some((state, inward)) => offer_of_row::<A>(state, inward),
        None => no_offer(),
    }
}

/// The offer of a transition that is behind `left` others of this set and those after it. Where it is of a set after it, there is none
/// here, and the transitions of this set are taken from `left`.
pub fn offer_in<A: Agent>(left: &mut usize) -> Option<Offer> {
    let transitions = transitions_of::<A>();
    match left.checked_sub(transitions) {
        Some(behind) => {
            *left = behind;
            None
        }
        None => Some(offer_of::<A>(*left)),
    }
}
