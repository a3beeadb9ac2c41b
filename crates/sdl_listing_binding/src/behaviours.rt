//! The behaviours of the sets, made of the stored transitions in their order.
ghost use Rattle.std.specs.Prelude.{◌≡◌, ◌+◌, ◌<◌, ◌≤◌, ◌++◌, map, length, IfOk};
ghost use Rattle.std.specs.List.{AllByRecursion};
ghost use Rattle.sdl_listing_binding.specs.Parts.{head_parts, behaviour_head, transitions_in, all_transitions, count_of, IsByOffer};

use crate::faults::ListingFault;
use crate::laying::{Head, push_last};
use sdl_signal::lists::take_front;
use sdl_transition_behaviour::{Behaviour, Row, Transition};
use std::alloc::Global;
use std::collections::VecDeque;

/// The row of a transition, for the state and the signal of its offer.
fn row_of<S>(transition: Transition<S>) -> Result<Row<S>, ListingFault>
    ensures transition { IfOk result (λ row. row.transition ≡ transition) }
    ensures by_offer { IfOk result IsByOffer }
{
    match (transition.offer.state, &transition.offer.signal) {
        (Some(state), Some(sorts)) => {
            let signal = sorts.id;
            Ok(Row {
                state,
                signal,
                transition,
            })
        }
        _ => Err(ListingFault::NoTrigger(transition.number)),
    }
}

/// Puts the row of the first of the transitions that are left behind the other rows.
fn take_row<S>(
    rows: &mut Vec<Row<S>>,
    left: &mut VecDeque<Transition<S>>,
) -> Result<(), ListingFault>
    requires { 0 < length left.old.items }
    ensures taken { IfOk result (λ _. map (λ r. r.transition) rows.new.items ++ left.new.items ≡ map (λ r. r.transition) rows.old.items ++ left.old.items) }
    ensures one { IfOk result (λ _. length rows.new.items ≡ length rows.old.items + 1) }
    ensures less { length left.old.items ≡ length left.new.items + 1 }
    ensures by_offer { AllByRecursion IsByOffer rows.old.items → IfOk result (λ _. AllByRecursion IsByOffer rows.new.items) }
{
    let row = row_of(take_front(left))?;
    push_last(rows, row)?;
    Ok(())
}

/// Puts the rows of the first of the transitions that are left behind the other rows, as many as `count`.
fn take_rows<S>(
    rows: &mut Vec<Row<S>>,
    left: &mut VecDeque<Transition<S>>,
    count: usize,
) -> Result<(), ListingFault>
    requires { count ≤ length left.old.items }
    ensures taken { IfOk result (λ _. map (λ r. r.transition) rows.new.items ++ left.new.items ≡ map (λ r. r.transition) rows.old.items ++ left.old.items) }
    ensures more { IfOk result (λ _. length rows.new.items ≡ length rows.old.items + count) }
    ensures less { IfOk result (λ _. length left.old.items ≡ length left.new.items + count) }
    ensures by_offer { AllByRecursion IsByOffer rows.old.items → IfOk result (λ _. AllByRecursion IsByOffer rows.new.items) }
{
    if count == 0 {
        return Ok(());
    }
    take_row(rows, left)?;
    take_rows(rows, left, count - 1)
}

/// The behaviour of a set, of the first of the transitions that are left.
fn behaviour_of<S>(
    alloc: Global,
    head: Head,
    left: &mut VecDeque<Transition<S>>,
) -> Result<Behaviour<S>, ListingFault>
    requires { head.rows < length left.old.items }
    ensures head { IfOk result (λ b. behaviour_head b ≡ head_parts head) }
    ensures taken { IfOk result (λ b. transitions_in b ++ left.new.items ≡ left.old.items) }
    ensures less { IfOk result (λ _. length left.old.items ≡ length left.new.items + (1 + head.rows)) }
    ensures by_offer { IfOk result (λ b. AllByRecursion IsByOffer b.rows.items) }
{
    let Head {
        set,
        uses,
        vars,
        states,
        saves,
        rows: count,
    } = head;
    let start = take_front(left);
    let mut rows = Vec::new(alloc);
    take_rows(&mut rows, left, count)?;
    Ok(Behaviour {
        set,
        uses,
        vars,
        states,
        start,
        rows,
        saves,
    })
}

/// The behaviours of all sets, of all transitions in their order.
pub fn behaviours_of<S>(
    alloc: Global,
    heads: Vec<Head>,
    transitions: VecDeque<Transition<S>>,
) -> Result<Vec<Behaviour<S>>, ListingFault>
    requires { length transitions.items ≡ count_of (map head_parts heads.items) }
    ensures heads { IfOk result (λ bs. map behaviour_head bs.items ≡ map head_parts heads.items) }
    ensures taken { IfOk result (λ bs. all_transitions bs.items ≡ transitions.items) }
    ensures by_offer { IfOk result (λ bs. AllByRecursion (λ b. AllByRecursion IsByOffer b.rows.items) bs.items) }
{
    let mut left = transitions;
    let mut made = Vec::new(alloc);
    for head in heads {
        let behaviour = behaviour_of(alloc, head, &mut left)?;
        push_last(&mut made, behaviour)?;
    }
    Ok(made)
}
