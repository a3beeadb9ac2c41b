//! Whether a row is sound.
ghost use Rattle.std.specs.Prelude.{◌≡◌, ◌≤◌, ◌↔◌, IsTrue, IfSome, None, Some, length, slice_get};
ghost use Rattle.sdl_listing_body.specs.Offering.{sorts_of, offer_of};
ghost use Rattle.sdl_listing_body.specs.Sound as rule;
ghost use Rattle.sdl_listing_body.specs.Sound.{AreSorted, IsGoalIn, IsSortedBody, most_going_on, most_actions, most_params, trigger_sorts, HasRoom, IsMadeAfter, IsSound};

use crate::offers::{blank_offer, collect};
use crate::syntax::{Body, Goal, Params, Row};
use sdl_listing_expression::{is_sorted, sort_of};
use sdl_signal::Sort;
use sdl_transition_behaviour::SignalSorts;

fn are_sorted(all: &Params, sets: u32, params: &[Sort], vars: &[Sort]) -> bool
    ensures { IsTrue result ↔ AreSorted (record { sets = sets; params = params.now; vars = vars.now }) all.now }
{
    match all {
        Params::Nothing => true,
        Params::First { value, rest } => {
            is_sorted(value, sets, params, vars) && are_sorted(rest, sets, params, vars)
        }
    }
}

fn is_goal(to: &Goal, sets: u32, params: &[Sort], vars: &[Sort]) -> bool
    ensures { IsTrue result ↔ IsGoalIn (record { sets = sets; params = params.now; vars = vars.now }) to.now }
{
    match to {
        Goal::Anywhere => true,
        Goal::Own(_) => true,
        Goal::Set(set) => set.0 < sets,
        Goal::Pid(e) => is_sorted(e, sets, params, vars) && sort_of(e) == Sort::Pid,
    }
}

/// Whether the variable at the place is of the sort.
fn has(vars: &[Sort], place: usize, sort: Sort) -> bool
    ensures { IsTrue result ↔ (slice_get vars.now place ≡ Some sort) }
{
    match vars.get(place) {
        Some(own) => *own == sort,
        None => false,
    }
}

fn is_sorted_body(body: &Body, sets: u32, params: &[Sort], vars: &[Sort]) -> bool
    ensures { IsTrue result ↔ IsSortedBody (record { sets = sets; params = params.now; vars = vars.now }) body.now }
{
    match body {
        Body::Nothing => true,
        Body::Output {
            params: all,
            to,
            rest,
            ..
        } => {
            are_sorted(all, sets, params, vars)
                && is_goal(to, sets, params, vars)
                && is_sorted_body(rest, sets, params, vars)
        }
        Body::Create { set, rest } => set.0 < sets && is_sorted_body(rest, sets, params, vars),
        Body::Assign { place, value, rest } => {
            is_sorted(value, sets, params, vars)
                && has(vars, *place, sort_of(value))
                && is_sorted_body(rest, sets, params, vars)
        }
        Body::If {
            condition,
            yes,
            no,
            rest,
        } => {
            is_sorted(condition, sets, params, vars)
                && sort_of(condition) == Sort::Boolean
                && is_sorted_body(yes, sets, params, vars)
                && is_sorted_body(no, sets, params, vars)
                && is_sorted_body(rest, sets, params, vars)
        }
        Body::End(_) => true,
    }
}

/// Whether there are at most so many parameters.
fn are_few(params: &Params, room: usize) -> bool
    ensures { IsTrue result ↔ (length (sorts_of params.now) ≤ room) }
{
    match params {
        Params::Nothing => true,
        Params::First { rest, .. } => 1 <= room && are_few(rest, room - 1),
    }
}

fn has_few_params(body: &Body) -> bool
    ensures { IsTrue result ↔ (most_params body.now ≤ 4) }
{
    match body {
        Body::Nothing => true,
        Body::Output { params, rest, .. } => are_few(params, 4) && has_few_params(rest),
        Body::Create { rest, .. } => has_few_params(rest),
        Body::Assign { rest, .. } => has_few_params(rest),
        Body::If { yes, no, rest, .. } => {
            has_few_params(yes) && has_few_params(no) && has_few_params(rest)
        }
        Body::End(_) => true,
    }
}

/// The greater of the numbers that are there.
fn most(a: Option<usize>, b: Option<usize>) -> Option<usize>
    ensures greater { result ≡ rule.greater a b }
    ensures few { IfSome a (λ n. n ≤ 8) → IfSome b (λ n. n ≤ 8) → IfSome result (λ n. n ≤ 8) }
{
    match (a, b) {
        (None, b) => b,
        (Some(n), None) => Some(n),
        (Some(n), Some(m)) => Some(n.max(m)),
    }
}

/// So many actions are made before the body. The answer is the most behind it on a way that goes on, where one does. It is none
/// where some way makes more than 8.
fn made_after(body: &Body, made: usize) -> Option<Option<usize>>
    requires { made ≤ 8 }
    ensures { IsMadeAfter made body.now result }
{
    match body {
        Body::Nothing => Some(Some(made)),
        Body::Output { rest, .. } => {
            if made == 8 {
                return None;
            }
            made_after(rest, made + 1)
        }
        Body::Create { rest, .. } => {
            if 8 <= made {
                return None;
            }
            made_after(rest, made + 1)
        }
        Body::Assign { rest, .. } => made_after(rest, made),
        Body::If { yes, no, rest, .. } => {
            let on_yes = made_after(yes, made)?;
            let on_no = made_after(no, made)?;
            match most(on_yes, on_no) {
                Some(most_made) => made_after(rest, most_made),
                None => Some(None),
            }
        }
        Body::End(_) => Some(None),
    }
}

/// Whether each way through the body ends, and makes at most 8 actions.
fn ends_in_time(body: &Body) -> bool
    ensures { IsTrue result ↔ ((most_going_on body.now ≡ None) × (most_actions body.now ≤ 8)) }
{
    match made_after(body, 0) {
        Some(None) => true,
        Some(Some(_)) => false,
        None => false,
    }
}

fn sorts_of_trigger(signal: &Option<SignalSorts>) -> &[Sort]
    ensures { result.now ≡ trigger_sorts signal.now }
{
    match signal {
        Some(signal) => signal.sorts.as_slice(),
        None => &[],
    }
}

fn offer_has_room(row: &Row) -> bool
    requires { most_params row.now.body ≤ 4 }
    ensures { IsTrue result ↔ HasRoom (offer_of row.now) }
{
    let mut offer = blank_offer(row);
    collect(&row.body, &mut offer)
}

/// Whether the row is sound. Each expression has its sort, and each variable and set is there. Each way through the body ends, and
/// makes at most 8 outputs and creates. No output has over 4 parameters. The row's offer has at most 16 outputs, 8 sets and 16
/// next states. No memory is taken.
pub fn is_sound(row: &Row) -> bool
    ensures { IsTrue result ↔ IsSound row.now }
{
    is_sorted_body(
        &row.body,
        row.sets,
        sorts_of_trigger(&row.signal),
        row.vars.as_slice(),
    ) && ends_in_time(&row.body)
        && has_few_params(&row.body)
        && offer_has_room(row)
}
