//! The stored transitions of a listing are kept in their order, given to the sets' behaviours, and bound to a structure. A function
//! that makes closures can't hand them out, so the loop that stores them stands with whoever runs them.
ghost use Rattle.std.specs.Prelude.{◌≡◌, List, [], ◌∷◌, ◌++◌, map, length, IfOk};
ghost use Rattle.std.specs.List.{AllByRecursion};
ghost use Rattle.sdl_routes.specs.Routes.{AreRoutesOf};
ghost use Rattle.sdl_transition_behaviour.specs.Transitions.{IsAllowed};
ghost use Rattle.sdl_transition.specs.Bound.{IsBound, structure_of, routes_of};
ghost use Rattle.sdl_listing_body.specs.declared.listing.ListedSet.{ListedSet as ASet};
ghost use Rattle.sdl_listing_binding.specs.Answers.{rows_of};
ghost use Rattle.sdl_listing_binding.specs.Parts.{HasParts, head_parts, transition_parts, listed_head, listed_transitions, listed, count_of};

use crate::behaviours::behaviours_of;
use crate::faults::ListingFault;
use crate::laying::Head;
use sdl_routes::Routes;
use sdl_structure_parts::Checked;
use sdl_transition::{Bound, bind};
use sdl_transition_behaviour::{Agents, Transition};
use std::alloc::{AllocError, Global};
use std::collections::VecDeque;

/// Keeps one transition more, behind the others.
pub fn keep<S: Agents>(
    stored: &mut VecDeque<Transition<S>>,
    one: Transition<S>,
) -> Result<(), AllocError>
    requires before { AllByRecursion (IsAllowed S.may) stored.old.items }
    requires one { IsAllowed S.may one }
    ensures all { IfOk result (λ _. AllByRecursion (IsAllowed S.may) stored.new.items) }
    ensures kept { IfOk result (λ _. map transition_parts stored.new.items ≡ map transition_parts stored.old.items ++ transition_parts one ∷ []) }
{
    match stored.push_back(one) {
        Ok(()) => Ok(()),
        Err(_) => Err(AllocError),
    }
}

/// Makes the behaviours of the stored transitions, and binds them to the structure. Where the transitions are those of a listing, by
/// number, and the heads are its heads, the behaviours are those of the listing. A fault is given back alone.
pub fn bind_listing<S: Agents + Drop>(
    alloc: Global,
    checked: Checked,
    routes: Routes,
    heads: Vec<Head>,
    stored: VecDeque<Transition<S>>,
) -> Result<Bound<S>, ListingFault>
    requires count { length stored.items ≡ count_of (map head_parts heads.items) }
    requires allowed { AllByRecursion (IsAllowed S.may) stored.items }
    requires routes { AreRoutesOf checked routes }
    ensures bound { IfOk result (IsBound S.may) }
    ensures structure { IfOk result (λ bound. structure_of bound ≡ checked) }
    ensures routes { IfOk result (λ bound. routes_of bound ≡ routes) }
    ensures behaviours { (sets : List ASet) → map head_parts heads.items ≡ map listed_head sets → map transition_parts stored.items ≡ listed_transitions 0 (rows_of sets)
        → IfOk result (HasParts (listed sets)) }
{
    let behaviours = behaviours_of(alloc, heads, stored)?;
    match bind(alloc, checked, routes, behaviours) {
        Ok(bound) => Ok(bound),
        Err(unbound) => Err(ListingFault::Bind(unbound.fault)),
    }
}
