//! What comes of binding behaviours.
ghost use Rattle.sdl_routes.specs.Routes.{AreRoutesOf};
ghost use Rattle.sdl_transition.specs.Bound.{IsBound};
ghost use Rattle.sdl_transition.specs.Index.{IsIndexed};

use super::anything::Anything;
use sdl_routes::Routes;
use sdl_signal::{SignalId, StateId};
use sdl_structure_parts::Checked;
use sdl_transition::{Behaviour, BindFault, BlockParts, Bound, Transition, Unbound, bind};
use std::alloc::Global;

/// What came of binding: the fault, and how many sets, routes and behaviours were handed back, or are bound.
#[derive(Clone, Copy, PartialEq, Eq)]
pub struct Outcome {
    pub fault: Option<BindFault>,
    pub sets: usize,
    pub routes: usize,
    pub behaviours: usize,
    pub found: Option<Found>,
}

/// What the index finds for a set: the number of its start, how many variables it has, and the numbers of three rows. `first` and
/// `second` are in state 0, for the signals 0 and 1. `outside` is for a state and a signal that are not there.
#[derive(Clone, Copy, PartialEq, Eq)]
pub struct Found {
    pub start: u32,
    pub variables: usize,
    pub first: Option<u32>,
    pub second: Option<u32>,
    pub outside: Option<u32>,
}

fn count(
    checked: &Checked,
    routes: &Routes,
    behaviours: usize,
    fault: Option<BindFault>,
) -> Outcome {
    Outcome {
        fault,
        sets: checked.structure().sets().len(),
        routes: routes.len(),
        behaviours,
        found: None,
    }
}

fn unbound_outcome(unbound: &Unbound<Anything>) -> Outcome {
    count(
        &unbound.checked,
        &unbound.routes,
        unbound.behaviours.len(),
        Some(unbound.fault),
    )
}

/// What comes of it when it is tried again with what was handed back.
fn retried(alloc: Global, unbound: Unbound<Anything>) -> Outcome
    requires { AreRoutesOf unbound.checked unbound.routes }
{
    let Unbound {
        checked,
        routes,
        behaviours,
        fault: _,
    } = unbound;
    match bind(alloc, checked, routes, behaviours) {
        Ok(bound) => bound_outcome(bound),
        Err(same) => unbound_outcome(&same),
    }
}

/// What came of binding these, and where memory was refused, what comes of it when it is tried again.
pub fn bind_or_retry(
    alloc: Global,
    checked: Checked,
    routes: Routes,
    behaviours: Vec<Behaviour<Anything>>,
) -> Outcome
    requires { AreRoutesOf checked routes }
{
    match bind(alloc, checked, routes, behaviours) {
        Ok(bound) => bound_outcome(bound),
        Err(unbound) => {
            if unbound.fault == BindFault::Memory {
                retried(alloc, unbound)
            } else {
                unbound_outcome(&unbound)
            }
        }
    }
}

/// What the index finds for the first set of the block.
fn find(parts: &BlockParts<Anything>) -> Option<Found>
    requires { IsIndexed parts.now }
{
    if parts.behaviours.len() == 0 {
        return None;
    }
    let set = parts.behaviours[0].set;
    Some(Found {
        start: parts.start(set).number,
        variables: parts.variables(set).len(),
        first: number_of(parts.row(set, StateId(0), SignalId(0))),
        second: number_of(parts.row(set, StateId(0), SignalId(1))),
        outside: number_of(parts.row(set, StateId(16), SignalId(64))),
    })
}

fn number_of(row: Option<&Transition<Anything>>) -> Option<u32> {
    match row {
        Some(transition) => Some(transition.number),
        None => None,
    }
}

/// Takes a system apart, joins it again, and takes it apart.
fn bound_outcome(bound: Bound<Anything>) -> Outcome
    requires { IsBound (λ _ _ _. Unit {0}) bound }
{
    let (checked, routes, blocks) = bound.into_blocks();
    let again = Bound::of_blocks(checked, routes, blocks);
    let (checked, routes, blocks) = again.into_blocks();
    let mut behaviours: usize = 0;
    for parts in blocks.as_slice() {
        behaviours = behaviours.saturating_add(parts.behaviours.len());
    }
    let found = if blocks.len() > 0 {
        find(&blocks[0])
    } else {
        None
    };
    Outcome {
        found,
        ..count(&checked, &routes, behaviours, None)
    }
}
