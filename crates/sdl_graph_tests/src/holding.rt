//! Hold with a save more, which mostly does not fit.
ghost use Rattle.std.specs.Prelude.{IfSome};
ghost use Rattle.std.specs.List.{AllByRecursion};
ghost use Rattle.sdl_transition_behaviour.specs.Transitions.{IsAllowedBehaviour};

use sdl_agents::{Runner, hold};
use sdl_examples::HOLD;
use sdl_signal::lists::take_first;
use sdl_signal::{SetId, SignalId, StateId};
use sdl_test_systems::routes_of;
use sdl_transition::{Agents, Behaviour, BindFault, Bound, Unbound, bind};
use std::alloc::{AllocError, Global};

/// Binds Hold with a save more.
#[derive(Drop)]
struct WithSave {
    alloc: Global,
    save: Option<(StateId, SignalId)>,
}

/// What came of it: the fault, or that none was found.
type Found = Option<Option<BindFault>>;

/// The fault of what was not bound.
fn fault_of<S: Agents + Drop>(bound: Result<Bound<S>, Unbound<S>>) -> Option<BindFault> {
    match bound {
        Ok(_) => None,
        Err(unbound) => Some(unbound.fault),
    }
}

fn bind_hold<S: Agents + Drop>(alloc: Global, behaviours: Vec<Behaviour<S>>) -> Found
    requires { AllByRecursion (IsAllowedBehaviour S.may) behaviours.items }
{
    match routes_of(alloc, HOLD) {
        Ok((checked, routes)) => Some(fault_of(bind(alloc, checked, routes, behaviours))),
        Err(_) => None,
    }
}

/// The first of the behaviours alone, with the save more. Hold's one behaviour has one save.
fn with_save<S: Agents + Drop>(
    alloc: Global,
    behaviours: Vec<Behaviour<S>>,
    save: (StateId, SignalId),
) -> Option<Vec<Behaviour<S>>>
    requires { AllByRecursion (IsAllowedBehaviour S.may) behaviours.items }
    ensures { IfSome result (λ b. AllByRecursion (IsAllowedBehaviour S.may) b.items) }
{
    let mut behaviours = behaviours;
    if behaviours.is_empty() {
        return None;
    }
    let mut first = take_first(&mut behaviours);
    if first.saves.len() != 1 {
        return None;
    }
    first.add_save(save.0, save.1).ok()?;
    Vec::from_array(alloc, [first]).ok()
}

impl Runner for WithSave {
    type Answer = Found;

    fn run<S: Agents + Drop>(self, behaviours: Vec<Behaviour<S>>) -> Found {
        match self.save {
            Some(save) => bind_hold(self.alloc, with_save(self.alloc, behaviours, save)?),
            None => bind_hold(self.alloc, behaviours),
        }
    }
}

/// The save more, and the fault that is named.
static CASES: [(Option<(StateId, SignalId)>, Option<BindFault>); 6] = [
    (None, None),
    // halt, which has no row in wait
    (Some((hold::WAIT, hold::HALT)), None),
    // data, which has a row in run
    (
        Some((hold::RUN, hold::DATA)),
        Some(BindFault::TwoRows(SetId(0))),
    ),
    // data, which is saved in wait
    (
        Some((hold::WAIT, hold::DATA)),
        Some(BindFault::TwoRows(SetId(0))),
    ),
    (
        Some((StateId(2), hold::HALT)),
        Some(BindFault::UnknownState(SetId(0))),
    ),
    (
        Some((hold::WAIT, SignalId(4))),
        Some(BindFault::WrongName(SetId(0))),
    ),
];

#[test]
fn binds_hold_with_saves_that_fit(rt: HostRuntime) -> Result<(), AllocError> {
    for (place, (save, wanted)) in CASES.iter().enumerate() {
        let tries = WithSave {
            alloc: rt.alloc(),
            save: *save,
        };
        let found = hold::run(rt.alloc(), 1, tries)?;
        assert!(rt; found == Some(*wanted), "case {place}");
    }
    Ok(())
}
