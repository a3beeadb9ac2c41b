//! What is changed in what a run left, so that an audit finds a fault.
ghost use Rattle.std.specs.Prelude.{◌≡◌};
ghost use Rattle.sdl_transition.specs.Bound.{structure_of, routes_of};
ghost use Rattle.sdl_routes.specs.Routes.{AreRoutesOf};
ghost use Rattle.sdl_forward.specs.Boards.{stations_of, lists_of};
ghost use Rattle.sdl_run_outcome.specs.Lists.{items_in};
ghost use Rattle.sdl_run_outcome.specs.Outcome.{IsComplete};
ghost use Rattle.sdl_run_driver.specs.Closings.{outcome_in, plan_of_bound};

use sdl_queue::Rest;
use sdl_routes::Station;
use sdl_run::Closing;

/// The place of the inlet among what Echo leaves, behind two channels' lines, forth and back.
const INLET: usize = 4;

#[derive(Drop)]
pub enum Change {
    Nothing,
    /// Nothing was received.
    Unreceived,
    /// The ledger says that one signal is left.
    OneLeft,
    /// In the inlet lies what this queue holds.
    InInlet(Rest),
}

/// What a run left, with this change. It can still be audited.
pub fn changed<S: Drop>(closing: Closing<S>, change: Change) -> Closing<S>
    requires routes { AreRoutesOf (structure_of closing.bound) (routes_of closing.bound) }
    requires complete { IsComplete (plan_of_bound closing.bound 0) (outcome_in items_in closing) }
    ensures routes { AreRoutesOf (structure_of result.bound) (routes_of result.bound) }
    ensures complete { IsComplete (plan_of_bound result.bound 0) (outcome_in items_in result) }
{
    let mut closing = closing;
    match change {
        Change::Nothing => {}
        Change::Unreceived => closing.env_received.clear(),
        Change::OneLeft => closing.ledger.left = 1,
        Change::InInlet(rest) => replace_inlet(&mut closing.rests, rest),
    }
    closing
}

/// Another queue is left at the inlet.
fn replace_inlet(rests: &mut Vec<(Station, Rest)>, rest: Rest)
    ensures { stations_of (lists_of rests.new.items) ≡ stations_of (lists_of rests.old.items) }
{
    if INLET < rests.len() {
        rests[INLET].1 = rest;
    }
}
