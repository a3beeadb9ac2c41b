//! Which items may leave through the outlet.
ghost use Rattle.std.specs.Prelude.{◌≡◌, ◌↔◌, IsTrue, Some, length, map, slice_get};
ghost use Rattle.sdl_signal.specs.Sorts.{sort_of};
ghost use Rattle.sdl_instances.specs.Core.{signals_of, sets_of};
ghost use Rattle.sdl_instances.specs.Legal.{IsLegal};
ghost use Rattle.sdl_run_outcome.specs.EnvironmentWork.{GoesOut};

use sdl_instances::arriving::is_carried;
use sdl_routes::{EndPoint, Routes};
use sdl_signal::{Item, Signal, Value};
use sdl_structure_parts::{SignalDecl, Structure};
use sdl_transition_behaviour::legality::{are_legal, is_legal_pid, names_legal};

/// Whether the item may leave through the outlet: it may travel, and its route ends in the environment. No memory is taken.
pub fn may_leave(structure: &Structure, routes: &Routes, item: &Item) -> bool
    ensures { IsTrue result ↔ (IsLegal (signals_of structure.now) (length (sets_of structure.now)) routes.now item.now × GoesOut routes.now item.now) }
{
    may_travel(structure, routes, item) && goes_out(routes, item)
}

/// Whether the item's route ends in the environment.
fn goes_out(routes: &Routes, item: &Item) -> bool
    ensures { IsTrue result ↔ GoesOut routes.now item.now }
{
    match routes.get(item.route) {
        Some(route) => match route.end {
            EndPoint::Environment(_) => true,
            EndPoint::Set(_) => false,
        },
        None => false,
    }
}

/// Whether the item may travel.
fn may_travel(structure: &Structure, routes: &Routes, item: &Item) -> bool
    ensures { IsTrue result ↔ IsLegal (signals_of structure.now) (length (sets_of structure.now)) routes.now item.now }
{
    let sets = structure.sets().len();
    is_carried(routes, item)
        && has_its_sorts(structure.signals(), &item.signal)
        && are_legal(sets, item.signal.params.as_slice())
        && is_legal_pid(sets, item.sender)
        && names_legal(sets, item.to)
}

/// Whether the signal is there, with the sorts of these parameters.
fn has_its_sorts(signals: &[SignalDecl], signal: &Signal) -> bool
    ensures { IsTrue result ↔ slice_get (map (λ s. s.sorts.items) signals.now) signal.now.id.0 ≡ Some (map sort_of signal.now.params.items) }
{
    match signals.get(signal.id.0 as usize) {
        Some(found) => Value::are_of_sorts(signal.params.as_slice(), found.sorts.as_slice()),
        None => false,
    }
}
