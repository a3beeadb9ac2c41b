//! Logs that were kept in places filled ahead, as lists.
ghost use Rattle.std.specs.Prelude.{◌≡◌, ◌+◌, ◌≤◌, ◌++◌, [], length, map, vec_capacity, IfOk};
ghost use Rattle.sdl_transition.specs.Bound.{structure_of};
ghost use Rattle.sdl_run_driver.specs.Closings.{outcome_in};
ghost use Rattle.sdl_run_outcome.specs.Lists.{items_in};

use sdl_instances_log::{Event, FilledAhead};
use sdl_run_driver::closing::Closing;
use sdl_signal::lists::take_first;
use sdl_transition::Bound;
use std::alloc::{AllocError, Global};

/// An empty list, with room for a log of each block.
pub fn room_for_lists<S>(alloc: Global, bound: &Bound<S>) -> Result<Vec<Vec<Event>>, AllocError>
    ensures empty { IfOk result (λ lists. lists.items ≡ []) }
    ensures room { IfOk result (λ lists. length (structure_of bound.now).blocks ≤ vec_capacity lists) }
{
    Vec::with_capacity(alloc, bound.checked().structure().blocks().len())
}

/// Moves the events of all logs into a list of lists, which has room for them. No memory is taken.
fn add_lists(lists: &mut Vec<Vec<Event>>, logs: Vec<FilledAhead>)
    requires { length lists.old.items + length logs.items ≤ vec_capacity lists.old }
    ensures { map items_in lists.new.items ≡ map items_in lists.old.items ++ map (λ log. log.events) logs.items }
{
    let mut rest = logs;
    while rest.len() > 0 {
        let log = take_first(&mut rest);
        lists.push_reserved(log.into_list());
    }
}

/// The closing with its logs as lists, which stand in the list that has room for them. No memory is taken.
pub fn in_lists<S>(closing: Closing<S, FilledAhead>, lists: Vec<Vec<Event>>) -> Closing<S>
    requires empty { lists.items ≡ [] }
    requires room { length closing.logs.items ≤ vec_capacity lists }
    ensures outcome { outcome_in items_in result ≡ outcome_in (λ log. log.events) closing }
    ensures bound { result.bound ≡ closing.bound }
    ensures reading { (result.env_put ≡ closing.env_put) × (result.input ≡ closing.input) }
    ensures writing { (result.env_received ≡ closing.env_received) × (result.output ≡ closing.output) }
    ensures end { (result.end ≡ closing.end) × (result.ledger ≡ closing.ledger) }
{
    let mut lists = lists;
    add_lists(&mut lists, closing.logs);
    Closing {
        bound: closing.bound,
        logs: lists,
        env_put: closing.env_put,
        env_received: closing.env_received,
        hands: closing.hands,
        rests: closing.rests,
        ledger: closing.ledger,
        end: closing.end,
        input: closing.input,
        output: closing.output,
    }
}
