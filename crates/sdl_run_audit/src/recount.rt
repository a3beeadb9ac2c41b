//! A closing is counted again.
ghost use Rattle.std.specs.Prelude.{◌≡◌, ℕ, ◌<◌, List, ◌++◌, ◌&&◌, true, length, IfOk, OnOk, MatchBool};
ghost use Rattle.sdl_routes.specs.Routes.{AreRoutesOf};
ghost use Rattle.sdl_transition.specs.Bound.{structure_of, routes_of};
ghost use Rattle.sdl_signal.specs.declared.values.Item.{Item};
ghost use Rattle.sdl_queue.specs.declared.rest.Rest.TheVariants.{Serial};
ghost use Rattle.sdl_forward.specs.Serials.{AreSerial};
ghost use Rattle.sdl_run_outcome.specs.Books.{outs, came, left};
ghost use Rattle.sdl_run_outcome.specs.Plan.{ways_of};
ghost use Rattle.sdl_run_outcome.specs.Outcome.{IsComplete, books_of};
ghost use Rattle.sdl_run_ledger.specs.Counts.{summed, of_event};
ghost use Rattle.sdl_run_driver.specs.Closings.{plan_of_bound, outcome_in};
ghost use Rattle.sdl_run_recount.specs.Totals.{no_totals, AddsUpTo};
ghost use Rattle.sdl_run_recount.specs.Trails.{output_on, found_on, HasRoutes};
ghost use Rattle.sdl_run_audit.specs.Audits.{IsRightLedger, is_balanced, Answers, verdict_of};

use crate::fault::AuditFault;
use sdl_forward_opening::workers_of;
use sdl_queue::Rest;
use sdl_routes::Station;
use sdl_run_driver::Closing;
use sdl_run_ledger::Ledger;
use sdl_run_recount::{Recounts, Totals, Trail};
use sdl_signal::RouteId;
use std::alloc::AllocError;

/// Whether the rest is a queue of one thread.
fn is_serial(rest: &Rest) -> bool
    ensures { result ≡ true → (queue : List Item) × (rest.now ≡ Serial queue) }
{
    match rest {
        Rest::Serial(_) => true,
        Rest::Ruled(_) => false,
        Rest::Ring(_) => false,
    }
}

/// Whether each rest is a queue of one thread.
fn are_serial(rests: &[(Station, Rest)]) -> bool
    ensures { result ≡ true → AreSerial rests.now }
{
    for number in 0..rests.len() {
        if !is_serial(&rests[number].1) {
            return false;
        }
    }
    true
}

/// Whether both equations of the ledger hold.
fn balances(ledger: &Ledger) -> bool
    ensures { result ≡ is_balanced ledger.now }
{
    let gone_on = ledger.no_route as u128
        + ledger.entered as u128
        + ledger.no_instance as u128
        + ledger.gone as u128
        + ledger.left as u128;
    let consumed = ledger.fired as u128
        + ledger.implicit as u128
        + ledger.stopped as u128
        + ledger.waiting as u128
        + ledger.environment as u128;
    ledger.output as u128 == gone_on && ledger.entered as u128 == consumed
}

/// What is known of the signals along each route. The events of the logs are counted on the way.
fn follow<S, K: Recounts>(closing: &Closing<S, K>, totals: &mut Totals) -> Result<Trail, AllocError>
    requires routes { AreRoutesOf (structure_of closing.now.bound) (routes_of closing.now.bound) }
    requires complete { IsComplete (plan_of_bound closing.now.bound 0) (outcome_in K.events closing.now) }
    requires serial { AreSerial closing.now.rests.items }
    ensures lists { IfOk result (HasRoutes (length (routes_of closing.now.bound))) }
    ensures output { IfOk result (λ trail. (r : ℕ) → r < length (routes_of closing.now.bound) → output_on trail r ≡ outs (ways_of (plan_of_bound closing.now.bound 0)) (books_of (plan_of_bound closing.now.bound 0) (outcome_in K.events closing.now)) r) }
    ensures found { IfOk result (λ trail. (r : ℕ) → r < length (routes_of closing.now.bound) → found_on trail r ≡ came (ways_of (plan_of_bound closing.now.bound 0)) (books_of (plan_of_bound closing.now.bound 0) (outcome_in K.events closing.now)) r ++ left (ways_of (plan_of_bound closing.now.bound 0)) (books_of (plan_of_bound closing.now.bound 0) (outcome_in K.events closing.now)) r) }
    ensures totals { OnOk result (AddsUpTo totals.old (summed (λ log. summed of_event (K.events log)) closing.now.logs.items) totals.new) }
{
    let alloc = *closing.logs.allocator();
    let structure = closing.bound.checked().structure();
    let routes = closing.bound.routes();
    let workers = workers_of(alloc, structure)?;
    let workers = workers.as_slice();
    let logs = closing.logs.as_slice();
    let put = closing.env_put.as_slice();
    let received = closing.env_received.as_slice();
    let hands = closing.hands.as_slice();
    let rests = closing.rests.as_slice();
    let count = routes.len();
    let mut trail = Trail::new(alloc, count)?;
    trail.add_logs(structure, routes, workers, logs, totals)?;
    trail.add_environment(structure, routes, put, received)?;
    trail.add_standing(routes, workers, hands, rests)?;
    trail.add_outgoing(structure, routes, workers, hands)?;
    Ok(trail)
}

/// Whether the ledger is that of the closing, whose logs were counted, and both of its equations hold.
fn is_right<S, K: Recounts>(closing: &Closing<S, K>, counted: Totals) -> bool
    requires { AddsUpTo no_totals (summed (λ log. summed of_event (K.events log)) closing.now.logs.items) counted }
    ensures { MatchBool result (IsRightLedger (outcome_in K.events closing.now) closing.now.ledger) (IsRightLedger (outcome_in K.events closing.now) closing.now.ledger → ⊥) }
{
    let put = closing.env_put.as_slice();
    let hands = closing.hands.as_slice();
    let rests = closing.rests.as_slice();
    let received = closing.env_received.as_slice();
    let mut totals = counted;
    totals.add_outputs(put);
    totals.add_received(received.len() as u64);
    totals.add_hands(hands);
    totals.add_rests(rests);
    let counts = totals.are_those_of(&closing.ledger);
    let balanced = balances(&closing.ledger);
    let environment = closing.ledger.environment == received.len() as u64;
    all_three(counts, environment, balanced)
}

/// Whether all three hold.
fn all_three(first: bool, second: bool, third: bool) -> bool
    ensures { result ≡ (first && (second && third)) }
{
    first && second && third
}

/// What an audit answers that found this route, or none, at fault, and the ledger right or not.
fn verdict(first: Option<RouteId>, right: bool) -> Result<(), AuditFault>
    ensures { result ≡ verdict_of first right }
{
    match first {
        Some(route) => Err(AuditFault::Route(route)),
        None => if right {
            Ok(())
        } else {
            Err(AuditFault::Ledger)
        },
    }
}

/// Recounts a closing. `Memory` where a queue is not one of one thread.
pub(crate) fn recount<S, K: Recounts>(closing: &Closing<S, K>) -> Result<(), AuditFault>
    requires routes { AreRoutesOf (structure_of closing.now.bound) (routes_of closing.now.bound) }
    requires complete { IsComplete (plan_of_bound closing.now.bound 0) (outcome_in K.events closing.now) }
    ensures { Answers (plan_of_bound closing.now.bound 0) (outcome_in K.events closing.now) closing.now.ledger result }
{
    let rests = closing.rests.as_slice();
    if !are_serial(rests) {
        return Err(AuditFault::Memory);
    }
    let mut totals = Totals::new();
    let Ok(trail) = follow(closing, &mut totals) else {
        return Err(AuditFault::Memory);
    };
    let routes = closing.bound.routes();
    let first = trail.first_fault(routes);
    let right = is_right(closing, totals);
    verdict(first, right)
}
