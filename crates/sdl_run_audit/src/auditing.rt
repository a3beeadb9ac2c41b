//! The audit of a closing.
ghost use Rattle.std.specs.Prelude.{◌≡◌};
ghost use Rattle.sdl_routes.specs.Routes.{AreRoutesOf, EachOnce};
ghost use Rattle.sdl_transition.specs.Bound.{structure_of, routes_of};
ghost use Rattle.sdl_forward.specs.Boards.{stations_of, lists_of};
ghost use Rattle.sdl_run_outcome.specs.Outcome.{IsComplete};
ghost use Rattle.sdl_run_driver.specs.Closings.{plan_of_bound, outcome_in};
ghost use Rattle.sdl_run_audit.specs.Audits.{IsSameClosing, Answers};

use crate::fault::AuditFault;
use crate::recount::recount;
use sdl_forward::Board;
use sdl_queue::Rest;
use sdl_routes::Station;
use sdl_run_driver::Closing;
use sdl_run_recount::Recounts;
use std::sync::Wait;

/// The same queues, each one of one thread. Where memory is refused to one, it and those behind it stay as they are.
fn made_serial<R: Wait>(rt: &R, rests: Vec<(Station, Rest)>) -> Vec<(Station, Rest)>
    requires { EachOnce (stations_of rests.items) }
    ensures { lists_of result.items ≡ lists_of rests.items }
{
    match Board::adopt(rt, rests) {
        Ok(board) => board.into_rests(),
        Err((rests, _)) => rests,
    }
}

/// Recounts what a run left (this project's own). `Ok` exactly where along every route what was output is, in order, what arrived
/// at its end followed by what is still on its way, and the ledger counts what the run left, and both of its equations hold. How
/// many signals wait in ports is taken from the ledger, since a closing shows no ports.
///
/// The queues that are left become queues of one thread; all else of the closing comes back as it was, with the same items in each
/// queue. `Memory` where this or a list of the recount was refused memory. The logs must be stored ([`Recounts`]). It takes time in
/// proportion to the logs, the items and the routes. May wait for other threads.
pub fn audit<S, K: Recounts, R: Wait>(
    rt: &R,
    closing: Closing<S, K>,
) -> (Closing<S, K>, Result<(), AuditFault>)
    requires routes { AreRoutesOf (structure_of closing.bound) (routes_of closing.bound) }
    requires complete { IsComplete (plan_of_bound closing.bound 0) (outcome_in K.events closing) }
    ensures same { IsSameClosing closing result.0 }
    ensures answer { Answers (plan_of_bound closing.bound 0) (outcome_in K.events closing) closing.ledger result.1 }
{
    let rests = made_serial(rt, closing.rests);
    let closing = Closing { rests, ..closing };
    let answer = recount(&closing);
    (closing, answer)
}
