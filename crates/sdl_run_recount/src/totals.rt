//! The sums of a ledger, counted again.
ghost use Rattle.std.specs.Prelude.{◌≡◌, sum_by, unwrap_or, MatchBool};
ghost use Rattle.sdl_instances_log.specs.Counts.{output_by, no_route_by};
ghost use Rattle.sdl_instances_packed_log.specs.Packed.{event_shown};
ghost use Rattle.sdl_queue.specs.Rest.{left_in};
ghost use Rattle.sdl_run_outcome.specs.Lists.{held_in};
ghost use Rattle.sdl_run_ledger.specs.declared.ledger.Ledger.{Ledger};
ghost use Rattle.sdl_run_ledger.specs.Counts.{summed, of_event, of_output, of_hand, of_rest, items_held, no_counts, fired_by, implicit_by};
ghost use Rattle.sdl_run_recount.specs.Totals.{no_totals, grown, AddsUpTo, AreTotalsOf, HaveSameCounts};

use sdl_block_hand::Hand;
use sdl_instances_log::{Cause, Done, Trigger};
use sdl_instances_packed_log::Shown;
use sdl_queue::Rest;
use sdl_routes::Station;
use sdl_run_ledger::Ledger;
use sdl_run_outcome::EnvOut;

/// The sums of a ledger, counted again (this project's own). A sum stops at 2^128 - 1, which is more than a ledger can hold.
#[derive(Clone, Copy, Debug, PartialEq, Eq)]
pub struct Totals {
    output: u128,
    no_route: u128,
    entered: u128,
    no_instance: u128,
    gone: u128,
    left: u128,
    fired: u128,
    implicit: u128,
    stopped: u128,
}

/// The number of outputs, with or without a route, and of those that no route fits.
fn numbers_of_outputs(done: &[Done]) -> (u64, u64)
    ensures outputs { result.0 ≡ sum_by output_by done.now }
    ensures no_route { result.1 ≡ sum_by no_route_by done.now }
{
    let mut outputs: u64 = 0;
    let mut no_route: u64 = 0;
    for one in done {
        match one {
            Done::Sent(_) => outputs += 1,
            Done::NoRoute(_, _) => {
                outputs += 1;
                no_route += 1;
            }
            Done::Made(_) => {}
        }
    }
    (outputs, no_route)
}

/// What a turn adds to a ledger.
fn sums_of_turn(trigger: &Trigger, done: &[Done], stopped: Option<u64>) -> Ledger
    ensures { result ≡ record no_counts { output = sum_by output_by done.now; no_route = sum_by no_route_by done.now; fired = fired_by trigger.now; implicit = implicit_by trigger.now; stopped = unwrap_or stopped 0 } }
{
    let (output, no_route) = numbers_of_outputs(done);
    let (fired, implicit) = match trigger {
        Trigger::Start => (0, 0),
        Trigger::Fire(_) => (1, 0),
        Trigger::Implicit(_) => (0, 1),
    };
    Ledger {
        output,
        no_route,
        fired,
        implicit,
        stopped: stopped.unwrap_or(0),
        ..Ledger::default()
    }
}

/// What an event adds to a ledger.
fn sums_of_event(event: &Shown) -> Ledger
    ensures { result ≡ of_event (event_shown event.now) }
{
    let none = Ledger::default();
    match event {
        Shown::Entered(_, _) => Ledger { entered: 1, ..none },
        Shown::Discarded(_, Cause::NoInstance) => Ledger {
            no_instance: 1,
            ..none
        },
        Shown::Discarded(_, Cause::Gone) => Ledger { gone: 1, ..none },
        Shown::Turn {
            pid: _,
            trigger,
            frame: _,
            step: _,
            done,
            stopped,
        } => sums_of_turn(trigger, done, *stopped),
    }
}

/// The sum with so much more. It stops where it is full.
fn grow(sum: u128, more: u64) -> u128
    ensures { result ≡ grown sum more }
{
    sum.saturating_add(more as u128)
}

/// How many items are in the hand: the one that is kept, and those that are yet to be put.
fn items_in(hand: &Hand) -> u64
    ensures { result ≡ items_held (held_in hand.now) }
{
    let outgoing = hand.outgoing.len() as u64;
    match &hand.kept {
        Some(_) => 1 + outgoing,
        None => outgoing,
    }
}

/// The totals that the ledger says.
fn totals_of(ledger: &Ledger) -> Totals
    ensures { AreTotalsOf ledger.now result }
{
    Totals {
        output: ledger.output as u128,
        no_route: ledger.no_route as u128,
        entered: ledger.entered as u128,
        no_instance: ledger.no_instance as u128,
        gone: ledger.gone as u128,
        left: ledger.left as u128,
        fired: ledger.fired as u128,
        implicit: ledger.implicit as u128,
        stopped: ledger.stopped as u128,
    }
}

impl Totals {
    /// Nothing is counted.
    pub fn new() -> Totals
        ensures { result ≡ no_totals }
    {
        Totals {
            output: 0,
            no_route: 0,
            entered: 0,
            no_instance: 0,
            gone: 0,
            left: 0,
            fired: 0,
            implicit: 0,
            stopped: 0,
        }
    }

    /// Adds the counts of a ledger.
    fn add(&mut self, more: &Ledger)
        ensures { AddsUpTo self.old more.now self.new }
    {
        self.output = grow(self.output, more.output);
        self.no_route = grow(self.no_route, more.no_route);
        self.entered = grow(self.entered, more.entered);
        self.no_instance = grow(self.no_instance, more.no_instance);
        self.gone = grow(self.gone, more.gone);
        self.left = grow(self.left, more.left);
        self.fired = grow(self.fired, more.fired);
        self.implicit = grow(self.implicit, more.implicit);
        self.stopped = grow(self.stopped, more.stopped);
    }

    /// Adds what an event counts.
    pub(crate) fn add_event(&mut self, event: &Shown)
        ensures { AddsUpTo self.old (of_event (event_shown event.now)) self.new }
    {
        self.add(&sums_of_event(event));
    }

    /// Adds the outputs of the environment.
    pub fn add_outputs(&mut self, outputs: &[EnvOut])
        ensures { AddsUpTo self.old (summed of_output outputs.now) self.new }
    {
        for output in outputs {
            let no_route = match output {
                EnvOut::Sent(_) => 0,
                EnvOut::NoRoute(_, _) => 1,
            };
            self.add(&Ledger {
                output: 1,
                no_route,
                ..Ledger::default()
            });
        }
    }

    /// Adds so many signals that the environment received.
    pub fn add_received(&mut self, received: u64)
        ensures { AddsUpTo self.old (record no_counts { entered = received }) self.new }
    {
        self.add(&Ledger {
            entered: received,
            ..Ledger::default()
        });
    }

    /// Adds what the workers hold.
    pub fn add_hands(&mut self, hands: &[Hand])
        ensures { AddsUpTo self.old (summed (λ h. of_hand (held_in h)) hands.now) self.new }
    {
        for hand in hands {
            self.add(&Ledger {
                left: items_in(hand),
                ..Ledger::default()
            });
        }
    }

    /// Adds what is left at the stations.
    pub fn add_rests(&mut self, rests: &[(Station, Rest)])
        ensures { AddsUpTo self.old (summed (λ r. of_rest (r.0, left_in r.1)) rests.now) self.new }
    {
        for rest in rests {
            self.add(&Ledger {
                left: rest.1.len() as u64,
                ..Ledger::default()
            });
        }
    }

    /// Whether the ledger has the counts that were added up.
    pub fn are_those_of(&self, ledger: &Ledger) -> bool
        ensures { (l : Ledger) → AddsUpTo no_totals l self.now → MatchBool result (HaveSameCounts l ledger.now) (HaveSameCounts l ledger.now → ⊥) }
    {
        *self == totals_of(ledger)
    }
}
