//! The forwarders that a round passes over, since they could do nothing.
ghost use Rattle.std.specs.Prelude.{◌≡◌, ℕ, ◌<◌, ◌≤◌, [], Some, true, ⊤, length, slice_get, MatchBool};
ghost use Rattle.sdl_routes.specs.declared.route.Station.TheVariants.{Line};
ghost use Rattle.sdl_forward.specs.Boards.{waiting};
ghost use Rattle.sdl_forward.specs.Forwards.{Forwarding};
ghost use Rattle.sdl_block_hand.specs.declared.hand.Stepped.TheVariants.{Idle};
ghost use Rattle.sdl_run_outcome.specs.Plan.{workers_of};
ghost use Rattle.sdl_run_driver.specs.Drivers.{site_of, IsDriving, AllFree, AreByChannel, IsIdleAt};
ghost use Rattle.sdl_run_driver.specs.Systems.{plan_of};
ghost use Rattle.sdl_run_driver.specs.Runs.{WorkerSteps};

use crate::driver::Driver;
use crate::first_forwarders::{FirstForwarders, next_of};
use sdl_instances_log::LogStore;
use sdl_transition::Agents;

impl<S: Agents, K: LogStore> Driver<S, K> {
    /// Whether no forwarder holds an item.
    pub(crate) fn are_free(&self) -> bool
        ensures { MatchBool result (AllFree (site_of self.now)) ⊤ }
    {
        for forwarder in self.forwarders.iter() {
            if forwarder.held().is_some() {
                return false;
            }
        }
        true
    }

    /// A forwarder up to which, from this one on, nothing waits at any one's path: mostly the first at whose path something
    /// does.
    fn next_forwarder(&self, places: &FirstForwarders, from: usize) -> usize
        requires within { from ≤ length self.now.forwarders.items }
        requires order { AreByChannel self.now.forwarders.items }
        ensures from { from ≤ result }
        ensures within { result ≤ length self.now.forwarders.items }
        ensures empty { (k : ℕ) (f : Forwarding) → from ≤ k → k < result → slice_get self.now.forwarders.items k ≡ Some f → waiting self.now.board (Line f.hop) ≡ [] }
    {
        let forwarders = self.forwarders.as_slice();
        if from == forwarders.len() || self.board.has_no_busy_path() {
            return forwarders.len();
        }
        let low = forwarders[from].hop().channel;
        let busy = self.board.next_busy(low);
        // (mostly the first one has something to do)
        if busy.0 <= low.0 {
            return from;
        }
        next_of(forwarders, from, places.first_from(busy), busy)
    }

    /// The worker that is to make a step, from this one on: where no forwarder holds an item, those at whose paths nothing
    /// waits are passed over, since a step of theirs does nothing.
    pub(crate) fn next_worker(&self, number: u32, free: bool, places: &FirstForwarders) -> u32
        requires driving { IsDriving S.may self.now }
        requires within { number ≤ length (workers_of (plan_of self.now.system)) }
        requires free { free ≡ true → AllFree (site_of self.now) }
        ensures from { number ≤ result }
        ensures within { result ≤ length (workers_of (plan_of self.now.system)) }
        ensures passed { (n : ℕ) → number ≤ n → n < result → WorkerSteps S.may (plan_of self.now.system) n 0 Idle (site_of self.now) (site_of self.now) × IsIdleAt (site_of self.now) n }
    {
        let first = self.system.blocks.len() + 1;
        let place = number as usize;
        if !free || place < first {
            return number;
        }
        (first + self.next_forwarder(places, place - first)) as u32
    }
}
