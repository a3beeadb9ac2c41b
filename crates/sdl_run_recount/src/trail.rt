//! What is known of the signals along each route.
ghost use Rattle.std.specs.Prelude.{◌≡◌, ◌≢◌, ℕ, ◌<◌, ◌≤◌, [], ◌++◌, length, map, IfOk, OnOk, MatchOption};
ghost use Rattle.std.specs.Option.{option_to_list};
ghost use Rattle.std.specs.List.{flat_map};
ghost use Rattle.sdl_instances_log.specs.Log.{arrived_in, arrived, sent, done_in, sent_by};
ghost use Rattle.sdl_instances_packed_log.specs.Packed.{event_shown};
ghost use Rattle.sdl_routes.specs.Routes.{AreRoutesOf};
ghost use Rattle.sdl_forward_opening.specs.Workers.{ways_in};
ghost use Rattle.sdl_forward_opening.specs.declared.worker.Worker.TheVariants.{Environment};
ghost use Rattle.sdl_forward.specs.Boards.{lists_of};
ghost use Rattle.sdl_forward.specs.Serials.{AreSerial};
ghost use Rattle.sdl_run_outcome.specs.EnvironmentWork.{env_sent};
ghost use Rattle.sdl_run_outcome.specs.Lists.{held_in};
ghost use Rattle.sdl_run_ledger.specs.Counts.{summed, of_event};
ghost use Rattle.sdl_run_recount.specs.Along.{starts_at, ends_at, given, gathered};
ghost use Rattle.sdl_run_recount.specs.Totals.{AddsUpTo};
ghost use Rattle.sdl_run_recount.specs.Trails.{output_on, found_on, HasRoutes, Grows, standing_at, standing_along};

use crate::by_route::ByRoute;
use crate::recounts::Recounts;
use crate::totals::Totals;
use sdl_block_hand::Hand;
use sdl_forward_opening::Worker;
use sdl_instances_packed_log::Shown;
use sdl_queue::Rest;
use sdl_routes::{Routes, Station};
use sdl_run_outcome::EnvOut;
use sdl_signal::{Item, RouteId};
use sdl_structure_parts::Structure;
use std::alloc::{AllocError, Global};

/// How many stations a route has at most.
const MOST_STATIONS: usize = 10;

/// The signals that were output along each route, and those that were found there: at its end, and on their way to it.
#[derive(Drop)]
pub struct Trail {
    output: ByRoute,
    found: ByRoute,
}

impl Trail {
    /// No signals, for so many routes.
    pub fn new(alloc: Global, routes: usize) -> Result<Trail, AllocError>
        ensures routes { IfOk result (HasRoutes routes) }
        ensures output { IfOk result (λ trail. (r : ℕ) → output_on trail r ≡ []) }
        ensures found { IfOk result (λ trail. (r : ℕ) → found_on trail r ≡ []) }
    {
        Ok(Trail {
            output: ByRoute::new(alloc, routes)?,
            found: ByRoute::new(alloc, routes)?,
        })
    }

    /// Adds what the worker sent in the event, and what arrived there.
    fn add_event(
        &mut self,
        structure: &Structure,
        routes: &Routes,
        worker: Worker,
        event: &Shown,
    ) -> Result<(), AllocError>
        requires routes { AreRoutesOf structure.now routes.now }
        requires lists { HasRoutes (length routes.now) self.old }
        ensures { OnOk result (Grows (λ r. given (starts_at (ways_in structure.now routes.now) worker r) (flat_map sent_by (done_in (event_shown event.now)))) (λ r. given (ends_at (ways_in structure.now routes.now) worker r) (arrived_in (event_shown event.now))) self.old self.new) }
    {
        match event {
            Shown::Entered(item, _) => self.found.add_arrived(structure, routes, worker, item),
            Shown::Discarded(item, _) => self.found.add_arrived(structure, routes, worker, item),
            Shown::Turn {
                pid: _,
                trigger: _,
                frame: _,
                step: _,
                done,
                stopped: _,
            } => self.output.add_done(structure, routes, worker, done),
        }
    }

    /// Adds what the worker sent by its log, and what arrived there, and counts the events.
    fn add_log<K: Recounts>(
        &mut self,
        structure: &Structure,
        routes: &Routes,
        worker: Worker,
        log: &K,
        totals: &mut Totals,
    ) -> Result<(), AllocError>
        requires routes { AreRoutesOf structure.now routes.now }
        requires lists { HasRoutes (length routes.now) self.old }
        ensures grows { OnOk result (Grows (λ r. given (starts_at (ways_in structure.now routes.now) worker r) (sent (K.events log.now))) (λ r. given (ends_at (ways_in structure.now routes.now) worker r) (arrived (K.events log.now))) self.old self.new) }
        ensures totals { OnOk result (AddsUpTo totals.old (summed of_event (K.events log.now)) totals.new) }
    {
        for number in 0..log.number() {
            let event = log.event_at(number as usize);
            self.add_event(structure, routes, worker, &event)?;
            totals.add_event(&event);
        }
        Ok(())
    }

    /// Adds what the workers sent by their logs, and what arrived there, and counts the events: the first log is that of the first
    /// worker. What a refusal leaves is not said.
    pub fn add_logs<K: Recounts>(
        &mut self,
        structure: &Structure,
        routes: &Routes,
        workers: &[Worker],
        logs: &[K],
        totals: &mut Totals,
    ) -> Result<(), AllocError>
        requires routes { AreRoutesOf structure.now routes.now }
        requires lists { HasRoutes (length routes.now) self.old }
        requires logs { length logs.now ≤ length workers.now }
        ensures grows { OnOk result (Grows (λ r. gathered (λ w. starts_at (ways_in structure.now routes.now) w r) workers.now (map (λ log. sent (K.events log)) logs.now)) (λ r. gathered (λ w. ends_at (ways_in structure.now routes.now) w r) workers.now (map (λ log. arrived (K.events log)) logs.now)) self.old self.new) }
        ensures totals { OnOk result (AddsUpTo totals.old (summed (λ log. summed of_event (K.events log)) logs.now) totals.new) }
    {
        for number in 0..logs.len() {
            self.add_log(structure, routes, workers[number], &logs[number], totals)?;
        }
        Ok(())
    }

    /// Adds what the environment sent, and what it received. What a refusal leaves is not said.
    pub fn add_environment(
        &mut self,
        structure: &Structure,
        routes: &Routes,
        put: &[EnvOut],
        received: &[Item],
    ) -> Result<(), AllocError>
        requires routes { AreRoutesOf structure.now routes.now }
        requires lists { HasRoutes (length routes.now) self.old }
        ensures { OnOk result (Grows (λ r. given (starts_at (ways_in structure.now routes.now) Environment r) (env_sent put.now)) (λ r. given (ends_at (ways_in structure.now routes.now) Environment r) received.now) self.old self.new) }
    {
        self.output.add_outputs(structure, routes, put)?;
        self.found.add_received(structure, routes, received)
    }

    /// Adds what stands at the station at this place of each route.
    fn add_place(
        &mut self,
        routes: &Routes,
        place: usize,
        workers: &[Worker],
        hands: &[Hand],
        rests: &[(Station, Rest)],
    ) -> Result<(), AllocError>
        requires lists { HasRoutes (length routes.now) self.old }
        requires hands { length hands.now ≤ length workers.now }
        requires serial { AreSerial rests.now }
        ensures { OnOk result (Grows (λ r. []) (λ r. standing_at routes.now workers.now (map (λ h. option_to_list (held_in h).kept) hands.now) (lists_of rests.now) place r) self.old self.new) }
    {
        self.found.add_kept(routes, place, workers, hands)?;
        self.found.add_rests(routes, place, rests)?;
        Ok(())
    }

    /// Adds what stands at the stations of each route, from its last to its first. What a refusal leaves is not said.
    pub fn add_standing(
        &mut self,
        routes: &Routes,
        workers: &[Worker],
        hands: &[Hand],
        rests: &[(Station, Rest)],
    ) -> Result<(), AllocError>
        requires lists { HasRoutes (length routes.now) self.old }
        requires hands { length hands.now ≤ length workers.now }
        requires serial { AreSerial rests.now }
        ensures { OnOk result (Grows (λ r. []) (standing_along routes.now workers.now (map (λ h. option_to_list (held_in h).kept) hands.now) (lists_of rests.now)) self.old self.new) }
    {
        for passed in 0..MOST_STATIONS {
            let place = MOST_STATIONS - 1 - passed;
            self.add_place(routes, place, workers, hands, rests)?;
        }
        Ok(())
    }

    /// Adds what the workers have yet to put. What a refusal leaves is not said.
    pub fn add_outgoing(
        &mut self,
        structure: &Structure,
        routes: &Routes,
        workers: &[Worker],
        hands: &[Hand],
    ) -> Result<(), AllocError>
        requires routes { AreRoutesOf structure.now routes.now }
        requires lists { HasRoutes (length routes.now) self.old }
        requires hands { length hands.now ≤ length workers.now }
        ensures { OnOk result (Grows (λ r. []) (λ r. gathered (λ w. starts_at (ways_in structure.now routes.now) w r) workers.now (map (λ h. (held_in h).outgoing) hands.now)) self.old self.new) }
    {
        self.found.add_outgoing(structure, routes, workers, hands)
    }

    /// The first route along which not the same signals were found as were output, in the same order.
    pub fn first_fault(&self, routes: &Routes) -> Option<RouteId>
        requires { HasRoutes (length routes.now) self.now }
        ensures { MatchOption result
            ((r : ℕ) → r < length routes.now → output_on self.now r ≡ found_on self.now r)
            (λ r. (r.0 < length routes.now) × (output_on self.now r.0 ≢ found_on self.now r.0) × ((s : ℕ) → s < r.0 → output_on self.now s ≡ found_on self.now s)) }
    {
        let _few = routes.len();
        self.output.first_other(&self.found)
    }
}
