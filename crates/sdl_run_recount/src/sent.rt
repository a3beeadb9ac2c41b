//! What was sent, and what arrived, sorted by routes.
ghost use Rattle.std.specs.Prelude.{◌≡◌, ◌≤◌, [], ◌∷◌, length, map, OnOk};
ghost use Rattle.std.specs.List.{flat_map};
ghost use Rattle.sdl_instances_log.specs.Log.{sent_by};
ghost use Rattle.sdl_routes.specs.Routes.{AreRoutesOf};
ghost use Rattle.sdl_forward_opening.specs.declared.worker.Worker.TheVariants.{Environment};
ghost use Rattle.sdl_forward_opening.specs.Workers.{ways_in};
ghost use Rattle.sdl_run_outcome.specs.EnvironmentWork.{env_sent};
ghost use Rattle.sdl_run_outcome.specs.Lists.{held_in};
ghost use Rattle.sdl_run_recount.specs.Sorted.{lists_in, Gains};
ghost use Rattle.sdl_run_recount.specs.Along.{starts_at, ends_at, given, gathered};

use crate::by_route::ByRoute;
use crate::ways::{ends, starts};
use sdl_block_hand::Hand;
use sdl_forward_opening::Worker;
use sdl_instances_log::Done;
use sdl_routes::Routes;
use sdl_run_outcome::EnvOut;
use sdl_signal::Item;
use sdl_structure_parts::Structure;
use std::alloc::AllocError;

impl ByRoute {
    /// Adds an item that the worker sent, where its route starts there. What a refusal leaves is not said.
    fn add_sent(
        &mut self,
        structure: &Structure,
        routes: &Routes,
        worker: Worker,
        item: &Item,
    ) -> Result<(), AllocError>
        requires routes { AreRoutesOf structure.now routes.now }
        requires lists { length (lists_in self.old) ≡ length routes.now }
        ensures { OnOk result (Gains (λ r. given (starts_at (ways_in structure.now routes.now) worker r) (item.now ∷ [])) (lists_in self.old) (lists_in self.new)) }
    {
        if starts(structure, routes, item.route, worker) {
            self.add(item)?;
        }
        Ok(())
    }

    /// Adds an item that arrived at the worker, where its route ends there. What a refusal leaves is not said.
    pub(crate) fn add_arrived(
        &mut self,
        structure: &Structure,
        routes: &Routes,
        worker: Worker,
        item: &Item,
    ) -> Result<(), AllocError>
        requires lists { length (lists_in self.old) ≡ length routes.now }
        ensures { OnOk result (Gains (λ r. given (ends_at (ways_in structure.now routes.now) worker r) (item.now ∷ [])) (lists_in self.old) (lists_in self.new)) }
    {
        if ends(structure, routes, item.route, worker) {
            self.add(item)?;
        }
        Ok(())
    }

    /// Adds what the worker sent in a turn.
    pub(crate) fn add_done(
        &mut self,
        structure: &Structure,
        routes: &Routes,
        worker: Worker,
        done: &[Done],
    ) -> Result<(), AllocError>
        requires routes { AreRoutesOf structure.now routes.now }
        requires lists { length (lists_in self.old) ≡ length routes.now }
        ensures { OnOk result (Gains (λ r. given (starts_at (ways_in structure.now routes.now) worker r) (flat_map sent_by done.now)) (lists_in self.old) (lists_in self.new)) }
    {
        for one in done {
            match one {
                Done::Sent(item) => self.add_sent(structure, routes, worker, item)?,
                Done::NoRoute(_, _) => {}
                Done::Made(_) => {}
            }
        }
        Ok(())
    }

    /// Adds what the environment sent.
    pub(crate) fn add_outputs(
        &mut self,
        structure: &Structure,
        routes: &Routes,
        outputs: &[EnvOut],
    ) -> Result<(), AllocError>
        requires routes { AreRoutesOf structure.now routes.now }
        requires lists { length (lists_in self.old) ≡ length routes.now }
        ensures { OnOk result (Gains (λ r. given (starts_at (ways_in structure.now routes.now) Environment r) (env_sent outputs.now)) (lists_in self.old) (lists_in self.new)) }
    {
        for output in outputs {
            match output {
                EnvOut::Sent(item) => {
                    self.add_sent(structure, routes, Worker::Environment, item)?
                }
                EnvOut::NoRoute(_, _) => {}
            }
        }
        Ok(())
    }

    /// Adds what the environment received.
    pub(crate) fn add_received(
        &mut self,
        structure: &Structure,
        routes: &Routes,
        received: &[Item],
    ) -> Result<(), AllocError>
        requires lists { length (lists_in self.old) ≡ length routes.now }
        ensures { OnOk result (Gains (λ r. given (ends_at (ways_in structure.now routes.now) Environment r) received.now) (lists_in self.old) (lists_in self.new)) }
    {
        for item in received {
            self.add_arrived(structure, routes, Worker::Environment, item)?;
        }
        Ok(())
    }

    /// Adds the items that the worker sent, and has yet to put.
    fn add_all_sent(
        &mut self,
        structure: &Structure,
        routes: &Routes,
        worker: Worker,
        items: &[Item],
    ) -> Result<(), AllocError>
        requires routes { AreRoutesOf structure.now routes.now }
        requires lists { length (lists_in self.old) ≡ length routes.now }
        ensures { OnOk result (Gains (λ r. given (starts_at (ways_in structure.now routes.now) worker r) items.now) (lists_in self.old) (lists_in self.new)) }
    {
        for item in items {
            self.add_sent(structure, routes, worker, item)?;
        }
        Ok(())
    }

    /// Adds what the workers have yet to put, each in its hand.
    pub(crate) fn add_outgoing(
        &mut self,
        structure: &Structure,
        routes: &Routes,
        workers: &[Worker],
        hands: &[Hand],
    ) -> Result<(), AllocError>
        requires routes { AreRoutesOf structure.now routes.now }
        requires lists { length (lists_in self.old) ≡ length routes.now }
        requires hands { length hands.now ≤ length workers.now }
        ensures { OnOk result (Gains (λ r. gathered (λ w. starts_at (ways_in structure.now routes.now) w r) workers.now (map (λ h. (held_in h).outgoing) hands.now)) (lists_in self.old) (lists_in self.new)) }
    {
        for number in 0..hands.len() {
            let outgoing = hands[number].outgoing.as_slice();
            self.add_all_sent(structure, routes, workers[number], outgoing)?;
        }
        Ok(())
    }
}
