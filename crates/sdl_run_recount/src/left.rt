//! What is still on its way, sorted by routes.
ghost use Rattle.std.specs.Prelude.{◌≡◌, ◌≤◌, [], ◌∷◌, length, map, MatchOption, OnOk};
ghost use Rattle.std.specs.Option.{option_to_list};
ghost use Rattle.sdl_queue.specs.declared.rest.Rest.TheVariants.{Serial};
ghost use Rattle.sdl_forward_opening.specs.Workers.{place as place_of};
ghost use Rattle.sdl_forward.specs.Boards.{lists_of};
ghost use Rattle.sdl_forward.specs.Serials.{AreSerial, IsApart};
ghost use Rattle.sdl_run_outcome.specs.Lists.{held_in};
ghost use Rattle.sdl_run_recount.specs.Sorted.{lists_in, Gains};
ghost use Rattle.sdl_run_recount.specs.Along.{stands_at, given, gathered, laid};

use crate::by_route::ByRoute;
use crate::ways::{place as place_of, stands};
use sdl_block_hand::Hand;
use sdl_forward_opening::Worker;
use sdl_queue::{Rest, SerialQueue};
use sdl_routes::{Routes, Station};
use sdl_signal::Item;
use std::alloc::AllocError;

/// The queue that is left, where it is one of one thread.
pub(crate) fn queue_in(rest: &Rest) -> Option<&SerialQueue>
    ensures { MatchOption result (IsApart rest.now) (λ queue. rest.now ≡ Serial queue.now) }
{
    match rest {
        Rest::Serial(queue) => Some(queue),
        Rest::Ruled(_) => None,
        Rest::Ring(_) => None,
    }
}

impl ByRoute {
    /// Adds an item that was found at the station, where this is the station at this place of its route. What a refusal leaves is
    /// not said.
    fn add_standing(
        &mut self,
        routes: &Routes,
        place: usize,
        station: Station,
        item: &Item,
    ) -> Result<(), AllocError>
        requires { length (lists_in self.old) ≡ length routes.now }
        ensures { OnOk result (Gains (λ r. given (stands_at routes.now place station r) (item.now ∷ [])) (lists_in self.old) (lists_in self.new)) }
    {
        if stands(routes, item.route, place, station) {
            self.add(item)?;
        }
        Ok(())
    }

    /// Adds the item that the worker keeps, where it keeps one and its station is the one at this place of the route.
    fn add_held(
        &mut self,
        routes: &Routes,
        place: usize,
        worker: Worker,
        hand: &Hand,
    ) -> Result<(), AllocError>
        requires { length (lists_in self.old) ≡ length routes.now }
        ensures { OnOk result (Gains (λ r. given (stands_at routes.now place (place_of worker) r) (option_to_list (held_in hand.now).kept)) (lists_in self.old) (lists_in self.new)) }
    {
        match &hand.kept {
            Some(item) => self.add_standing(routes, place, place_of(worker), item),
            None => Ok(()),
        }
    }

    /// Adds the items that the workers keep, of those routes at whose place the worker's station stands.
    pub(crate) fn add_kept(
        &mut self,
        routes: &Routes,
        place: usize,
        workers: &[Worker],
        hands: &[Hand],
    ) -> Result<(), AllocError>
        requires lists { length (lists_in self.old) ≡ length routes.now }
        requires hands { length hands.now ≤ length workers.now }
        ensures { OnOk result (Gains (λ r. gathered (λ w. stands_at routes.now place (place_of w) r) workers.now (map (λ h. option_to_list (held_in h).kept) hands.now)) (lists_in self.old) (lists_in self.new)) }
    {
        for number in 0..hands.len() {
            self.add_held(routes, place, workers[number], &hands[number])?;
        }
        Ok(())
    }

    /// Adds the items of a queue, of those routes at whose place its station stands.
    fn add_queue(
        &mut self,
        routes: &Routes,
        place: usize,
        station: Station,
        queue: &SerialQueue,
    ) -> Result<(), AllocError>
        requires { length (lists_in self.old) ≡ length routes.now }
        ensures { OnOk result (Gains (λ r. given (stands_at routes.now place station r) queue.now) (lists_in self.old) (lists_in self.new)) }
    {
        for item in queue.left() {
            self.add_standing(routes, place, station, item)?;
        }
        Ok(())
    }

    /// Adds what is left at the stations, of those routes at whose place a station stands.
    pub(crate) fn add_rests(
        &mut self,
        routes: &Routes,
        place: usize,
        rests: &[(Station, Rest)],
    ) -> Result<(), AllocError>
        requires lists { length (lists_in self.old) ≡ length routes.now }
        requires serial { AreSerial rests.now }
        ensures { OnOk result (Gains (λ r. laid (λ s. stands_at routes.now place s r) (lists_of rests.now)) (lists_in self.old) (lists_in self.new)) }
    {
        for number in 0..rests.len() {
            let (station, rest) = &rests[number];
            let Some(queue) = queue_in(rest) else {
                unreachable!()
            };
            self.add_queue(routes, place, *station, queue)?;
        }
        Ok(())
    }
}
