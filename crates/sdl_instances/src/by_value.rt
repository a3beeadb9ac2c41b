//! Calls of a core that take and answer items by value, for callers that have no slot and no hand.
ghost use Rattle.std.specs.Prelude.{◌≡◌, ◌++◌, ◌∷◌, ◌<◌, ◌%◌, ◌^◌, ◌-◌, [], None, Some, All, IfOk, IfErr, OnErr};
ghost use Rattle.sdl_signal.specs.declared.ids.SetId.{SetId};
ghost use Rattle.sdl_signal.specs.declared.values.Pid.{Pid};
ghost use Rattle.sdl_instances_log.specs.declared.event.Arrival.TheVariants as arrival;
ghost use Rattle.sdl_instances.specs.Legal.{GoesTo, IsOfSet};
ghost use Rattle.sdl_instances.specs.Machine.{Arrives, number_living};
ghost use Rattle.sdl_instances.specs.Core.{arrival_event, IsLivingAt, IsLegalIn, IsSound};
ghost use Rattle.sdl_instances.specs.CoreOf.{core_of, parts_of, system_in, CanFire};
ghost use Rattle.sdl_instances.specs.Calls.{LeavesOthers, TurnAnswers, hand_of};

use crate::block::BlockCore;
use arrayvec::ArrayVec;
use sdl_instances_log::{Arrival, LogStore, Turn, Turned};
use sdl_routes::Routes;
use sdl_signal::Item;
use sdl_transition::Agents;
use std::alloc::AllocError;

impl<S: Agents, K: LogStore> BlockCore<S, K> {
    /// `arrive_from`, of this item. A refusal hands it back.
    #[inline(always)]
    pub fn arrive(
        &mut self,
        routes: &Routes,
        item: Item,
        pick: u32,
    ) -> Result<Arrival, (Item, AllocError)>
        requires stamp { item.stamp < 2 ^ 64 - 1 }
        requires legal { IsLegalIn (system_in self.old routes.now) item }
        requires sound { IsSound S.may (system_in self.old routes.now) (core_of self.old) }
        requires ends_here { (set : SetId) × GoesTo routes.now item set × ((p : Pid) → item.to ≡ Some p → IsOfSet set p) }
        ensures arrives { IfOk result (λ a. Arrives routes.now (core_of self.old).state item a (core_of self.new).state) }
        ensures log { IfOk result (λ a. (core_of self.new).log ≡ (core_of self.old).log ++ arrival_event item a ∷ []) }
        ensures picked { (set : SetId) (p : Pid) → GoesTo routes.now item set → item.to ≡ None → result ≡ Ok (arrival.Entered p) → IsLivingAt set (core_of self.old).state (pick % number_living set (core_of self.old).state) p }
        ensures sound { IfOk result (λ _. IsSound S.may (system_in self.old routes.now) (core_of self.new)) }
        ensures rest { LeavesOthers (core_of self.old) (core_of self.new) }
        ensures parts { parts_of self.new ≡ parts_of self.old }
        ensures err { IfErr result (λ e. (e.0 ≡ item) × (core_of self.new ≡ core_of self.old)) }
    {
        let mut slot = Some(item);
        match self.arrive_from(routes, &mut slot, pick) {
            Ok(arrival) => Ok(arrival),
            Err(refused) => match slot {
                Some(back) => Err((back, refused)),
                None => unreachable!(),
            },
        }
    }

    /// `turn_into`, whose answer has what the turn sends.
    pub fn turn(&mut self, routes: &Routes, pick: u32) -> Result<Turned, AllocError>
        requires sound { IsSound S.may (system_in self.old routes.now) (core_of self.old) }
        requires parts { CanFire S.may (parts_of self.old) }
        ensures answers { IfOk result (λ t. TurnAnswers S.may (system_in self.old routes.now) pick (core_of self.old) t (core_of self.new)) }
        ensures sound { IfOk result (λ _. IsSound S.may (system_in self.old routes.now) (core_of self.new)) }
        ensures legal { IfOk result (λ t. All (IsLegalIn (system_in self.old routes.now)) (hand_of t)) }
        ensures parts { parts_of self.new ≡ parts_of self.old }
        ensures err { OnErr result (core_of self.new ≡ core_of self.old) }
    {
        let mut hand = ArrayVec::new();
        match self.turn_into(routes, pick, &mut hand)? {
            Turn::Idle => Ok(Turned::Idle),
            Turn::Spent => Ok(Turned::Spent),
            Turn::Fired(pid) => Ok(Turned::Fired(pid, hand)),
        }
    }
}
