//! A run that has stopped: what it leaves.
ghost use Rattle.std.specs.Prelude.{◌≡◌, ℕ, List, Option, ◌+◌, ◌<◌, [], length, map, MatchOption, MatchBool};
ghost use Rattle.sdl_run_ledger.specs.Counts.{waiting_in};
ghost use Rattle.sdl_run_outcome.specs.Plan.{blocks_in, workers_of};
ghost use Rattle.sdl_run_outcome.specs.EnvironmentWork.{OwnEnd, HasReadSoFar, HasWrittenSoFar, input_end};
ghost use Rattle.sdl_run_order.specs.Driver.{IsIdle, outcome_of, finals_of};
ghost use Rattle.sdl_run_driver.specs.Closings.{HasRoom, AreLogsCounted, HasReadIn, HasWrittenIn, StopsByMemory, NamesRefused, outcome_in, outcome_left};
ghost use Rattle.sdl_run_driver.specs.Ended.{HasEnded};
ghost use Rattle.sdl_run_driver.specs.Stopped.{site_of_parked, IsParked};
ghost use Rattle.sdl_run_driver.specs.Systems.{plan_of, IsOneSystem, IsSystemOf};
ghost use Rattle.sdl_run_driver.specs.Drivers.{NoneSpent, FirstSpent, AllDone, SomeUndone, AllLeft, SomeLeft};

use crate::closing::{Closing, Left, Room, end_of, take_blocks, take_forwarders};
use crate::system::System;
use sdl_block::BlockWorker;
use sdl_forward::Forwarder;
use sdl_instances_log::LogStore;
use sdl_queue::Rest;
use sdl_routes::Station;
use sdl_run_environment::EnvWorker;
use sdl_run_ledger::Ledger;
use sdl_transition::{Agents, Bound};

/// The system of a run that has stopped, with all of its workers and what is left at the stations.
#[derive(Drop)]
pub struct Parked<S, K: LogStore> {
    /// The system, with its blocks at work.
    pub system: System<BlockWorker<S, K>>,
    /// The environment at work.
    pub environment: EnvWorker,
    /// A forwarder for each delaying path that carries a signal: by channel, forth before back.
    pub forwarders: Vec<Forwarder>,
    /// What is left at each station of some route: lines by channel, forth before back, then inlets by block, then the
    /// outlet.
    pub rests: Vec<(Station, Rest)>,
}

impl<S: Agents, K: LogStore> Parked<S, K> {
    /// Takes the workers apart. The worker named is the one that was refused memory.
    pub fn close(self, room: Room<S, K>, refused: Option<u32>) -> Closing<S, K>
        requires driving { IsParked S.may self }
        requires system { IsOneSystem S.may self.system }
        requires room { HasRoom (length self.system.blocks.items) (length self.system.blocks.items + (length self.forwarders.items + 1)) room }
        requires empty { (room.parts.items ≡ []) × (room.logs.items ≡ []) × (room.hands.items ≡ []) }
        requires refused { MatchOption refused (IsIdle (site_of_parked self)) (λ w. w < length (workers_of (plan_of self.system))) }
        ensures ended { HasEnded S.may (plan_of self.system) (outcome_in K.events result) result.end result.ledger }
        // What the environment has read and written by then is all that it reads and writes.
        ensures reading { (start now : Option (List ℕ)) → HasReadSoFar self.system.checked self.system.routes (blocks_in (plan_of self.system)) start now self.environment → HasReadIn (plan_of self.system) start now result }
        ensures writing { (start now : Option (List ℕ)) → HasWrittenSoFar self.system.checked self.system.routes (blocks_in (plan_of self.system)) start now self.environment → HasWrittenIn (plan_of self.system) start now result }
        ensures stopped { StopsByMemory result.input result.end }
        ensures left { outcome_in K.events result ≡ outcome_of (site_of_parked self) }
        ensures refusal { NamesRefused result.end refused }
        ensures bound { IsSystemOf self.system result.bound }
    {
        let spent = self.first_spent();
        let settled = self.are_settled();
        let waiting = self.waiting();
        let left = self.leave(room);
        let quiet = if settled {
            is_all_empty(left.rests.as_slice())
        } else {
            false
        };
        let ledger = Ledger::of(
            left.logs.as_slice(),
            left.counts.as_slice(),
            left.env_put.as_slice(),
            left.env_received.as_slice(),
            left.hands.as_slice(),
            left.rests.as_slice(),
            waiting,
        );
        Closing {
            bound: left.bound,
            logs: left.logs,
            env_put: left.env_put,
            env_received: left.env_received,
            hands: left.hands,
            rests: left.rests,
            ledger,
            end: end_of(refused, spent, quiet),
            input: left.input,
            output: left.output,
        }
    }

    /// Takes the workers apart into the system and what all of them leave, with what is left at the stations.
    fn leave(self, room: Room<S, K>) -> Left<S, K>
        requires system { IsOneSystem S.may self.system }
        requires room { HasRoom (length self.system.blocks.items) (length self.system.blocks.items + (length self.forwarders.items + 1)) room }
        requires empty { (room.parts.items ≡ []) × (room.logs.items ≡ []) × (room.hands.items ≡ []) }
        ensures bound { IsSystemOf self.system result.bound }
        ensures outcome { outcome_left K.events result ≡ outcome_of (site_of_parked self) }
        ensures input { result.input ≡ input_end self.environment }
        ensures own { OwnEnd self.environment.ended }
        ensures output { result.output ≡ self.environment.output }
        ensures counted { AreLogsCounted K.events result.logs.items result.counts.items }
    {
        let system = self.system;
        let env = self.environment.into_parts();
        let mut room = room;
        take_blocks(&mut room, system.blocks);
        room.take_hand(env.hand);
        take_forwarders(&mut room, self.forwarders);
        Left {
            bound: Bound::of_blocks(system.checked, system.routes, room.parts),
            logs: room.logs,
            counts: room.counts,
            env_put: env.put,
            env_received: env.received,
            hands: room.hands,
            rests: self.rests,
            input: env.input,
            output: env.output,
        }
    }

    /// The number of signals in the ports of all blocks.
    fn waiting(&self) -> u64
        requires { IsParked S.may self.now }
        ensures { result ≡ waiting_in (finals_of (site_of_parked self.now)) }
    {
        let mut waiting = 0;
        for number in 0..self.system.blocks.len() {
            waiting += self.system.blocks[number].left_in_ports();
        }
        waiting
    }

    /// The least block whose budget is used.
    fn first_spent(&self) -> Option<u32>
        requires { IsParked S.may self.now }
        ensures { MatchOption result (NoneSpent (plan_of self.now.system) (site_of_parked self.now).blocks) (FirstSpent (plan_of self.now.system) (site_of_parked self.now).blocks) }
    {
        for number in 0..self.system.blocks.len() {
            if self.system.blocks[number].made() == self.system.budget {
                return Some(number as u32);
            }
        }
        None
    }

    /// Whether no instance of any block is ready.
    fn are_settled(&self) -> bool
        ensures { MatchBool result (AllDone (site_of_parked self.now).blocks) (SomeUndone (site_of_parked self.now).blocks) }
    {
        for number in 0..self.system.blocks.len() {
            if !self.system.blocks[number].is_settled() {
                return false;
            }
        }
        true
    }
}

/// Whether nothing is left at any station.
fn is_all_empty(rests: &[(Station, Rest)]) -> bool
    ensures { MatchBool result (AllLeft rests.now) (SomeLeft rests.now) }
{
    for rest in rests {
        if rest.1.len() != 0 {
            return false;
        }
    }
    true
}
