//! A block at work.
ghost use Rattle.std.specs.Prelude.{◌≡◌, [], All, IsTrue, ◌↔◌, MatchResult, false, ⊤};
ghost use Rattle.sdl_signal.specs.declared.values.Pid.{Pid};
ghost use Rattle.sdl_instances_log.specs.Counts.{AreCountsOf};
ghost use Rattle.sdl_forward_ends.specs.Ends.{IsSameEnds};
ghost use Rattle.sdl_forward.specs.Boards.{IsBoardOf};
ghost use Rattle.sdl_instances.specs.Core.{IsSound, IsLegalIn, IsReady};
ghost use Rattle.sdl_instances.specs.CoreOf.{core_of, parts_of, CanFire};
ghost use Rattle.sdl_instances.specs.Run.{turns, waiting};
ghost use Rattle.sdl_block_hand.specs.Work.{with_core, StepsAs};
ghost use Rattle.sdl_block_hand.specs.Apart.{StepsApart, IsPuttingOut};
ghost use Rattle.sdl_block_hand.specs.PutsBy.{CanPutOut};
ghost use Rattle.sdl_block.specs.Phases.{ArrivesOrStays, TriesTurn, PutsFirst, IsEmptyAfter};
ghost use Rattle.sdl_block.specs.PhasesApart.{IsOneRoundApart};
ghost use Rattle.sdl_block.specs.Picks.{LetsInAt, TriesTurnAt, StepsAt};
ghost use Rattle.sdl_block.specs.Rounds.{IsOneRound};
ghost use Rattle.sdl_block.specs.Around.{HasWays, LetsBy, GoesThrough, around};
ghost use Rattle.sdl_block.specs.Workers.{worker_of, behaviours_of, system_around};

use arrayvec::ArrayVec;
use sdl_block_hand::{Hand, Refused, Stepped, answer_of};
use sdl_forward::Board;
use sdl_forward::queues::{Queues, fill};
use sdl_forward_ends::Ends;
use sdl_instances::{BlockCore, Event, LogStore, Turn};
use sdl_instances_log::Counts;
use sdl_routes::{Routes, Station};
use sdl_signal::BlockId;
use sdl_transition::Agents;
use std::sync::Wait;

/// A block at work: its core, with what it has in hand.
#[derive(Drop)]
pub struct BlockWorker<S, K: LogStore = Vec<Event>> {
    core: BlockCore<S, K>,
    hand: Hand,
}

impl<S: Agents, K: LogStore> BlockWorker<S, K> {
    /// The block with this core and nothing in hand. No memory is taken.
    pub fn new(core: BlockCore<S, K>) -> BlockWorker<S, K>
        ensures worker { worker_of result ≡ with_core (core_of core) }
        ensures parts { behaviours_of result ≡ parts_of core }
    {
        BlockWorker {
            core,
            hand: Hand {
                kept: None,
                outgoing: ArrayVec::new(),
            },
        }
    }

    /// A step. It puts out what is in hand, from the front. Unless the budget is used, it then lets one item arrive: the kept
    /// one, or else the front of its inlet. It makes one turn, and puts out what that turn sent. A refusal ends the step.
    /// `pick` chooses among the instances that the item may enter, among those that are ready, and among the routes.
    pub fn step_serial(&mut self, routes: &Routes, board: &mut Board, pick: u32) -> Stepped
        requires parts { CanFire S.may (behaviours_of self.old) }
        requires sound { IsSound S.may (system_around self.old routes.now) (worker_of self.old).core }
        requires legal { All (IsLegalIn (system_around self.old routes.now)) (worker_of self.old).outgoing }
        requires board { IsBoardOf routes.now board.old }
        ensures pick { StepsAt S.may (system_around self.old routes.now) pick (worker_of self.old).core (worker_of self.new).core }
        ensures step { StepsAs S.may (system_around self.old routes.now) (worker_of self.old) board.old result (worker_of self.new) board.new }
        ensures first { PutsFirst (worker_of self.old) (worker_of self.new) }
        ensures round { IsOneRound routes.now (worker_of self.old) board.old result (worker_of self.new) board.new }
        ensures hand { IsEmptyAfter result (worker_of self.new) }
        ensures spent { turns (worker_of self.old).core.log ≡ (worker_of self.old).core.budget → (worker_of self.new).core ≡ (worker_of self.old).core }
        ensures sound { IsSound S.may (system_around self.new routes.now) (worker_of self.new).core }
        ensures legal { All (IsLegalIn (system_around self.new routes.now)) (worker_of self.new).outgoing }
        ensures board { IsBoardOf routes.now board.new }
        ensures parts { behaviours_of self.new ≡ behaviours_of self.old }
    {
        answer_of(self.try_step(&(), routes, board, pick))
    }

    /// A step through the block's own ends. It puts out what is in hand, from the front. Unless the budget is used, it then
    /// lets one item arrive: the kept one, or else the one that it takes. It makes one turn, and puts out what that turn sent.
    /// A refusal ends the step. `pick` chooses among the instances that the item may enter, among those that are ready, and
    /// among the routes. May wait for other threads.
    pub fn step<R: Wait>(&mut self, rt: &R, routes: &Routes, ends: &mut Ends, pick: u32) -> Stepped
        requires parts { CanFire S.may (behaviours_of self.old) }
        requires keeps { IsPuttingOut S.may (system_around self.old routes.now) (worker_of self.old) ends.old }
        ensures pick { StepsAt S.may (system_around self.old routes.now) pick (worker_of self.old).core (worker_of self.new).core }
        ensures step { StepsApart S.may (system_around self.old routes.now) (worker_of self.old) ends.old result (worker_of self.new) ends.new }
        ensures first { PutsFirst (worker_of self.old) (worker_of self.new) }
        ensures round { IsOneRoundApart (worker_of self.old) ends.old result (worker_of self.new) ends.new }
        ensures hand { IsEmptyAfter result (worker_of self.new) }
        ensures spent { turns (worker_of self.old).core.log ≡ (worker_of self.old).core.budget → (worker_of self.new).core ≡ (worker_of self.old).core }
        ensures keeps { IsPuttingOut S.may (system_around self.new routes.now) (worker_of self.new) ends.new }
        ensures parts { behaviours_of self.new ≡ behaviours_of self.old }
        ensures ends { IsSameEnds ends.old ends.new }
    {
        answer_of(self.try_step(rt, routes, ends, pick))
    }

    /// A step over any queues, which says whether it did anything.
    #[inline(always)]
    fn try_step<H, Q: Queues<H>>(
        &mut self,
        rt: &H,
        routes: &Routes,
        queues: &mut Q,
        pick: u32,
    ) -> Result<bool, Refused>
        requires parts { CanFire S.may (behaviours_of self.old) }
        requires sound { IsSound S.may (system_around self.old routes.now) (worker_of self.old).core }
        requires legal { All (IsLegalIn (system_around self.old routes.now)) (worker_of self.old).outgoing }
        requires hand { CanPutOut Q.relations routes.now queues.old (worker_of self.old).outgoing }
        requires ways { HasWays Q.relations (system_around self.old routes.now) (worker_of self.old).core.block queues.old }
        ensures phases { GoesThrough S.may (system_around self.old routes.now) (around Q.relations routes.now (worker_of self.old).core) pick (worker_of self.old) queues.old result (worker_of self.new) queues.new }
        ensures parts { behaviours_of self.new ≡ behaviours_of self.old }
    {
        let put = self.hand.put_out(rt, routes, queues)?;
        let arrived = self.let_one_arrive(rt, routes, queues, pick)?;
        let turned = self.make_turn(routes, pick)?;
        self.hand.put_out(rt, routes, queues)?;
        Ok(put | arrived | turned)
    }

    /// Lets one item arrive, unless the budget is used, and says whether one did: the kept one, or else one that it takes. An item
    /// that is refused is kept.
    #[inline(always)]
    fn let_one_arrive<H, Q: Queues<H>>(
        &mut self,
        rt: &H,
        routes: &Routes,
        queues: &mut Q,
        pick: u32,
    ) -> Result<bool, Refused>
        requires sound { IsSound S.may (system_around self.old routes.now) (worker_of self.old).core }
        ensures pick { LetsInAt routes.now pick (worker_of self.old).core (worker_of self.new).core }
        ensures arrived { LetsBy S.may (system_around self.old routes.now) (around Q.relations routes.now (worker_of self.old).core) (worker_of self.old) queues.old result (worker_of self.new) queues.new }
        ensures parts { behaviours_of self.new ≡ behaviours_of self.old }
    {
        if self.core.is_spent() {
            return self.let_none_arrive();
        }
        fill(
            rt,
            queues,
            Station::Inlet(self.core.block()),
            &mut self.hand.kept,
        );
        self.admit_kept(routes, pick)
    }

    /// What is answered where no item may arrive since the budget is used: a kept one stays, and is refused.
    fn let_none_arrive(&self) -> Result<bool, Refused>
        ensures { MatchResult result (λ arrived. (arrived ≡ false) × ((worker_of self.now).kept ≡ None)) (λ _. ⊤) }
    {
        match self.hand.kept {
            Some(_) => Err(Refused),
            None => Ok(false),
        }
    }

    /// Lets the kept item arrive, where there is one, and says whether one did. One that is refused stays.
    #[inline(always)]
    fn admit_kept(&mut self, routes: &Routes, pick: u32) -> Result<bool, Refused>
        requires sound { IsSound S.may (system_around self.old routes.now) (worker_of self.old).core }
        ensures pick { LetsInAt routes.now pick (worker_of self.old).core (worker_of self.new).core }
        ensures arrived { ArrivesOrStays S.may (system_around self.old routes.now) (worker_of self.old) result (worker_of self.new) }
        ensures parts { behaviours_of self.new ≡ behaviours_of self.old }
    {
        let Some(item) = &self.hand.kept else {
            return Ok(false);
        };
        if !self.core.can_arrive(routes, item) {
            return Err(Refused);
        }
        match self.core.arrive_from(routes, &mut self.hand.kept, pick) {
            Ok(_) => Ok(true),
            Err(_) => Err(Refused),
        }
    }

    /// Makes a turn, which puts what it sends into the hand, which is empty. It says whether an instance was ready, and the
    /// budget not used.
    #[inline(always)]
    fn make_turn(&mut self, routes: &Routes, pick: u32) -> Result<bool, Refused>
        requires parts { CanFire S.may (behaviours_of self.old) }
        requires sound { IsSound S.may (system_around self.old routes.now) (worker_of self.old).core }
        requires hand { (worker_of self.old).outgoing ≡ [] }
        ensures pick { TriesTurnAt S.may (system_around self.old routes.now) pick (worker_of self.old).core (worker_of self.new).core }
        ensures turn { TriesTurn S.may (system_around self.old routes.now) (worker_of self.old) result (worker_of self.new) }
        ensures parts { behaviours_of self.new ≡ behaviours_of self.old }
    {
        match self.core.turn_into(routes, pick, &mut self.hand.outgoing) {
            Ok(Turn::Fired(_)) => Ok(true),
            Ok(Turn::Idle) => Ok(false),
            Ok(Turn::Spent) => Ok(false),
            Err(_) => Err(Refused),
        }
    }

    /// Whether no instance is ready: each has started, and its port is empty. No memory is taken.
    pub fn is_settled(&self) -> bool
        ensures { IsTrue result ↔ ((p : Pid) → IsReady p (worker_of self.now).core.state → ⊥) }
    {
        self.core.is_settled()
    }

    /// The number of the block. No memory is taken.
    pub fn block(&self) -> BlockId
        ensures { result ≡ (worker_of self.now).core.block }
    {
        self.core.block()
    }

    /// The number of turns so far. No memory is taken.
    pub fn made(&self) -> u32
        ensures { result ≡ turns (worker_of self.now).core.log }
    {
        self.core.made()
    }

    /// The number of signals in all ports. No memory is taken.
    pub fn left_in_ports(&self) -> u64
        ensures { result ≡ waiting (worker_of self.now).core.state.living }
    {
        self.core.left_in_ports()
    }

    /// What became of the block's signals, counted along its log. No memory is taken.
    pub fn counts(&self) -> Counts
        ensures { AreCountsOf (worker_of self.now).core.log result }
    {
        self.core.counts()
    }

    /// The core of the block, and what it has in hand. No memory is taken.
    pub fn into_parts(self) -> (BlockCore<S, K>, Hand)
        ensures core { core_of result.0 ≡ (worker_of self).core }
        ensures parts { parts_of result.0 ≡ behaviours_of self }
        ensures kept { result.1.kept ≡ (worker_of self).kept }
        ensures outgoing { result.1.outgoing.items ≡ (worker_of self).outgoing }
    {
        (self.core, self.hand)
    }
}
