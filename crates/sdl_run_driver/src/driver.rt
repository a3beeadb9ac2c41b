//! The driver of a run on one thread.
ghost use Rattle.std.specs.Prelude.{◌≡◌, ◌<◌, ◌≤◌, None, true, length, MatchOption};
ghost use Rattle.sdl_run_outcome.specs.Plan.{workers_of};
ghost use Rattle.sdl_run_order.specs.Driver.{BlockSteps, EnvironmentSteps, ForwarderSteps, IsIdle};
ghost use Rattle.sdl_run_environment.specs.EnvPicks.{ReadsAt};
ghost use Rattle.sdl_run_driver.specs.Drivers.{site_of, IsDriving, ReadsOver, WritesOver, AllFree, StepAnswers, RoundAnswers};
ghost use Rattle.sdl_run_driver.specs.Systems.{plan_of, IsSameSystem};
ghost use Rattle.sdl_run_driver.specs.Runs.{workers_below, refused_in, BlockStepsAt, WorkerSteps, StepsThrough, Settles, Runs};

use crate::first_forwarders::FirstForwarders;
use crate::system::System;
use sdl_block::BlockWorker;
use sdl_block_hand::Stepped;
use sdl_forward::{Board, Forwarded, Forwarder};
use sdl_instances_log::LogStore;
use sdl_run_environment::EnvWorker;
use sdl_transition::Agents;
use std::io::{Read, Write};

/// The system of a run, with all of its workers and the board between them.
#[derive(Drop)]
pub struct Driver<S, K: LogStore> {
    /// The system, with its blocks at work.
    pub system: System<BlockWorker<S, K>>,
    /// The environment at work.
    pub environment: EnvWorker,
    /// A forwarder for each delaying path that carries a signal: by channel, forth before back.
    pub forwarders: Vec<Forwarder>,
    /// The stations with their queues.
    pub board: Board,
}

/// What a round of all workers did.
pub enum Round {
    /// Some worker did something.
    Did,
    /// No worker could do anything.
    Idle,
    /// Memory was refused to the worker of this number.
    Refused(u32),
}

impl<S: Agents, K: LogStore> Driver<S, K> {
    /// How many workers there are: the blocks, the environment and the forwarders.
    fn workers(&self) -> u32
        requires { IsDriving S.may self.now }
        ensures count { result ≡ length (workers_of (plan_of self.now.system)) }
        ensures few { result ≤ 193 }
        ensures some { 0 < result }
    {
        (self.system.blocks.len() + 1 + self.forwarders.len()) as u32
    }

    /// Lets a block make a step.
    // by itself, as the environment's is, so that the loop over forwarders, whose steps are short, is no longer than they need
    #[inline(never)]
    fn step_block(&mut self, block: usize, pick: u32) -> Stepped
        requires driving { IsDriving S.may self.old }
        requires within { block < length self.old.system.blocks.items }
        ensures step { BlockSteps S.may (plan_of self.old.system) block result (site_of self.old) (site_of self.new) }
        ensures pick { BlockStepsAt S.may (plan_of self.old.system) block pick result (site_of self.old) (site_of self.new) }
        ensures same { IsSameSystem self.old.system self.new.system }
    {
        let worker = &mut self.system.blocks[block];
        worker.step_serial(&self.system.routes, &mut self.board, pick)
    }

    /// Lets a forwarder make a step.
    #[inline(always)]
    fn step_forwarder(&mut self, forwarder: usize) -> Forwarded
        requires driving { IsDriving S.may self.old }
        requires within { forwarder < length self.old.forwarders.items }
        ensures step { ForwarderSteps (plan_of self.old.system) forwarder result (site_of self.old) (site_of self.new) }
        ensures same { IsSameSystem self.old.system self.new.system }
    {
        let worker = &mut self.forwarders[forwarder];
        worker.step_serial(&self.system.routes, &mut self.board)
    }

    /// Lets the environment make a step.
    #[inline(never)]
    fn step_environment<R: Read, W: Write>(
        &mut self,
        pick: u32,
        input: &mut R,
        output: &mut W,
    ) -> Stepped
        requires driving { IsDriving S.may self.old }
        ensures step { EnvironmentSteps (plan_of self.old.system) result (site_of self.old) (site_of self.new) }
        ensures pick { ReadsAt (plan_of self.old.system).routes pick self.old.environment self.new.environment }
        ensures same { IsSameSystem self.old.system self.new.system }
        ensures reading { ReadsOver (plan_of self.old.system) self.old.environment (R.remaining input.old) self.new.environment (R.remaining input.new) }
        ensures writing { WritesOver (plan_of self.old.system) self.old.environment (W.contents output.old) self.new.environment (W.contents output.new) }
    {
        self.environment.step_serial(
            self.system.checked.structure(),
            &self.system.routes,
            &mut self.board,
            pick,
            input,
            output,
        )
    }

    /// Lets the worker of this number make a step.
    #[inline(always)]
    fn step<R: Read, W: Write>(
        &mut self,
        number: u32,
        pick: u32,
        input: &mut R,
        output: &mut W,
    ) -> Stepped
        requires driving { IsDriving S.may self.old }
        requires within { number < length (workers_of (plan_of self.old.system)) }
        ensures driving { IsDriving S.may self.new }
        ensures same { IsSameSystem self.old.system self.new.system }
        ensures answer { StepAnswers (plan_of self.old.system) number result (site_of self.old) (site_of self.new) }
        ensures step { WorkerSteps S.may (plan_of self.old.system) number pick result (site_of self.old) (site_of self.new) }
        ensures reading { ReadsOver (plan_of self.old.system) self.old.environment (R.remaining input.old) self.new.environment (R.remaining input.new) }
        ensures writing { WritesOver (plan_of self.old.system) self.old.environment (W.contents output.old) self.new.environment (W.contents output.new) }
    {
        let number = number as usize;
        let blocks = self.system.blocks.len();
        if number < blocks {
            return self.step_block(number, pick);
        }
        if number == blocks {
            return self.step_environment(pick, input, output);
        }
        match self.step_forwarder(number - blocks - 1) {
            Forwarded::Moved => Stepped::Did,
            Forwarded::Idle => Stepped::Idle,
            Forwarded::Held => Stepped::Memory,
        }
    }

    /// Lets all workers make a step, by number, until one is refused memory.
    fn round<R: Read, W: Write>(
        &mut self,
        free: bool,
        places: &FirstForwarders,
        input: &mut R,
        output: &mut W,
    ) -> Round
        requires driving { IsDriving S.may self.old }
        requires free { free ≡ true → AllFree (site_of self.old) }
        ensures driving { IsDriving S.may self.new }
        ensures same { IsSameSystem self.old.system self.new.system }
        ensures answer { RoundAnswers (plan_of self.old.system) result (site_of self.old) (site_of self.new) }
        ensures steps { StepsThrough S.may (plan_of self.old.system) (workers_below (length (workers_of (plan_of self.old.system)))) (refused_in result) (site_of self.old) (site_of self.new) }
        ensures free { refused_in result ≡ None → free ≡ true → AllFree (site_of self.new) }
        ensures reading { ReadsOver (plan_of self.old.system) self.old.environment (R.remaining input.old) self.new.environment (R.remaining input.new) }
        ensures writing { WritesOver (plan_of self.old.system) self.old.environment (W.contents output.old) self.new.environment (W.contents output.new) }
    {
        let workers = self.workers();
        let mut did = false;
        let mut number = 0;
        while number < workers {
            match self.step(number, 0, input, output) {
                Stepped::Did => did = true,
                Stepped::Idle => {}
                Stepped::Memory => return Round::Refused(number),
            }
            number = self.next_worker(number + 1, free, places);
        }
        if did { Round::Did } else { Round::Idle }
    }

    /// Lets all workers take turns until a round does nothing, or the worker that is answered is refused memory.
    fn settle<R: Read, W: Write>(&mut self, input: &mut R, output: &mut W) -> Option<u32>
        requires driving { IsDriving S.may self.old }
        ensures driving { IsDriving S.may self.new }
        ensures same { IsSameSystem self.old.system self.new.system }
        ensures answer { MatchOption result (IsIdle (site_of self.new)) (λ w. w < length (workers_of (plan_of self.old.system))) }
        ensures steps { Settles S.may (plan_of self.old.system) result (site_of self.old) (site_of self.new) }
        ensures reading { ReadsOver (plan_of self.old.system) self.old.environment (R.remaining input.old) self.new.environment (R.remaining input.new) }
        ensures writing { WritesOver (plan_of self.old.system) self.old.environment (W.contents output.old) self.new.environment (W.contents output.new) }
    {
        let free = self.are_free();
        let places = FirstForwarders::of(self.forwarders.as_slice());
        loop {
            match self.round(free, &places, input, output) {
                Round::Did => {}
                Round::Idle => return None,
                Round::Refused(worker) => return Some(worker),
            }
        }
    }

    /// Carries out the schedule, number by number, and then settles the rest. `None` where no memory was refused.
    pub fn run<R: Read, W: Write>(
        &mut self,
        schedule: &[u32],
        input: &mut R,
        output: &mut W,
    ) -> Option<u32>
        requires driving { IsDriving S.may self.old }
        ensures driving { IsDriving S.may self.new }
        ensures same { IsSameSystem self.old.system self.new.system }
        ensures answer { MatchOption result (IsIdle (site_of self.new)) (λ w. w < length (workers_of (plan_of self.old.system))) }
        // A refusal ends it: no step is made after it.
        ensures run { Runs S.may (plan_of self.old.system) schedule.now result (site_of self.old) (site_of self.new) }
        ensures reading { ReadsOver (plan_of self.old.system) self.old.environment (R.remaining input.old) self.new.environment (R.remaining input.new) }
        ensures writing { WritesOver (plan_of self.old.system) self.old.environment (W.contents output.old) self.new.environment (W.contents output.new) }
    {
        let workers = self.workers();
        for number in schedule {
            match self.step(*number % workers, *number / workers, input, output) {
                Stepped::Did => {}
                Stepped::Idle => {}
                Stepped::Memory => return Some(*number % workers),
            }
        }
        self.settle(input, output)
    }
}
