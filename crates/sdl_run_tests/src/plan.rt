//! Runs of a system under a plan, and what each left.
ghost use Rattle.std.specs.Prelude.{◌≤◌, IfErr};
ghost use Rattle.std.specs.List.{AllByRecursion};
ghost use Rattle.sdl_transition.specs.Bound.{IsBound};
ghost use Rattle.sdl_transition_behaviour.specs.Transitions.{IsAllowedBehaviour};
ghost use Rattle.sdl_run_serial.specs.Serial.{IsBackIn};

use sdl_agents::Runner;
use sdl_block_hand::Hand;
use sdl_instances::Event;
use sdl_queue::Rest;
use sdl_routes::Station;
use sdl_run::{Closing, EnvOut, Ledger, RunEnd, StartFault, run_serial};
use sdl_signal::{InputEnd, Item, OutputEnd};
use sdl_test_systems::{Stop, bind_to};
use sdl_transition::{Agents, Behaviour, Bound};
use std::alloc::Global;

/// How many turns each block may have, the schedule, and what stands in the input.
#[derive(Clone, Copy)]
pub struct Plan<'a> {
    pub budget: u32,
    pub schedule: &'a [u32],
    pub input: &'a [u8],
}

/// What a run left but its system, and what it wrote.
#[derive(Drop)]
pub struct Left {
    pub logs: Vec<Vec<Event>>,
    pub env_put: Vec<EnvOut>,
    pub env_received: Vec<Item>,
    pub hands: Vec<Hand>,
    pub rests: Vec<(Station, Rest)>,
    pub ledger: Ledger,
    pub end: RunEnd,
    pub input: InputEnd,
    pub output: OutputEnd,
    pub written: Vec<u8>,
}

/// Binds the behaviours to the structure of a file, and carries the plan out.
#[derive(Drop)]
pub struct Planned<'a> {
    pub alloc: Global,
    pub file: &'a str,
    pub plan: Plan<'a>,
}

impl Runner for Planned<'_> {
    type Answer = Result<Left, Stop>;

    fn run<S: Agents + Drop>(self, behaviours: Vec<Behaviour<S>>) -> Result<Left, Stop> {
        let bound = bind_to(self.alloc, self.file, behaviours)?;
        carry_out(self.alloc, &self.plan, bound)
    }
}

/// Runs the system. Where memory was refused before the first step, it is run again.
fn carry_out<S: Agents + Drop>(alloc: Global, plan: &Plan, bound: Bound<S>) -> Result<Left, Stop>
    requires { IsBound S.may bound }
{
    if plan.budget < 1 || plan.budget > 1_000_000 {
        return Err(Stop::Wrong("no such budget"));
    }
    match run_once(alloc, plan, bound) {
        Ok(left) => Ok(left),
        Err(StartFault::Memory(bound)) => match run_once(alloc, plan, bound) {
            Ok(left) => Ok(left),
            Err(_) => Err(Stop::Memory),
        },
    }
}

/// Runs the system.
fn run_once<S: Agents + Drop>(
    alloc: Global,
    plan: &Plan,
    bound: Bound<S>,
) -> Result<Left, StartFault<S>>
    requires budget { (1 ≤ plan.now.budget) × (plan.now.budget ≤ 1000000) }
    requires bound { IsBound S.may bound }
    ensures back { IfErr result (IsBackIn S.may bound) }
{
    let mut input = plan.input;
    let mut written = Vec::new(alloc);
    let closing = run_serial(
        alloc,
        bound,
        plan.budget,
        plan.schedule,
        &mut input,
        &mut written,
    )?;
    Ok(left_by(closing, written))
}

/// What is left, without the system.
fn left_by<S: Agents + Drop>(closing: Closing<S>, written: Vec<u8>) -> Left {
    Left {
        logs: closing.logs,
        env_put: closing.env_put,
        env_received: closing.env_received,
        hands: closing.hands,
        rests: closing.rests,
        ledger: closing.ledger,
        end: closing.end,
        input: closing.input,
        output: closing.output,
        written,
    }
}
