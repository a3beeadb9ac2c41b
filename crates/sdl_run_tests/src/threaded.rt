//! Runs of a system in threads, and what each left.
ghost use Rattle.std.specs.List.{AllByRecursion};
ghost use Rattle.sdl_transition.specs.Bound.{IsBound};
ghost use Rattle.sdl_transition_behaviour.specs.Transitions.{IsAllowedBehaviour};

use crate::gates::Holding;
use sdl_block_hand::Hand;
use sdl_instances::{LogStore, Unstored};
use sdl_queue::Rest;
use sdl_routes::Station;
use sdl_run::{Closing, EnvOut, Ledger, RunEnd, StartFault, run_threads, run_threads_keeping};
use sdl_signal::{InputEnd, Item, OutputEnd};
use sdl_test_systems::{Stop, bind_to};
use sdl_transition::{Agents, Behaviour, Bound};
use std::alloc::Global;
use std::io::Write;
use std::ops::Range;
use std::sync::Wait;
use std::thread::Threads;

/// More turns than any block of these runs makes.
const BUDGET: u32 = 100_000;

/// Whether a run stores its logs, or counts them alone.
#[derive(Clone, Copy, PartialEq, Eq)]
pub enum Logs {
    Stored,
    Counted,
}

/// What a run left that these tests look at, and what it wrote.
#[derive(Drop)]
pub struct LeftInThreads {
    pub env_put: Vec<EnvOut>,
    pub env_received: Vec<Item>,
    pub ledger: Ledger,
    pub end: RunEnd,
    pub input: InputEnd,
    pub output: OutputEnd,
    pub written: Vec<u8>,
    /// How many items the workers still hold, and how many lie at the stations.
    pub held: usize,
    pub resting: usize,
    /// How many events are stored.
    pub events: usize,
}

/// A line with this head for each of the numbers.
pub fn lines(alloc: Global, head: &str, numbers: Range<u32>) -> Result<Vec<u8>, Stop> {
    let mut lines = Vec::new(alloc);
    for number in numbers {
        writeln!(&mut lines, "{head} {number}")
            .ok()
            .ok_or("a line can't be written")?;
    }
    Ok(lines)
}

/// Binds the behaviours to the structure of the file, and runs the system in threads with this gate, its logs kept so.
pub fn run_behaviours<S: Agents + Send + Drop, T: Threads + Wait + Sync>(
    rt: &T,
    alloc: Global,
    file: &str,
    behaviours: Vec<Behaviour<S>>,
    input: &[u8],
    gate: &Holding,
    logs: Logs,
) -> Result<LeftInThreads, Stop>
    requires { AllByRecursion (IsAllowedBehaviour S.may) behaviours.items }
{
    let bound = bind_to(alloc, file, behaviours)?;
    match logs {
        Logs::Stored => run_stored(rt, alloc, bound, input, gate),
        Logs::Counted => run_counted(rt, alloc, bound, input, gate),
    }
}

/// Runs the system, and stores its logs.
fn run_stored<S: Agents + Send + Drop, T: Threads + Wait + Sync>(
    rt: &T,
    alloc: Global,
    bound: Bound<S>,
    input: &[u8],
    gate: &Holding,
) -> Result<LeftInThreads, Stop>
    requires { IsBound S.may bound }
{
    let mut input = input;
    let mut written = Vec::new(alloc);
    let ran = run_threads(rt, alloc, bound, BUDGET, gate, &mut input, &mut written);
    match ran {
        Ok(closing) => Ok(left_by(closing, written)),
        Err(StartFault::Memory(_)) => Err(Stop::Memory),
    }
}

/// Runs the system, and counts its logs alone.
fn run_counted<S: Agents + Send + Drop, T: Threads + Wait + Sync>(
    rt: &T,
    alloc: Global,
    bound: Bound<S>,
    input: &[u8],
    gate: &Holding,
) -> Result<LeftInThreads, Stop>
    requires { IsBound S.may bound }
{
    let mut input = input;
    let mut written = Vec::new(alloc);
    let ran: Result<Closing<S, Unstored>, StartFault<S>> = run_threads_keeping(
        rt,
        alloc,
        bound,
        BUDGET,
        gate,
        &mut input,
        &mut written,
    );
    match ran {
        Ok(closing) => Ok(left_by(closing, written)),
        Err(StartFault::Memory(_)) => Err(Stop::Memory),
    }
}

/// How many items the workers hold.
fn held_in(hands: &[Hand]) -> usize {
    let mut held: usize = 0;
    for hand in hands {
        let kept = if hand.kept.is_some() { 1 } else { 0 };
        held = held
            .saturating_add(hand.outgoing.len())
            .saturating_add(kept);
    }
    held
}

/// How many items lie at the stations.
fn resting_in(rests: &[(Station, Rest)]) -> usize {
    let mut resting: usize = 0;
    for (_, rest) in rests {
        resting = resting.saturating_add(rest.len());
    }
    resting
}

/// How many events are stored in the logs.
fn stored_in<K: LogStore>(logs: &[K]) -> usize {
    let mut stored: usize = 0;
    for log in logs {
        stored = stored.saturating_add(log.stored().len());
    }
    stored
}

/// What is left, without the system and its logs.
fn left_by<S: Agents + Drop, K: LogStore>(
    closing: Closing<S, K>,
    written: Vec<u8>,
) -> LeftInThreads {
    LeftInThreads {
        held: held_in(closing.hands.as_slice()),
        resting: resting_in(closing.rests.as_slice()),
        events: stored_in(closing.logs.as_slice()),
        env_put: closing.env_put,
        env_received: closing.env_received,
        ledger: closing.ledger,
        end: closing.end,
        input: closing.input,
        output: closing.output,
        written,
    }
}
