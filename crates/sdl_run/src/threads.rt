//! A whole run in threads.
ghost use Rattle.std.specs.Prelude.{◌≡◌, ◌≤◌, length, IfOk, IfErr};
ghost use Rattle.sdl_transition.specs.Bound.{AreOneSystem, IsBound};
ghost use Rattle.sdl_run_driver.specs.Closings.{HasReadIn, HasWrittenIn, StopsByMemory, IsSameBound, outcome_in, plan_of_bound};
ghost use Rattle.sdl_run_driver.specs.Ended.{HasEnded};
ghost use Rattle.sdl_run_outcome.specs.Lists.{items_in};
ghost use Rattle.sdl_run_driver.specs.Systems.{plan_of_parts, IsBoundOf};
ghost use Rattle.sdl_run_serial.specs.Serial.{IsBackIn};
ghost use Rattle.sdl_run.specs.Room.{IsThreadRoom};
ghost use Rattle.sdl_run.specs.Stops.{EndsAsTheyCame};

use crate::joining::run_apart;
use crate::room::{ThreadRoom, make_thread_room};
use sdl_instances_log::{FilledAhead, LogStore};
use sdl_run_driver::closing::{Closing, StartFault};
use sdl_run_driver::system::{System, bound_again, with_budget};
use sdl_run_serial::blocks::start_system;
use sdl_run_serial::lists::{in_lists, room_for_lists};
use sdl_run_settling::settling::{Stopped, settle};
use sdl_run_threads::Gate;
use sdl_transition::{Agents, BlockParts, Bound};
use std::alloc::Global;
use std::io::{Read, Write};
use std::snapshot::Snapshot;
use std::sync::Wait;
use std::thread::Threads;

/// A run in threads that has ended.
#[derive(Drop)]
pub struct Ended<S, K: LogStore> {
    pub closing: Closing<S, K>,
    /// Its workers as they stopped, before anything was settled; for contracts alone.
    pub stopped: Snapshot<Stopped<S, K>>,
}

/// Runs a system in threads, where all of its blocks start, and settles what they leave.
fn run_in<
    S: Agents + Send,
    K: LogStore + Send,
    G: Gate,
    T: Threads + Wait + Sync,
    R: Read,
    W: Write,
>(
    rt: &T,
    alloc: Global,
    system: System<BlockParts<S>>,
    thread_room: ThreadRoom<S, K>,
    gate: &G,
    input: &mut R,
    output: &mut W,
) -> Result<Ended<S, K>, Bound<S>>
    requires budget { (1 ≤ system.budget) × (system.budget ≤ 1000000) }
    requires system { AreOneSystem S.may system.checked system.routes system.blocks.items }
    requires room { IsThreadRoom system.checked system.routes thread_room }
    ensures ended { IfOk result (λ e. HasEnded S.may (plan_of_parts system) (outcome_in K.events e.closing) e.closing.end e.closing.ledger) }
    ensures reading { IfOk result (λ e. HasReadIn (plan_of_parts system) (R.remaining input.old) (R.remaining input.new) e.closing) }
    ensures writing { IfOk result (λ e. HasWrittenIn (plan_of_parts system) (W.contents output.old) (W.contents output.new) e.closing) }
    ensures stopped { IfOk result (λ e. StopsByMemory e.closing.input e.closing.end) }
    // Where a worker came back that was refused memory or whose thread could not start, the end names the first, and nothing is
    // settled.
    ensures named { IfOk result (λ e. EndsAsTheyCame K.events (length system.blocks.items) e.closing e.stopped.value) }
    ensures bound { IfOk result (λ e. IsBoundOf system e.closing.bound) }
    ensures back { IfErr result (λ b. IsBoundOf system b × IsBound S.may b) }
    ensures untouched { IfErr result (λ b. (input.new ≡ input.old) × (output.new ≡ output.old)) }
{
    let ThreadRoom {
        opened,
        room,
        started,
    } = thread_room;
    match start_system(alloc, system, started, room) {
        Ok((system, room)) => {
            let stopped = run_apart(rt, system, opened, gate, input, output);
            let came = Snapshot::of(&stopped);
            Ok(Ended {
                closing: settle(rt, stopped, room, input, output),
                stopped: came,
            })
        }
        Err(bound) => Err(bound),
    }
}

/// Runs a system as `run_threads` does, and keeps the log of each block as the type of the logs says: whole, or counted alone.
pub fn run_threads_keeping<
    S: Agents + Send,
    K: LogStore + Send,
    G: Gate,
    T: Threads + Wait + Sync,
    R: Read,
    W: Write,
>(
    rt: &T,
    alloc: Global,
    bound: Bound<S>,
    budget: u32,
    gate: &G,
    input: &mut R,
    output: &mut W,
) -> Result<Closing<S, K>, StartFault<S>>
    requires bound { IsBound S.may bound }
    requires budget { (1 ≤ budget) × (budget ≤ 1000000) }
    ensures ended { IfOk result (λ c. HasEnded S.may (plan_of_bound bound budget) (outcome_in K.events c) c.end c.ledger) }
    // What was read of the input, with what became of each line, and how the reading ended.
    ensures reading { IfOk result (λ c. HasReadIn (plan_of_bound bound budget) (R.remaining input.old) (R.remaining input.new) c) }
    // What was written to the output.
    ensures writing { IfOk result (λ c. HasWrittenIn (plan_of_bound bound budget) (W.contents output.old) (W.contents output.new) c) }
    ensures stopped { IfOk result (λ c. StopsByMemory c.input c.end) }
    ensures bound { IfOk result (λ c. IsSameBound bound c.bound) }
    ensures back { IfErr result (λ f. IsBackIn S.may bound f) }
    ensures untouched { IfErr result (λ f. (input.new ≡ input.old) × (output.new ≡ output.old)) }
{
    let system = with_budget(bound, budget);
    match make_thread_room(
        rt,
        alloc,
        &system.checked,
        &system.routes,
        system.blocks.len(),
    ) {
        Ok(thread_room) => match run_in(rt, alloc, system, thread_room, gate, input, output) {
            Ok(ended) => Ok(ended.closing),
            Err(bound) => Err(StartFault::Memory(bound)),
        },
        Err(_) => Err(StartFault::Memory(bound_again(system))),
    }
}

/// Runs a system in threads until it ends: each block and each forwarder in a thread of its own, the environment on this one. It
/// reads the environment's signals as lines of the input, and writes what the environment receives as lines of the output. All
/// are told to stop once the input has ended and none has anything to do, or a budget is used, or memory is refused; what is left
/// is then settled on this thread. `budget` is the number of turns that each block may have. `gate` is called before each step of
/// each worker. Where memory is refused before the first step, the system is handed back; where it is refused to a worker, or a
/// worker's thread could not start, the run ends with `Memory` and that worker. May wait for other threads.
pub fn run_threads<S: Agents + Send, G: Gate, T: Threads + Wait + Sync, R: Read, W: Write>(
    rt: &T,
    alloc: Global,
    bound: Bound<S>,
    budget: u32,
    gate: &G,
    input: &mut R,
    output: &mut W,
) -> Result<Closing<S>, StartFault<S>>
    requires bound { IsBound S.may bound }
    requires budget { (1 ≤ budget) × (budget ≤ 1000000) }
    ensures ended { IfOk result (λ c. HasEnded S.may (plan_of_bound bound budget) (outcome_in items_in c) c.end c.ledger) }
    // What was read of the input, with what became of each line, and how the reading ended.
    ensures reading { IfOk result (λ c. HasReadIn (plan_of_bound bound budget) (R.remaining input.old) (R.remaining input.new) c) }
    // What was written to the output.
    ensures writing { IfOk result (λ c. HasWrittenIn (plan_of_bound bound budget) (W.contents output.old) (W.contents output.new) c) }
    ensures stopped { IfOk result (λ c. StopsByMemory c.input c.end) }
    ensures bound { IfOk result (λ c. IsSameBound bound c.bound) }
    ensures back { IfErr result (λ f. IsBackIn S.may bound f) }
    ensures untouched { IfErr result (λ f. (input.new ≡ input.old) × (output.new ≡ output.old)) }
{
    let Ok(lists) = room_for_lists(alloc, &bound) else {
        return Err(StartFault::Memory(bound));
    };
    match run_threads_keeping::<S, FilledAhead, G, T, R, W>(
        rt, alloc, bound, budget, gate, input, output,
    ) {
        Ok(closing) => Ok(in_lists(closing, lists)),
        Err(fault) => Err(fault),
    }
}
