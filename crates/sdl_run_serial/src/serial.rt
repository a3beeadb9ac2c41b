//! A whole run on one thread.
ghost use Rattle.std.specs.Prelude.{◌≡◌, ◌+◌, ◌≤◌, [], length, IfOk, IfErr};
ghost use Rattle.sdl_transition.specs.Bound.{AreOneSystem, IsBound};
ghost use Rattle.sdl_run_driver.specs.Closings.{HasRoom, HasReadIn, HasWrittenIn, StopsByMemory, IsRunOf, IsSameBound, outcome_in, plan_of_bound};
ghost use Rattle.sdl_run_driver.specs.Drivers.{site_of, IsDriving};
ghost use Rattle.sdl_run_driver.specs.Ended.{HasEnded};
ghost use Rattle.sdl_run_driver.specs.Systems.{plan_of, plan_of_parts, IsBoundOf, IsOneSystem, IsSystemOf};
ghost use Rattle.sdl_run_order.specs.Driver.{IsFresh};
ghost use Rattle.sdl_run_outcome.specs.Lists.{items_in};
ghost use Rattle.sdl_run_serial.specs.Serial.{IsStartRoom, IsBackIn};

use crate::blocks::start_system;
use crate::lists::{in_lists, room_for_lists};
use crate::start::{StartRoom, make_start_room};
use sdl_instances_log::{FilledAhead, LogStore};
use sdl_run_driver::Driver;
use sdl_run_driver::closing::{Closing, Room, StartFault};
use sdl_run_driver::system::{System, bound_again, with_budget};
use sdl_transition::{Agents, BlockParts, Bound};
use std::alloc::Global;
use std::io::{Read, Write};

/// Carries out a run whose driver stands, and takes the driver apart.
fn drive<S: Agents, K: LogStore, R: Read, W: Write>(
    driver: Driver<S, K>,
    room: Room<S, K>,
    schedule: &[u32],
    input: &mut R,
    output: &mut W,
) -> Closing<S, K>
    requires driving { IsDriving S.may driver }
    requires fresh { IsFresh S.may (plan_of driver.system) (site_of driver) }
    requires system { IsOneSystem S.may driver.system }
    requires room { HasRoom (length driver.system.blocks.items) (length driver.system.blocks.items + (length driver.forwarders.items + 1)) room }
    requires empty { (room.parts.items ≡ []) × (room.logs.items ≡ []) × (room.hands.items ≡ []) }
    ensures ended { HasEnded S.may (plan_of driver.system) (outcome_in K.events result) result.end result.ledger }
    ensures run { IsRunOf S.may (plan_of driver.system) schedule.now K.events result }
    ensures reading { HasReadIn (plan_of driver.system) (R.remaining input.old) (R.remaining input.new) result }
    ensures writing { HasWrittenIn (plan_of driver.system) (W.contents output.old) (W.contents output.new) result }
    ensures stopped { StopsByMemory result.input result.end }
    ensures bound { IsSystemOf driver.system result.bound }
{
    let mut driver = driver;
    let refused = driver.run(schedule, input, output);
    driver.close(room, refused)
}

/// Runs a system, where all of its blocks start in the room that was taken for them.
fn run_in<S: Agents, K: LogStore, R: Read, W: Write>(
    alloc: Global,
    system: System<BlockParts<S>>,
    start_room: StartRoom<S, K>,
    schedule: &[u32],
    input: &mut R,
    output: &mut W,
) -> Result<Closing<S, K>, Bound<S>>
    requires budget { (1 ≤ system.budget) × (system.budget ≤ 1000000) }
    requires system { AreOneSystem S.may system.checked system.routes system.blocks.items }
    requires start_room { IsStartRoom system.checked system.routes (length system.blocks.items) start_room }
    ensures ended { IfOk result (λ c. HasEnded S.may (plan_of_parts system) (outcome_in K.events c) c.end c.ledger) }
    ensures run { IfOk result (IsRunOf S.may (plan_of_parts system) schedule.now K.events) }
    ensures reading { IfOk result (λ c. HasReadIn (plan_of_parts system) (R.remaining input.old) (R.remaining input.new) c) }
    ensures writing { IfOk result (λ c. HasWrittenIn (plan_of_parts system) (W.contents output.old) (W.contents output.new) c) }
    ensures stopped { IfOk result (λ c. StopsByMemory c.input c.end) }
    ensures bound { IfOk result (λ c. IsBoundOf system c.bound) }
    ensures back { IfErr result (λ b. IsBoundOf system b × IsBound S.may b) }
    ensures untouched { IfErr result (λ b. (input.new ≡ input.old) × (output.new ≡ output.old)) }
{
    let StartRoom {
        board,
        forwarders,
        environment,
        room,
        workers,
    } = start_room;
    match start_system(alloc, system, workers, room) {
        Ok((system, room)) => {
            let driver = Driver {
                system,
                environment,
                forwarders,
                board,
            };
            Ok(drive(driver, room, schedule, input, output))
        }
        Err(bound) => Err(bound),
    }
}

/// Runs a system as `run_serial` does, and keeps the log of each block as the type of the logs says: whole, or counted alone.
pub fn run_keeping<S: Agents, K: LogStore, R: Read, W: Write>(
    alloc: Global,
    bound: Bound<S>,
    budget: u32,
    schedule: &[u32],
    input: &mut R,
    output: &mut W,
) -> Result<Closing<S, K>, StartFault<S>>
    requires bound { IsBound S.may bound }
    requires budget { (1 ≤ budget) × (budget ≤ 1000000) }
    ensures ended { IfOk result (λ c. HasEnded S.may (plan_of_bound bound budget) (outcome_in K.events c) c.end c.ledger) }
    // The steps that the schedule names are made, and then those of whole rounds; none is made after a refusal.
    ensures run { IfOk result (IsRunOf S.may (plan_of_bound bound budget) schedule.now K.events) }
    // What was read of the input, with what became of each line, and how the reading ended.
    ensures reading { IfOk result (λ c. HasReadIn (plan_of_bound bound budget) (R.remaining input.old) (R.remaining input.new) c) }
    // What was written to the output.
    ensures writing { IfOk result (λ c. HasWrittenIn (plan_of_bound bound budget) (W.contents output.old) (W.contents output.new) c) }
    ensures stopped { IfOk result (λ c. StopsByMemory c.input c.end) }
    ensures bound { IfOk result (λ c. IsSameBound bound c.bound) }
    ensures back { IfErr result (λ f. IsBackIn S.may bound f) }
    ensures untouched { IfErr result (λ f. (input.new ≡ input.old) × (output.new ≡ output.old)) }
{
    let system = with_budget(bound, budget);
    match make_start_room(alloc, &system.checked, &system.routes, system.blocks.len()) {
        Ok(start_room) => match run_in(alloc, system, start_room, schedule, input, output) {
            Ok(closing) => Ok(closing),
            Err(bound) => Err(StartFault::Memory(bound)),
        },
        Err(_) => Err(StartFault::Memory(bound_again(system))),
    }
}

/// Runs a system on one thread until it ends: it reads the environment's signals as lines of the input, and writes what the
/// environment receives as lines of the output. Each number of the schedule lets one worker make a step, the one of
/// that number modulo the workers, with the quotient as its pick; all workers then take turns until nothing is left to do,
/// or a budget is used, or memory is refused. `budget` is the number of turns that each block may have.
/// Where memory is refused before the first step, the system is handed back.
pub fn run_serial<S: Agents, R: Read, W: Write>(
    alloc: Global,
    bound: Bound<S>,
    budget: u32,
    schedule: &[u32],
    input: &mut R,
    output: &mut W,
) -> Result<Closing<S>, StartFault<S>>
    requires bound { IsBound S.may bound }
    requires budget { (1 ≤ budget) × (budget ≤ 1000000) }
    ensures ended { IfOk result (λ c. HasEnded S.may (plan_of_bound bound budget) (outcome_in items_in c) c.end c.ledger) }
    // The steps that the schedule names are made, and then those of whole rounds; none is made after a refusal.
    ensures run { IfOk result (IsRunOf S.may (plan_of_bound bound budget) schedule.now items_in) }
    // What was read of the input, with what became of each line, and how the reading ended.
    ensures reading { IfOk result (λ c. HasReadIn (plan_of_bound bound budget) (R.remaining input.old) (R.remaining input.new) c) }
    // What was written to the output.
    ensures writing { IfOk result (λ c. HasWrittenIn (plan_of_bound bound budget) (W.contents output.old) (W.contents output.new) c) }
    ensures stopped { IfOk result (λ c. StopsByMemory c.input c.end) }
    ensures bound { IfOk result (λ c. IsSameBound bound c.bound) }
    ensures back { IfErr result (λ f. IsBackIn S.may bound f) }
    ensures untouched { IfErr result (λ f. (input.new ≡ input.old) × (output.new ≡ output.old)) }
{
    let Ok(lists) = room_for_lists(alloc, &bound) else {
        return Err(StartFault::Memory(bound));
    };
    match run_keeping::<S, FilledAhead, R, W>(alloc, bound, budget, schedule, input, output) {
        Ok(closing) => Ok(in_lists(closing, lists)),
        Err(fault) => Err(fault),
    }
}
