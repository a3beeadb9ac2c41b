//! What joined workers leave is settled on one thread, and the run is closed.
ghost use Rattle.std.specs.Prelude.{◌≡◌, ℕ, List, Option, Some, ◌+◌, ◌<◌, [], length, map, slice_get, MatchOption, ⊤};
ghost use Rattle.sdl_run_outcome.specs.Plan.{blocks_in, workers_of};
ghost use Rattle.sdl_run_outcome.specs.EnvironmentWork.{HasReadSoFar, HasWrittenSoFar};
ghost use Rattle.sdl_run_driver.specs.Closings.{HasRoom, HasReadIn, HasWrittenIn, StopsByMemory, NamesRefused, outcome_in};
ghost use Rattle.sdl_run_driver.specs.Drivers.{IsDriving};
ghost use Rattle.sdl_run_driver.specs.Ended.{HasEnded};
ghost use Rattle.sdl_run_driver.specs.Stopped.{site_of_parked, IsParked};
ghost use Rattle.sdl_run_driver.specs.Systems.{plan_of, IsOneSystem, IsSystemOf};
ghost use Rattle.sdl_run_order.specs.Driver.{outcome_of};
ghost use Rattle.sdl_forward_opening.specs.Workers.{Among, taker};
ghost use Rattle.sdl_run_settling.specs.Takers.{workers_with};

use sdl_forward::{Board, Forwarder};
use sdl_instances_log::{Event, LogStore};
use sdl_routes::Station;
use sdl_run_driver::closing::{Closing, Room};
use sdl_run_driver::{Driver, Parked};
use sdl_run_threads::{AtWork, Returned};
use sdl_transition::Agents;
use std::io::{Read, Write};
use std::snapshot::Snapshot;
use std::sync::Wait;

/// Workers that have stopped.
#[derive(Drop)]
pub struct Stopped<S, K: LogStore = Vec<Event>> {
    pub parked: Parked<S, K>,
    /// The number of the environment where it was refused memory, and else of the first other worker that was, or whose thread
    /// could not start. `None` exactly where all ran.
    pub refused: Option<u32>,
    /// The blocks and forwarders as they came back, for contracts alone.
    pub came: Snapshot<Vec<Returned<AtWork<S, K>>>>,
    /// How the environment came back.
    pub way: Returned<()>,
}

/// The number of the worker that takes from the station: a block, the environment behind the blocks, or a forwarder behind it.
fn number_of_taker(station: Station, blocks: u32, forwarders: &[Forwarder]) -> u32
    requires few { length forwarders.now < 1000 }
    requires blocks { blocks < 1000 }
    requires taken { Among (taker station) (workers_with blocks (map (λ f. f.hop) forwarders.now)) }
    ensures bound { result < blocks + (length forwarders.now + 1) }
    ensures taker { slice_get (workers_with blocks (map (λ f. f.hop) forwarders.now)) result ≡ Some (taker station) }
{
    match station {
        Station::Inlet(block) => block.0,
        Station::Outlet => blocks,
        Station::Line(hop) => {
            for (place, forwarder) in forwarders.iter().enumerate() {
                if forwarder.hop() == hop {
                    return blocks + 1 + place as u32;
                }
            }
            unreachable!()
        }
    }
}

/// Lets the workers take turns on this thread until nothing is left to do, and takes them apart.
fn drive_on<S: Agents, K: LogStore, R: Read, W: Write>(
    driver: Driver<S, K>,
    room: Room<S, K>,
    input: &mut R,
    output: &mut W,
) -> Closing<S, K>
    requires driving { IsDriving S.may driver }
    requires system { IsOneSystem S.may driver.system }
    requires room { HasRoom (length driver.system.blocks.items) (length driver.system.blocks.items + (length driver.forwarders.items + 1)) room }
    requires empty { (room.parts.items ≡ []) × (room.logs.items ≡ []) × (room.hands.items ≡ []) }
    ensures ended { HasEnded S.may (plan_of driver.system) (outcome_in K.events result) result.end result.ledger }
    ensures reading { (start : Option (List ℕ)) → HasReadSoFar driver.system.checked driver.system.routes (blocks_in (plan_of driver.system)) start (R.remaining input.old) driver.environment
        → HasReadIn (plan_of driver.system) start (R.remaining input.new) result }
    ensures writing { (start : Option (List ℕ)) → HasWrittenSoFar driver.system.checked driver.system.routes (blocks_in (plan_of driver.system)) start (W.contents output.old) driver.environment
        → HasWrittenIn (plan_of driver.system) start (W.contents output.new) result }
    ensures stopped { StopsByMemory result.input result.end }
    ensures bound { IsSystemOf driver.system result.bound }
{
    let mut driver = driver;
    let refused = driver.run(&[], input, output);
    driver.close(room, refused)
}

/// Puts what is left in the queues on a board, lets the workers go on from there, and closes the run. Where the board is refused
/// memory, nothing more is settled, and the end names who takes at that station.
fn settle_rests<S: Agents, K: LogStore, T: Wait, R: Read, W: Write>(
    rt: &T,
    parked: Parked<S, K>,
    room: Room<S, K>,
    input: &mut R,
    output: &mut W,
) -> Closing<S, K>
    requires parked { IsParked S.may parked }
    requires system { IsOneSystem S.may parked.system }
    requires room { HasRoom (length parked.system.blocks.items) (length parked.system.blocks.items + (length parked.forwarders.items + 1)) room }
    requires empty { (room.parts.items ≡ []) × (room.logs.items ≡ []) × (room.hands.items ≡ []) }
    ensures ended { HasEnded S.may (plan_of parked.system) (outcome_in K.events result) result.end result.ledger }
    ensures reading { (start : Option (List ℕ)) → HasReadSoFar parked.system.checked parked.system.routes (blocks_in (plan_of parked.system)) start (R.remaining input.old) parked.environment
        → HasReadIn (plan_of parked.system) start (R.remaining input.new) result }
    ensures writing { (start : Option (List ℕ)) → HasWrittenSoFar parked.system.checked parked.system.routes (blocks_in (plan_of parked.system)) start (W.contents output.old) parked.environment
        → HasWrittenIn (plan_of parked.system) start (W.contents output.new) result }
    ensures stopped { StopsByMemory result.input result.end }
    ensures bound { IsSystemOf parked.system result.bound }
{
    let Parked {
        system,
        environment,
        forwarders,
        rests,
    } = parked;
    match Board::adopt(rt, rests) {
        Ok(board) => {
            let driver = Driver {
                system,
                environment,
                forwarders,
                board,
            };
            drive_on(driver, room, input, output)
        }
        Err((rests, station)) => {
            let worker = number_of_taker(
                station,
                system.blocks.len() as u32,
                forwarders.as_slice(),
            );
            let parked = Parked {
                system,
                environment,
                forwarders,
                rests,
            };
            parked.close(room, Some(worker))
        }
    }
}

/// Settles what the workers leave where none was refused memory, and closes the run. Where one was refused, the end names it.
pub fn settle<S: Agents, K: LogStore, T: Wait, R: Read, W: Write>(
    rt: &T,
    stopped: Stopped<S, K>,
    room: Room<S, K>,
    input: &mut R,
    output: &mut W,
) -> Closing<S, K>
    requires parked { IsParked S.may stopped.parked }
    requires system { IsOneSystem S.may stopped.parked.system }
    requires room { HasRoom (length stopped.parked.system.blocks.items) (length stopped.parked.system.blocks.items + (length stopped.parked.forwarders.items + 1)) room }
    requires empty { (room.parts.items ≡ []) × (room.logs.items ≡ []) × (room.hands.items ≡ []) }
    requires refused { MatchOption stopped.refused ⊤ (λ w. w < length (workers_of (plan_of stopped.parked.system))) }
    ensures ended { HasEnded S.may (plan_of stopped.parked.system) (outcome_in K.events result) result.end result.ledger }
    ensures reading { (start : Option (List ℕ)) → HasReadSoFar stopped.parked.system.checked stopped.parked.system.routes (blocks_in (plan_of stopped.parked.system)) start (R.remaining input.old) stopped.parked.environment
        → HasReadIn (plan_of stopped.parked.system) start (R.remaining input.new) result }
    ensures writing { (start : Option (List ℕ)) → HasWrittenSoFar stopped.parked.system.checked stopped.parked.system.routes (blocks_in (plan_of stopped.parked.system)) start (W.contents output.old) stopped.parked.environment
        → HasWrittenIn (plan_of stopped.parked.system) start (W.contents output.new) result }
    ensures stopped { StopsByMemory result.input result.end }
    ensures refusal { MatchOption stopped.refused ⊤ (λ w. NamesRefused result.end (Some w)) }
    // Where one was refused, nothing is done after the workers have stopped: what the closing shows is what they left.
    ensures left { MatchOption stopped.refused ⊤ (λ w. outcome_in K.events result ≡ outcome_of (site_of_parked stopped.parked)) }
    ensures bound { IsSystemOf stopped.parked.system result.bound }
{
    let parked = stopped.parked;
    match stopped.refused {
        Some(worker) => parked.close(room, Some(worker)),
        None => settle_rests(rt, parked, room, input, output),
    }
}
