//! All workers make their steps at once, come back, and are taken apart.
ghost use Rattle.std.specs.Prelude.{◌≡◌, ◌<◌, length, map, MatchOption, ⊤};
ghost use Rattle.sdl_run_outcome.specs.Plan.{workers_of};
ghost use Rattle.sdl_run_outcome.specs.EnvironmentWork.{HasReadSoFar, HasWrittenSoFar};
ghost use Rattle.sdl_run_driver.specs.Stopped.{IsParked};
ghost use Rattle.sdl_run_driver.specs.Systems.{plan_of, IsSameSystem};
ghost use Rattle.sdl_run_settling.specs.Coming.{blocks_back, NamesFirst};
ghost use Rattle.sdl_run.specs.Room.{IsReadyToRun};

use crate::beside::{EnvironmentWithEnds, run_beside};
use crate::room::Opened;
use crate::sharing::give_out;
use sdl_block::BlockWorker;
use sdl_forward_opening::laws::{no_two_workers_have_one_mark, used_ends_come_back};
use sdl_instances_log::LogStore;
use sdl_run_driver::{Parked, System};
use sdl_run_environment::EnvApart;
use sdl_run_join::laws::{joined_workers_stand, new_workers_keep};
use sdl_run_settling::back::name_refused;
use sdl_run_settling::rejoining::join_ends;
use sdl_run_settling::settling::Stopped;
use sdl_run_threads::{Gate, Team};
use sdl_transition::Agents;
use std::io::{Read, Write};
use std::snapshot::Snapshot;
use std::sync::Wait;
use std::thread::Threads;

/// Runs all workers until they are told to stop: each block and each forwarder in a thread of its own, the environment on this one.
/// It answers them as they stand then, and the number of one that was refused memory or whose thread could not start, if any was.
pub fn run_apart<
    S: Agents + Send,
    K: LogStore + Send,
    G: Gate,
    T: Threads + Wait + Sync,
    R: Read,
    W: Write,
>(
    rt: &T,
    system: System<BlockWorker<S, K>>,
    opened: Opened<S, K>,
    gate: &G,
    input: &mut R,
    output: &mut W,
) -> Stopped<S, K>
    requires ready { IsReadyToRun S.may system opened }
    ensures parked { IsParked S.may result.parked }
    ensures same { IsSameSystem system result.parked.system }
    ensures refused { MatchOption result.refused ⊤ (λ w. w < length (workers_of (plan_of result.parked.system))) }
    ensures named { NamesFirst result.came.value.items result.way (length system.blocks.items) result.refused }
    ensures came { result.parked.system.blocks.items ≡ map (λ t. t.block) (blocks_back result.came.value.items) }
    ensures reading { HasReadSoFar system.checked system.routes (length system.checked.blocks) (R.remaining input.old) (R.remaining input.new) result.parked.environment }
    ensures writing { HasWrittenSoFar system.checked system.routes (length system.checked.blocks) (W.contents output.old) (W.contents output.new) result.parked.environment }
{
    new_workers_keep::<S>();
    joined_workers_stand::<S>();
    used_ends_come_back();
    no_two_workers_have_one_mark();
    let number = system.blocks.len() as u32;
    let (workers, own) = give_out(
        opened.workers,
        system.budget,
        system.blocks,
        opened.forwarders,
        opened.ends,
    );
    let team = Team {
        workers,
        environment: EnvironmentWithEnds {
            worker: EnvApart::new(opened.environment),
            ends: own,
        },
        number_of_environment: number,
        done: opened.done,
    };
    let structure = system.checked.structure();
    let routes = &system.routes;
    let (done, environment, own, way) = run_beside(
        rt, team, structure, routes, gate, input, output,
    );
    let refused = name_refused(done.as_slice(), &way, number);
    let came = Snapshot::of(&done);
    let (blocks, forwarders, rests) = join_ends(rt, opened.apart, done, own, opened.shelf);
    let (environment, astray) = environment.into_parts();
    if astray.is_some() {
        unreachable!()
    }
    Stopped {
        parked: Parked {
            system: System { blocks, ..system },
            environment,
            forwarders,
            rests,
        },
        refused,
        came,
        way,
    }
}
