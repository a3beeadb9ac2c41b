//! What stands at the start of a run, beside its blocks.
ghost use Rattle.std.specs.Prelude.{◌≡◌, ◌≤◌, [], map, length, IfOk};
ghost use Rattle.sdl_run_driver.specs.Closings.{HasRoom};
ghost use Rattle.sdl_run_outcome.specs.Plan.{delaying_from};
ghost use Rattle.sdl_run_serial.specs.Serial.{IsStartRoom};
ghost use Rattle.sdl_run_serial.specs.Starting.{idle_at};

use sdl_block::BlockWorker;
use sdl_forward::{Board, Forwarder};
use sdl_forward_opening::order::paths_of;
use sdl_instances_log::{Event, LogStore};
use sdl_routes::{Hop, Routes};
use sdl_run_driver::closing::Room;
use sdl_run_environment::EnvWorker;
use sdl_structure_parts::{Channel, Checked};
use sdl_transition::Agents;
use std::alloc::{AllocError, Global};

/// What a run takes before its blocks: the board, the forwarders, the environment, the lists of its closing, and room for the blocks.
#[derive(Drop)]
pub(crate) struct StartRoom<S, K: LogStore = Vec<Event>> {
    pub board: Board,
    pub forwarders: Vec<Forwarder>,
    pub environment: EnvWorker,
    pub room: Room<S, K>,
    pub workers: Vec<BlockWorker<S, K>>,
}

/// Empty lists, with room for what so many blocks and so many workers leave.
pub fn make_room<S: Agents, K: LogStore>(
    alloc: Global,
    blocks: usize,
    workers: usize,
) -> Result<Room<S, K>, AllocError>
    ensures empty { IfOk result (λ r. (r.parts.items ≡ []) × (r.logs.items ≡ []) × (r.hands.items ≡ [])) }
    ensures room { IfOk result (λ r. HasRoom blocks workers r) }
{
    let parts = Vec::with_capacity(alloc, blocks)?;
    let logs = Vec::with_capacity(alloc, blocks)?;
    let counts = Vec::with_capacity(alloc, blocks)?;
    let hands = Vec::with_capacity(alloc, workers)?;
    Ok(Room {
        parts,
        logs,
        counts,
        hands,
    })
}

/// Takes what a run of so many blocks needs, before any block starts.
pub(crate) fn make_start_room<S: Agents, K: LogStore>(
    alloc: Global,
    checked: &Checked,
    routes: &Routes,
    blocks: usize,
) -> Result<StartRoom<S, K>, AllocError>
    requires { blocks ≤ 64 }
    ensures { IfOk result (IsStartRoom checked.now routes.now blocks) }
{
    let structure = checked.structure();
    let board = Board::new(alloc, routes)?;
    let forwarders = forwarders_of(alloc, structure.channels())?;
    let environment = EnvWorker::new(alloc, blocks as u32)?;
    let room = make_room(alloc, blocks, blocks + 1 + forwarders.len())?;
    let workers = Vec::with_capacity(alloc, blocks)?;
    Ok(StartRoom {
        board,
        forwarders,
        environment,
        room,
        workers,
    })
}

/// A forwarder at each of the paths, in order.
fn forwarders_at(alloc: Global, paths: &[Hop]) -> Result<Vec<Forwarder>, AllocError>
    ensures { IfOk result (λ forwarders. forwarders.items ≡ map idle_at paths.now) }
{
    let mut forwarders = Vec::with_capacity(alloc, paths.len())?;
    for path in paths {
        forwarders.push(Forwarder::new(*path))?;
    }
    Ok(forwarders)
}

/// A forwarder for each delaying path that carries a signal: by channel, forth before back.
pub fn forwarders_of(alloc: Global, channels: &[Channel]) -> Result<Vec<Forwarder>, AllocError>
    requires { length channels.now ≤ 64 }
    ensures { IfOk result (λ forwarders. forwarders.items ≡ map idle_at (delaying_from 0 channels.now)) }
{
    let paths = paths_of(alloc, channels)?;
    forwarders_at(alloc, paths.as_slice())
}
