//! What a run in threads takes before its blocks start.
ghost use Rattle.std.specs.Prelude.{◌≡◌, ◌<◌, ◌≤◌, ◌^◌, [], length, IfOk};
ghost use Rattle.sdl_run_driver.specs.Closings.{HasRoom};
ghost use Rattle.sdl_routes.specs.Routes.{AreRoutesOf};
ghost use Rattle.sdl_run_settling.specs.Room.{HasRejoiningRoom};
ghost use Rattle.sdl_run.specs.Room.{IsOpened, IsThreadRoom};

use sdl_block::BlockWorker;
use sdl_forward::Forwarder;
use sdl_forward_ends::{Ends, Shelf};
use sdl_forward_opening::ends_open;
use sdl_instances_log::{Event, LogStore};
use sdl_routes::Routes;
use sdl_run_driver::closing::Room;
use sdl_run_environment::EnvWorker;
use sdl_run_serial::start::forwarders_of;
use sdl_run_settling::rejoining::RejoiningRoom;
use sdl_run_threads::{AtWork, Returned};
use sdl_structure_parts::Checked;
use sdl_transition::Agents;
use std::alloc::{AllocError, Global};
use std::sync::Wait;

/// The environment, the forwarders and all ends, and lists with room for all that is to come into them.
#[derive(Drop)]
pub struct Opened<S, K: LogStore = Vec<Event>> {
    /// The environment's worker.
    pub environment: EnvWorker,
    /// A forwarder for each delaying path that carries a signal.
    pub forwarders: Vec<Forwarder>,
    /// The ends of all workers, by number.
    pub ends: Vec<Ends>,
    /// Room for the queues once all ends come back.
    pub shelf: Shelf,
    /// Room for the workers of the threads.
    pub workers: Vec<AtWork<S, K>>,
    /// Room for them as they come back.
    pub done: Vec<Returned<AtWork<S, K>>>,
    /// Room for them as they are taken apart.
    pub apart: RejoiningRoom<S, K>,
}

/// What a run in threads takes before its blocks start.
#[derive(Drop)]
pub struct ThreadRoom<S, K: LogStore = Vec<Event>> {
    pub opened: Opened<S, K>,
    /// Room for the closing.
    pub room: Room<S, K>,
    /// Room for the blocks as they start.
    pub started: Vec<BlockWorker<S, K>>,
}

/// Room for so many blocks and forwarders, and the environment, as they are taken apart.
fn make_rejoining_room<S: Agents, K: LogStore>(
    alloc: Global,
    blocks: usize,
    forwarders: usize,
) -> Result<RejoiningRoom<S, K>, AllocError>
    requires blocks { blocks ≤ 64 }
    requires forwarders { forwarders < 2 ^ 63 }
    ensures { IfOk result (HasRejoiningRoom blocks forwarders) }
{
    Ok(RejoiningRoom {
        block_threads: Vec::with_capacity(alloc, blocks)?,
        forwarder_threads: Vec::with_capacity(alloc, forwarders)?,
        blocks: Vec::with_capacity(alloc, blocks)?,
        forwarders: Vec::with_capacity(alloc, forwarders)?,
        ends: Vec::with_capacity(alloc, blocks + forwarders + 1)?,
    })
}

/// Empty lists, with room for what so many blocks and so many workers leave.
fn make_closing_room<S: Agents, K: LogStore>(
    alloc: Global,
    blocks: usize,
    workers: usize,
) -> Result<Room<S, K>, AllocError>
    ensures empty { IfOk result (λ r. (r.parts.items ≡ []) × (r.logs.items ≡ []) × (r.hands.items ≡ [])) }
    ensures room { IfOk result (λ r. HasRoom blocks workers r) }
{
    let parts = Vec::with_capacity(alloc, blocks)?;
    let logs = Vec::with_capacity(alloc, blocks)?;
    let counts = Vec::with_capacity(alloc, blocks)?;
    let hands = Vec::with_capacity(alloc, workers)?;
    Ok(Room {
        parts,
        logs,
        counts,
        hands,
    })
}

/// Makes the environment and the forwarders, opens the ends of all workers, and takes the room for them and so many blocks.
fn open_all<S: Agents, K: LogStore, T: Wait>(
    rt: &T,
    alloc: Global,
    checked: &Checked,
    routes: &Routes,
    blocks: usize,
) -> Result<Opened<S, K>, AllocError>
    requires routes { AreRoutesOf checked.now routes.now }
    requires blocks { blocks ≡ length checked.now.blocks }
    ensures { IfOk result (IsOpened checked.now routes.now) }
{
    let forwarders = forwarders_of(alloc, checked.structure().channels())?;
    let (ends, shelf) = ends_open(rt, alloc, checked, routes)?;
    let lines = forwarders.len();
    let environment = EnvWorker::new(alloc, blocks as u32)?;
    let apart = make_rejoining_room(alloc, blocks, lines)?;
    Ok(Opened {
        environment,
        forwarders,
        ends,
        shelf,
        workers: Vec::with_capacity(alloc, blocks + lines)?,
        done: Vec::with_capacity(alloc, blocks + lines)?,
        apart,
    })
}

/// Takes what a run in threads of so many blocks needs, before any block starts.
pub fn make_thread_room<S: Agents, K: LogStore, T: Wait>(
    rt: &T,
    alloc: Global,
    checked: &Checked,
    routes: &Routes,
    blocks: usize,
) -> Result<ThreadRoom<S, K>, AllocError>
    requires routes { AreRoutesOf checked.now routes.now }
    requires blocks { blocks ≡ length checked.now.blocks }
    ensures { IfOk result (IsThreadRoom checked.now routes.now) }
{
    let opened = open_all(rt, alloc, checked, routes, blocks)?;
    let room = make_closing_room(alloc, blocks, blocks + 1 + opened.forwarders.len())?;
    let started = Vec::with_capacity(alloc, blocks)?;
    Ok(ThreadRoom {
        opened,
        room,
        started,
    })
}
