//! The workers that came back are taken apart, and the queues put together again.
ghost use Rattle.std.specs.Prelude.{◌≡◌, ◌≤◌, length, map};
ghost use Rattle.std.specs.List.{AllByRecursion};
ghost use Rattle.sdl_routes.specs.Routes.{EachOnce};
ghost use Rattle.sdl_forward_ends.specs.Ends.{column, AreAllEndsOf, AreRejoined};
ghost use Rattle.sdl_run_settling.specs.Coming.{blocks_back, forwarders_back, ends_back};
ghost use Rattle.sdl_run_settling.specs.Room.{HasRejoiningRoom};

use crate::back::{part, take_blocks, take_forwarders};
use sdl_block::BlockWorker;
use sdl_forward::Forwarder;
use sdl_forward_ends::{Ends, Shelf, ends_rejoin};
use sdl_instances_log::{Event, LogStore};
use sdl_queue::Rest;
use sdl_routes::Station;
use sdl_run_threads::{AtWork, BlockThread, ForwarderThread, Returned};
use sdl_signal::lists::put_last;
use sdl_transition::Agents;
use std::sync::Wait;

/// Room for workers as they are taken apart.
#[derive(Drop)]
pub struct RejoiningRoom<S, K: LogStore = Vec<Event>> {
    pub block_threads: Vec<BlockThread<S, K>>,
    pub forwarder_threads: Vec<ForwarderThread>,
    pub blocks: Vec<BlockWorker<S, K>>,
    pub forwarders: Vec<Forwarder>,
    pub ends: Vec<Ends>,
}

/// Takes the workers that came back apart, and puts the queues together again. It answers the blocks and the forwarders, and what is
/// left at each station.
pub fn join_ends<S: Agents, K: LogStore, T: Wait>(
    rt: &T,
    room: RejoiningRoom<S, K>,
    done: Vec<Returned<AtWork<S, K>>>,
    own: Ends,
    shelf: Shelf,
) -> (Vec<BlockWorker<S, K>>, Vec<Forwarder>, Vec<(Station, Rest)>)
    requires room { HasRejoiningRoom (length (blocks_back done.items)) (length (forwarders_back done.items)) room }
    requires once { EachOnce (map (λ x. x.0) shelf) }
    requires all { AreAllEndsOf (map (λ x. x.0) shelf) (ends_back own done.items) }
    requires enough { AllByRecursion (λ x. length (column x.0 (ends_back own done.items)) ≤ x.1) shelf }
    ensures blocks { result.0.items ≡ map (λ t. t.block) (blocks_back done.items) }
    ensures forwarders { result.1.items ≡ map (λ t. t.forwarder) (forwarders_back done.items) }
    ensures rests { AreRejoined (ends_back own done.items) (map (λ x. x.0) shelf) result.2.items }
{
    let RejoiningRoom {
        mut block_threads,
        mut forwarder_threads,
        mut blocks,
        mut forwarders,
        mut ends,
    } = room;
    part(&mut block_threads, &mut forwarder_threads, done);
    take_blocks(&mut blocks, &mut ends, block_threads);
    put_last(&mut ends, own);
    take_forwarders(&mut forwarders, &mut ends, forwarder_threads);
    let rests = ends_rejoin(rt, ends, shelf);
    (blocks, forwarders, rests)
}
