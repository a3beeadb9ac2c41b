//! The blocks of a run, started and given back.
ghost use Rattle.std.specs.Prelude.{◌≡◌, ℕ, ◌+◌, ◌≤◌, ◌++◌, ◌∷◌, [], All, map, length, vec_len, vec_capacity, IfOk, IfErr};
ghost use Rattle.std.specs.List.{AllByRecursion};
ghost use Rattle.sdl_transition.specs.Bound.{AreOneSystem, IsBound};
ghost use Rattle.sdl_transition.specs.Rules.{block_rules};
ghost use Rattle.sdl_instances.specs.Core.{IsBoundIn, signals_of, sets_of};
ghost use Rattle.sdl_block.specs.Workers.{behaviours_of};
ghost use Rattle.sdl_run_driver.specs.Systems.{IsBoundOf};
ghost use Rattle.sdl_run_serial.specs.Serial.{IsNew, HasStarted, IsStartOf};

use sdl_block::BlockWorker;
use sdl_instances::BlockCore;
use sdl_instances::bounds::parts_are_bound;
use sdl_instances_log::LogStore;
use sdl_run_driver::System;
use sdl_run_driver::closing::Room;
use sdl_signal::lists::{put_last, take_first};
use sdl_structure_parts::Checked;
use sdl_transition::{Agents, BlockParts, Bound};
use std::alloc::Global;

/// Makes a worker of each block, in order. A refusal hands back the workers so far, the parts that were refused, and the
/// parts of the blocks behind.
fn start_blocks<S: Agents, K: LogStore>(
    alloc: Global,
    checked: &Checked,
    budget: u32,
    blocks: Vec<BlockParts<S>>,
    workers: Vec<BlockWorker<S, K>>,
) -> Result<Vec<BlockWorker<S, K>>, (Vec<BlockWorker<S, K>>, BlockParts<S>, Vec<BlockParts<S>>)>
    requires budget { (1 ≤ budget) × (budget ≤ 1000000) }
    requires bound { All (λ p. IsBoundIn (signals_of checked.now) (sets_of checked.now) (block_rules p) p.block) blocks.items }
    requires empty { workers.items ≡ [] }
    requires room { vec_len workers + length blocks.items ≤ vec_capacity workers }
    ensures parts { IfOk result (λ ws. map behaviours_of ws.items ≡ blocks.items) }
    ensures new { IfOk result (λ ws. AllByRecursion (IsNew S.may checked.now budget) ws.items) }
    ensures back { IfErr result (λ e. map behaviours_of e.0.items ++ e.1 ∷ e.2.items ≡ blocks.items) }
{
    let mut rest = blocks;
    let mut made = workers;
    while rest.len() > 0 {
        let parts = take_first(&mut rest);
        match BlockCore::new(alloc, parts, checked, budget) {
            Ok(core) => put_last(&mut made, BlockWorker::new(core)),
            Err((parts, _)) => return Err((made, parts, rest)),
        }
    }
    Ok(made)
}

/// Takes the parts of all these workers, in order.
fn regain<S: Agents, K: LogStore>(parts: &mut Vec<BlockParts<S>>, workers: Vec<BlockWorker<S, K>>)
    requires room { vec_len parts.old + length workers.items ≤ vec_capacity parts.old }
    ensures parts { parts.new.items ≡ parts.old.items ++ map behaviours_of workers.items }
    ensures room { (more : ℕ) → vec_len parts.old + (length workers.items + more) ≤ vec_capacity parts.old → vec_len parts.new + more ≤ vec_capacity parts.new }
{
    let mut rest = workers;
    while rest.len() > 0 {
        let worker = take_first(&mut rest);
        let (core, _) = worker.into_parts();
        let (mine, _, _) = core.into_parts();
        put_last(parts, mine);
    }
}

/// Takes all elements of a list, in order.
fn take_all<T: Drop>(list: &mut Vec<T>, more: Vec<T>)
    requires room { vec_len list.old + length more.items ≤ vec_capacity list.old }
    ensures { list.new.items ≡ list.old.items ++ more.items }
{
    let mut rest = more;
    while rest.len() > 0 {
        let next = take_first(&mut rest);
        put_last(list, next);
    }
}

/// The parts of all blocks, in order, where some have started.
fn gather<S: Agents, K: LogStore>(
    empty: Vec<BlockParts<S>>,
    workers: Vec<BlockWorker<S, K>>,
    refused: BlockParts<S>,
    rest: Vec<BlockParts<S>>,
) -> Vec<BlockParts<S>>
    requires empty { empty.items ≡ [] }
    requires room { vec_len empty + (length workers.items + (length rest.items + 1)) ≤ vec_capacity empty }
    ensures { result.items ≡ map behaviours_of workers.items ++ refused ∷ rest.items }
{
    let mut parts = empty;
    regain(&mut parts, workers);
    put_last(&mut parts, refused);
    take_all(&mut parts, rest);
    parts
}

/// Starts all blocks of a system, for whose workers there is room. Where memory is refused, the system comes back as it was bound, in
/// the list that the room has for its parts.
pub fn start_system<S: Agents, K: LogStore>(
    alloc: Global,
    system: System<BlockParts<S>>,
    workers: Vec<BlockWorker<S, K>>,
    room: Room<S, K>,
) -> Result<(System<BlockWorker<S, K>>, Room<S, K>), Bound<S>>
    requires budget { (1 ≤ system.budget) × (system.budget ≤ 1000000) }
    requires system { AreOneSystem S.may system.checked system.routes system.blocks.items }
    requires empty { (workers.items ≡ []) × (room.parts.items ≡ []) }
    requires workers { vec_len workers + length system.blocks.items ≤ vec_capacity workers }
    requires parts { vec_len room.parts + length system.blocks.items ≤ vec_capacity room.parts }
    ensures started { IfOk result (λ s. HasStarted S.may s.0) }
    ensures same { IfOk result (λ s. IsStartOf system s.0) }
    ensures room { IfOk result (λ s. s.1 ≡ room) }
    ensures back { IfErr result (λ b. IsBoundOf system b × IsBound S.may b) }
{
    let System {
        checked,
        routes,
        blocks,
        budget,
    } = system;
    // These calls do nothing: what they ensure of the system is used below.
    checked.structure();
    parts_are_bound(&checked, &routes, blocks.as_slice());
    routes.len();
    match start_blocks(alloc, &checked, budget, blocks, workers) {
        Ok(blocks) => {
            let system = System {
                checked,
                routes,
                blocks,
                budget,
            };
            Ok((system, room))
        }
        Err((workers, refused, rest)) => {
            let parts = gather(room.parts, workers, refused, rest);
            Err(Bound::of_blocks(checked, routes, parts))
        }
    }
}
