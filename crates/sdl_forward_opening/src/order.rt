//! The workers of a structure.
ghost use Rattle.std.specs.Prelude.{◌≡◌, ◌≤◌, ◌++◌, length, map, IfOk, OnOk};
ghost use Rattle.sdl_forward_opening.specs.Workers.{blocks_from, delaying_path, delaying_from, workers_in};
ghost use Rattle.sdl_forward_opening.specs.declared.worker.Worker.TheVariants.{Forwarder};

use crate::Worker;
use sdl_routes::Hop;
use sdl_signal::{BlockId, ChannelId, SignalId};
use sdl_structure_parts::{Channel, Structure};
use std::alloc::{AllocError, Global};

/// The workers of a structure, at most 193: the blocks by number, the environment, and a forwarder for each delaying path that
/// carries a signal, by channel, forth before back (this project's own).
pub fn workers_of(alloc: Global, structure: &Structure) -> Result<Vec<Worker>, AllocError>
    ensures workers { IfOk result (λ workers. workers.items ≡ workers_in structure.now) }
    ensures few { IfOk result (λ workers. length workers.items ≤ 193) }
{
    structure.parts_agree();
    let paths = paths_of(alloc, structure.channels())?;
    let mut workers = blocks_of(alloc, structure.blocks().len())?;
    workers.push(Worker::Environment)?;
    add_forwarders(&mut workers, paths.as_slice())?;
    Ok(workers)
}

/// The workers of so many blocks.
fn blocks_of(alloc: Global, count: usize) -> Result<Vec<Worker>, AllocError>
    requires { count ≤ 64 }
    ensures { IfOk result (λ workers. workers.items ≡ blocks_from 0 count) }
{
    let mut workers = Vec::new(alloc);
    for number in 0..count {
        workers.push(Worker::Block(BlockId(number as u32)))?;
    }
    Ok(workers)
}

/// Adds a forwarder for each of the paths. What a refusal leaves is not said.
fn add_forwarders(workers: &mut Vec<Worker>, paths: &[Hop]) -> Result<(), AllocError>
    ensures { OnOk result (workers.new.items ≡ workers.old.items ++ map Forwarder paths.now) }
{
    for path in paths {
        workers.push(Worker::Forwarder(*path))?;
    }
    Ok(())
}

/// Adds a path, where it carries a signal. What a refusal leaves is not said.
fn add_path(
    paths: &mut Vec<Hop>,
    channel: u32,
    back: bool,
    signals: &[SignalId],
) -> Result<(), AllocError>
    ensures { OnOk result (paths.new.items ≡ paths.old.items ++ delaying_path channel back signals.now) }
{
    if !signals.is_empty() {
        paths.push(Hop {
            channel: ChannelId(channel),
            back,
        })?;
    }
    Ok(())
}

/// The delaying paths that carry a signal, at most 128: by channel, forth before back (this project's own).
pub fn paths_of(alloc: Global, channels: &[Channel]) -> Result<Vec<Hop>, AllocError>
    requires { length channels.now ≤ 64 }
    ensures { IfOk result (λ paths. paths.items ≡ delaying_from 0 channels.now) }
{
    let mut paths = Vec::new(alloc);
    for (number, channel) in channels.iter().enumerate() {
        if !channel.nodelay {
            add_path(&mut paths, number as u32, false, channel.forth.as_slice())?;
            add_path(&mut paths, number as u32, true, channel.back.as_slice())?;
        }
    }
    Ok(paths)
}
