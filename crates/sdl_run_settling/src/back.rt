//! The workers come back from their threads, and are taken apart.
ghost use Rattle.std.specs.Prelude.{◌≡◌, ℕ, ◌+◌, ◌<◌, ◌≤◌, ◌^◌, ◌++◌, ◌∷◌, [], length, map, vec_len, vec_capacity, MatchOption, MatchBool, ⊤};
ghost use Rattle.std.specs.List.{AllByRecursion};
ghost use Rattle.sdl_run_threads.specs.Back.{worker_in};
ghost use Rattle.sdl_run_settling.specs.Coming.{block_if, forwarder_if, blocks_back, forwarders_back, HasRun, CameAs, IsFirstFrom, IsFirstRefused, NamesFirst};

use sdl_block::BlockWorker;
use sdl_forward::Forwarder;
use sdl_forward_ends::Ends;
use sdl_instances_log::LogStore;
use sdl_run_threads::{AtWork, BlockThread, ForwarderThread, Kind, Returned};
use sdl_signal::lists::{put_last, take_front};
use sdl_transition::Agents;
use std::collections::VecDeque;

/// The worker, and how it came back.
pub fn split_returned<W>(returned: Returned<W>) -> (W, Returned<()>)
    ensures worker { result.0 ≡ worker_in returned }
    ensures way { CameAs returned result.1 }
{
    match returned {
        Returned::Ran(worker) => (worker, Returned::Ran(())),
        Returned::Refused(worker) => (worker, Returned::Refused(())),
        Returned::NotStarted(worker) => (worker, Returned::NotStarted(())),
    }
}

/// Whether the worker made steps until it was told to stop.
fn has_run<W>(returned: &Returned<W>) -> bool
    ensures { MatchBool result (HasRun returned.now) (HasRun returned.now → ⊥) }
{
    match returned {
        Returned::Ran(_) => true,
        Returned::Refused(_) => false,
        Returned::NotStarted(_) => false,
    }
}

/// The number of the first of these that did not run, of whom the first has this number.
fn refused_from<W>(done: &[Returned<W>], number: u32) -> Option<u32>
    requires { number + length done.now < 2 ^ 31 }
    ensures bound { MatchOption result (AllByRecursion HasRun done.now) (λ w. (number ≤ w) × (w < number + length done.now)) }
    ensures first { MatchOption result ⊤ (λ w. IsFirstFrom done.now number w) }
{
    let Some((first, rest)) = done.split_first() else {
        return None;
    };
    if !has_run(first) {
        return Some(number);
    }
    refused_from(rest, number + 1)
}

/// The number of the first worker, after the environment's where it is a forwarder, that was refused memory or whose thread could
/// not start. `None` exactly where all have run.
fn first_refused<W>(done: &[Returned<W>], blocks: u32) -> Option<u32>
    requires { length done.now < 2 ^ 31 }
    ensures bound { MatchOption result ⊤ (λ w. w ≤ length done.now) }
    ensures named { MatchOption result (AllByRecursion HasRun done.now) (λ w. IsFirstRefused done.now blocks w) }
{
    let place = refused_from(done, 0)?;
    Some(if place < blocks { place } else { place + 1 })
}

/// The number of the environment where it was refused memory, and else of the first other worker that was, or whose thread could
/// not start. `None` exactly where all have run.
pub fn name_refused<W, V>(
    done: &[Returned<W>],
    environment: &Returned<V>,
    blocks: u32,
) -> Option<u32>
    requires few { length done.now < 2 ^ 31 }
    requires number { blocks ≤ length done.now }
    ensures bound { MatchOption result ⊤ (λ w. w ≤ length done.now) }
    ensures named { NamesFirst done.now environment.now blocks result }
{
    match environment {
        Returned::Ran(_) => first_refused(done, blocks),
        Returned::Refused(_) => Some(blocks),
        Returned::NotStarted(_) => Some(blocks),
    }
}

/// Puts the worker behind the others of its kind, where there is room for it.
fn place<S: Agents, K: LogStore>(
    blocks: &mut Vec<BlockThread<S, K>>,
    forwarders: &mut Vec<ForwarderThread>,
    worker: AtWork<S, K>,
)
    requires blocks { vec_len blocks.old + length (block_if worker []) ≤ vec_capacity blocks.old }
    requires forwarders { vec_len forwarders.old + length (forwarder_if worker []) ≤ vec_capacity forwarders.old }
    ensures blocks { blocks.new.items ≡ blocks.old.items ++ block_if worker [] }
    ensures forwarders { forwarders.new.items ≡ forwarders.old.items ++ forwarder_if worker [] }
    ensures block_room { (more : ℕ) → vec_len blocks.old + (length (block_if worker []) + more) ≤ vec_capacity blocks.old → vec_len blocks.new + more ≤ vec_capacity blocks.new }
    ensures forwarder_room { (more : ℕ) → vec_len forwarders.old + (length (forwarder_if worker []) + more) ≤ vec_capacity forwarders.old → vec_len forwarders.new + more ≤ vec_capacity forwarders.new }
{
    match worker {
        Kind::Block(block) => put_last(blocks, block),
        Kind::Forwarder(forwarder) => put_last(forwarders, forwarder),
    }
}

/// Puts the ends behind the others of a list that has room for them.
fn put_behind(list: &mut Vec<Ends>, ends: Ends)
    requires { vec_len list.old + 1 ≤ vec_capacity list.old }
    ensures items { list.new.items ≡ list.old.items ++ ends ∷ [] }
    ensures room { (more : ℕ) → vec_len list.old + (more + 1) ≤ vec_capacity list.old → vec_len list.new + more ≤ vec_capacity list.new }
{
    put_last(list, ends)
}

/// Parts the blocks from the forwarders, in order.
pub(crate) fn part<S: Agents, K: LogStore>(
    blocks: &mut Vec<BlockThread<S, K>>,
    forwarders: &mut Vec<ForwarderThread>,
    done: Vec<Returned<AtWork<S, K>>>,
)
    requires blocks { vec_len blocks.old + length (blocks_back done.items) ≤ vec_capacity blocks.old }
    requires forwarders { vec_len forwarders.old + length (forwarders_back done.items) ≤ vec_capacity forwarders.old }
    ensures blocks { blocks.new.items ≡ blocks.old.items ++ blocks_back done.items }
    ensures forwarders { forwarders.new.items ≡ forwarders.old.items ++ forwarders_back done.items }
{
    let mut rest = VecDeque::from(done);
    while rest.len() > 0 {
        let returned = take_front(&mut rest);
        let (worker, _) = split_returned(returned);
        place(blocks, forwarders, worker);
    }
}

/// Takes the blocks and their ends, in order.
pub(crate) fn take_blocks<S: Agents, K: LogStore>(
    blocks: &mut Vec<BlockWorker<S, K>>,
    ends: &mut Vec<Ends>,
    threads: Vec<BlockThread<S, K>>,
)
    requires blocks { vec_len blocks.old + length threads.items ≤ vec_capacity blocks.old }
    requires ends { vec_len ends.old + length threads.items ≤ vec_capacity ends.old }
    ensures blocks { blocks.new.items ≡ blocks.old.items ++ map (λ t. t.block) threads.items }
    ensures ends { ends.new.items ≡ ends.old.items ++ map (λ t. t.ends) threads.items }
    ensures room { (more : ℕ) → vec_len ends.old + (length threads.items + more) ≤ vec_capacity ends.old → vec_len ends.new + more ≤ vec_capacity ends.new }
{
    let mut rest = VecDeque::from(threads);
    while rest.len() > 0 {
        let thread = take_front(&mut rest);
        put_last(blocks, thread.block);
        put_behind(ends, thread.ends);
    }
}

/// Takes the forwarders and their ends, in order.
pub(crate) fn take_forwarders(
    forwarders: &mut Vec<Forwarder>,
    ends: &mut Vec<Ends>,
    threads: Vec<ForwarderThread>,
)
    requires forwarders { vec_len forwarders.old + length threads.items ≤ vec_capacity forwarders.old }
    requires ends { vec_len ends.old + length threads.items ≤ vec_capacity ends.old }
    ensures forwarders { forwarders.new.items ≡ forwarders.old.items ++ map (λ t. t.forwarder) threads.items }
    ensures ends { ends.new.items ≡ ends.old.items ++ map (λ t. t.ends) threads.items }
{
    let mut rest = VecDeque::from(threads);
    while rest.len() > 0 {
        let thread = take_front(&mut rest);
        put_last(forwarders, thread.forwarder);
        put_behind(ends, thread.ends);
    }
}
