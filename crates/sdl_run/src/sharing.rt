//! Each worker is given its ends.
ghost use Rattle.std.specs.Prelude.{◌≡◌, ℕ, ◌+◌, ◌≤◌, [], length, vec_len, vec_capacity};
ghost use Rattle.sdl_run_threads.specs.declared.kinds.Kind.TheVariants as kind;
ghost use Rattle.sdl_run.specs.Sharing.{block_thread, forwarder_thread, Gives, GivesOut};

use sdl_block::BlockWorker;
use sdl_forward::Forwarder;
use sdl_forward_ends::Ends;
use sdl_instances_log::LogStore;
use sdl_run_threads::{AtWork, BlockThread, ForwarderThread, Kind};
use sdl_signal::lists::{put_last, take_front};
use sdl_transition::Agents;
use std::collections::VecDeque;

/// Adds each block with the next of the ends behind the workers.
fn give_blocks<S: Agents, K: LogStore>(
    workers: &mut Vec<AtWork<S, K>>,
    budget: u32,
    blocks: Vec<BlockWorker<S, K>>,
    ends: &mut VecDeque<Ends>,
)
    requires enough { length blocks.items ≤ length ends.old.items }
    requires room { vec_len workers.old + length blocks.items ≤ vec_capacity workers.old }
    ensures given { Gives (λ b e. kind.Block (block_thread budget b e)) blocks.items ends.old.items ends.new.items workers.old.items workers.new.items }
    ensures room { (more : ℕ) → vec_len workers.old + (length blocks.items + more) ≤ vec_capacity workers.old → vec_len workers.new + more ≤ vec_capacity workers.new }
{
    let mut rest = VecDeque::from(blocks);
    while rest.len() > 0 {
        let block = take_front(&mut rest);
        let own = take_front(ends);
        let thread = BlockThread {
            block,
            ends: own,
            budget,
        };
        put_last(workers, Kind::Block(thread));
    }
}

/// Adds each forwarder with the next of the ends behind the workers.
fn give_forwarders<S: Agents, K: LogStore>(
    workers: &mut Vec<AtWork<S, K>>,
    forwarders: Vec<Forwarder>,
    ends: &mut VecDeque<Ends>,
)
    requires enough { length forwarders.items ≤ length ends.old.items }
    requires room { vec_len workers.old + length forwarders.items ≤ vec_capacity workers.old }
    ensures given { Gives (λ f e. kind.Forwarder (forwarder_thread f e)) forwarders.items ends.old.items ends.new.items workers.old.items workers.new.items }
{
    let mut rest = VecDeque::from(forwarders);
    while rest.len() > 0 {
        let forwarder = take_front(&mut rest);
        let own = take_front(ends);
        put_last(
            workers,
            Kind::Forwarder(ForwarderThread {
                forwarder,
                ends: own,
            }),
        );
    }
}

/// Gives each block and each forwarder the ends of its number, and answers those of the environment beside them.
pub fn give_out<S: Agents, K: LogStore>(
    workers: Vec<AtWork<S, K>>,
    budget: u32,
    blocks: Vec<BlockWorker<S, K>>,
    forwarders: Vec<Forwarder>,
    ends: Vec<Ends>,
) -> (Vec<AtWork<S, K>>, Ends)
    requires empty { workers.items ≡ [] }
    requires count { length ends.items ≡ length blocks.items + (length forwarders.items + 1) }
    requires room { vec_len workers + (length blocks.items + length forwarders.items) ≤ vec_capacity workers }
    ensures { GivesOut budget blocks.items forwarders.items ends.items result.0.items result.1 }
{
    let mut workers = workers;
    let mut ends = VecDeque::from(ends);
    give_blocks(&mut workers, budget, blocks, &mut ends);
    let own = take_front(&mut ends);
    give_forwarders(&mut workers, forwarders, &mut ends);
    (workers, own)
}
