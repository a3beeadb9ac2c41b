//! What a run leaves.
ghost use Rattle.std.specs.Prelude.{◌≡◌, ℕ, ◌+◌, ◌<◌, ◌++◌, ◌∷◌, [], map, length};
ghost use Rattle.sdl_block.specs.Workers.{worker_of, behaviours_of};
ghost use Rattle.sdl_run_driver.specs.Closings.{HasRoom, AreLogsCounted, end_by};
ghost use Rattle.sdl_run_outcome.specs.Lists.{held_in};
ghost use Rattle.sdl_run_order.specs.Driver.{block_hand, forwarder_hand};

use arrayvec::ArrayVec;
use sdl_block::BlockWorker;
use sdl_block_hand::Hand;
use sdl_forward::Forwarder;
use sdl_instances_log::{Counts, Event, LogStore};
use sdl_queue::Rest;
use sdl_routes::Station;
use sdl_run_ledger::Ledger;
use sdl_run_outcome::{EnvOut, RunEnd};
use sdl_signal::lists::take_first;
use sdl_signal::{BlockId, InputEnd, Item, OutputEnd};
use sdl_transition::{Agents, BlockParts, Bound};

/// What a run leaves.
#[derive(Drop)]
pub struct Closing<S, K: LogStore = Vec<Event>> {
    /// The system, as it was handed in.
    pub bound: Bound<S>,
    /// The log of each block, blocks by number.
    pub logs: Vec<K>,
    /// What became of the lines that the environment read, in order.
    pub env_put: Vec<EnvOut>,
    /// What the environment received, in order.
    pub env_received: Vec<Item>,
    /// What each worker still holds, in the order of the workers: the blocks by number, the environment, the forwarders.
    pub hands: Vec<Hand>,
    /// What is left at each station of some route: lines by channel, forth before back, then inlets by block, then the
    /// outlet.
    pub rests: Vec<(Station, Rest)>,
    /// The count of every signal.
    pub ledger: Ledger,
    pub end: RunEnd,
    /// How the reading of the input ended.
    pub input: InputEnd,
    /// Whether all that the environment received could be written.
    pub output: OutputEnd,
}

/// What the workers of a run and its board leave.
#[derive(Drop)]
pub struct Left<S, K: LogStore = Vec<Event>> {
    pub bound: Bound<S>,
    pub logs: Vec<K>,
    /// What was counted along each log.
    pub counts: Vec<Counts>,
    pub env_put: Vec<EnvOut>,
    pub env_received: Vec<Item>,
    pub hands: Vec<Hand>,
    pub rests: Vec<(Station, Rest)>,
    pub input: InputEnd,
    pub output: OutputEnd,
}

/// Why a run did not start.
#[derive(Drop)]
pub enum StartFault<S> {
    /// Memory was refused. Nothing was run, and the system is handed back.
    Memory(Bound<S>),
}

/// The lists of a closing, with room for what is to come into them.
#[derive(Drop)]
pub struct Room<S, K: LogStore = Vec<Event>> {
    pub parts: Vec<BlockParts<S>>,
    pub logs: Vec<K>,
    pub counts: Vec<Counts>,
    pub hands: Vec<Hand>,
}

impl<S: Agents, K: LogStore> Room<S, K> {
    /// Takes what a worker holds.
    pub(crate) fn take_hand(&mut self, hand: Hand)
        requires room { HasRoom 0 1 self.old }
        ensures hands { self.new.hands.items ≡ self.old.hands.items ++ hand ∷ [] }
        ensures parts { self.new.parts ≡ self.old.parts }
        ensures logs { self.new.logs ≡ self.old.logs }
        ensures counts { self.new.counts ≡ self.old.counts }
        ensures room { (blocks more : ℕ) → HasRoom blocks (more + 1) self.old → HasRoom blocks more self.new }
    {
        match self.hands.push(hand) {
            Ok(()) => {}
            Err(_) => unreachable!(),
        }
    }

    /// Takes what a block leaves.
    fn take_block(&mut self, worker: BlockWorker<S, K>)
        requires room { HasRoom 1 1 self.old }
        ensures parts { self.new.parts.items ≡ self.old.parts.items ++ behaviours_of worker ∷ [] }
        ensures logs { map K.events self.new.logs.items ≡ map K.events self.old.logs.items ++ (worker_of worker).core.log ∷ [] }
        ensures hands { map held_in self.new.hands.items ≡ map held_in self.old.hands.items ++ block_hand (worker_of worker) ∷ [] }
        ensures room { (blocks more : ℕ) → HasRoom (blocks + 1) (more + 1) self.old → HasRoom blocks more self.new }
        ensures counted { AreLogsCounted K.events self.old.logs.items self.old.counts.items → AreLogsCounted K.events self.new.logs.items self.new.counts.items }
    {
        let counted = worker.counts();
        let (core, hand) = worker.into_parts();
        let (parts, log, _) = core.into_parts();
        match self.parts.push(parts) {
            Ok(()) => {}
            Err(_) => unreachable!(),
        }
        match self.logs.push(log) {
            Ok(()) => {}
            Err(_) => unreachable!(),
        }
        match self.counts.push(counted) {
            Ok(()) => {}
            Err(_) => unreachable!(),
        }
        match self.hands.push(hand) {
            Ok(()) => {}
            Err(_) => unreachable!(),
        }
    }
}

/// The end of a run in which memory was refused to this worker, or the budget of this block is used, or nothing is left.
pub fn end_of(refused: Option<u32>, spent: Option<u32>, quiet: bool) -> RunEnd
    ensures { result ≡ end_by refused spent quiet }
{
    match refused {
        Some(worker) => RunEnd::Memory(worker),
        None => match spent {
            None => RunEnd::Quiet,
            Some(block) => if quiet {
                RunEnd::Quiet
            } else {
                RunEnd::Spent(BlockId(block))
            },
        },
    }
}

/// Takes what all blocks leave, in order.
pub fn take_blocks<S: Agents, K: LogStore>(room: &mut Room<S, K>, blocks: Vec<BlockWorker<S, K>>)
    requires room { HasRoom (length blocks.items) (length blocks.items) room.old }
    ensures parts { room.new.parts.items ≡ room.old.parts.items ++ map behaviours_of blocks.items }
    ensures logs { map K.events room.new.logs.items ≡ map K.events room.old.logs.items ++ map (λ w. (worker_of w).core.log) blocks.items }
    ensures hands { map held_in room.new.hands.items ≡ map held_in room.old.hands.items ++ map (λ w. block_hand (worker_of w)) blocks.items }
    ensures room { (more : ℕ) → HasRoom (length blocks.items) (length blocks.items + more) room.old → HasRoom 0 more room.new }
    ensures counted { AreLogsCounted K.events room.old.logs.items room.old.counts.items → AreLogsCounted K.events room.new.logs.items room.new.counts.items }
{
    let mut rest = blocks;
    while rest.len() > 0 {
        let worker = take_first(&mut rest);
        room.take_block(worker);
    }
}

/// Takes what all forwarders hold, in order.
pub fn take_forwarders<S: Agents, K: LogStore>(room: &mut Room<S, K>, forwarders: Vec<Forwarder>)
    requires room { HasRoom 0 (length forwarders.items) room.old }
    ensures parts { room.new.parts ≡ room.old.parts }
    ensures logs { room.new.logs ≡ room.old.logs }
    ensures counts { room.new.counts ≡ room.old.counts }
    ensures hands { map held_in room.new.hands.items ≡ map held_in room.old.hands.items ++ map forwarder_hand forwarders.items }
{
    let mut rest = forwarders;
    while rest.len() > 0 {
        let forwarder = take_first(&mut rest);
        room.take_hand(Hand {
            kept: forwarder.into_held(),
            outgoing: ArrayVec::new(),
        });
    }
}
