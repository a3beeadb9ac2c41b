//! What is read of a file so far.
ghost use Rattle.std.specs.Prelude.{◌≡◌, []};

use sdl_signal::Name;
use sdl_structure_parts::{Block, Gate, Set, SignalDecl};
use std::alloc::Global;

/// The parts that are read, by number, and the names that are taken.
#[derive(Drop)]
pub struct Draft {
    pub signals: Vec<SignalDecl>,
    pub blocks: Vec<Block>,
    pub sets: Vec<Set>,
    pub gates: Vec<Gate>,
    /// How many blocks the lists of blocks have that the walk has met.
    pub listed_blocks: usize,
    /// The names of blocks and sets, in the order of the walk.
    pub agent_names: Vec<Name>,
    /// The names of channels, in the order of the walk: those in a block come behind those in the blocks that lie in it.
    pub channel_names: Vec<Name>,
}

impl Draft {
    /// The signals and the gates of the system, and nothing else.
    pub fn new(alloc: Global, signals: Vec<SignalDecl>, gates: Vec<Gate>) -> Draft
        ensures signals { result.signals ≡ signals }
        ensures gates { result.gates ≡ gates }
        ensures agents { (result.blocks.items ≡ []) × (result.sets.items ≡ []) × (result.agent_names.items ≡ []) }
        ensures channels { (result.listed_blocks ≡ 0) × (result.channel_names.items ≡ []) }
    {
        Draft {
            signals,
            blocks: Vec::new(alloc),
            sets: Vec::new(alloc),
            gates,
            listed_blocks: 0,
            agent_names: Vec::new(alloc),
            channel_names: Vec::new(alloc),
        }
    }
}
