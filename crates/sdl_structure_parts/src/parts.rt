//! The parts of a structure.
ghost use Rattle.std.specs.Prelude.{◌≡◌};
ghost use Rattle.sdl_structure_parts.specs.Structure.{path_of, other_side};

use arrayvec::ArrayVec;
use sdl_signal::{BlockId, GateId, Name, SetId, SignalId, Sort};

/// A signal and the sorts of its parameters, at most four (this project's own limit).
#[derive(Drop)]
pub struct SignalDecl {
    pub name: Name,
    pub sorts: ArrayVec<Sort, 4>,
}

/// A block, which lies in the system or in another block.
#[derive(Drop)]
pub struct Block {
    pub name: Name,
    /// Where it lies.
    pub scope: Scope,
    /// How deep: 1 in the system, and in a block one more than that block.
    pub depth: u32,
}

/// A set of process instances in a block. It has the number of instances that a run begins with, and the most that may live at a
/// time. Each is at most 1,024 (this project's own limit).
#[derive(Drop)]
pub struct Set {
    pub name: Name,
    pub block: BlockId,
    pub initial: u32,
    pub maximum: u32,
}

/// The agent that a gate belongs to.
#[derive(Clone, Copy, Debug, PartialEq, Eq)]
pub enum Owner {
    System,
    Block(BlockId),
    Set(SetId),
}

/// A side of a gate: the outer one faces what is around the gate's owner, the inner one what is in it.
#[derive(Clone, Copy, Debug, PartialEq, Eq)]
pub enum Side {
    Outer,
    Inner,
}

/// A gate with the signals that it lets in to its owner and out of it.
#[derive(Drop)]
pub struct Gate {
    pub name: Name,
    pub owner: Owner,
    pub inward: ArrayVec<SignalId, 64>,
    pub outward: ArrayVec<SignalId, 64>,
}

/// Where a channel lies: in the system, or in a block.
#[derive(Clone, Copy, Debug, PartialEq, Eq)]
pub enum Scope {
    System,
    Block(BlockId),
}

/// An end of a channel: one side of one gate.
#[derive(Clone, Copy, Debug, PartialEq, Eq)]
pub struct End {
    pub gate: GateId,
    pub side: Side,
}

/// The two paths of a channel: from its first end to its second, and back.
#[derive(Clone, Copy, Debug, PartialEq, Eq)]
pub enum Direction {
    Forth,
    Back,
}

/// A channel with the signals of its two paths. A path whose list is empty carries nothing. Without `nodelay` each path is a
/// queue, first in and first out.
#[derive(Drop)]
pub struct Channel {
    pub name: Name,
    pub scope: Scope,
    pub first: End,
    pub second: End,
    pub forth: ArrayVec<SignalId, 64>,
    pub back: ArrayVec<SignalId, 64>,
    pub nodelay: bool,
}

impl Channel {
    /// The signals of one path, in the order of their list.
    pub fn signals(&self, direction: Direction) -> &[SignalId]
        ensures { result.now ≡ (path_of self.now direction).signals }
    {
        match direction {
            Direction::Forth => self.forth.as_slice(),
            Direction::Back => self.back.as_slice(),
        }
    }

    /// The end at which a path starts.
    pub fn start(&self, direction: Direction) -> End
        ensures { result ≡ (path_of self.now direction).start }
    {
        match direction {
            Direction::Forth => self.first,
            Direction::Back => self.second,
        }
    }

    /// The end at which a path ends.
    pub fn finish(&self, direction: Direction) -> End
        ensures { result ≡ (path_of self.now direction).finish }
    {
        match direction {
            Direction::Forth => self.second,
            Direction::Back => self.first,
        }
    }
}

impl Side {
    /// The other side of the same gate.
    pub fn other(self) -> Side
        ensures { result ≡ other_side self }
    {
        match self {
            Side::Outer => Side::Inner,
            Side::Inner => Side::Outer,
        }
    }
}
