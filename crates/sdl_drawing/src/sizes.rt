//! The sizes of frames. Those of inner blocks come before those of the blocks in which they lie.
ghost use Rattle.std.specs.Prelude.{◌≡◌};
ghost use Rattle.sdl_drawing.specs.Shown.{scope_agent};

use crate::columns::Heights;
use crate::ladder::Ladder;
use crate::texts::{digits, name_width, title_width};
use sdl_signal::{BlockId, SetId};
use sdl_structure_parts::limits::MOST_DEPTH;
use sdl_structure_parts::{Owner, Scope, Set, Structure};
use std::alloc::{AllocError, Global};

/// From the top of a system's or a block's frame to what is in it.
pub(crate) const TITLE_SPACE: usize = 28;

/// From the top of a set's frame to its gates.
pub(crate) const SET_TITLE_SPACE: usize = 20;

/// From the last agent or gate to the foot of a frame.
const FOOT: usize = 16;

/// The same of a set.
const SET_FOOT: usize = 2;

/// From one agent to the next.
pub(crate) const GAP: usize = 22;

/// From the agents to the right border of the frame around them.
pub(crate) const RIM: usize = 14;

/// What a title and a gate's name have beside them.
const BESIDE: usize = 20;

/// The least width of a set.
const LEAST_SET: usize = 130;

#[derive(Clone, Copy)]
pub(crate) struct Size {
    pub width: usize,
    pub height: usize,
}

const NOTHING: Size = Size {
    width: 0,
    height: 0,
};

impl Size {
    /// The size with an agent below, and a gap below that.
    fn above(self, agent: Size) -> Size {
        Size {
            width: self.width.max(agent.width),
            height: self.height.saturating_add(agent.height).saturating_add(GAP),
        }
    }
}

/// What is measured before the places are known.
#[derive(Drop)]
pub(crate) struct Measures {
    pub heights: Heights,
    sets: Vec<Size>,
    blocks: Vec<Size>,
}

impl Measures {
    /// Those of a structure. The error is that memory was refused.
    pub(crate) fn new(alloc: Global, structure: &Structure) -> Result<Measures, AllocError> {
        let heights = Heights::new(alloc, structure)?;
        let sets = set_sizes(alloc, structure, &heights)?;
        let mut measures = Measures {
            heights,
            sets,
            blocks: Vec::new(alloc),
        };
        // Each time, the sizes of blocks that have one more level of blocks in them are right.
        for _ in 0..MOST_DEPTH {
            measures.blocks = measures.measured(alloc, structure)?;
        }
        Ok(measures)
    }

    /// The sizes of all blocks, by what is known of the blocks in them.
    fn measured(&self, alloc: Global, structure: &Structure) -> Result<Vec<Size>, AllocError> {
        structure.parts_agree();
        let mut sizes = Vec::new(alloc);
        for (number, block) in structure.blocks().iter().enumerate() {
            let title = block.name.as_str().len().saturating_add(6);
            let scope = Scope::Block(BlockId(number as u32));
            sizes.push(self.scope_size(structure, scope, title))?;
        }
        Ok(sizes)
    }

    /// The size of the system, or of a block, with a title of so many letters.
    pub(crate) fn scope_size(&self, structure: &Structure, scope: Scope, title: usize) -> Size {
        let gates = self.heights.gates_of(structure, owner_of(scope));
        let agents = self.agents_before(structure, scope, usize::MAX, usize::MAX);
        let inside = agents.height.saturating_sub(GAP).max(gates);
        let wide = Ladder::of(structure, scope)
            .width()
            .saturating_add(agents.width)
            .saturating_add(RIM);
        Size {
            width: wide.max(title_width(title).saturating_add(BESIDE)),
            height: inside.saturating_add(TITLE_SPACE + FOOT),
        }
    }

    /// The agents of a frame, one above the other, up to the set and the block of these numbers: sets first, then blocks.
    pub(crate) fn agents_before(
        &self,
        structure: &Structure,
        scope: Scope,
        sets: usize,
        blocks: usize,
    ) -> Size {
        let stack = self.sets_before(structure, scope, sets);
        self.blocks_before(structure, scope, blocks, stack)
    }

    fn sets_before(&self, structure: &Structure, scope: Scope, end: usize) -> Size {
        let mut stack = NOTHING;
        for (set, size) in structure.sets().iter().zip(self.sets.as_slice()).take(end) {
            if Scope::Block(set.block) == scope {
                stack = stack.above(*size);
            }
        }
        stack
    }

    fn blocks_before(&self, structure: &Structure, scope: Scope, end: usize, above: Size) -> Size {
        let mut stack = above;
        for (block, size) in structure
            .blocks()
            .iter()
            .zip(self.blocks.as_slice())
            .take(end)
        {
            if block.scope == scope {
                stack = stack.above(*size);
            }
        }
        stack
    }

    /// The size of the set of this number.
    pub(crate) fn set_size(&self, set: usize) -> Size {
        match self.sets.get(set) {
            Some(size) => *size,
            None => NOTHING,
        }
    }

    /// The size of the block of this number.
    pub(crate) fn block_size(&self, block: usize) -> Size {
        match self.blocks.get(block) {
            Some(size) => *size,
            None => NOTHING,
        }
    }
}

/// The sizes of all sets.
fn set_sizes(
    alloc: Global,
    structure: &Structure,
    heights: &Heights,
) -> Result<Vec<Size>, AllocError> {
    structure.parts_agree();
    let mut sizes = Vec::new(alloc);
    for (number, set) in structure.sets().iter().enumerate() {
        let agent = Owner::Set(SetId(number as u32));
        let gates = heights.gates_of(structure, agent);
        let texts = set_title_width(set).max(names_width(structure, agent));
        sizes.push(Size {
            width: texts.saturating_add(BESIDE).max(LEAST_SET),
            height: gates.saturating_add(SET_TITLE_SPACE + SET_FOOT),
        })?;
    }
    Ok(sizes)
}

/// The width of the title of a set: its name with two numbers of instances in brackets.
fn set_title_width(set: &Set) -> usize {
    let letters = set
        .name
        .as_str()
        .len()
        .saturating_add(digits(set.initial))
        .saturating_add(digits(set.maximum))
        .saturating_add(5);
    title_width(letters)
}

/// The agent that a scope is.
pub(crate) fn owner_of(scope: Scope) -> Owner
    ensures { result ≡ scope_agent scope }
{
    match scope {
        Scope::System => Owner::System,
        Scope::Block(block) => Owner::Block(block),
    }
}

/// The width of the widest name of an agent's gates.
fn names_width(structure: &Structure, agent: Owner) -> usize {
    let mut width: usize = 0;
    for gate in structure.gates() {
        if gate.owner == agent {
            width = width.max(name_width(gate.name.as_str().len()));
        }
    }
    width
}
