//! The frames of all agents.
ghost use Rattle.std.specs.Prelude.{◌≡◌, ◌++◌, IfOk, OnOk};
ghost use Rattle.sdl_drawing.specs.Shown.{agents_shown, agents_of, block_agents, set_agents};

use crate::shapes::{Frame, Point, Rect};
use crate::sizes::Measures;
use sdl_signal::{BlockId, SetId};
use sdl_structure_parts::{Owner, Scope, Structure};
use std::alloc::{AllocError, Global};

/// The frames of the system, of the blocks and of the sets by number.
pub(crate) fn frames_of(
    alloc: Global,
    structure: &Structure,
    measures: &Measures,
) -> Result<Vec<Frame>, AllocError>
    ensures agents { IfOk result (λ frames. agents_shown frames.items ≡ agents_of structure.now) }
{
    let mut frames = Vec::new(alloc);
    frames.push(system_frame(structure, measures))?;
    add_blocks(&mut frames, structure, measures)?;
    add_sets(&mut frames, structure, measures)?;
    Ok(frames)
}

/// From the right border of a frame to the end of its title.
const TITLE_END: usize = 10;

/// From the top of a frame to the line on which its title stands.
const TITLE_LINE: usize = 16;

/// The frame of the system.
fn system_frame(structure: &Structure, measures: &Measures) -> Frame
    ensures { result.agent ≡ Owner.System }
{
    let rect = measures.system_rect(structure);
    Frame {
        agent: Owner::System,
        rect,
        name: title_end(rect),
    }
}

/// Where the title of the system or of a block ends.
fn title_end(rect: Rect) -> Point {
    Point {
        x: rect.right.saturating_sub(TITLE_END),
        y: rect.top.saturating_add(TITLE_LINE),
    }
}

/// The middle of a set's title.
fn title_middle(rect: Rect) -> Point {
    Point {
        x: rect.left.saturating_add(rect.right) / 2,
        y: rect.top.saturating_add(TITLE_LINE),
    }
}

/// Adds the frames of the blocks. What a refusal leaves is not said.
fn add_blocks(
    frames: &mut Vec<Frame>,
    structure: &Structure,
    measures: &Measures,
) -> Result<(), AllocError>
    ensures agents { OnOk result (agents_shown frames.new.items ≡ agents_shown frames.old.items ++ block_agents structure.now) }
{
    structure.parts_agree();
    let count = structure.blocks().len();
    for number in 0..count {
        frames.push(block_frame(structure, measures, BlockId(number as u32)))?;
    }
    Ok(())
}

/// The frame of a block.
fn block_frame(structure: &Structure, measures: &Measures, block: BlockId) -> Frame
    ensures { result.agent ≡ Owner.Block block }
{
    let rect = measures.block_rect(structure, Scope::Block(block), block.0 as usize);
    Frame {
        agent: Owner::Block(block),
        rect,
        name: title_end(rect),
    }
}

/// Adds the frames of the sets. What a refusal leaves is not said.
fn add_sets(
    frames: &mut Vec<Frame>,
    structure: &Structure,
    measures: &Measures,
) -> Result<(), AllocError>
    ensures agents { OnOk result (agents_shown frames.new.items ≡ agents_shown frames.old.items ++ set_agents structure.now) }
{
    structure.parts_agree();
    let count = structure.sets().len();
    for number in 0..count {
        frames.push(set_frame(structure, measures, SetId(number as u32)))?;
    }
    Ok(())
}

/// The frame of a set.
fn set_frame(structure: &Structure, measures: &Measures, id: SetId) -> Frame
    ensures { result.agent ≡ Owner.Set id }
{
    let agent = Owner::Set(id);
    let number = id.0 as usize;
    let rect = match structure.sets().get(number) {
        Some(set) => measures.set_rect(structure, number, set),
        None => NOWHERE,
    };
    Frame {
        agent,
        rect,
        name: title_middle(rect),
    }
}

/// The rectangle of what is not there.
const NOWHERE: Rect = Rect {
    left: 0,
    top: 0,
    right: 0,
    bottom: 0,
};

/// The rectangle of an agent among these frames.
pub(crate) fn rect_of(frames: &[Frame], agent: Owner) -> Rect {
    for frame in frames {
        if frame.agent == agent {
            return frame.rect;
        }
    }
    NOWHERE
}
