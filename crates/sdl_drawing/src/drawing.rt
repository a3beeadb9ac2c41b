//! The block diagram of a structure.
ghost use Rattle.std.specs.Prelude.{◌≡◌, IfOk};
ghost use Rattle.sdl_drawing.specs.Shown.{ShowsAll};
ghost use Rattle.sdl_drawing.specs.Tidy.{IsTidy};

use crate::boxes::boxes_of;
use crate::corners::EDGE;
use crate::frames::frames_of;
use crate::lines::lines_of;
use crate::rows::rows_of;
use crate::shapes::Drawing;
use crate::sizes::Measures;
use crate::tidy::is_tidy;
use sdl_structure_parts::Structure;
use std::alloc::{AllocError, Global};
use thiserror::Error;

/// Why there is no drawing.
#[derive(Clone, Copy, Debug, Error)]
pub enum DrawFault {
    /// A growth was refused.
    #[error("memory")]
    Memory,
    /// A shape would stand where it may not. No structure is known with which that happens.
    #[error("drawing: untidy")]
    Untidy,
}

/// The block diagram of a structure, by the ladder rule. In each frame the agents stand one above the other at its right: sets
/// first, then inner blocks. The gates are boxes on the left borders of their agents. Each channel of a frame has a track of its
/// own between the frame's border and its agents.
pub fn draw(alloc: Global, structure: &Structure) -> Result<Drawing, DrawFault>
    ensures shown { IfOk result (λ drawing. ShowsAll structure.now drawing) }
    ensures tidy { IfOk result (λ drawing. IsTidy structure.now drawing) }
{
    match laid_out(alloc, structure) {
        Ok(drawing) => {
            if is_tidy(structure, &drawing) {
                Ok(drawing)
            } else {
                Err(DrawFault::Untidy)
            }
        }
        Err(_) => Err(DrawFault::Memory),
    }
}

/// All shapes of a structure.
fn laid_out(alloc: Global, structure: &Structure) -> Result<Drawing, AllocError>
    ensures shown { IfOk result (λ drawing. ShowsAll structure.now drawing) }
{
    let measures = Measures::new(alloc, structure)?;
    let frames = frames_of(alloc, structure, &measures)?;
    let channels = lines_of(alloc, structure, &measures, frames.as_slice())?;
    let gates = boxes_of(
        alloc,
        structure,
        &measures,
        frames.as_slice(),
        channels.as_slice(),
    )?;
    let rows = rows_of(alloc, structure, channels.as_slice())?;
    let system = measures.system_rect(structure);
    Ok(Drawing {
        width: system.right.saturating_add(EDGE),
        height: system.bottom.saturating_add(EDGE),
        frames,
        gates,
        channels,
        rows,
    })
}
