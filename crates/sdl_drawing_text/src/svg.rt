//! The SVG of a drawing.
ghost use Rattle.std.specs.Prelude.{OnOk};
ghost use Rattle.std.specs.Io.KnownBytes.{Appends};
ghost use Rattle.sdl_drawing_text.specs.Svg.{shapes_text, names_text, svg_text};

use crate::channels::{write_channel_names, write_lines};
use crate::frames::{write_frames, write_titles};
use crate::gates::{write_boxes, write_gate_names};
use crate::lists::write_rows;
use sdl_drawing::Drawing;
use sdl_structure_parts::Structure;
use sdl_svg::{write_front, write_text};
use std::io::{Result, Write};

/// Writes the drawing of the structure as SVG: the frames, the lines of channels, the boxes of gates, and over these all texts.
/// Every name has letters, digits and underscores alone, so none needs an escape.
pub fn write_svg<W: Write>(output: &mut W, structure: &Structure, drawing: &Drawing) -> Result<()>
    ensures { OnOk result (Appends (W.contents output.old) (W.contents output.new) (svg_text structure.now drawing.now)) }
{
    write_front(output, drawing.width, drawing.height)?;
    write_shapes(output, structure, drawing)?;
    write_names(output, structure, drawing)?;
    write_text(output, "</svg>\n")
}

/// Writes all frames, lines and boxes.
fn write_shapes<W: Write>(output: &mut W, structure: &Structure, drawing: &Drawing) -> Result<()>
    ensures { OnOk result (Appends (W.contents output.old) (W.contents output.new) (shapes_text structure.now drawing.now)) }
{
    write_frames(output, structure, drawing)?;
    write_lines(output, structure, drawing)?;
    write_boxes(output, structure, drawing)
}

/// Writes all texts.
fn write_names<W: Write>(output: &mut W, structure: &Structure, drawing: &Drawing) -> Result<()>
    ensures { OnOk result (Appends (W.contents output.old) (W.contents output.new) (names_text structure.now drawing.now)) }
{
    write_titles(output, structure, drawing)?;
    write_gate_names(output, structure, drawing)?;
    write_rows(output, structure, drawing)?;
    write_channel_names(output, structure, drawing)
}
