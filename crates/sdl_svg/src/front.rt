//! The front of an SVG.
ghost use Rattle.std.specs.Prelude.{◌≡◌, ◌++◌, OnOk, codes};
ghost use Rattle.std.specs.Io.KnownBytes.{Appends};
ghost use Rattle.sdl_svg.specs.Front.{numbers_text, view_text, svg_root, svg_sheet, svg_front};

use crate::elements::{write_size, write_text};
use std::io::{Result, Write};

/// Writes the front of the picture: its size, the look of all texts, and a white sheet.
pub fn write_front<W: Write>(output: &mut W, width: usize, height: usize) -> Result<()>
    ensures { OnOk result (Appends (W.contents output.old) (W.contents output.new) (svg_front width height)) }
{
    write_root(output, width, height)?;
    write_text(
        output,
        "<style>text{paint-order:stroke;stroke:#fff;stroke-width:3px;stroke-linejoin:round}</style>\n",
    )?;
    write_sheet(output, width, height)
}

fn write_root<W: Write>(output: &mut W, width: usize, height: usize) -> Result<()>
    ensures { OnOk result (Appends (W.contents output.old) (W.contents output.new) (svg_root width height)) }
{
    write_text(output, "<svg xmlns=\"http://www.w3.org/2000/svg\"")?;
    write_size(output, width, height)?;
    write_view(output, width, height)?;
    write_text(
        output,
        " font-family=\"DejaVu Sans, Verdana, sans-serif\">\n",
    )
}

/// Writes that a unit of the picture is a pixel.
fn write_view<W: Write>(output: &mut W, width: usize, height: usize) -> Result<()>
    ensures { OnOk result (Appends (W.contents output.old) (W.contents output.new) (view_text width height)) }
{
    write_text(output, " viewBox=\"0 0 ")?;
    write_numbers(output, width, height)
}

fn write_numbers<W: Write>(output: &mut W, width: usize, height: usize) -> Result<()>
    ensures { OnOk result (Appends (W.contents output.old) (W.contents output.new) (numbers_text width height)) }
{
    write!(output, "{width} {height}\"")
}

fn write_sheet<W: Write>(output: &mut W, width: usize, height: usize) -> Result<()>
    ensures { OnOk result (Appends (W.contents output.old) (W.contents output.new) (svg_sheet width height)) }
{
    write_text(output, "<rect")?;
    write_size(output, width, height)?;
    write_text(output, " fill=\"#fff\"/>\n")
}
