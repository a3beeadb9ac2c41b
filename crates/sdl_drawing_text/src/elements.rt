//! The words that both forms have of a set, and what several elements of an SVG have.
ghost use Rattle.std.specs.Prelude.{◌≡◌, ◌-◌, OnOk};
ghost use Rattle.std.specs.Io.KnownBytes.{Appends};
ghost use Rattle.sdl_svg.specs.Elements.{size_text};
ghost use Rattle.sdl_drawing_text.specs.Elements.{rect_text, counts_text, set_words};
ghost use Rattle.sdl_drawing_text.specs.Paths.{finish_side};

use sdl_drawing::Rect;
use sdl_signal::ChannelId;
use sdl_structure_parts::{Direction, Set, Side, Structure};
use sdl_svg::{write_place, write_size, write_text};
use std::io::{Result, Write};

/// Writes where a rectangle stands.
pub(crate) fn write_rect<W: Write>(output: &mut W, rect: Rect) -> Result<()>
    ensures { OnOk result (Appends (W.contents output.old) (W.contents output.new) (rect_text rect)) }
{
    write_place(output, rect.left, rect.top)?;
    write_sides(output, rect)
}

/// Writes how large a rectangle is.
fn write_sides<W: Write>(output: &mut W, rect: Rect) -> Result<()>
    ensures { OnOk result (Appends (W.contents output.old) (W.contents output.new) (size_text (rect.right - rect.left) (rect.bottom - rect.top))) }
{
    let width = rect.right.saturating_sub(rect.left);
    let height = rect.bottom.saturating_sub(rect.top);
    write_size(output, width, height)
}

/// Writes the name of a set, with the number of its instances at the start of a run, and the most that it may have.
pub(crate) fn write_set_words<W: Write>(output: &mut W, set: &Set) -> Result<()>
    ensures { OnOk result (Appends (W.contents output.old) (W.contents output.new) (set_words set.now)) }
{
    write_set_name(output, set)?;
    write_counts(output, set.initial, set.maximum)
}

fn write_set_name<W: Write>(output: &mut W, set: &Set) -> Result<()>
    ensures { OnOk result (Appends (W.contents output.old) (W.contents output.new) set.now.name.bytes) }
{
    write_text(output, set.name.as_str())
}

fn write_counts<W: Write>(output: &mut W, initial: u32, maximum: u32) -> Result<()>
    ensures { OnOk result (Appends (W.contents output.old) (W.contents output.new) (counts_text initial maximum)) }
{
    write!(output, " ({initial}, {maximum})")
}

/// The side at which a path ends.
pub(crate) fn side_of(structure: &Structure, channel: ChannelId, direction: Direction) -> Side
    ensures { result ≡ finish_side structure.now channel direction }
{
    match structure.channels().get(channel.0 as usize) {
        Some(channel) => channel.finish(direction).side,
        None => Side::Outer,
    }
}
