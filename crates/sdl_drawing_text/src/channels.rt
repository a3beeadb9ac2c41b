//! The lines of channels, with the arrow heads of their paths, and the names of channels.
ghost use Rattle.std.specs.Prelude.{◌≡◌, ◌++◌, OnOk, codes, flat_map};
ghost use Rattle.std.specs.Io.KnownBytes.{Appends};
ghost use Rattle.sdl_drawing_text.specs.Channels.{line_name, corners_text, polyline_text, line_text, lines_text, head_text, head_front, head_points, polygon_text, direction_sign, name_style, channel_name_text, channel_names_text};

use crate::elements::side_of;
use sdl_app_file_commands::names::channel_name;
use sdl_drawing::{ChannelLine, Drawing, Head, signals_of};
use sdl_signal::ChannelId;
use sdl_structure_parts::{Direction, Side, Structure};
use sdl_svg::{write_attribute, write_corner, write_label, write_text};
use std::io::{Result, Write};

/// Writes the lines of all channels.
pub(crate) fn write_lines<W: Write>(
    output: &mut W,
    structure: &Structure,
    drawing: &Drawing,
) -> Result<()>
    ensures { OnOk result (Appends (W.contents output.old) (W.contents output.new) (lines_text structure.now drawing.now.channels.items)) }
{
    for line in drawing.channels.as_slice() {
        write_line(output, structure, line)?;
    }
    Ok(())
}

/// Writes the line of a channel, and the arrow heads of the paths that carry a signal.
fn write_line<W: Write>(output: &mut W, structure: &Structure, line: &ChannelLine) -> Result<()>
    ensures { OnOk result (Appends (W.contents output.old) (W.contents output.new) (line_text structure.now line.now)) }
{
    write_polyline(output, structure, line)?;
    write_head(
        output,
        structure,
        line.channel,
        Direction::Back,
        line.first.head,
    )?;
    write_head(
        output,
        structure,
        line.channel,
        Direction::Forth,
        line.second.head,
    )
}

/// Writes the line of a channel alone.
fn write_polyline<W: Write>(output: &mut W, structure: &Structure, line: &ChannelLine) -> Result<()>
    ensures { OnOk result (Appends (W.contents output.old) (W.contents output.new) (polyline_text structure.now line.now)) }
{
    write_text(output, "<polyline class=\"channel\"")?;
    write_channel(output, structure, line.channel)?;
    write_corners(output, line)?;
    write_text(output, "\" fill=\"none\" stroke=\"#000\"/>\n")
}

/// Writes the name of a channel as that of its line.
fn write_channel<W: Write>(output: &mut W, structure: &Structure, id: ChannelId) -> Result<()>
    ensures { OnOk result (Appends (W.contents output.old) (W.contents output.new) (line_name structure.now id)) }
{
    write_attribute(output, "data-channel", channel_name(structure, id))
}

/// Writes the corners of a line: its first end, the two of its track, and its second end.
fn write_corners<W: Write>(output: &mut W, line: &ChannelLine) -> Result<()>
    ensures { OnOk result (Appends (W.contents output.old) (W.contents output.new) (corners_text line.now)) }
{
    write_corner(output, " points=\"", line.first.x, line.first.y)?;
    write_corner(output, " ", line.track, line.first.y)?;
    write_corner(output, " ", line.track, line.second.y)?;
    write_corner(output, " ", line.second.x, line.second.y)
}

/// Writes the arrow head of a path, where the path carries a signal.
fn write_head<W: Write>(
    output: &mut W,
    structure: &Structure,
    channel: ChannelId,
    direction: Direction,
    head: Head,
) -> Result<()>
    ensures { OnOk result (Appends (W.contents output.old) (W.contents output.new) (head_text structure.now channel direction head)) }
{
    let signals = signals_of(structure, channel, direction);
    if signals.is_empty() {
        Ok(())
    } else {
        write_polygon(output, structure, channel, direction, head)
    }
}

/// Writes the arrow head of a path that carries a signal.
fn write_polygon<W: Write>(
    output: &mut W,
    structure: &Structure,
    channel: ChannelId,
    direction: Direction,
    head: Head,
) -> Result<()>
    ensures { OnOk result (Appends (W.contents output.old) (W.contents output.new) (polygon_text structure.now channel direction head)) }
{
    open_polygon(output, structure, channel, direction)?;
    write_points(output, head)?;
    write_text(output, "\"/>\n")
}

/// Writes the front of an arrow head: the name of its path.
fn open_polygon<W: Write>(
    output: &mut W,
    structure: &Structure,
    channel: ChannelId,
    direction: Direction,
) -> Result<()>
    ensures { OnOk result (Appends (W.contents output.old) (W.contents output.new) (head_front structure.now channel direction)) }
{
    let name = channel_name(structure, channel);
    let sign = sign_of(direction);
    write!(output, "<polygon data-path=\"{name}{sign}\"")
}

/// Writes the points of an arrow head.
fn write_points<W: Write>(output: &mut W, head: Head) -> Result<()>
    ensures { OnOk result (Appends (W.contents output.old) (W.contents output.new) (head_points head)) }
{
    write_corner(output, " points=\"", head.tip.x, head.tip.y)?;
    write_corner(output, " ", head.foot, head.top)?;
    write_corner(output, " ", head.foot, head.bottom)
}

/// The sign of a path: `+` from the channel's first end to its second, and `-` back.
fn sign_of(direction: Direction) -> &'static str
    ensures { result.now ≡ direction_sign direction }
{
    match direction {
        Direction::Forth => "+",
        Direction::Back => "-",
    }
}

/// Writes the names of all channels.
pub(crate) fn write_channel_names<W: Write>(
    output: &mut W,
    structure: &Structure,
    drawing: &Drawing,
) -> Result<()>
    ensures { OnOk result (Appends (W.contents output.old) (W.contents output.new) (channel_names_text structure.now drawing.now.channels.items)) }
{
    for line in drawing.channels.as_slice() {
        write_channel_name(output, structure, line)?;
    }
    Ok(())
}

/// Writes the name of a channel, at its second end.
fn write_channel_name<W: Write>(
    output: &mut W,
    structure: &Structure,
    line: &ChannelLine,
) -> Result<()>
    ensures { OnOk result (Appends (W.contents output.old) (W.contents output.new) (channel_name_text structure.now line.now)) }
{
    let id = line.channel;
    let style = style_of(side_of(structure, id, Direction::Forth));
    let name = channel_name(structure, id);
    write_label(output, line.name.x, line.name.y, style, name)
}

/// How the name of a channel looks. At an outer side it ends before the gate, and at an inner side it begins behind it.
fn style_of(side: Side) -> &'static str
    ensures { result.now ≡ name_style side }
{
    match side {
        Side::Outer => "text-anchor=\"end\" font-size=\"9\" fill=\"#666\" font-style=\"italic\"",
        Side::Inner => "text-anchor=\"start\" font-size=\"9\" fill=\"#666\" font-style=\"italic\"",
    }
}
