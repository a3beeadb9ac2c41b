//! Channels as edges: each with its name and the lists of its two paths.
ghost use Rattle.std.specs.Prelude.{◌≡◌, ◌≤◌, OnOk, length};
ghost use Rattle.std.specs.Io.KnownBytes.{Appends};
ghost use Rattle.sdl_drawing_text.specs.Written.{Adds};
ghost use Rattle.sdl_drawing_text.specs.Dot.{row_dot, IsListFrom, edge_ends, edge_name, edge_front, arrow_name, edge_head, edge_tail, edge_arrows, IsEdge, AreEdges};

use crate::lists::write_items;
use sdl_drawing::texts::row_end;
use sdl_signal::SignalId;
use sdl_structure_parts::{Channel, Direction, Structure};
use sdl_svg::write_text;
use std::io::{Result, Write};

/// The most characters of a row of a list, unless one signal alone has more.
const ROW_LETTERS: usize = 28;

/// Writes the edges of these channels.
pub(crate) fn write_edges<W: Write>(
    output: &mut W,
    structure: &Structure,
    channels: &[Channel],
) -> Result<()>
    ensures { OnOk result (Adds (AreEdges structure.now channels.now) (W.contents output.old) (W.contents output.new)) }
{
    for channel in channels {
        write_edge(output, structure, channel)?;
    }
    Ok(())
}

/// Writes the edge of a channel.
fn write_edge<W: Write>(output: &mut W, structure: &Structure, channel: &Channel) -> Result<()>
    ensures { OnOk result (Adds (IsEdge structure.now channel.now) (W.contents output.old) (W.contents output.new)) }
{
    write_front(output, channel)?;
    // Graphviz reads a backslash and an n as a new line.
    let forth = channel.signals(Direction::Forth);
    write_list(output, structure, forth, "\\n-> ", 0)?;
    let back = channel.signals(Direction::Back);
    write_list(output, structure, back, "\\n<- ", 0)?;
    write_arrows(output, channel)
}

/// Writes the gates that a channel joins, and its name.
fn write_front<W: Write>(output: &mut W, channel: &Channel) -> Result<()>
    ensures { OnOk result (Appends (W.contents output.old) (W.contents output.new) (edge_front channel.now)) }
{
    write_ends(output, channel)?;
    write_name(output, channel)
}

fn write_ends<W: Write>(output: &mut W, channel: &Channel) -> Result<()>
    ensures { OnOk result (Appends (W.contents output.old) (W.contents output.new) (edge_ends channel.now)) }
{
    let first = channel.first.gate.0;
    let second = channel.second.gate.0;
    write!(output, "  g{first} -> g{second}")
}

fn write_name<W: Write>(output: &mut W, channel: &Channel) -> Result<()>
    ensures { OnOk result (Appends (W.contents output.old) (W.contents output.new) (edge_name channel.now)) }
{
    let name = channel.name.as_str();
    write!(output, " [label=\"{name}")
}

/// Writes the list of a path from a place on, in rows: the first behind this text.
fn write_list<W: Write>(
    output: &mut W,
    structure: &Structure,
    signals: &[SignalId],
    before: &str,
    from: usize,
) -> Result<()>
    requires { from ≤ length signals.now }
    ensures { OnOk result (Adds (IsListFrom structure.now signals.now before.now from) (W.contents output.old) (W.contents output.new)) }
{
    if from < signals.len() {
        let end = row_end(structure, signals, from, ROW_LETTERS);
        write_row(output, structure, signals, before, from, end)?;
        write_list(output, structure, signals, "\\n   ", end)
    } else {
        Ok(())
    }
}

/// Writes a row of a list, behind this text.
fn write_row<W: Write>(
    output: &mut W,
    structure: &Structure,
    signals: &[SignalId],
    before: &str,
    from: usize,
    end: usize,
) -> Result<()>
    ensures { OnOk result (Appends (W.contents output.old) (W.contents output.new) (row_dot structure.now signals.now before.now from end)) }
{
    write_text(output, before)?;
    write_items(output, structure, signals, from, end)
}

/// Writes the arrow heads of the two paths.
fn write_arrows<W: Write>(output: &mut W, channel: &Channel) -> Result<()>
    ensures { OnOk result (Appends (W.contents output.old) (W.contents output.new) (edge_arrows channel.now)) }
{
    write_head(output, channel)?;
    write_tail(output, channel)?;
    write_text(output, "];\n")
}

/// Writes the arrow head of the path forth.
fn write_head<W: Write>(output: &mut W, channel: &Channel) -> Result<()>
    ensures { OnOk result (Appends (W.contents output.old) (W.contents output.new) (edge_head channel.now)) }
{
    let head = arrow_of(channel.forth.as_slice(), channel.nodelay);
    write!(output, "\", dir=both, arrowhead={head}")
}

/// Writes the arrow head of the path back.
fn write_tail<W: Write>(output: &mut W, channel: &Channel) -> Result<()>
    ensures { OnOk result (Appends (W.contents output.old) (W.contents output.new) (edge_tail channel.now)) }
{
    let tail = arrow_of(channel.back.as_slice(), channel.nodelay);
    write!(output, ", arrowtail={tail}")
}

/// The arrow head of a path: none where it carries nothing, at the gate where it has no delay, and else a little before it.
fn arrow_of(signals: &[SignalId], nodelay: bool) -> &'static str
    ensures { result.now ≡ arrow_name signals.now nodelay }
{
    if signals.is_empty() {
        "none"
    } else if nodelay {
        "normal"
    } else {
        "nonenonenormal"
    }
}
