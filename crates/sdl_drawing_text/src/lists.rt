//! The lists of signals.
ghost use Rattle.std.specs.Prelude.{◌≡◌, ◌+◌, ◌^◌, ◌<◌, OnOk};
ghost use Rattle.std.specs.Io.KnownBytes.{Appends};
ghost use Rattle.sdl_drawing.specs.Shown.{path_signals};
ghost use Rattle.sdl_svg.specs.Elements.{text_front};
ghost use Rattle.sdl_drawing_text.specs.Paths.{finish_side};
ghost use Rattle.sdl_drawing_text.specs.Lists.{item_name, item_text, items_text, before_item, behind_item, list_style, row_text, rows_text};

use crate::elements::side_of;
use sdl_app_file_commands::names::signal_name;
use sdl_drawing::{Drawing, ListRow, signals_of};
use sdl_signal::SignalId;
use sdl_structure_parts::{Side, Structure};
use sdl_svg::{close_text, open_text};
use std::io::{Result, Write};

/// Writes all rows of lists.
pub(crate) fn write_rows<W: Write>(
    output: &mut W,
    structure: &Structure,
    drawing: &Drawing,
) -> Result<()>
    ensures { OnOk result (Appends (W.contents output.old) (W.contents output.new) (rows_text structure.now drawing.now.rows.items)) }
{
    for row in drawing.rows.as_slice() {
        write_row(output, structure, row)?;
    }
    Ok(())
}

/// Writes a row of the list of a path.
fn write_row<W: Write>(output: &mut W, structure: &Structure, row: &ListRow) -> Result<()>
    ensures { OnOk result (Appends (W.contents output.old) (W.contents output.new) (row_text structure.now row.now)) }
{
    open_row(output, structure, row)?;
    write_signals(output, structure, row)?;
    close_text(output)
}

/// Writes the front of a row.
fn open_row<W: Write>(output: &mut W, structure: &Structure, row: &ListRow) -> Result<()>
    ensures { OnOk result (Appends (W.contents output.old) (W.contents output.new) (text_front row.now.x row.now.y (list_style (finish_side structure.now row.now.channel row.now.direction)))) }
{
    let side = side_of(structure, row.channel, row.direction);
    open_text(output, row.x, row.y, style_of(side))
}

/// Writes the signals of a row.
fn write_signals<W: Write>(output: &mut W, structure: &Structure, row: &ListRow) -> Result<()>
    ensures { OnOk result (Appends (W.contents output.old) (W.contents output.new) (items_text structure.now (path_signals structure.now row.now.channel row.now.direction) row.now.from row.now.end)) }
{
    let signals = signals_of(structure, row.channel, row.direction);
    write_items(output, structure, signals, row.from, row.end)
}

/// Writes the signals of a list from one place up to another.
pub(crate) fn write_items<W: Write>(
    output: &mut W,
    structure: &Structure,
    signals: &[SignalId],
    from: usize,
    end: usize,
) -> Result<()>
    ensures { OnOk result (Appends (W.contents output.old) (W.contents output.new) (items_text structure.now signals.now from end)) }
{
    for place in from..end {
        write_item(output, structure, signals, place)?;
    }
    Ok(())
}

/// Writes the signal at this place of a list. The first has a bracket before it, and each other a space. The last has a bracket
/// behind it, and each other a comma.
fn write_item<W: Write>(
    output: &mut W,
    structure: &Structure,
    signals: &[SignalId],
    place: usize,
) -> Result<()>
    requires { place + 1 < 2 ^ 64 }
    ensures { OnOk result (Appends (W.contents output.old) (W.contents output.new) (item_text structure.now signals.now place)) }
{
    let before = front_of(place);
    let name = name_at(structure, signals, place);
    let behind = end_of(signals, place);
    write!(output, "{before}{name}{behind}")
}

/// What stands before the signal at this place.
fn front_of(place: usize) -> &'static str
    ensures { result.now ≡ before_item place }
{
    if place == 0 { "[" } else { " " }
}

/// What stands behind the signal at this place.
fn end_of(signals: &[SignalId], place: usize) -> &'static str
    requires { place + 1 < 2 ^ 64 }
    ensures { result.now ≡ behind_item signals.now place }
{
    if place + 1 == signals.len() { "]" } else { "," }
}

/// The name of the signal at this place.
fn name_at<'a>(structure: &'a Structure, signals: &[SignalId], place: usize) -> &'a str
    ensures { result.now ≡ item_name structure.now signals.now place }
{
    match signals.get(place) {
        Some(signal) => signal_name(structure, *signal),
        None => "",
    }
}

/// How a row of a list looks. At an outer side it ends before the gate, and at an inner side it begins behind it.
fn style_of(side: Side) -> &'static str
    ensures { result.now ≡ list_style side }
{
    match side {
        Side::Outer => "text-anchor=\"end\" font-size=\"10\"",
        Side::Inner => "text-anchor=\"start\" font-size=\"10\"",
    }
}
