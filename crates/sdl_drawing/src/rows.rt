//! The rows of all lists of signals.
ghost use Rattle.std.specs.Prelude.{◌≡◌, ◌++◌, flat_map, IfOk, OnOk};
ghost use Rattle.sdl_drawing.specs.Shown.{signals_shown, listed_signals, path_signals, arriving};

use crate::columns::ROW;
use crate::shapes::{ChannelLine, ListRow, Meeting};
use crate::texts::{ROW_LETTERS, list_size, row_end};
use sdl_signal::{ChannelId, SignalId};
use sdl_structure_parts::{Direction, Structure};
use std::alloc::{AllocError, Global};

/// From the lowest row of a list down to the line.
const ABOVE_LINE: usize = 4;

/// The rows of the lists, line by line: those of what arrives at the first end, and then those of what arrives at the second.
pub(crate) fn rows_of(
    alloc: Global,
    structure: &Structure,
    lines: &[ChannelLine],
) -> Result<Vec<ListRow>, AllocError>
    ensures signals { IfOk result (λ rows. signals_shown structure.now rows.items ≡ listed_signals structure.now lines.now) }
{
    let mut rows = Vec::new(alloc);
    for line in lines {
        add_lists(&mut rows, structure, line)?;
    }
    Ok(rows)
}

/// Adds the rows of the two lists of a channel. What a refusal leaves is not said.
fn add_lists(
    rows: &mut Vec<ListRow>,
    structure: &Structure,
    line: &ChannelLine,
) -> Result<(), AllocError>
    ensures signals { OnOk result (signals_shown structure.now rows.new.items ≡ signals_shown structure.now rows.old.items ++ arriving structure.now line.now) }
{
    add_rows(rows, structure, line.channel, Direction::Back, line.first)?;
    add_rows(rows, structure, line.channel, Direction::Forth, line.second)
}

/// Adds the rows of the list of a path, above the end at which it arrives. What a refusal leaves is not said.
fn add_rows(
    rows: &mut Vec<ListRow>,
    structure: &Structure,
    channel: ChannelId,
    direction: Direction,
    end: Meeting,
) -> Result<(), AllocError>
    ensures signals { OnOk result (signals_shown structure.now rows.new.items ≡ signals_shown structure.now rows.old.items ++ path_signals structure.now channel direction) }
{
    let signals = signals_of(structure, channel, direction);
    let mut below = list_size(structure, signals).rows;
    let mut from = 0;
    while from < signals.len() {
        below = below.saturating_sub(1);
        let next = row_end(structure, signals, from, ROW_LETTERS);
        let lift = below.saturating_mul(ROW).saturating_add(ABOVE_LINE);
        rows.push(ListRow {
            channel,
            direction,
            from,
            end: next,
            x: end.text_x,
            y: end.y.saturating_sub(lift),
        })?;
        from = next;
    }
    Ok(())
}

/// The signals of a path.
pub fn signals_of(structure: &Structure, channel: ChannelId, direction: Direction) -> &[SignalId]
    ensures { result.now ≡ path_signals structure.now channel direction }
{
    match structure.channels().get(channel.0 as usize) {
        Some(channel) => channel.signals(direction),
        None => &[],
    }
}
