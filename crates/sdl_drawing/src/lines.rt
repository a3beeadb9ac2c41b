//! The lines of all channels: where each meets its gates, and its track.
ghost use Rattle.std.specs.Prelude.{◌≡◌, IfOk};
ghost use Rattle.sdl_drawing.specs.Shown.{channels_shown, channels_of};

use crate::frames::rect_of;
use crate::ladder::{HALF_BOX, Ladder};
use crate::shapes::{ChannelLine, Frame, Head, Meeting, Point};
use crate::sizes::{Measures, SET_TITLE_SPACE, TITLE_SPACE, owner_of};
use crate::texts::text_gap;
use sdl_signal::ChannelId;
use sdl_structure_parts::{Channel, End, Gate, Owner, Scope, Side, Structure};
use std::alloc::{AllocError, Global};

/// The lines of the channels by number.
pub(crate) fn lines_of(
    alloc: Global,
    structure: &Structure,
    measures: &Measures,
    frames: &[Frame],
) -> Result<Vec<ChannelLine>, AllocError>
    ensures channels { IfOk result (λ lines. channels_shown lines.items ≡ channels_of structure.now) }
{
    structure.parts_agree();
    let mut lines = Vec::new(alloc);
    let count = structure.channels().len();
    for number in 0..count {
        lines.push(line_of(structure, measures, frames, ChannelId(number as u32)))?;
    }
    Ok(lines)
}

/// The line of a channel.
fn line_of(
    structure: &Structure,
    measures: &Measures,
    frames: &[Frame],
    id: ChannelId,
) -> ChannelLine
    ensures { result.channel ≡ id }
{
    let number = id.0 as usize;
    match structure.channels().get(number) {
        Some(channel) => {
            let slots = measures.heights.slots(number);
            let tip = if channel.nodelay { 0 } else { DELAYED };
            let first = stands_at(structure, measures, frames, channel.first, slots.first);
            let second = stands_at(structure, measures, frames, channel.second, slots.second);
            let second = meets_at(structure, channel.second, second, tip);
            ChannelLine {
                channel: id,
                first: meets_at(structure, channel.first, first, tip),
                track: track_of(structure, frames, channel.scope, number),
                second,
                name: Point {
                    x: second.text_x,
                    y: second.y.saturating_add(NAME_LINE),
                },
            }
        }
        None => no_line(id),
    }
}

/// The line of a channel that is not there.
fn no_line(id: ChannelId) -> ChannelLine
    ensures { result.channel ≡ id }
{
    let corner = Point { x: 0, y: 0 };
    let nowhere = Meeting {
        x: 0,
        y: 0,
        text_x: 0,
        head: Head {
            tip: corner,
            foot: 0,
            top: 0,
            bottom: 0,
        },
    };
    ChannelLine {
        channel: id,
        first: nowhere,
        track: 0,
        second: nowhere,
        name: corner,
    }
}

/// From a gate to the tip of the arrow head of a delaying path.
const DELAYED: usize = 22;

/// The length of an arrow head, and half its width.
const ARROW_LENGTH: usize = 9;

const HALF_ARROW: usize = 4;

/// From a line down to that on which its name stands.
const NAME_LINE: usize = 11;

/// Where a channel that lies in this scope has its track.
fn track_of(structure: &Structure, frames: &[Frame], scope: Scope, channel: usize) -> usize {
    let rect = rect_of(frames, owner_of(scope));
    let before = channels_before(structure, scope, channel);
    let track = Ladder::of(structure, scope).track(before);
    rect.left.saturating_add(track)
}

/// How many channels of a lower number lie in the scope.
fn channels_before(structure: &Structure, scope: Scope, end: usize) -> usize {
    let mut count: usize = 0;
    for channel in structure.channels().iter().take(end) {
        if channel.scope == scope {
            count = count.saturating_add(1);
        }
    }
    count
}

/// Where an end of a channel meets its gate. It stands so far below the first end at its side of the gate.
fn stands_at(
    structure: &Structure,
    measures: &Measures,
    frames: &[Frame],
    end: End,
    slot: usize,
) -> Point {
    let number = end.gate.0 as usize;
    let Some(gate) = structure.gates().get(number) else {
        return Point { x: 0, y: 0 };
    };
    let top = gate_top(structure, measures, frames, number, gate);
    let lead = measures.heights.lead(number, end.side);
    let border = rect_of(frames, gate.owner).left;
    Point {
        x: match end.side {
            Side::Inner => border.saturating_add(HALF_BOX),
            Side::Outer => border.saturating_sub(HALF_BOX),
        },
        y: raised(top.saturating_add(lead).saturating_add(slot), end.side),
    }
}

/// An end of a channel that meets its gate here, with the place of its texts, and an arrow head that is so far from the gate.
fn meets_at(structure: &Structure, end: End, at: Point, tip: usize) -> Meeting {
    let gap = text_gap(structure, end);
    let foot = tip.saturating_add(ARROW_LENGTH);
    Meeting {
        x: at.x,
        y: at.y,
        text_x: away(at.x, end.side, gap),
        head: Head {
            tip: Point {
                x: away(at.x, end.side, tip),
                y: at.y,
            },
            foot: away(at.x, end.side, foot),
            top: at.y.saturating_sub(HALF_ARROW),
            bottom: at.y.saturating_add(HALF_ARROW),
        },
    }
}

/// So far from a gate's box at this side of it.
fn away(x: usize, side: Side, by: usize) -> usize {
    match side {
        Side::Inner => x.saturating_add(by),
        Side::Outer => x.saturating_sub(by),
    }
}

/// The top of a gate's room at the border of its agent: below the room of the agent's gates of lower numbers.
pub(crate) fn gate_top(
    structure: &Structure,
    measures: &Measures,
    frames: &[Frame],
    number: usize,
    gate: &Gate,
) -> usize {
    let head = match gate.owner {
        Owner::Set(_) => SET_TITLE_SPACE,
        Owner::System | Owner::Block(_) => TITLE_SPACE,
    };
    let before = measures.heights.gates_before(structure, gate.owner, number);
    rect_of(frames, gate.owner)
        .top
        .saturating_add(head)
        .saturating_add(before)
}

/// The next height at which an end of this side may stand: those of inner sides are multiples of 4, those of outer sides 2 more.
/// So an inner and an outer end never have the same height.
fn raised(height: usize, side: Side) -> usize {
    let above = height.saturating_add(3);
    let multiple = above - above % 4;
    match side {
        Side::Inner => multiple,
        Side::Outer => multiple.saturating_add(2),
    }
}
