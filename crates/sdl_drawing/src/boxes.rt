//! The boxes of all gates. Each is high enough for the ends of its channels.
ghost use Rattle.std.specs.Prelude.{◌≡◌, IfOk};
ghost use Rattle.sdl_drawing.specs.Shown.{gates_shown, gates_of};

use crate::frames::rect_of;
use crate::ladder::HALF_BOX;
use crate::lines::gate_top;
use crate::shapes::{ChannelLine, Frame, GateBox, Point, Rect};
use crate::sizes::Measures;
use sdl_signal::GateId;
use sdl_structure_parts::{Owner, Structure};
use std::alloc::{AllocError, Global};

/// From the top of a gate's room to the middle of its box, where no channel ends at the gate.
const MIDDLE: usize = 22;

/// The heights from one end to another.
#[derive(Clone, Copy)]
struct Span {
    top: usize,
    bottom: usize,
}

/// The boxes of the gates by number.
pub(crate) fn boxes_of(
    alloc: Global,
    structure: &Structure,
    measures: &Measures,
    frames: &[Frame],
    lines: &[ChannelLine],
) -> Result<Vec<GateBox>, AllocError>
    ensures gates { IfOk result (λ boxes. gates_shown boxes.items ≡ gates_of structure.now) }
{
    structure.parts_agree();
    let mut boxes = Vec::new(alloc);
    let count = structure.gates().len();
    for number in 0..count {
        let gate = GateId(number as u32);
        let rect = box_rect(structure, measures, frames, lines, number);
        let name = name_place(structure, number, rect);
        boxes.push(GateBox { gate, rect, name })?;
    }
    Ok(boxes)
}

/// Where the name of a gate stands: at the left of a gate of the system, and else above the gate, inside.
fn name_place(structure: &Structure, gate: usize, rect: Rect) -> Point {
    match structure.gates().get(gate) {
        Some(gate) if gate.owner == Owner::System => Point {
            x: rect.left.saturating_sub(NAME_GAP),
            y: (rect.top.saturating_add(rect.bottom) / 2).saturating_add(NAME_FALL),
        },
        _ => Point {
            x: rect.right.saturating_add(NAME_GAP),
            y: rect.top.saturating_sub(NAME_GAP),
        },
    }
}

/// From a gate's box to its name.
const NAME_GAP: usize = 3;

/// From the middle of a box down to the line on which a name beside it stands.
const NAME_FALL: usize = 4;

/// The rectangle of the box of this gate: from its first end to its last.
fn box_rect(
    structure: &Structure,
    measures: &Measures,
    frames: &[Frame],
    lines: &[ChannelLine],
    number: usize,
) -> Rect {
    let Some(gate) = structure.gates().get(number) else {
        return Rect {
            left: 0,
            top: 0,
            right: 0,
            bottom: 0,
        };
    };
    let border = rect_of(frames, gate.owner).left;
    let middle = gate_top(structure, measures, frames, number, gate).saturating_add(MIDDLE);
    let span = match ends_span(structure, lines, number) {
        Some(span) => span,
        None => Span {
            top: middle,
            bottom: middle,
        },
    };
    Rect {
        left: border.saturating_sub(HALF_BOX),
        top: span.top.saturating_sub(HALF_BOX),
        right: border.saturating_add(HALF_BOX),
        bottom: span.bottom.saturating_add(HALF_BOX),
    }
}

/// From the highest of the ends at a gate to the lowest. None where no channel ends there.
fn ends_span(structure: &Structure, lines: &[ChannelLine], gate: usize) -> Option<Span> {
    let mut span = None;
    for (channel, line) in structure.channels().iter().zip(lines) {
        if channel.first.gate.0 as usize == gate {
            span = with_end(span, line.first.y);
        }
        if channel.second.gate.0 as usize == gate {
            span = with_end(span, line.second.y);
        }
    }
    span
}

/// The heights with one more end.
fn with_end(span: Option<Span>, y: usize) -> Option<Span> {
    match span {
        Some(span) => Some(Span {
            top: span.top.min(y),
            bottom: span.bottom.max(y),
        }),
        None => Some(Span { top: y, bottom: y }),
    }
}
