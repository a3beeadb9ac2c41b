//! The places of texts.
use sdl_chart_drawing::{Point, SIGNAL_LETTERS, Style, Text};

/// The length of a line that goes nowhere.
pub(crate) const STUB: usize = 40;

/// From a line to a text over it, and from its middle to a text behind it.
const FALL: usize = 4;

/// From a lifeline to a text beside it.
pub(crate) const BESIDE: usize = 10;

/// From a lifeline to the middle of the label of a level arrow.
const MIDDLE: usize = 75;

pub(crate) fn point(x: usize, y: usize) -> Point {
    Point { x, y }
}

/// A text that begins so far behind a point.
pub(crate) fn text_behind(at: Point, by: usize, style: Style, text: String) -> Text {
    Text {
        at: point(at.x.saturating_add(by), at.y.saturating_add(FALL)),
        style,
        text,
    }
}

/// A label and a remark behind the head of a line that ends there.
pub(crate) fn end_texts(head: Point, label: String, remark: String) -> (Text, Text) {
    let width = width_of(label.len().min(SIGNAL_LETTERS));
    let behind = width.saturating_add(BESIDE).saturating_add(BESIDE);
    (
        text_behind(head, BESIDE, Style::Begin, label),
        text_behind(head, behind, Style::Remark, remark),
    )
}

/// The label of an arrow: over its first step where it is level, and else beside its tail. It stands before the head where the arrow comes
/// from above the part, and behind a head that is at no lifeline.
pub(crate) fn arrow_text(tail: Option<Point>, head: Point, text: String) -> Text {
    let (x, y, style) = match tail {
        None => (head.x.saturating_sub(BESIDE), head.y, Style::End),
        Some(tail) if head.x == tail.x.saturating_add(STUB) => {
            let y = head.y.saturating_add(FALL).saturating_add(FALL);
            (head.x.saturating_add(BESIDE), y, Style::Begin)
        }
        Some(tail) if tail.x < head.x && tail.y == head.y => {
            (tail.x.saturating_add(MIDDLE), tail.y, Style::Middle)
        }
        Some(tail) if tail.x <= head.x => (tail.x.saturating_add(BESIDE), tail.y, Style::Begin),
        Some(tail) if tail.y == head.y => (tail.x.saturating_sub(MIDDLE), tail.y, Style::Middle),
        Some(tail) => (tail.x.saturating_sub(BESIDE), tail.y, Style::End),
    };
    Text {
        at: point(x, y.saturating_sub(FALL)),
        style,
        text,
    }
}

/// The width of so many letters.
pub(crate) fn width_of(letters: usize) -> usize {
    letters.saturating_mul(63) / 10
}

/// The right end of a text. A signal that is too long is cut, and dots follow.
pub(crate) fn end_of(text: &Text) -> usize {
    let letters = text.text.len();
    let width = match text.style {
        Style::Remark => width_of(letters),
        Style::End => 0,
        _ => width_of(letters.min(SIGNAL_LETTERS.saturating_add(1))),
    };
    text.at.x.saturating_add(width)
}
