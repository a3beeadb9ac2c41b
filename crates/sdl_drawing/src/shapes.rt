//! The shapes of a block diagram. Lengths are in pixels, from the left upper corner of the picture.
use sdl_signal::{ChannelId, GateId};
use sdl_structure_parts::{Direction, Owner};

/// A rectangle with upright sides.
#[derive(Clone, Copy)]
pub struct Rect {
    pub left: usize,
    pub top: usize,
    pub right: usize,
    pub bottom: usize,
}

/// A place in the picture.
#[derive(Clone, Copy)]
pub struct Point {
    pub x: usize,
    pub y: usize,
}

/// The frame of an agent, and where the agent's name stands: of a set the middle of the name, and else its end.
#[derive(Clone, Copy)]
pub struct Frame {
    pub agent: Owner,
    pub rect: Rect,
    pub name: Point,
}

/// The box of a gate, on the left border of its agent's frame, and where the gate's name stands: at the system its end, and else
/// its beginning.
#[derive(Clone, Copy)]
pub struct GateBox {
    pub gate: GateId,
    pub rect: Rect,
    pub name: Point,
}

/// The head of the arrow of a path, in its line. It points at the gate where the path ends: right before it where the channel has
/// no delay, and else a little away from it.
#[derive(Clone, Copy)]
pub struct Head {
    pub tip: Point,
    pub foot: usize,
    pub top: usize,
    pub bottom: usize,
}

/// Where the line of a channel meets a gate, where its texts begin there (at an outer side, where they end), and the head of the
/// path that arrives there.
#[derive(Clone, Copy)]
pub struct Meeting {
    pub x: usize,
    pub y: usize,
    pub text_x: usize,
    pub head: Head,
}

/// The line of a channel: level from its first end to its track, upright along the track, and level to its second end. Its name
/// stands at the second end, as the texts there do.
#[derive(Clone, Copy)]
pub struct ChannelLine {
    pub channel: ChannelId,
    pub first: Meeting,
    pub track: usize,
    pub second: Meeting,
    pub name: Point,
}

/// A row of the list of signals that arrive at the end of a path: those from one place of the list up to another.
#[derive(Clone, Copy)]
pub struct ListRow {
    pub channel: ChannelId,
    pub direction: Direction,
    pub from: usize,
    pub end: usize,
    pub x: usize,
    pub y: usize,
}

/// A block diagram: its size, the frames of all agents, the boxes of all gates, the lines of all channels, and the lists of signals.
#[derive(Drop)]
pub struct Drawing {
    pub width: usize,
    pub height: usize,
    /// The system's, then those of the blocks and of the sets by number.
    pub frames: Vec<Frame>,
    /// By number.
    pub gates: Vec<GateBox>,
    /// By number.
    pub channels: Vec<ChannelLine>,
    /// Channel by channel: what arrives at its first end, and then what arrives at its second.
    pub rows: Vec<ListRow>,
}
