//! How high the gates are. The ends of channels at one side of a gate stand one above the other, by the channels' numbers.
use crate::texts::{first_list, second_list};
use sdl_structure_parts::{End, Owner, Side, Structure};
use std::alloc::{AllocError, Global};

/// From the top of a gate to its first end: the gate's name, and one row of a list.
const FIRST_RISE: usize = 22;

/// From one place to the next end: one row of a list.
const NEXT_RISE: usize = 16;

/// What each further row of a list takes.
pub(crate) const ROW: usize = 13;

/// From an end to the foot of its place, for the channel's name.
const FALL: usize = 19;

/// How high the ends at the two sides of a gate are together.
#[derive(Clone, Copy)]
pub(crate) struct Columns {
    inner: usize,
    outer: usize,
}

const NO_ENDS: Columns = Columns { inner: 0, outer: 0 };

impl Columns {
    /// The height of the gate: that of the higher side.
    fn height(self) -> usize {
        self.inner.max(self.outer)
    }

    fn at(self, side: Side) -> usize {
        match side {
            Side::Inner => self.inner,
            Side::Outer => self.outer,
        }
    }

    /// Adds an end with so many rows above it, and answers how far it stands below the first.
    fn add(&mut self, side: Side, rows: usize) -> usize {
        let before = self.at(side);
        let rise = if before == 0 { FIRST_RISE } else { NEXT_RISE };
        let more = rows.saturating_sub(1).saturating_mul(ROW);
        let place = before.saturating_add(rise).saturating_add(more);
        let foot = place.saturating_add(FALL);
        match side {
            Side::Inner => self.inner = foot,
            Side::Outer => self.outer = foot,
        }
        place
    }
}

/// How far the two ends of a channel stand below the tops of their sides.
#[derive(Clone, Copy)]
pub(crate) struct Slots {
    pub first: usize,
    pub second: usize,
}

/// The columns of all gates, and the places of all ends in them.
#[derive(Drop)]
pub(crate) struct Heights {
    columns: Vec<Columns>,
    slots: Vec<Slots>,
}

impl Heights {
    /// Those of a structure. The error is that memory was refused.
    pub(crate) fn new(alloc: Global, structure: &Structure) -> Result<Heights, AllocError> {
        let mut columns = Vec::new(alloc);
        for _ in 0..structure.gates().len() {
            columns.push(NO_ENDS)?;
        }
        let mut slots = Vec::new(alloc);
        for channel in structure.channels() {
            let above_first = first_list(structure, channel).rows;
            let first = add_end(columns.as_mut_slice(), channel.first, above_first);
            let above_second = second_list(structure, channel).rows;
            let second = add_end(columns.as_mut_slice(), channel.second, above_second);
            slots.push(Slots { first, second })?;
        }
        Ok(Heights { columns, slots })
    }

    /// The places of the ends of the channel of this number.
    pub(crate) fn slots(&self, channel: usize) -> Slots {
        match self.slots.get(channel) {
            Some(slots) => *slots,
            None => Slots {
                first: 0,
                second: 0,
            },
        }
    }

    /// How far the first end at this side of a gate stands below the gate's top: the lower side is in the middle of the higher.
    pub(crate) fn lead(&self, gate: usize, side: Side) -> usize {
        match self.columns.get(gate) {
            Some(columns) => columns.height().saturating_sub(columns.at(side)) / 2,
            None => 0,
        }
    }

    /// The heights of the gates of an agent up to the one of this number, together.
    pub(crate) fn gates_before(&self, structure: &Structure, agent: Owner, end: usize) -> usize {
        let mut height: usize = 0;
        for (gate, columns) in structure
            .gates()
            .iter()
            .zip(self.columns.as_slice())
            .take(end)
        {
            if gate.owner == agent {
                height = height.saturating_add(columns.height());
            }
        }
        height
    }

    /// The heights of all gates of an agent, together.
    pub(crate) fn gates_of(&self, structure: &Structure, agent: Owner) -> usize {
        self.gates_before(structure, agent, structure.gates().len())
    }
}

/// Adds an end of a channel, with so many rows above it, to its gate.
fn add_end(columns: &mut [Columns], end: End, rows: usize) -> usize {
    match columns.get_mut(end.gate.0 as usize) {
        Some(column) => column.add(end.side, rows),
        None => 0,
    }
}
