//! Where the tables of a structure file lie, and what is written in them.
use crate::keys::key_named;
use sdl_explaining_places::{Layout, Said, Table};
use sdl_listing_tokens::position_of;
use sdl_structure::{Key, Part, Place};
use std::alloc::{AllocError, Global};

/// A place of the file; how deep in blocks its table lies; and, of a block, the number of the block in which it lies.
#[derive(Clone, Copy)]
pub(crate) struct Spot {
    pub place: Place,
    pub depth: u32,
    pub around: Option<u32>,
}

impl Spot {
    /// The top table.
    fn top() -> Spot {
        let place = Place {
            part: Part::System,
            block: 0,
            set: 0,
            item: 0,
            key: Key::Other,
        };
        Spot {
            place,
            depth: 0,
            around: None,
        }
    }

    /// The same at a key of the table.
    fn at(self, key: Key) -> Spot {
        let place = Place { key, ..self.place };
        Spot { place, ..self }
    }

    /// A table in the list at a key of this one, by its position there. A block has the next number of all blocks.
    fn inside(self, key: Key, index: u32, next_block: u32) -> Option<Spot> {
        let part = match (self.place.part, key) {
            (Part::System, Key::Signal) => Part::Signal,
            (Part::System, Key::Gate) => Part::Gate,
            (Part::System, Key::Channel) => Part::Channel,
            (Part::Block, Key::Gate) => Part::BlockGate,
            (Part::Block, Key::Channel) => Part::BlockChannel,
            (Part::Set, Key::Gate) => Part::SetGate,
            (Part::Block, Key::Set) => return Some(self.set_inside(index)),
            (Part::System, Key::Block) => return Some(self.block_inside(next_block, None)),
            (Part::Block, Key::Block) => {
                return Some(self.block_inside(next_block, Some(self.place.block)));
            }
            _ => return None,
        };
        let place = Place {
            part,
            item: index,
            key: Key::Other,
            ..self.place
        };
        Some(Spot { place, ..self })
    }

    fn set_inside(self, index: u32) -> Spot {
        let place = Place {
            part: Part::Set,
            set: index,
            key: Key::Other,
            ..self.place
        };
        Spot { place, ..self }
    }

    /// The block of this number in this table.
    fn block_inside(self, number: u32, around: Option<u32>) -> Spot {
        let place = Place {
            part: Part::Block,
            block: number,
            set: 0,
            item: 0,
            key: Key::Other,
        };
        Spot {
            place,
            depth: self.depth.saturating_add(1),
            around,
        }
    }
}

/// The spot of each table, by its number. None for a table that no structure has.
pub(crate) fn spots_of(alloc: Global, layout: &Layout) -> Result<Vec<Option<Spot>>, AllocError> {
    let mut spots = Vec::new(alloc);
    let mut blocks: u32 = 0;
    for table in layout.tables.as_slice() {
        let spot = spot_of(layout, spots.as_slice(), table, blocks);
        if is_block(spot) {
            blocks = blocks.saturating_add(1);
        }
        spots.push(spot)?;
    }
    Ok(spots)
}

/// The spot of a table, where those before it have these, and so many of them are blocks.
fn spot_of(layout: &Layout, spots: &[Option<Spot>], table: &Table, blocks: u32) -> Option<Spot> {
    match table.around {
        None => Some(Spot::top()),
        Some(around) => {
            let around = spot_at(spots, around)?;
            let key = key_named(layout.key_text(table.key));
            around.inside(key, table.index, blocks)
        }
    }
}

fn is_block(spot: Option<Spot>) -> bool {
    match spot {
        Some(spot) => spot.place.part == Part::Block,
        None => false,
    }
}

fn spot_at(spots: &[Option<Spot>], number: usize) -> Option<Spot> {
    match spots.get(number) {
        Some(spot) => *spot,
        None => None,
    }
}

/// The head of a table, behind so many bytes of the file.
#[derive(Clone, Copy)]
pub(crate) struct Head {
    pub spot: Spot,
    pub at: usize,
}

/// What is written at a place, behind so many bytes of the file.
#[derive(Clone, Copy)]
pub(crate) struct WrittenAt<'a> {
    pub spot: Spot,
    pub said: &'a Said,
    pub at: usize,
}

impl<'a> WrittenAt<'a> {
    pub(crate) fn place(&self) -> Place {
        self.spot.place
    }

    /// The text that is a value here.
    pub(crate) fn value(&self) -> Option<&'a str> {
        match self.said {
            Said::Text(text) => Some(text.as_str()),
            _ => None,
        }
    }

    /// The text of a key that is written here.
    pub(crate) fn key(&self) -> Option<&'a str> {
        match self.said {
            Said::Key(text) => Some(text.as_str()),
            _ => None,
        }
    }
}

/// The heads of the tables that a structure may have, in the order of the file.
pub(crate) fn heads_of(
    alloc: Global,
    layout: &Layout,
    spots: &[Option<Spot>],
) -> Result<Vec<Head>, AllocError> {
    let mut heads = Vec::new(alloc);
    for (number, table) in layout.tables.as_slice().iter().enumerate() {
        if let Some(spot) = spot_at(spots, number) {
            let at = table.at;
            heads.push(Head { spot, at })?;
        }
    }
    Ok(heads)
}

/// What is written in them, in the order of the file.
pub(crate) fn writings_of<'a>(
    alloc: Global,
    layout: &'a Layout,
    spots: &[Option<Spot>],
) -> Result<Vec<WrittenAt<'a>>, AllocError> {
    let mut writings = Vec::new(alloc);
    for writing in layout.writings.as_slice() {
        if let Some(table) = spot_at(spots, writing.table) {
            let spot = table.at(key_named(layout.key_text(writing.key)));
            let (said, at) = (&writing.said, writing.at);
            writings.push(WrittenAt { spot, said, at })?;
        }
    }
    Ok(writings)
}

/// The line behind so many bytes of the file.
pub(crate) fn line_at(file: &[u8], at: usize) -> usize {
    position_of(file, at.min(file.len())).line
}
