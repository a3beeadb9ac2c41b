//! The keys of the structure file: how each is written, where it may stand and what it may hold.
ghost use Rattle.std.specs.Prelude.{◌≡◌, ◌↔◌, ◌≤ℤ◌, IsTrue};
ghost use Rattle.sdl_structure_tables.specs.Keys.{part_text, key_text, keys_of, gate_keys, channel_keys, is_required, is_over, least_of, greatest_of};
ghost use Rattle.sdl_structure_tables.specs.Places.{part_inside, inside, block_place};

use crate::place::{Key, Part, Place};
use crate::version::Version;
use sdl_structure_parts::limits::{
    MOST_BUDGET, MOST_GATES, MOST_INSTANCES, MOST_PARAMETERS, MOST_SIGNALS,
};

impl Part {
    /// The part as the text of a fault names it, as `block-gate`.
    pub fn text(self) -> &'static str
        ensures { result.now ≡ part_text self }
    {
        match self {
            Part::System => "system",
            Part::Signal => "signal",
            Part::Gate => "gate",
            Part::Channel => "channel",
            Part::Block => "block",
            Part::BlockGate => "block-gate",
            Part::BlockChannel => "block-channel",
            Part::Set => "set",
            Part::SetGate => "set-gate",
        }
    }

    /// The keys that a table of this part may have, in the order of the walk.
    pub(crate) fn keys(self, version: Version) -> &'static [Key]
        ensures { result.now ≡ keys_of version self }
    {
        match self {
            Part::System => &[
                Key::Version,
                Key::System,
                Key::Budget,
                Key::Signal,
                Key::Gate,
                Key::Block,
                Key::Channel,
            ],
            Part::Signal => &[Key::Name, Key::Sorts],
            Part::Gate | Part::BlockGate | Part::SetGate => &[Key::Name, Key::Inward, Key::Outward],
            Part::Block => match version {
                Version::One => &[Key::Name, Key::Gate, Key::Set, Key::Channel],
                Version::Two => &[Key::Name, Key::Gate, Key::Set, Key::Block, Key::Channel],
            },
            Part::Set => &[Key::Name, Key::Initial, Key::Maximum, Key::Gate],
            Part::Channel | Part::BlockChannel => &[
                Key::Name,
                Key::Ends,
                Key::Forth,
                Key::Back,
                Key::Nodelay,
            ],
        }
    }

    /// The part of the tables in the list at a key.
    fn inside(self, key: Key) -> Part
        ensures { result ≡ part_inside self key }
    {
        match (self, key) {
            (Part::System, Key::Signal) => Part::Signal,
            (Part::System, Key::Gate) => Part::Gate,
            (Part::System, Key::Channel) => Part::Channel,
            (Part::Block, Key::Gate) => Part::BlockGate,
            (Part::Block, Key::Set) => Part::Set,
            (Part::Block, Key::Channel) => Part::BlockChannel,
            (Part::Set, Key::Gate) => Part::SetGate,
            _ => self,
        }
    }
}

impl Place {
    /// The place of the block of this number.
    pub(crate) fn of_block(number: u32) -> Place
        ensures { result ≡ block_place number }
    {
        Place {
            part: Part::Block,
            block: number,
            set: 0,
            item: 0,
            key: Key::Other,
        }
    }

    /// The place of a table in the list at a key of the table at this place, other than a block.
    pub(crate) fn inside(self, key: Key, index: u32) -> Place
        ensures { result ≡ inside self key index }
    {
        let part = self.part.inside(key);
        match key {
            Key::Set => Place {
                part,
                set: index,
                key: Key::Other,
                ..self
            },
            _ => Place {
                part,
                item: index,
                key: Key::Other,
                ..self
            },
        }
    }
}

impl Key {
    /// The key as the file writes it; a key that a table may not have is `other`.
    pub fn text(self) -> &'static str
        ensures { result.now ≡ key_text self }
    {
        match self {
            Key::Version => "version",
            Key::System => "system",
            Key::Budget => "budget",
            Key::Signal => "signal",
            Key::Gate => "gate",
            Key::Block => "block",
            Key::Channel => "channel",
            Key::Name => "name",
            Key::Sorts => "sorts",
            Key::Inward => "inward",
            Key::Outward => "outward",
            Key::Set => "set",
            Key::Initial => "initial",
            Key::Maximum => "maximum",
            Key::Ends => "ends",
            Key::Forth => "forth",
            Key::Back => "back",
            Key::Nodelay => "nodelay",
            Key::Other => "other",
        }
    }

    /// Tells whether a table that may have the key must have it, whatever it is of.
    pub(crate) fn is_required(self) -> bool
        ensures { result ≡ is_required self }
    {
        match self {
            Key::Version | Key::System | Key::Name | Key::Ends => true,
            _ => false,
        }
    }

    /// The least number that the key may hold.
    fn least(self) -> i64
        ensures { result ≡ least_of self }
    {
        match self {
            Key::Version | Key::Budget | Key::Maximum => 1,
            _ => 0,
        }
    }

    /// The greatest number that the key may hold.
    fn greatest(self) -> i64
        ensures { result ≡ greatest_of self }
    {
        match self {
            Key::Version => 2,
            Key::Budget => MOST_BUDGET,
            Key::Initial | Key::Maximum => MOST_INSTANCES,
            _ => 0,
        }
    }

    /// Tells whether the key may hold the number.
    pub(crate) fn allows(self, number: i64) -> bool
        ensures { IsTrue result ↔ ((least_of self ≤ℤ number) × (number ≤ℤ greatest_of self)) }
    {
        self.least() <= number && number <= self.greatest()
    }

    /// Tells whether that many elements are more than the key's array may have.
    pub(crate) fn is_over(self, len: usize) -> bool
        ensures { result ≡ is_over self len }
    {
        match self {
            Key::Signal => len > MOST_SIGNALS,
            Key::Gate => len > MOST_GATES,
            Key::Sorts => len > MOST_PARAMETERS,
            _ => false,
        }
    }
}
