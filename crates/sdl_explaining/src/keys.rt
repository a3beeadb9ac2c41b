//! The keys of a structure file, by their texts, and what each takes.
use sdl_structure::{Key, Part};

/// All keys that a table may have.
const KEYS: [Key; 18] = [
    Key::Version,
    Key::System,
    Key::Budget,
    Key::Signal,
    Key::Gate,
    Key::Block,
    Key::Channel,
    Key::Name,
    Key::Sorts,
    Key::Inward,
    Key::Outward,
    Key::Set,
    Key::Initial,
    Key::Maximum,
    Key::Ends,
    Key::Forth,
    Key::Back,
    Key::Nodelay,
];

/// The key that is written so.
pub(crate) fn key_named(text: &str) -> Key {
    for key in KEYS {
        if key.text() == text {
            return key;
        }
    }
    Key::Other
}

/// The keys that a table of this part may have; a block has blocks in it in version 2 alone.
pub(crate) fn keys_of(part: Part, nests: bool) -> &'static [Key] {
    match part {
        Part::System => &[
            Key::Version,
            Key::System,
            Key::Budget,
            Key::Signal,
            Key::Gate,
            Key::Block,
            Key::Channel,
        ],
        Part::Signal => &[Key::Name, Key::Sorts],
        Part::Gate | Part::BlockGate | Part::SetGate => &[Key::Name, Key::Inward, Key::Outward],
        Part::Block => {
            if nests {
                &[Key::Name, Key::Gate, Key::Set, Key::Block, Key::Channel]
            } else {
                &[Key::Name, Key::Gate, Key::Set, Key::Channel]
            }
        }
        Part::Set => &[Key::Name, Key::Initial, Key::Maximum, Key::Gate],
        Part::Channel | Part::BlockChannel => {
            &[Key::Name, Key::Ends, Key::Forth, Key::Back, Key::Nodelay]
        }
    }
}

/// What a key takes.
#[derive(Clone, Copy, PartialEq, Eq)]
pub(crate) enum Takes {
    Number,
    Text,
    Flag,
    Texts,
    Tables,
}

impl Takes {
    /// What this key takes.
    pub(crate) fn of(key: Key) -> Takes {
        match key {
            Key::Version | Key::Budget | Key::Initial | Key::Maximum => Takes::Number,
            Key::Nodelay => Takes::Flag,
            Key::Sorts | Key::Inward | Key::Outward | Key::Ends | Key::Forth | Key::Back => {
                Takes::Texts
            }
            Key::Signal | Key::Gate | Key::Block | Key::Channel | Key::Set => Takes::Tables,
            Key::System | Key::Name | Key::Other => Takes::Text,
        }
    }

    pub(crate) fn text(self) -> &'static str {
        match self {
            Takes::Number => "an integer",
            Takes::Text => "a text",
            Takes::Flag => "true or false",
            Takes::Texts => "a list of texts",
            Takes::Tables => "a list of tables",
        }
    }
}
