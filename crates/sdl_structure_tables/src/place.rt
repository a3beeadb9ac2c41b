//! The places of the structure file: the kinds of its tables, their keys, and where a table lies.
use std::fmt;

/// A kind of table of the file.
#[derive(Clone, Copy, Debug, PartialEq, Eq)]
pub enum Part {
    /// The top table.
    System,
    Signal,
    /// A gate of the system.
    Gate,
    /// A channel of the system.
    Channel,
    Block,
    BlockGate,
    BlockChannel,
    Set,
    SetGate,
}

/// A key of a table.
#[derive(Clone, Copy, Debug, PartialEq, Eq)]
pub enum Key {
    Version,
    System,
    Budget,
    Signal,
    Gate,
    Block,
    Channel,
    Name,
    Sorts,
    Inward,
    Outward,
    Set,
    Initial,
    Maximum,
    Ends,
    Forth,
    Back,
    Nodelay,
    /// A key that the table may not have.
    Other,
}

/// A key of one table of the file. `block` is the number of the block, `set` the set's position in its block, `item` the
/// position in the list that the part names. A number that means nothing for the part is 0.
#[derive(Clone, Copy, Debug, PartialEq, Eq)]
pub struct Place {
    pub part: Part,
    pub block: u32,
    pub set: u32,
    pub item: u32,
    pub key: Key,
}

/// The part, the three numbers and the key, as in `set-gate 0 1 0 inward`.
impl fmt::Display for Place {
    fn fmt<W: fmt::Write>(&self, f: &mut fmt::Formatter<W>) -> fmt::Result {
        write!(
            f,
            "{} {} {} {} {}",
            self.part.text(),
            self.block,
            self.set,
            self.item,
            self.key.text()
        )
    }
}
