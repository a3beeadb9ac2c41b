//! The versions of the structure file.
ghost use Rattle.std.specs.Prelude.{◌≡◌};
ghost use Rattle.sdl_structure_tables.specs.Versions.{most_blocks, version_said};

use sdl_structure_parts::limits::{MOST_BLOCKS, MOST_BLOCKS_OF_VERSION_1};

/// A version of the structure file. In one of version 2 there may be blocks in blocks.
#[derive(Clone, Copy, Debug, PartialEq, Eq)]
pub enum Version {
    One,
    Two,
}

impl Version {
    /// The version of a file that says this number: the first where there is no such version, which then refuses the number.
    pub(crate) fn said(number: i64) -> Version
        ensures { result ≡ version_said number }
    {
        if number == 2 {
            Version::Two
        } else {
            Version::One
        }
    }

    /// The most blocks of a file.
    pub fn most_blocks(self) -> usize
        ensures { result ≡ most_blocks self }
    {
        match self {
            Version::One => MOST_BLOCKS_OF_VERSION_1,
            Version::Two => MOST_BLOCKS,
        }
    }
}
