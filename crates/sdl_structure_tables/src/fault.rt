//! The faults of a structure file.
ghost use Rattle.std.specs.Prelude.{◌≡◌};

use super::place::Place;
use std::alloc::{AllocError, AllocFailed};
use thiserror::Error;

/// Why a file is refused, and where: the first rule that is broken in the order of the walk (docs/FORMATS.md).
#[derive(Clone, Copy, Debug, PartialEq, Eq, Error)]
pub enum FileFault {
    /// F1: the text is not TOML.
    #[error("F1 NotToml")]
    NotToml,
    /// F2: a required key is absent.
    #[error("F2 MissingKey {0}")]
    MissingKey(Place),
    /// F3: a value, or an element of an array, of another TOML type.
    #[error("F3 WrongType {0}")]
    WrongType(Place),
    /// F4: a key that the table may not have.
    #[error("F4 UnknownKey {0}")]
    UnknownKey(Place),
    /// F5: a text that is no name, or an end without exactly one dot.
    #[error("F5 BadName {0}")]
    BadName(Place),
    /// F6: a name that is taken, or a signal that stands twice in a list.
    #[error("F6 Duplicate {0}")]
    Duplicate(Place),
    /// F7: a signal, a sort or an end that is not known.
    #[error("F7 UnknownName {0}")]
    UnknownName(Place),
    /// F8: a list over its limit.
    #[error("F8 TooMany {0}")]
    TooMany(Place),
    /// F9: a number out of its range, a required list that is empty, or ends that are not two.
    #[error("F9 OutOfRange {0}")]
    OutOfRange(Place),
    /// F10: memory was refused.
    #[error("F10 Memory")]
    Memory,
}

impl<T: Drop> From<AllocFailed<T>> for FileFault {
    ghost use Rattle.sdl_structure_tables.specs.declared.fault.FileFault.TheVariants.{Memory};

    ghost from_gives = { λ _ e. e ≡ Memory };

    fn from(_error: AllocFailed<T>) -> FileFault {
        FileFault::Memory
    }
}

impl From<AllocError> for FileFault {
    ghost use Rattle.sdl_structure_tables.specs.declared.fault.FileFault.TheVariants.{Memory};

    ghost from_gives = { λ _ e. e ≡ Memory };

    fn from(_error: AllocError) -> FileFault {
        FileFault::Memory
    }
}
