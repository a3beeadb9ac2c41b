//! The faults of an agents file.
ghost use Rattle.std.specs.Prelude.{◌≡◌, ℕ, List};
ghost use Rattle.sdl_listing_body_text.specs.Rows.{IsWithin};
ghost use Rattle.sdl_listing_file.specs.File.{IsTextFault, IsFaultIn};

use crate::place::AgentsPlace;
use sdl_listing_body_text::{Refusal, TextFault};
use sdl_signal::SetId;
use std::alloc::{AllocError, AllocFailed};
use std::fmt;
use thiserror::Error;

/// Why a file is refused, and where: the first rule that is broken in the order of the walk.
#[derive(Clone, Copy, Debug, Error)]
pub enum AgentsFault {
    /// F1: the text is not TOML.
    NotToml,
    /// F2: a required key is absent.
    MissingKey(AgentsPlace),
    /// F3: a value, or an element of an array, of another TOML type.
    WrongType(AgentsPlace),
    /// F4: a key that the table may not have.
    UnknownKey(AgentsPlace),
    /// F5: a text that is no name, or a reserved word.
    BadName(AgentsPlace),
    /// F6: a set that has a behaviour, or a signal that a state saves twice.
    Duplicate(AgentsPlace),
    /// F7: another system, or a set or a signal that is not known.
    UnknownName(AgentsPlace),
    /// F8: a list over its limit.
    TooMany(AgentsPlace),
    /// F9: a version other than 1, or a list that is empty and may not be.
    OutOfRange(AgentsPlace),
    /// F10: memory was refused.
    Memory,
    /// A text of a list, by its position there, that breaks a rule of texts.
    Text(AgentsPlace, TextFault, AgentsText),
    /// B1: no behaviour is of the set.
    NoBehaviour(SetId),
}

/// The position of a text in its list, 0 where it is alone, and the bytes of it that the fault is at.
#[derive(Clone, Copy, Debug)]
pub struct AgentsText {
    pub item: usize,
    pub start: usize,
    pub end: usize,
}

/// The fault of a text at a place.
pub fn text_fault(place: AgentsPlace, item: usize, refusal: Refusal) -> AgentsFault
    ensures told { IsTextFault place item refusal result }
    ensures within { (text : List ℕ) → IsWithin text refusal → IsFaultIn place item text result }
{
    match refusal {
        Refusal::Memory => AgentsFault::Memory,
        Refusal::Fault { fault, start, end } => AgentsFault::Text(
            place,
            fault,
            AgentsText { item, start, end },
        ),
    }
}

/// Writes the rule, and the place where it is broken.
fn write_at<W: fmt::Write>(
    f: &mut fmt::Formatter<W>,
    rule: &str,
    place: &AgentsPlace,
) -> fmt::Result {
    write!(f, "{rule} {place}")
}

/// The code of the rule and its name, and the place as [`AgentsPlace`] is written.
impl fmt::Display for AgentsFault {
    fn fmt<W: fmt::Write>(&self, f: &mut fmt::Formatter<W>) -> fmt::Result {
        match self {
            AgentsFault::NotToml => f.write_str("F1 NotToml agents"),
            AgentsFault::MissingKey(place) => write_at(f, "F2 MissingKey", place),
            AgentsFault::WrongType(place) => write_at(f, "F3 WrongType", place),
            AgentsFault::UnknownKey(place) => write_at(f, "F4 UnknownKey", place),
            AgentsFault::BadName(place) => write_at(f, "F5 BadName", place),
            AgentsFault::Duplicate(place) => write_at(f, "F6 Duplicate", place),
            AgentsFault::UnknownName(place) => write_at(f, "F7 UnknownName", place),
            AgentsFault::TooMany(place) => write_at(f, "F8 TooMany", place),
            AgentsFault::OutOfRange(place) => write_at(f, "F9 OutOfRange", place),
            AgentsFault::Memory => f.write_str("F10 Memory"),
            AgentsFault::Text(place, fault, _) => write!(f, "{fault} {place}"),
            AgentsFault::NoBehaviour(set) => write!(f, "B1 NoBehaviour set {}", set.0),
        }
    }
}

impl<T: Drop> From<AllocFailed<T>> for AgentsFault {
    ghost use Rattle.sdl_listing_file.specs.declared.fault.AgentsFault.TheVariants.{Memory};

    ghost from_gives = { λ _ e. e ≡ Memory };

    fn from(_error: AllocFailed<T>) -> AgentsFault {
        AgentsFault::Memory
    }
}

impl From<AllocError> for AgentsFault {
    ghost use Rattle.sdl_listing_file.specs.declared.fault.AgentsFault.TheVariants.{Memory};

    ghost from_gives = { λ _ e. e ≡ Memory };

    fn from(_error: AllocError) -> AgentsFault {
        AgentsFault::Memory
    }
}
