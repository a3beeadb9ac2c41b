//! The faults of a text.
ghost use Rattle.std.specs.Prelude.{◌≡◌};

use sdl_listing_tokens::{Reserved, Sign};
use sdl_signal::Sort;
use std::alloc::{AllocError, AllocFailed};
use std::fmt;
use thiserror::Error;

/// What a text needs at a place where it has something else.
#[derive(Clone, Copy, Debug)]
pub enum Wanted {
    Sign(Sign),
    Word(Reserved),
    Signal,
    Set,
    State,
    Gate,
    Channel,
    /// A name of at most 32 bytes.
    Name,
    Sort,
    Value,
    /// A number, `true` or `false`, or a constant.
    Literal,
    Statement,
    /// A semicolon or a new line.
    Separator,
    End,
}

/// What a name was looked up as.
#[derive(Clone, Copy, Debug)]
pub enum Named {
    Signal,
    Set,
    State,
    Gate,
    Channel,
    Variable,
    Value,
    Constant,
    Sort,
}

/// A rule that a text breaks. (This project's own.)
#[derive(Clone, Copy, Debug, Error)]
pub enum TextFault {
    /// T1: a byte that no token has.
    BadByte,
    /// T2: another token is needed.
    Expected(Wanted),
    /// T3: nothing of this kind has the name.
    UnknownName(Named),
    /// T4: the name has another meaning.
    TakenName,
    /// T5: leading zeros, `-0`, or out of the range of an Integer.
    BadInteger,
    /// T6: more or fewer parameters than the signal has, which are so many.
    WrongCount(usize),
    /// T7: a value of another sort.
    WrongSort { found: Sort, wanted: Sort },
    /// T8: more than 16 open braces and brackets.
    TooDeep,
    /// T9: more than 512 statements, operators and primaries.
    TooLong,
    /// T10: a way comes to the end without `next` or `stop`.
    NoEnd,
    /// T11: something stands behind `next` or `stop`.
    NeverReached,
    /// T12: more than 8 outputs and creates on one way.
    ManyActions,
    /// T13: more than 16 pairs of a signal and a VIA, or more than 8 sets.
    ManyOffered,
    /// T14: OFFSPRING behind a create, and not alone behind `to`.
    EarlyOffspring,
    /// T15: no gate of the set lets the signal out, or the one of VIA does not.
    NotOutward,
    /// T16: the set lies in another block.
    CreateElsewhere,
    /// T17: the state has the signal already, as a row or a save.
    TwoRows,
    /// T18: more than 256 rows of a set.
    ManyRows,
}

impl TextFault {
    /// How the rule is told.
    fn text(self) -> &'static str {
        match self {
            TextFault::BadByte => "T1 BadByte",
            TextFault::Expected(_) => "T2 Expected",
            TextFault::UnknownName(_) => "T3 UnknownName",
            TextFault::TakenName => "T4 TakenName",
            TextFault::BadInteger => "T5 BadInteger",
            TextFault::WrongCount(_) => "T6 WrongCount",
            TextFault::WrongSort { .. } => "T7 WrongSort",
            TextFault::TooDeep => "T8 TooDeep",
            TextFault::TooLong => "T9 TooLong",
            TextFault::NoEnd => "T10 NoEnd",
            TextFault::NeverReached => "T11 NeverReached",
            TextFault::ManyActions => "T12 ManyActions",
            TextFault::ManyOffered => "T13 ManyOffered",
            TextFault::EarlyOffspring => "T14 EarlyOffspring",
            TextFault::NotOutward => "T15 NotOutward",
            TextFault::CreateElsewhere => "T16 CreateElsewhere",
            TextFault::TwoRows => "T17 TwoRows",
            TextFault::ManyRows => "T18 ManyRows",
        }
    }
}

/// The code of the rule and its name.
impl fmt::Display for TextFault {
    fn fmt<W: fmt::Write>(&self, f: &mut fmt::Formatter<W>) -> fmt::Result {
        f.write_str(self.text())
    }
}

/// A fault at a token, by how many tokens are left from it on: none at the end of the text.
#[derive(Clone, Copy)]
pub struct Fault {
    pub fault: TextFault,
    pub left: usize,
}

/// Why the reading of tokens stopped.
#[derive(Clone, Copy)]
pub enum Stopped {
    Memory,
    Fault(Fault),
}

impl<T: Drop> From<AllocFailed<T>> for Stopped {
    ghost use Rattle.sdl_listing_expression_text.specs.declared.fault.Stopped.TheVariants.{Memory};

    ghost from_gives = { λ _ e. e ≡ Memory };

    fn from(_error: AllocFailed<T>) -> Stopped {
        Stopped::Memory
    }
}

impl From<AllocError> for Stopped {
    ghost use Rattle.sdl_listing_expression_text.specs.declared.fault.Stopped.TheVariants.{Memory};

    ghost from_gives = { λ _ e. e ≡ Memory };

    fn from(_error: AllocError) -> Stopped {
        Stopped::Memory
    }
}
