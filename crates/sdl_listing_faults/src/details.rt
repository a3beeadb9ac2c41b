//! What is wrong at the place of a fault, and what is expected or near, as the second line of a fault ends.
use sdl_listing_body_text::{Named, TextFault, Wanted};
use sdl_listing_file::AgentsKey;
use sdl_signal::Sort;
use std::fmt;
use std::fmt::{Display, Formatter};

/// What is expected at the place of a fault.
#[derive(Clone, Copy)]
pub enum Expected {
    /// In a text.
    Text(Wanted),
    /// The key.
    Key(AgentsKey),
    /// What must stand at the key.
    Value(AgentsKey),
    /// What the value of the key must have.
    Range(AgentsKey),
    /// How much the list at the key may have.
    Most(AgentsKey),
}

impl Expected {
    fn text(self) -> &'static str {
        match self {
            Expected::Text(wanted) => wanted_text(wanted),
            Expected::Key(key) => key.text(),
            Expected::Value(key) => type_text(key),
            Expected::Range(key) => range_text(key),
            Expected::Most(key) => most_text(key),
        }
    }
}

/// What has a name that is unknown.
#[derive(Clone, Copy)]
pub enum Kind {
    Key,
    Named(Named),
}

impl Kind {
    fn text(self) -> &'static str {
        match self {
            Kind::Key => "key",
            Kind::Named(kind) => kind_text(kind),
        }
    }
}

/// What is said of a fault beside its name and its place.
#[derive(Clone, Copy)]
pub enum Detail<'a> {
    Nothing,
    /// This is so.
    Reason(&'a str),
    /// This is expected.
    Expected(Expected),
    /// Nothing of this kind has the name of the word, and another name may be near.
    Unknown(Kind, &'a str, Option<&'a str>),
    /// The word is there already.
    There(&'a str),
    /// The word is no name, or is reserved.
    NoName(&'a str),
    /// The structure is of the system of this name.
    System(&'a str),
    /// The signal has so many parameters.
    Count(usize),
    Sorts { found: Sort, wanted: Sort },
}

impl Display for Detail<'_> {
    fn fmt<W: fmt::Write>(&self, f: &mut Formatter<W>) -> fmt::Result {
        match *self {
            Detail::Nothing => Ok(()),
            Detail::Reason(text) => write!(f, ": {text}"),
            Detail::Expected(what) => {
                let what = what.text();
                write!(f, ": {what} is expected")
            }
            Detail::Unknown(kind, word, near) => write_unknown(f, kind.text(), word, near),
            Detail::There(word) => write!(f, ": {word} is there already"),
            Detail::NoName(word) => write!(f, ": {word} is no name"),
            Detail::System(name) => write!(f, ": the system is {name}"),
            Detail::Count(count) => write!(f, ": the signal has {count}"),
            Detail::Sorts { found, wanted } => {
                let found = sort_text(found);
                let wanted = sort_text(wanted);
                write!(f, ": {found} is found, and {wanted} is expected")
            }
        }
    }
}

fn write_unknown<W: fmt::Write>(
    f: &mut Formatter<W>,
    kind: &str,
    word: &str,
    near: Option<&str>,
) -> fmt::Result {
    write!(f, ": no {kind} {word}")?;
    match near {
        Some(name) => write!(f, "; {name} is near"),
        None => Ok(()),
    }
}

fn sort_text(sort: Sort) -> &'static str {
    match sort {
        Sort::Integer => "Integer",
        Sort::Boolean => "Boolean",
        Sort::Pid => "Pid",
    }
}

/// What is said of a fault in a text, at this word, where names are near.
pub fn detail_of<'a>(fault: TextFault, word: &'a str, near: Option<&'a str>) -> Detail<'a> {
    match fault {
        TextFault::Expected(wanted) => Detail::Expected(Expected::Text(wanted)),
        TextFault::UnknownName(kind) => Detail::Unknown(Kind::Named(kind), word, near),
        TextFault::WrongCount(count) => Detail::Count(count),
        TextFault::WrongSort { found, wanted } => Detail::Sorts { found, wanted },
        TextFault::TakenName | TextFault::TwoRows => Detail::There(word),
        TextFault::BadByte => Detail::Reason("no token has this character"),
        TextFault::BadInteger => Detail::Reason("no Integer is written so"),
        TextFault::TooDeep => Detail::Reason("16 braces and brackets are open already"),
        TextFault::TooLong => Detail::Reason("512 parts stand before it"),
        TextFault::NoEnd => Detail::Reason("next or stop is expected"),
        TextFault::NeverReached => Detail::Reason("each way has ended before it"),
        TextFault::ManyActions => Detail::Reason("8 outputs and creates are on one way already"),
        TextFault::ManyOffered => Detail::Reason(
            "16 different outputs and 8 created sets are the most",
        ),
        TextFault::EarlyOffspring => Detail::Reason("a create stands before it"),
        TextFault::NotOutward => Detail::Reason("no gate lets the signal out here"),
        TextFault::CreateElsewhere => Detail::Reason("the set is in another block"),
        TextFault::ManyRows => Detail::Reason("the set has 256 rows already"),
    }
}

fn kind_text(kind: Named) -> &'static str {
    match kind {
        Named::Signal => "signal",
        Named::Set => "set",
        Named::State => "state",
        Named::Gate => "gate",
        Named::Channel => "channel",
        Named::Variable => "variable",
        Named::Value => "value",
        Named::Constant => "constant",
        Named::Sort => "sort",
    }
}

fn wanted_text(wanted: Wanted) -> &'static str {
    match wanted {
        Wanted::Sign(sign) => sign.text(),
        Wanted::Word(word) => word.text(),
        Wanted::Signal => "a signal",
        Wanted::Set => "a set",
        Wanted::State => "a state",
        Wanted::Gate => "a gate",
        Wanted::Channel => "a channel",
        Wanted::Name => "a name",
        Wanted::Sort => "a sort",
        Wanted::Value => "a value",
        Wanted::Literal => "a number, true or false",
        Wanted::Statement => "a statement",
        Wanted::Separator => "; or a new line",
        Wanted::End => "the end",
    }
}

/// What must stand at a key of the agents file.
fn type_text(key: AgentsKey) -> &'static str {
    match key {
        AgentsKey::Version => "an integer",
        AgentsKey::System | AgentsKey::Start => "a text",
        AgentsKey::Behaviour | AgentsKey::State => "a list of tables",
        _ => "a list of texts",
    }
}

/// What a key with a rule for its value must have.
fn range_text(key: AgentsKey) -> &'static str {
    match key {
        AgentsKey::Version => "version 1",
        _ => "one at least",
    }
}

/// How long the list at a key with a limit may be.
fn most_text(key: AgentsKey) -> &'static str {
    match key {
        AgentsKey::Variables => "a list of 8 at most",
        AgentsKey::Names => "a list of 16 states at most",
        AgentsKey::Constants | AgentsKey::State => "a list of 256 at most",
        _ => "a list of 64 at most",
    }
}
