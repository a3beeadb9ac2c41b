//! The names that a design gives to the numbers of its parts.
use sdl_graph_binding::Design;
use sdl_signal::{SetId, StateId};
use sdl_transition_behaviour::{Kind, Via};
use std::fmt;
use std::fmt::{Display, Formatter};

/// A number of a kind, printed as the name that the design means by it, and else as in `signal 7`.
#[derive(Clone, Copy)]
pub(crate) struct Meant<'a> {
    pub design: &'a Design<'a>,
    pub kind: Kind,
    pub number: u32,
}

/// The name that the design means by the number.
pub(crate) fn meant_by<'a>(design: &Design<'a>, kind: Kind, number: u32) -> Option<&'a str> {
    for used in design.uses {
        if used.0 == kind && used.1 == number {
            return Some(used.2);
        }
    }
    None
}

/// The word for a kind of numbers.
pub(crate) fn word_of(kind: Kind) -> &'static str {
    match kind {
        Kind::Signal => "signal",
        Kind::Set => "set",
        Kind::Gate => "gate",
        Kind::Channel => "channel",
    }
}

impl<'a> Display for Meant<'a> {
    fn fmt<W: fmt::Write>(&self, f: &mut Formatter<W>) -> fmt::Result {
        match meant_by(self.design, self.kind, self.number) {
            Some(name) => f.write_str(name),
            None => {
                let (word, number) = (word_of(self.kind), self.number);
                write!(f, "{word} {number}")
            }
        }
    }
}

/// A VIA, printed as in `via gate button`.
#[derive(Clone, Copy)]
pub(crate) struct Way<'a> {
    pub design: &'a Design<'a>,
    pub via: Via,
}

impl<'a> Display for Way<'a> {
    fn fmt<W: fmt::Write>(&self, f: &mut Formatter<W>) -> fmt::Result {
        let (kind, number) = match self.via {
            Via::Any => return f.write_str("via any"),
            Via::Gate(gate) => (Kind::Gate, gate.0),
            Via::Channel(channel) => (Kind::Channel, channel.0),
        };
        let word = word_of(kind);
        match meant_by(self.design, kind, number) {
            Some(name) => write!(f, "via {word} {name}"),
            None => write!(f, "via {word} {number}"),
        }
    }
}

/// A state of the set at a place of the design, printed as its text, and else as in `state 4`.
#[derive(Clone, Copy)]
pub(crate) struct State<'a> {
    pub design: &'a Design<'a>,
    pub place: usize,
    pub state: StateId,
}

impl<'a> Display for State<'a> {
    fn fmt<W: fmt::Write>(&self, f: &mut Formatter<W>) -> fmt::Result {
        let number = self.state.0;
        if let Some(set) = self.design.sets.get(self.place)
            && let Some(text) = set.states.get(number as usize)
        {
            return f.write_str(*text);
        }
        write!(f, "state {number}")
    }
}

/// The place in the design of the set that has this number in the structure, where the design names it.
pub(crate) fn place_of(design: &Design, set: SetId) -> Option<usize> {
    let name = meant_by(design, Kind::Set, set.0)?;
    for (place, own) in design.sets.iter().enumerate() {
        if own.name == name {
            return Some(place);
        }
    }
    None
}
