//! The text of an offer that was broken: the set, the state and the signal, and what is not offered.
use crate::naming::{Meant, State, Way};
use crate::numbering::numbered_in;
use sdl_graph_binding::Design;
use sdl_signal::{SignalId, Sort};
use sdl_transition_behaviour::{Kind, Offer, Via};
use sdl_transition_conformance::Breach;
use std::fmt;
use std::fmt::{Display, Formatter};

/// What of the step of a transition its offer does not allow, printed as in
/// `Lamp in idle on press: its offer has no output light via any`.
#[derive(Clone, Copy)]
pub(crate) struct BrokenPart<'a> {
    pub design: &'a Design<'a>,
    pub number: u32,
    pub offer: &'a Offer,
    pub breach: Breach,
}

impl<'a> Display for BrokenPart<'a> {
    fn fmt<W: fmt::Write>(&self, f: &mut Formatter<W>) -> fmt::Result {
        self.write_transition(f)?;
        f.write_str(": ")?;
        match self.breach {
            Breach::NoInstance(_) => f.write_str(
                "its step has no case or no room, or names a Pid that no instance can have",
            ),
            Breach::Output(signal, via) => self.write_output(f, signal, via),
            Breach::Create(set) => {
                let set = self.meant(Kind::Set, set.0);
                write!(f, "its offer has no create of {set}")
            }
            Breach::NextState(state) => {
                let (design, place) = (self.design, self.place());
                let state = State {
                    design,
                    place,
                    state,
                };
                write!(f, "its offer has no next state {state}")
            }
            Breach::Stop => f.write_str("its offer may not stop"),
            Breach::Variable(place) => self.write_variable(f, place),
        }
    }
}

impl<'a> BrokenPart<'a> {
    fn meant(&self, kind: Kind, number: u32) -> Meant<'a> {
        Meant {
            design: self.design,
            kind,
            number,
        }
    }

    /// The place of the set in the design.
    fn place(&self) -> usize {
        match numbered_in(self.design.sets, self.number as usize) {
            Some((place, _)) => place,
            None => self.design.sets.len(),
        }
    }

    /// Writes the set, and the state and the signal of a row.
    fn write_transition<W: fmt::Write>(&self, f: &mut Formatter<W>) -> fmt::Result {
        let (design, place) = (self.design, self.place());
        match design.sets.get(place) {
            Some(set) => f.write_str(set.name)?,
            None => {
                let number = self.number;
                write!(f, "transition {number}")?;
            }
        }
        match (self.offer.state, &self.offer.signal) {
            (Some(state), Some(signal)) => {
                let state = State {
                    design,
                    place,
                    state,
                };
                let signal = self.meant(Kind::Signal, signal.id.0);
                write!(f, " in {state} on {signal}")
            }
            _ => f.write_str(" at its start"),
        }
    }

    fn write_output<W: fmt::Write>(
        &self,
        f: &mut Formatter<W>,
        signal: SignalId,
        via: Via,
    ) -> fmt::Result {
        let way = Way {
            design: self.design,
            via,
        };
        let name = self.meant(Kind::Signal, signal.0);
        let outputs = self.offer.outputs.as_slice();
        if outputs
            .iter()
            .any(|output| output.signal.id == signal && output.via == via)
        {
            write!(f, "its offer has other sorts for output {name} {way}")
        } else {
            write!(f, "its offer has no output {name} {way}")
        }
    }

    fn write_variable<W: fmt::Write>(&self, f: &mut Formatter<W>, place: usize) -> fmt::Result {
        match self.offer.vars.as_slice().get(place) {
            Some(sort) => {
                let sort = sort_text(*sort);
                write!(f, "variable {place} is no {sort} that can be")
            }
            None => write!(f, "its offer has no variable {place}"),
        }
    }
}

fn sort_text(sort: Sort) -> &'static str {
    match sort {
        Sort::Integer => "Integer",
        Sort::Boolean => "Boolean",
        Sort::Pid => "Pid",
    }
}
