//! The text of the part of a design that does not fit the structure.
use crate::naming::{Meant, State, place_of, word_of};
use crate::numbering::Numbered;
use sdl_graph_binding::{Design, Misfit};
use sdl_signal::{SetId, StateId};
use sdl_transition_behaviour::Kind;
use std::fmt;
use std::fmt::{Display, Formatter};

/// A part of a design that has a fault of binding, of the set of this number, printed as in
/// `transition 1 (Lamp row 1): gate hand is not one of Lamp`.
#[derive(Clone, Copy)]
pub(crate) struct MisfitPart<'a> {
    pub design: &'a Design<'a>,
    pub set: SetId,
    pub misfit: Misfit,
}

impl<'a> Display for MisfitPart<'a> {
    fn fmt<W: fmt::Write>(&self, f: &mut Formatter<W>) -> fmt::Result {
        match self.misfit {
            Misfit::Named(kind, number) => {
                let (word, meant) = (word_of(kind), self.meant(kind, number));
                write!(
                    f,
                    "{word} {number} is {meant} here, and has another name in the file"
                )
            }
            Misfit::Absent(kind, number) => {
                let (word, meant) = (word_of(kind), self.meant(kind, number));
                write!(f, "{word} {number} is {meant} here, and is not in the file")
            }
            Misfit::Unmeant(kind, number) => write_unused(f, kind, number),
            Misfit::SavingState(state) => {
                let number = state.0;
                write!(f, "state {number} saves, and is past the list of states")
            }
            Misfit::InitialPid(place) => write!(f, "variable {place} is a Pid other than Null"),
            Misfit::TwoRows(state, signal) => {
                let (state, signal) = (self.state(state), self.meant(Kind::Signal, signal.0));
                write!(f, "two rows for {state} and {signal}")
            }
            Misfit::SavedTwice(state, signal) => {
                let (state, signal) = (self.state(state), self.meant(Kind::Signal, signal.0));
                write!(f, "{state} saves {signal}, and has it once more")
            }
            Misfit::Unused(number, ..)
            | Misfit::Sets(number, _)
            | Misfit::Output(number, _)
            | Misfit::OtherGate(number, ..)
            | Misfit::Gate(number, ..)
            | Misfit::State(number, _)
            | Misfit::Signal(number, _)
            | Misfit::Variables(number)
            | Misfit::Create(number, _) => {
                let design = self.design;
                let transition = Numbered { design, number };
                write!(f, "transition {transition}: ")?;
                self.write_of_transition(f)
            }
        }
    }
}

impl<'a> MisfitPart<'a> {
    fn meant(&self, kind: Kind, number: u32) -> Meant<'a> {
        Meant {
            design: self.design,
            kind,
            number,
        }
    }

    fn state(&self, state: StateId) -> State<'a> {
        let design = self.design;
        let place = match place_of(design, self.set) {
            Some(place) => place,
            None => design.sets.len(),
        };
        State {
            design,
            place,
            state,
        }
    }

    /// Writes what is wrong in a transition.
    fn write_of_transition<W: fmt::Write>(&self, f: &mut Formatter<W>) -> fmt::Result {
        let own = self.meant(Kind::Set, self.set.0);
        match self.misfit {
            Misfit::Unused(_, kind, number) => write_unused(f, kind, number),
            Misfit::Sets(_, sets) => write!(f, "its offer says {sets} sets"),
            Misfit::Output(_, signal) => {
                let signal = self.meant(Kind::Signal, signal.0);
                write!(f, "no gate of {own} has {signal} outward")
            }
            Misfit::OtherGate(_, signal, gate) => {
                let signal = self.meant(Kind::Signal, signal.0);
                let (gate, number) = (self.meant(Kind::Gate, gate.0), gate.0);
                write!(
                    f,
                    "{signal} via gate {number}, {gate}, which is none of {own}"
                )
            }
            Misfit::Gate(_, signal, gate) => {
                let signal = self.meant(Kind::Signal, signal.0);
                let (gate, number) = (self.meant(Kind::Gate, gate.0), gate.0);
                write!(f, "gate {number}, {gate}, does not have {signal} outward")
            }
            Misfit::State(_, state) => {
                let number = state.0;
                write!(f, "state {number} is past the list of states")
            }
            Misfit::Signal(_, signal) => {
                let signal = self.meant(Kind::Signal, signal.0);
                write!(f, "{signal} has other sorts in the file")
            }
            Misfit::Variables(_) => f.write_str("its offer has other sorts than the variables"),
            Misfit::Create(_, set) => {
                let set = self.meant(Kind::Set, set.0);
                write!(f, "{set} lies in another block than {own}")
            }
            _ => Ok(()),
        }
    }
}

fn write_unused<W: fmt::Write>(f: &mut Formatter<W>, kind: Kind, number: u32) -> fmt::Result {
    let word = word_of(kind);
    write!(f, "{word} {number} is not among the uses")
}
