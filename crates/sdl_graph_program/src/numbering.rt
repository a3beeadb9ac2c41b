//! Which set a transition of a graph is of.
ghost use Rattle.std.specs.Prelude.{◌<◌, length, IfSome, IfNone};
ghost use Rattle.sdl_graph_program.specs.Numbering.{IsNumberedIn, IsPastAll};

use crate::faults::set_name;
use sdl_graph_binding::{Design, SetDesign};
use std::fmt;
use std::fmt::{Display, Formatter};

/// The place of the set that has the transition of this number, where the transitions are counted through. With it comes the
/// number of the transition in that set, of which 0 is the start.
pub fn numbered_in(sets: &[SetDesign], number: usize) -> Option<(usize, usize)>
    ensures found { IfSome result (λ r. IsNumberedIn sets.now number r.0 r.1) }
    ensures within { IfSome result (λ r. r.0 < length sets.now) }
    ensures none { IfNone result (IsPastAll sets.now number) }
{
    match sets {
        [] => None,
        [set, ..] if number < set.transitions => Some((0, number)),
        [set, rest @ ..] => {
            let (place, own) = numbered_in(rest, number - set.transitions)?;
            Some((place + 1, own))
        }
    }
}

/// A transition of a graph, printed with its set and its row there, as `0 (Lamp start)` and `3 (Flash row 1)`.
#[derive(Clone, Copy)]
pub struct Numbered<'a> {
    pub design: &'a Design<'a>,
    pub number: u32,
}

impl<'a> Display for Numbered<'a> {
    fn fmt<W: fmt::Write>(&self, f: &mut Formatter<W>) -> fmt::Result {
        let number = self.number;
        let Some((place, own)) = numbered_in(self.design.sets, number as usize) else {
            return write!(f, "{number}");
        };
        let name = set_name(self.design, place);
        if own == 0 {
            write!(f, "{number} ({name} start)")
        } else {
            write!(f, "{number} ({name} row {own})")
        }
    }
}
