//! The agents that a listing says.
ghost use Rattle.sdl_transition_behaviour.specs.Offers.{IsFrameOf, Conforms};
ghost use Rattle.sdl_listing_body.specs.Doing.{IsStepOf};
ghost use Rattle.sdl_listing_body.specs.Offering.{offer_of};
ghost use Rattle.sdl_listing_body.specs.Sound.{IsSound};

use crate::bending::BentValues;
use sdl_listing_body::{Row, fill};
use sdl_transition_behaviour::{Agents, Frame, Step};
use std::marker::{Brand, PhantomData};

/// The rows of a listing, by number: of each set in its order the start and then its rows. They are known once the file is read.
/// So a type stands for them where a contract says by which agents a system is run.
pub trait Listing {
    ghost use Rattle.std.specs.Prelude.{List};
    ghost use Rattle.sdl_listing_body.specs.declared.syntax.Row.{Row as ARow};

    ghost rows: { List ARow };
}

impl Listing for Brand {
    ghost use Rattle.std.specs.Prelude.{[]};

    ghost rows = { [] };
}

/// The agents that a listing says: a step is what the row of the transition's number says for the frame.
#[derive(Drop)]
pub struct FileAgents<K> {
    listing: PhantomData<K>,
}

impl<K: Listing> Agents for FileAgents<K> {
    ghost use Rattle.sdl_listing_binding.specs.Answers.{IsAnswerIn};

    ghost may = { λ number frame step. IsAnswerIn K.rows number frame step };
}

/// What answers the frames of one transition: its number, its row, and its share of the bent values.
#[derive(Drop)]
pub struct Answering {
    pub number: u32,
    pub row: Row,
    pub bent: BentValues,
}

impl Answering {
    /// What the row says for the frame. An answer in which a value was bent is marked. No memory is taken.
    pub fn answer(&self, frame: &Frame) -> Step
        requires sound { IsSound self.now.row }
        requires frame { IsFrameOf (offer_of self.now.row) frame.now }
        ensures step { IsStepOf self.now.row frame.now result }
        ensures conforms { Conforms (offer_of self.now.row) result }
    {
        let mut step = Step::blank();
        if fill(&self.row, frame, &mut step) {
            self.bent.note(self.number);
        }
        step
    }
}
