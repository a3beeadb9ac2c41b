//! Process graphs: the transitions of a system's agents as two functions of a number without contracts, with what they are written in.
#![tactic(auto)]

pub mod agent;
pub mod graph;
pub mod in_place;
mod limits;
pub mod lists;
pub mod offers;
pub mod parameter;
pub mod reading;
pub mod rows;
pub mod states;
pub mod steps;
pub mod variable;

pub use agent::{Agent, Answer, NoStep, answer_of};
pub use graph::{Graph, answer, judge};
pub use lists::{Inward, Outward, SetLists};
pub use offers::{OfferBuilder, no_offer};
pub use reading::{
    boolean_parameter, boolean_variable, integer_parameter, integer_variable, pid_parameter,
    pid_variable,
};
pub use rows::{is_saved, offer_in, transitions_of};
pub use states::{States, next_state, number_of};
pub use steps::{StepBuilder, no_step};
