//! The faults of an agents file, as they are told: a line with the fault and its place, and a second one with the line in the file, the
//! wrong word and the right one that is near. There is nothing to prove but that each call is safe and ends.
#![tactic(auto)]

mod details;
pub mod faults;
mod keys;
mod known;
mod places;
mod sections;
mod spots;
mod words_at_fault;

pub use faults::write_agents_fault;
