//! The run of a listing, as a file of behaviours gives it: each row is stored as a transition, and all of them are bound to the
//! structure and run.
#![tactic(auto)]

mod faults;
mod labels;
pub mod runs;
mod states;

pub use runs::{BENT, run_listing};
