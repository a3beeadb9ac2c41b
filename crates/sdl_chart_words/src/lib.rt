//! The words of the command `chart`, and what they ask for.
#![tactic(auto)]

pub mod asked;
pub mod sets;

pub use asked::{ChartForm, Request, request_of};
pub use sets::{Charting, NoSets, charting_of, sets_in};
