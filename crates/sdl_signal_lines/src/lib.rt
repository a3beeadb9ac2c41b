//! The lines of an input, and where lines are read and written.
#![tactic(auto)]

mod ahead;
pub mod sinks;
pub mod sources;

pub use sinks::{LineSink, Written, write_line};
pub use sources::{LONGEST_LINE, LineRead, LineSource, Seen};
