//! The message sequence chart of a run in the textual form of Z.120 (MSC/PR): what each instance did, one instance behind the other.
#![tactic(auto)]

pub mod lines;
pub mod messages;
pub mod msc;
mod names;
pub mod places;
mod rows;
mod signals;

pub use msc::{MscFault, write_msc};
