//! A log that is stored whole, in a quarter of the memory that a list of its events takes.
#![tactic(auto)]

pub mod packed;
pub mod shown;

pub use packed::Packed;
pub use shown::{Shown, ShownStep, Shows};
