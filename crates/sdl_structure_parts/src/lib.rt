//! The structure of an SDL system as values, and the checker of its rules.
#![tactic(auto)]

pub mod checking;
pub mod limits;
pub mod parts;
pub mod structure;

pub use checking::{CheckFault, Checked, check};
pub use parts::{Block, Channel, Direction, End, Gate, Owner, Scope, Set, Side, SignalDecl};
pub use structure::{Lists, Structure};
