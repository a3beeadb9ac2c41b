//! The tokens of behaviours' texts: reserved words, names, numbers and signs, and the places where they stand.
#![tactic(auto)]

pub mod positions;
pub mod signs;
pub mod tokens;
pub mod words;

pub use positions::{Position, position_of};
pub use signs::Sign;
pub use tokens::{CutFault, Kind, Token, cut, is_reserved};
pub use words::Reserved;
