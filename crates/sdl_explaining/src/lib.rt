//! The second line below a fault of a structure file: where the file breaks the rule, what is wrong there, and the right name that is
//! near. A designer's program writes it. There is nothing to prove but that each call is safe and ends.
#![tactic(auto)]

mod checks;
pub mod explaining;
mod files;
mod keys;
mod names;
mod spots;
mod texts;

pub use explaining::explain;
