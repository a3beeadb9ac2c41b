//! The expressions of behaviours that are read from a file, and their values.
#![tactic(auto)]

mod arithmetic;
pub mod evaluation;
pub mod laws;
pub mod sorting;
pub mod syntax;
mod values;

pub use evaluation::evaluate;
pub use sorting::{is_sorted, sort_of};
pub use syntax::{Expr, Operator, Word};
