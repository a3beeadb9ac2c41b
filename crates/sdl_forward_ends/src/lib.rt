//! The ends of one worker, by station, and how the ends of all workers come back.
#![tactic(auto)]

mod by_value;
pub mod ends;
pub mod index;
pub mod marks;
pub mod shelf;

pub use ends::Ends;
pub use index::Index;
pub use marks::{MARKS, Marks, mark_of};
pub use shelf::{Shelf, ends_rejoin};
