//! The page of a run: one order of all events of its lists, in which no item arrives before it is output.
#![tactic(auto)]

pub mod by_origin;
pub mod lists;
pub mod page;
mod placing;

pub use by_origin::ByOrigin;
pub use lists::{Lists, Seen};
pub use page::{Page, PageFault, Row, Spot};
