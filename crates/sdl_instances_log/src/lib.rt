//! The log of a block: its events, the ways to keep them, whole or by their number alone, and their counts.
#![tactic(auto)]

pub mod copies;
pub mod counted;
pub mod counts;
pub mod event;
pub mod filled_ahead;
pub mod log_store;
mod past;
mod stored;
pub mod unstored;

pub use counted::Counted;
pub use counts::Counts;
pub use event::{Arrival, Cause, Done, Event, Trigger, Turn, Turned};
pub use filled_ahead::FilledAhead;
pub use log_store::LogStore;
pub use unstored::Unstored;
