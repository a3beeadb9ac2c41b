//! The end of a run in threads: the workers come back and are taken apart, the queues are put together again, and what is left is
//! settled on one thread.
#![tactic(auto)]

pub mod back;
pub mod rejoining;
pub mod settling;
