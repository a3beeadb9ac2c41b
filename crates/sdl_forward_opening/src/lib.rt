//! The ends of all workers, opened.
#![tactic(auto)]

mod givers;
pub mod laws;
pub mod opening;
pub mod order;
mod shares;
pub mod stations;
mod worker;

pub use opening::ends_open;
pub use order::workers_of;
pub use stations::stations_of;
pub use worker::Worker;
