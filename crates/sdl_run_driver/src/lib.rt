//! The driver of a run on one thread, and what a run leaves.
#![tactic(auto)]

pub mod closing;
pub mod driver;
mod first_forwarders;
pub mod laws;
pub mod parked;
mod passing;
mod stopping;
pub mod system;

pub use closing::{Closing, StartFault};
pub use driver::{Driver, Round};
pub use parked::Parked;
pub use system::System;
