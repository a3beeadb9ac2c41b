//! The run of a system that is bound, on one thread or in threads: what was asked for of it is written, and its exit status answered.
#![tactic(auto)]

pub mod closing;
pub mod in_threads;
mod ledger;
pub mod running;
