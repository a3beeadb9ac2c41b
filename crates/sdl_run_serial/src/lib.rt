//! Whole runs of a system on one thread.
#![tactic(auto)]

pub mod blocks;
pub mod lists;
pub mod serial;
pub mod start;

pub use sdl_run_driver::{Closing, StartFault};
pub use sdl_run_ledger::Ledger;
pub use sdl_run_outcome::{EnvOut, RunEnd, Worker};
pub use serial::{run_keeping, run_serial};
