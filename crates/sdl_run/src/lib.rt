//! Whole runs of a system: in threads, each block and each delaying path in one of its own and the environment on the caller's, or
//! on one thread.
#![tactic(auto)]

mod beside;
mod environment_thread;
mod joining;
mod room;
mod sharing;
mod threads;

pub use sdl_run_audit::{AuditFault, Recounts, audit};
pub use sdl_run_serial::{
    Closing, EnvOut, Ledger, RunEnd, StartFault, Worker, run_keeping, run_serial,
};
pub use sdl_run_threads::{Gate, OpenGate};
pub use threads::{run_threads, run_threads_keeping};
