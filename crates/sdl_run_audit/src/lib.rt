//! The audit of what a run leaves: whoever holds a closing can recount it.
#![tactic(auto)]

mod auditing;
mod fault;
pub mod laws;
mod recount;

pub use auditing::audit;
pub use fault::AuditFault;
pub use sdl_run_recount::Recounts;
