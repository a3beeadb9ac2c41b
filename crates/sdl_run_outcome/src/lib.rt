//! What a run leaves: its workers, the ways of its routes, its logs and what is left, and how it ends.
#![tactic(auto)]

mod end;
mod environment_output;

pub use end::RunEnd;
pub use environment_output::EnvOut;
pub use sdl_forward_opening::Worker;
