//! The living process instances of a block: their input ports and variables, and which of them are ready or of a set.
#![tactic(auto)]

mod all_by_set;
mod by_set;
mod by_signal;
mod found;
pub mod instance;
pub mod living_instances;
mod numbered;
mod port;
mod ready;

pub use instance::Instance;
pub use living_instances::Instances;
pub use sdl_instances_copies::copies;
