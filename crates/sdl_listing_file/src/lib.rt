//! Reading the file that says what the agents of a structure do. Its format, keys and rules are this project's own.
#![tactic(auto)]

mod behaviours;
mod checks;
pub mod fault;
mod groups;
pub mod place;
pub mod reading;
mod uses;
mod walk;

pub use fault::AgentsFault;
pub use place::{AgentsKey, AgentsPart, AgentsPlace};
pub use reading::read_agents;
pub use sdl_listing_body::ListedSet;
