//! The transitions of a process graph, stored, given to the sets of a structure by name, and bound to it.
#![tactic(auto)]

pub mod agent_sets;
pub mod agents;
pub mod binding;
pub mod breaches;
pub mod faults;
pub mod misfits;
mod set_behaviour;
pub mod sets;
pub mod stored;

pub use agent_sets::{AgentSet, AgentSets};
pub use agents::{GraphAgents, keep_to_offer};
pub use binding::bind_graph;
pub use breaches::{Breaches, Broken};
pub use faults::GraphFault;
pub use misfits::Misfit;
pub use sets::{Design, SetDesign, Use};
pub use stored::{Answering, Stored, ending_offer};
