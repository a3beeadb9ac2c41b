//! The skeleton of a designer's own crate, made from a structure: the texts of its files.
#![tactic(auto)]

pub mod agents;
pub mod fixed;
mod lists;
pub mod names;
pub mod numbers;
pub mod set_file;
pub mod texts;

pub use agents::{write_agents, write_main};
pub use fixed::RUNNING;
pub use names::Names;
pub use numbers::write_numbers;
pub use set_file::write_set;
pub use texts::{write_lines, write_texts};
