//! The environment at work: it reads lines and outputs their signals, and writes what it receives as lines.
#![tactic(auto)]

mod apart;
pub mod environment;
mod laws;
mod leaving;
mod outputs;
mod routed;
mod worker_parts;
mod writing;

pub use apart::EnvApart;
pub use environment::EnvWorker;
pub use laws::{goes_on, new_environments_are_putting_out, stops_reading};
pub use routed::RoutedStructure;
pub use worker_parts::EnvParts;
