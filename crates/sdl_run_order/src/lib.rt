//! The order along each route: every step of a worker keeps it, and lowers what is left to do.
#![tactic(auto)]

pub mod laws;
