//! Copies of signals and items, which take no memory.
#![tactic(auto)]

pub mod copies;
