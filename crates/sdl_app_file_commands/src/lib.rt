//! The commands `check` and `routes` on a structure file, over any reader and writers, the texts of their faults, and the trace.
#![tactic(auto)]

pub mod commands;
pub mod faults;
pub mod files;
pub mod names;
pub mod streams;
pub mod trace;
pub mod words;
