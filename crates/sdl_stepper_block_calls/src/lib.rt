//! The calls of a block, as lines of text, and what they answer: of its core, and of its steps over a board.
#![tactic(auto)]

pub mod at_rest;
pub mod cores;
pub mod events;
pub mod lines;
pub mod rows;
pub mod runner;
pub mod session;
pub mod workers;
