//! What a worker has in hand between two steps, what a step answers, and what a step of a block does.
#![tactic(auto)]

pub mod hand;
mod putting;

pub use hand::{Hand, Refused, Stepped, answer_of};
