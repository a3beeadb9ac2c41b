//! The ledger of a run: where every signal went, and that its counts balance.
#![tactic(auto)]

pub mod balance;
mod ledger;

pub use ledger::Ledger;
