//! From threads to one: what is left when all threads are joined and all queues put together again.
#![tactic(auto)]

pub mod laws;
