//! A whole run of Echo, written out: it keeps every promise of a run, and with one thing changed it does not. And what a pick
//! chooses, written out: the one that it names, and not the first. And that opened ends serve all ways of their workers.
#![tactic(auto)]

pub mod laws;
pub mod picks;
pub mod ways;
