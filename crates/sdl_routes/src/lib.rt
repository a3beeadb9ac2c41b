//! The routes of an SDL system: all ways by which a signal gets from one agent to another, and the choice among them.
#![tactic(auto)]

mod choice;
mod entries;
mod hops;
mod index;
pub mod laws;
pub mod route;
mod rows;
mod search;
pub mod table;

pub use route::{EndPoint, Goal, Hop, Route, Source, Station, Via, Wish};
pub use table::{RouteFault, Routes};
