//! What tests of several layers share: why a test stopped, a structure text read and bound, and offers and steps as data.
#![tactic(auto)]

mod parts;
mod stop;
mod structures;

pub use parts::{Doing, Doings, End, Part, Parts, offer_of, step_of};
pub use stop::Stop;
pub use structures::{bind_to, routes_of};
