//! Stations and their queues, and the forwarders that bring items from one station to the next.
#![tactic(auto)]

mod adopting;
pub mod board;
mod busy;
mod by_value;
pub mod forwarder;
mod hints;
pub mod laws;
pub mod queues;

pub use board::Board;
pub use forwarder::{Forwarded, Forwarder};
pub use laws::{
    forwarders_have_handed_on, forwarders_stay_handing_on, new_forwarders_are_handing_on,
};
pub use sdl_forward_ends::{Ends, Shelf, ends_rejoin};
pub use sdl_forward_opening::ends_open;
