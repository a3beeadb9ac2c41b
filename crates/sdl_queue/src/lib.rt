//! Queues of items: one of a single thread, one whose ends live in threads of their own, and
//! a ring; and the ends of either of these two.
#![tactic(auto)]

pub mod any;
mod by_value;
pub mod ends;
pub mod rest;
mod rule;

pub use any::{AnyFeed, AnyTap, any_queue, any_rejoin, any_ring};
pub use ends::{Feed, Rejoined, Tap, queue_open, rejoin};
pub use rest::Rest;
pub use rule::{PutList, Tagged};
pub use sdl_queue_ring::{RingFeed, RingRejoined, RingTap, SerialQueue, ring_open, ring_rejoin};
