//! Queues of items none of whose calls waits: one of a single thread, and a ring, whose feeder and taker each live in a
//! thread of their own.
#![tactic(auto)]

mod by_value;
pub mod ring;
pub mod serial;

pub use ring::{RingFeed, RingRejoined, RingTap, ring_open, ring_rejoin};
pub use serial::SerialQueue;
