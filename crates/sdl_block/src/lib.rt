//! A block at work: its core with its inlet, and the items that it has in hand.
#![tactic(auto)]

pub mod laws;
pub mod worker;

pub use laws::{blocks_have_put_out, new_blocks_are_putting_out};
pub use sdl_block_hand::{Hand, Refused, Stepped, answer_of};
pub use worker::BlockWorker;
