//! Calls as lines of text, and what they answer: the routes of a structure and the choice among them, a board with its
//! forwarders, and queues. `sdl_stepper` adds the calls of a block.
#![tactic(auto)]

pub mod answers;
pub mod calls;
pub mod common;
pub mod desk;
pub mod ends;
pub mod items;
pub mod naming;
pub mod queues;
pub mod routing;
pub mod texts;
