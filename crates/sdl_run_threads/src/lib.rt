//! Workers that make their steps each in a thread of its own, and come back with what their steps keep.
#![tactic(auto)]

mod asking;
mod driving;
mod kinds;
mod lead;
mod pace;
mod pauses;
mod scope;
mod table;
mod told;
mod words;
mod work;
mod workers;

pub use driving::{Gate, OpenGate};
pub use kinds::Kind;
pub use scope::{Team, run_all};
pub use sdl_forward_ends::Marks;
pub use work::{Returned, Stepped, Work};
pub use workers::{AtWork, BlockThread, ForwarderThread, run_workers};
