//! Stored transitions of the agents of an SDL system, and the behaviours made of them.
#![tactic(auto)]

pub mod agents;
pub mod behaviour;
pub mod legality;
pub mod offer;
pub mod step;
pub mod transition;

pub use agents::Agents;
pub use behaviour::{Behaviour, Kind, Named, Row};
pub use offer::{Offer, OfferedOutput, SignalSorts};
pub use sdl_routes::Via;
pub use sdl_transition_saves::Save;
pub use step::{Action, Dest, Frame, Next, Step};
pub use transition::{Run, Transition};
