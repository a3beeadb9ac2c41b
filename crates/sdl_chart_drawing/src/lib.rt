//! The message sequence chart of a run as a value, and whether it shows what it has to.
#![tactic(auto)]

pub mod shapes;
pub mod traffic;
pub mod wanted;
pub mod whole;

pub use shapes::{
    Drawing, Event, Lifeline, Message, Point, SIGNAL_LETTERS, Shape, Style, Text, Tip,
};
pub use traffic::{Arrival, arrivals_of};
pub use wanted::Wanted;
pub use whole::is_whole;
