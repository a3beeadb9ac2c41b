//! The message sequence chart of a run as text: a line for each event, in the order of the page.
#![tactic(auto)]

pub mod chart;
mod environment;
mod events;
pub mod items;
pub mod left;
pub mod names;
pub mod rows;
pub mod signals;
pub mod states;

pub use chart::Chart;
pub use items::sent_in;
pub use left::{Left, lefts_of, write_reason};
pub use names::{end_name, start_name};
pub use rows::write_chart;
pub use signals::{write_marked_params, write_marked_pid};
pub use states::States;
