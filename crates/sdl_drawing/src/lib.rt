//! The block diagram of a structure as a value: shapes with whole-number coordinates, each of an agent, a gate or a channel.
#![tactic(auto)]

mod boxes;
mod columns;
mod corners;
pub mod drawing;
mod frames;
mod ladder;
mod lines;
mod rows;
pub mod shapes;
mod sizes;
pub mod texts;
mod tidy;

pub use drawing::{DrawFault, draw};
pub use rows::signals_of;
pub use shapes::{ChannelLine, Drawing, Frame, GateBox, Head, ListRow, Meeting, Point, Rect};
