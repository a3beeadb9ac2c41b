//! The layout of message sequence charts.
#![tactic(auto)]

pub mod drawing;
mod labels;
mod laying;
mod lines;
mod scene;
mod texts;
mod turns;

pub use drawing::{DrawFault, MOST_LIFELINES, draw};
