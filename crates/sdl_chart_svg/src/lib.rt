//! The SVG of a message sequence chart.
#![tactic(auto)]

pub mod lifelines;
pub mod messages;
pub mod shapes;
pub mod svg;
pub mod texts;

pub use svg::{Heading, write_chart_svg};
