//! The texts of a block diagram: SVG of its drawing, and Graphviz' language for the structure.
#![tactic(auto)]

mod channels;
mod clusters;
pub mod commands;
pub mod dot;
mod edges;
mod elements;
mod frames;
mod gates;
mod lists;
pub mod svg;
mod words;

pub use commands::{Form, structure_at};
pub use dot::write_dot;
pub use svg::write_svg;
pub use words::form_of;
