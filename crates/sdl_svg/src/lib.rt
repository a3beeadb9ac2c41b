//! The elements of an SVG that several drawings have.
#![tactic(auto)]

pub mod elements;
pub mod front;

pub use elements::{
    close_text, open_text, write_attribute, write_corner, write_label, write_letters, write_place,
    write_size, write_text,
};
pub use front::write_front;
