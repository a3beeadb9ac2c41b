//! The texts of a behaviour, read: its constants, its variables and its transitions, with the fault of a broken rule and its place.
#![tactic(auto)]

mod bodies;
pub mod declarations;
pub mod places;
pub mod rows;
mod statements;

pub use declarations::{read_constant, read_variable};
pub use places::Refusal;
pub use rows::{read_input, read_start};
pub use sdl_listing_expression_text::{
    Constant, Named, Setting, TextFault, Variable, Wanted, set_named,
};
pub use sdl_listing_tokens::{Position, position_of};
