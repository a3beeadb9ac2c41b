//! Where the tables, the keys and the values of a TOML text stand, and which right word is nearest to a wrong one: what a second line
//! below a fault of a file tells. There is nothing to prove but that each call is safe and ends.
#![tactic(auto)]

pub mod near;
pub mod reading;
pub mod written;

pub use near::{Nearest, nearest_of};
pub use reading::layout_of;
pub use written::{Layout, Said, Table, Written};
