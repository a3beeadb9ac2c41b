//! The expressions of behaviours' texts, read: what their names mean, how operators group, and the faults of texts.
#![tactic(auto)]

mod building;
pub mod cursor;
pub mod expressions;
pub mod fault;
pub mod numbers;
pub mod operators;
pub mod setting;

pub use cursor::{Cursor, Read};
pub use expressions::{MOST_DEPTH, expression, own_pid, own_word};
pub use fault::{Fault, Named, Stopped, TextFault, Wanted};
pub use numbers::integer;
pub use setting::{
    Constant, Meanings, Setting, Variable, constant_named, place_of_constant, place_of_text,
    place_of_variable, set_named,
};
