//! Reading the structure file of an SDL system, with the structure and the checker of its rules passed on.
#![tactic(auto)]

pub mod laws;
pub mod reading;

pub use reading::{FileFault, Key, Part, Place, read_structure};
pub use sdl_structure_parts::{
    Block, Channel, CheckFault, Checked, Direction, End, Gate, Owner, Scope, Set, Side, SignalDecl,
    Structure, check,
};
