//! What the program is asked for, its command `pipe`, how an input and an output ended, the lines on standard error, and the stack.
#![tactic(auto)]

pub mod arguments;
pub mod ends;
pub mod errors;
pub mod pipe;
pub mod stack;
pub mod status;
