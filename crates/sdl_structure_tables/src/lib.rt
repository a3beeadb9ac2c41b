//! Reading one table of a structure file: its keys, its numbers, its names, and its lists, each with the fault of a broken rule.
//! The format, its keys and its rules are this project's own (docs/FORMATS.md).
#![tactic(auto)]

mod checks;
pub mod fault;
mod keys;
pub mod place;
pub mod signals;
pub mod version;
pub mod walk;

pub use checks::count_dots;
pub use fault::FileFault;
pub use place::{Key, Part, Place};
pub use signals::{read_signal_list, read_signals, text_of};
pub use version::Version;
pub use walk::Walk;
