//! The run of a system that is bound, and the message sequence chart of it.
#![tactic(auto)]

pub mod charted;
pub mod drawn;

pub use charted::run_charted;
pub use drawn::{ChartFault, ToChart};
