//! The bodies of transitions that are read from a file: what they do to a frame, and what they offer.
#![tactic(auto)]

pub mod filling;
pub mod laws;
pub mod listing;
pub mod offers;
pub mod soundness;
pub mod syntax;

pub use filling::fill;
pub use listing::ListedSet;
pub use offers::offer_of;
pub use soundness::is_sound;
pub use syntax::{Body, Goal, Params, Row};
