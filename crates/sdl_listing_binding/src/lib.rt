//! The agents whose behaviours are read from a file. Each transition is a row of a listing; it is stored, given to its set's
//! behaviour, and bound to a structure.
#![tactic(auto)]

pub mod agents;
pub mod behaviours;
pub mod bending;
pub mod binding;
pub mod faults;
pub mod laying;
pub mod soundness;

pub use agents::{Answering, FileAgents, Listing};
pub use bending::{Bent, BentValues};
pub use binding::{bind_listing, keep};
pub use faults::ListingFault;
pub use laying::{Head, lay_out};
pub use sdl_listing_body::ListedSet;
pub use soundness::are_sound;
