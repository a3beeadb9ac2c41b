//! Whether a step conforms to the offer of its transition, what of it does not, and the step that stands in then.
#![tactic(auto)]

pub mod broken;
pub mod conformance;
pub mod copies;
pub mod stand_in;

pub use broken::{Breach, first_broken};
pub use conformance::conforms;
pub use copies::copied_offer;
pub use stand_in::{can_end, kept, stay};
