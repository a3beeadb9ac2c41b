//! What a run left is counted again: the signals along each route, and the sums of the ledger.
#![tactic(auto)]

mod by_route;
mod left;
mod recounts;
mod sent;
mod totals;
mod trail;
mod ways;

pub use recounts::Recounts;
pub use totals::Totals;
pub use trail::Trail;
