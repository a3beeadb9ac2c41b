//! What an audit finds.
use sdl_signal::RouteId;
use thiserror::Error;

/// Why a closing does not agree with itself (this project's own).
#[derive(Clone, Copy, Debug, PartialEq, Eq, Error)]
pub enum AuditFault {
    /// The least route along which what was output is not what arrived followed by what is still on its way, in order.
    #[error("A1 Route {}", .0.0)]
    Route(RouteId),
    /// Along each route all is in order. A count of the ledger is not that of what the run left, or one of its two equations does
    /// not hold.
    #[error("A2 Ledger")]
    Ledger,
    /// Memory was refused, and nothing is said of the closing.
    #[error("A3 Memory")]
    Memory,
}
