//! Who works in a run.
use sdl_routes::Hop;
use sdl_signal::BlockId;

/// Who takes from a station: a block from its inlet, the environment from the outlet, a forwarder from its line.
#[derive(Clone, Copy, Debug, PartialEq, Eq)]
pub enum Worker {
    Block(BlockId),
    Environment,
    Forwarder(Hop),
}
