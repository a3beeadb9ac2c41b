//! How a run ends.
use sdl_signal::BlockId;

/// How a run ended. (This project's own.)
#[derive(Clone, Copy, Debug, PartialEq, Eq)]
pub enum RunEnd {
    /// Nothing is left to do: every queue and hand is empty, every living instance has started, and each port holds only signals
    /// that its state saves.
    Quiet,
    /// The budget of this block is used, of the least such block, and all else is settled.
    Spent(BlockId),
    /// Memory was refused to the worker of this number, or the thread of this worker could not start, and the run stopped there; or
    /// memory was refused where what was left for this worker was taken over on one thread.
    Memory(u32),
}
