//! The limits of a structure, and of the behaviours that are bound to it. All are this project's own.

/// The most signals of a structure.
pub const MOST_SIGNALS: usize = 64;

/// The most parameters of a signal.
pub const MOST_PARAMETERS: usize = 4;

/// The most blocks of a structure.
pub const MOST_BLOCKS: usize = 64;

/// The most blocks of a structure file of version 1.
pub const MOST_BLOCKS_OF_VERSION_1: usize = 16;

/// How deep a block may lie: a block of the system has depth 1.
pub const MOST_DEPTH: u32 = 4;

/// The most sets of a structure.
pub const MOST_SETS: usize = 64;

/// The most channels of a structure.
pub const MOST_CHANNELS: usize = 64;

/// The most gates of the system, of a block or of a set.
pub const MOST_GATES: usize = 8;

/// The most instances of a set, at its start and at once.
pub const MOST_INSTANCES: i64 = 1024;

/// The greatest budget: the most transitions that a block may make in a run.
pub const MOST_BUDGET: i64 = 1_000_000;

/// The budget of a structure file that names none.
pub const DEFAULT_BUDGET: i64 = 100_000;

/// The most rows of a behaviour.
pub const MOST_ROWS: usize = 256;

/// The most sets, signals, gates and channels that a behaviour says it means by its numbers.
pub const MOST_USES: usize = 256;
