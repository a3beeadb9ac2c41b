//! How far a worker is ahead of those that take what it puts.

/// How many items a worker may be ahead, before it lets those that take what it put catch up: they want for a processor, and
/// what waits for them should stand in a cache still when they take it.
const MOST_AHEAD: u64 = 512;

/// How many it is taken to be ahead once it has let them.
const CAUGHT_UP: u64 = 256;

/// How many items a worker had put, and how many steps those that take there had made, when its lead was last taken to be none. So its
/// lead is told too little where these take from others too. No claim rests on it.
#[derive(Default, Drop)]
pub(crate) struct Lead {
    put: u64,
    taken: u64,
}

impl Lead {
    /// Whether it is so far ahead that it is to let others catch up, where it has put so many, and they made so many steps.
    pub(crate) fn is_long(&self, put: u64, taken: u64) -> bool {
        let made = taken.wrapping_sub(self.taken);
        put.saturating_sub(self.put) > made.saturating_add(MOST_AHEAD)
    }

    /// It has let others catch up.
    pub(crate) fn shrinks(&mut self, put: u64, taken: u64) {
        self.put = put.saturating_sub(CAUGHT_UP);
        self.taken = taken;
    }
}
