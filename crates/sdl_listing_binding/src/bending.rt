//! Which transitions bent a value in a run.
use std::alloc::{AllocError, Global};
use std::sync::Arc;
use std::sync::atomic::{AtomicU64, Ordering};

/// The two counts behind all shares of these values.
#[derive(Drop)]
struct Counts {
    /// The number of the first transition that bent a value, and 1 more; 0 before any did.
    first: AtomicU64,
    answers: AtomicU64,
}

/// What the transitions of a run share: which of them bent a value first, and in how many answers one was bent. A value is bent
/// where it leaves the range of an Integer, or a divisor is 0. No contract can say what they hold, since the transitions
/// change them while they are shared.
#[derive(Drop)]
pub struct BentValues {
    counts: Arc<Counts, Global>,
}

/// The answers in which a value was bent.
#[derive(Clone, Copy, Debug, PartialEq, Eq)]
pub struct Bent {
    /// The number of the transition that bent a value first.
    pub first: u32,
    /// In how many answers a value was bent.
    pub answers: u64,
}

impl BentValues {
    /// None, before any value was bent.
    pub fn new(alloc: Global) -> Result<BentValues, AllocError> {
        let counts = Counts {
            first: AtomicU64::new(0),
            answers: AtomicU64::new(0),
        };
        Ok(BentValues {
            counts: Arc::new(alloc, counts)?,
        })
    }

    /// Another share of the same.
    pub fn share(&self) -> Result<BentValues, AllocError> {
        Ok(BentValues {
            counts: Arc::try_clone(&self.counts)?,
        })
    }

    /// Notes an answer of the transition of this number, in which a value was bent.
    pub fn note(&self, number: u32) {
        let own = number as u64 + 1;
        let _ = self
            .counts
            .first
            .compare_exchange(0, own, Ordering::SeqCst, Ordering::SeqCst);
        self.counts.answers.fetch_add(1, Ordering::SeqCst);
    }

    /// What was noted so far, and None where nothing was.
    pub fn bent(&self) -> Option<Bent> {
        let answers = self.counts.answers.load(Ordering::SeqCst);
        let first = self.counts.first.load(Ordering::SeqCst);
        match u32::try_from(first.checked_sub(1)?) {
            Ok(first) => Some(Bent { first, answers }),
            Err(_) => None,
        }
    }
}
