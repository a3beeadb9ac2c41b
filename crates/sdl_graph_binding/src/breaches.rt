//! Which transitions broke their offers in a run.
use sdl_transition_conformance::Breach;
use std::alloc::{AllocError, Global};
use std::sync::atomic::{AtomicU64, Ordering};
use std::sync::{Arc, OnceLock};

/// What is behind all shares of the breaches.
#[derive(Drop)]
struct Counts {
    /// The number of the first transition that broke its offer, and what of its step the offer does not allow.
    first: OnceLock<(u32, Breach)>,
    broken: AtomicU64,
}

/// What the transitions of a run share: which of them broke its offer first, and how often any did. A share may be in
/// each stored transition. No contract can say what it holds, since the transitions change it while they are shared.
#[derive(Drop)]
pub struct Breaches {
    counts: Arc<Counts, Global>,
}

/// The transitions that broke their offers.
#[derive(Clone, Copy, Debug, PartialEq, Eq)]
pub struct Broken {
    /// The number of the transition that broke its offer first.
    pub first: u32,
    /// What of its step its offer did not allow.
    pub breach: Breach,
    /// How many answers broke their offers.
    pub count: u64,
}

impl Breaches {
    /// None, before any answer broke its offer.
    pub fn new(alloc: Global) -> Result<Breaches, AllocError> {
        let counts = Counts {
            first: OnceLock::new(),
            broken: AtomicU64::new(0),
        };
        Ok(Breaches {
            counts: Arc::new(alloc, counts)?,
        })
    }

    /// Another share of the same breaches.
    pub fn share(&self) -> Result<Breaches, AllocError> {
        Ok(Breaches {
            counts: Arc::try_clone(&self.counts)?,
        })
    }

    /// Notes an answer of the transition of this number, which breaks its offer so. No memory is taken.
    pub fn note(&self, number: u32, breach: Breach) {
        // one that is not the first is only counted
        let _ = self.counts.first.try_set((number, breach));
        self.counts.broken.fetch_add(1, Ordering::SeqCst);
    }

    /// What was noted so far, and None where nothing was.
    pub fn broken(&self) -> Option<Broken> {
        let count = self.counts.broken.load(Ordering::SeqCst);
        let (first, breach) = *self.counts.first.get()?;
        Some(Broken {
            first,
            breach,
            count,
        })
    }
}
