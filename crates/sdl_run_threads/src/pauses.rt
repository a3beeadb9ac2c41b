//! How a worker pauses before it sleeps.
use crate::told::Told;
use std::hint::spin_loop;
use std::sync::atomic::Ordering::SeqCst;
use std::thread::yield_now;

/// How often a worker yields before it sleeps: so a ring of workers hands on without a sleep.
const MOST_YIELDS: u32 = 30;

/// About when a worker is usually handed something, it spins and looks so often before each yield. It then sees it sooner than after a
/// yield, behind whoever else wants the processor.
const MOST_LOOKS: u32 = 64;

/// After how many yields more than usual it no longer does.
const LATE_YIELDS: u32 = 2;

/// The processors are crowded where sleeps end by themselves in three yields of so many: each takes as long as others like. Who sleeps
/// has its turn there as soon as it is woken.
const FEW_YIELDS: u32 = 16;

/// For how many sleeps of each worker at rest nobody pauses then: a fifth of a second.
const CROWDED_NAPS: u64 = 24;

/// A worker's pauses.
#[derive(Default, Drop)]
pub(crate) struct Pauses {
    /// How often it yielded since it last did something, and how often it usually does.
    yields: u32,
    usual: u32,
    /// How often it looked since its last yield.
    looks: u32,
    /// `FEW_YIELDS` for each yield in which a sleep ended by itself, less one for each other one.
    unrest: u32,
}

impl Pauses {
    /// Spins or yields. False where it did so often enough, or where others want the processors.
    pub(crate) fn pause(&mut self, told: &Told) -> bool {
        let now = told.words.naps();
        if self.yields >= MOST_YIELDS || now < told.crowded.load(SeqCst) {
            return false;
        }
        let is_due = self.yields >= self.usual && self.yields - self.usual <= LATE_YIELDS;
        if is_due && self.looks < MOST_LOOKS {
            self.looks += 1;
            spin_loop();
        } else {
            self.looks = 0;
            self.yields = self.yields.saturating_add(1);
            yield_now();
            self.judges(told, now);
        }
        true
    }

    /// It yielded, from this number of sleeps on that had ended by themselves.
    fn judges(&mut self, told: &Told, before: u64) {
        if told.words.naps() == before {
            self.unrest = self.unrest.saturating_sub(1);
        } else if self.unrest <= FEW_YIELDS {
            self.unrest += FEW_YIELDS;
        } else {
            let stretch = CROWDED_NAPS.saturating_mul(told.words.resting().saturating_add(1));
            told.crowded.store(before.saturating_add(stretch), SeqCst);
        }
    }

    /// The worker did something again.
    pub(crate) fn ends(&mut self) {
        self.usual = self.usual.saturating_add(self.yields) / 2;
        self.yields = 0;
        self.looks = 0;
    }
}
