//! What the threads tell each other.
use crate::table::Table;
use crate::words::Words;
use crossbeam_utils::CachePadded;
use std::sync::atomic::AtomicU64;
use std::sync::atomic::Ordering::SeqCst;

/// These are hints, and no claim rests on them: however they come, a worker comes back with what its steps keep.
#[derive(Drop)]
pub(crate) struct Told {
    pub(crate) words: Words,
    /// How many steps of each worker did something, by the mark of the station where it takes. Each shows them now and then.
    pub(crate) moved: Table,
    /// At which number of sleeps that ended by themselves workers pause again: others want the processors until then, or there was
    /// no clock yet.
    pub(crate) crowded: CachePadded<AtomicU64>,
    /// The number of the last worker whose thread could not start, and one more.
    turned_away: AtomicU64,
}

impl Told {
    pub(crate) fn new(workers: u32) -> Told {
        Told {
            words: Words::new(workers),
            moved: Table::new(),
            crowded: CachePadded::new(AtomicU64::new(1)),
            turned_away: AtomicU64::new(0),
        }
    }

    /// The worker of this number is called on this thread, as its own could not start.
    pub(crate) fn turn_away(&self, number: u32) {
        self.turned_away.store(number as u64 + 1, SeqCst);
    }

    pub(crate) fn is_turned_away(&self, number: u32) -> bool {
        self.turned_away.load(SeqCst) == number as u64 + 1
    }
}
