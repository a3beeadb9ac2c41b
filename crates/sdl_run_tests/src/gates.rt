//! Gates that hold steps back.
use sdl_run::Gate;
use std::alloc::Global;
use std::hint::spin_loop;
use std::sync::Arc;
use std::sync::atomic::AtomicU64;
use std::sync::atomic::Ordering::SeqCst;
use std::thread;

const TURNS: u32 = 100_000_000;

/// Waits until the word is this or more, for some turns at most. False where it then is still less.
pub fn waits_for(word: &AtomicU64, wanted: u64) -> bool {
    for _ in 0..TURNS {
        if word.load(SeqCst) >= wanted {
            return true;
        }
        thread::yield_now();
    }
    false
}

/// Which steps are held back.
#[derive(Drop)]
pub enum Held {
    /// The first steps of blocks 0 and 1, each until the other is about to be made too.
    FirstSteps,
    /// In Relay, the first step of L, until the environment has read fifty lines; and then the environment's next step, until so many
    /// signals were counted.
    Blocks(Arc<AtomicU64, Global>),
    /// In Relay, the first step of the forwarder of `sa`, which leads from the gate `left` to L. It waits until the environment was
    /// about to make so many steps.
    Path(u64),
    /// Some steps, at random: they first yield or spin. Few yield, since each of them takes a time slice of other work where there is
    /// some.
    Random(AtomicU64),
}

/// A gate that holds steps back.
#[derive(Drop)]
pub struct Holding {
    pub held: Held,
    pub came: AtomicU64,
    /// How many steps were held back until what they waited for was there.
    pub met: AtomicU64,
}

impl Holding {
    pub fn new(held: Held) -> Holding {
        Holding {
            held,
            came: AtomicU64::new(0),
            met: AtomicU64::new(0),
        }
    }
}

/// The step of the environment before which it has read fifty lines.
const ALL_READ: u64 = 50;

/// Holds the step back, and says whether what it waited for was there. `None` where it did not wait.
fn hold(held: &Held, came: &AtomicU64, worker: u32, step: u64) -> Option<bool> {
    match (held, worker, step) {
        (Held::FirstSteps, 0 | 1, 0) => {
            came.fetch_add(1, SeqCst);
            Some(waits_for(came, 2))
        }
        (Held::Blocks(_), 0, 0) => Some(waits_for(came, 1)),
        (Held::Blocks(counted), 2, ALL_READ) => {
            came.store(1, SeqCst);
            Some(waits_for(counted, 50))
        }
        (Held::Path(_), 2, _) => {
            came.fetch_add(1, SeqCst);
            None
        }
        (Held::Path(steps), 3, 0) => Some(waits_for(came, *steps)),
        (Held::Random(drawn), _, _) => {
            jitter(drawn, worker, step);
            None
        }
        _ => None,
    }
}

impl Gate for Holding {
    fn before(&self, worker: u32, step: u64) {
        if hold(&self.held, &self.came, worker, step) == Some(true) {
            self.met.fetch_add(1, SeqCst);
        }
    }
}

/// The number that follows in Marsaglia's generator of 64 bits.
pub fn xorshift(number: u64) -> u64 {
    let mut number = number;
    number ^= number << 13;
    number ^= number >> 7;
    number ^= number << 17;
    number
}

/// Yields or spins, or does neither.
fn jitter(last: &AtomicU64, worker: u32, step: u64) {
    let drawn = xorshift(last.load(SeqCst) ^ u64::from(worker) ^ (step << 8));
    last.store(drawn | 1, SeqCst);
    match drawn % 32 {
        0 => thread::yield_now(),
        1 | 2 => {
            for _ in 0..(drawn >> 32) % 200 {
                spin_loop();
            }
        }
        _ => {}
    }
}
