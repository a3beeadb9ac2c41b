//! Workers in threads without ends: they hand a token round, put where nobody takes, wait for room, or take while others work.
ghost use Rattle.std.specs.Prelude.{◌≡◌};

use sdl_forward_ends::mark_of;
use sdl_routes::{Routes, Station};
use sdl_run_threads::{Kind, Marks, Returned, Stepped, Work};
use sdl_signal::BlockId;
use sdl_structure_parts::Structure;
use std::alloc::Global;
use std::sync::atomic::AtomicU64;
use std::sync::atomic::Ordering::SeqCst;
use std::sync::{Arc, Wait};

/// A cell for each of four workers, with how many hops the token in it has yet to make: 0 where it has none.
#[derive(Drop)]
pub struct Ring {
    pub cells: [AtomicU64; 4],
}

/// What a worker does at each step.
#[derive(Drop)]
pub enum Job {
    /// It takes the token from the cell at its place and puts it into the next one.
    Pass(Arc<Ring, Global>, usize),
    /// It puts something where nobody takes it, so often yet.
    Put(u64),
    /// What it put waits for room, until so many flushes more.
    Wait(u64),
    /// It reads so many lines, each of which it puts somewhere, and then takes so many items, as long as it may not ask outside the
    /// system. After that it lets others rest, by this.
    Read(u64, u64, Arc<AtomicU64, Global>),
    /// It does something at each step, until it is let rest, by this.
    Work(Arc<AtomicU64, Global>),
}

/// A worker, and how often it has put.
#[derive(Drop)]
pub struct Jobber {
    station: Station,
    job: Job,
    put: u64,
    /// Where it put since that was asked last.
    touched: Marks,
}

/// The mark of a station where no worker takes.
const NOWHERE: u32 = 40;

impl Jobber {
    pub fn new(station: Station, job: Job) -> Jobber {
        Jobber {
            station,
            job,
            put: 0,
            touched: Marks::none(),
        }
    }

    /// How many flushes more it waits for, or how many items it has yet to take.
    fn left(&self) -> u64 {
        match self.job {
            Job::Wait(left) => left,
            Job::Read(_, items, _) => items,
            Job::Put(left) => left,
            Job::Pass(_, _) | Job::Work(_) => 0,
        }
    }
}

/// The station at which the worker at this place takes.
pub fn station_at(place: usize) -> Station {
    Station::Inlet(BlockId((place % 16) as u32))
}

/// Moves the token on, where it is in the cell at this place. It says where to.
fn pass(ring: &Ring, place: usize) -> Option<usize> {
    let hops = ring.cells.get(place)?.swap(0, SeqCst);
    if hops == 0 {
        return None;
    }
    let next = if place >= 3 { 0 } else { place + 1 };
    ring.cells.get(next)?.store(hops - 1, SeqCst);
    Some(next)
}

/// What a step did.
enum Done {
    Nothing,
    Took,
    /// It put something at the station with this mark.
    Put(u32),
}

/// Takes one from the count. None where it is 0.
fn take_one(left: &mut u64) -> Option<()> {
    *left = left.checked_sub(1)?;
    Some(())
}

/// Reads a line or takes an item, or lets others rest.
fn read(lines: &mut u64, items: &mut u64, rest: &AtomicU64, may_ask: bool) -> Done {
    if take_one(lines).is_some() {
        return Done::Put(NOWHERE);
    }
    if !may_ask && take_one(items).is_some() {
        return Done::Took;
    }
    rest.store(1, SeqCst);
    Done::Nothing
}

/// Does one step of the job.
fn work(job: &mut Job, may_ask: bool) -> Done {
    match job {
        Job::Pass(ring, place) => match pass(ring, *place) {
            Some(next) => Done::Put(mark_of(station_at(next))),
            None => Done::Nothing,
        },
        Job::Put(left) => match take_one(left) {
            Some(()) => Done::Put(NOWHERE),
            None => Done::Nothing,
        },
        Job::Wait(_) => Done::Nothing,
        Job::Read(lines, items, rest) => read(lines, items, rest, may_ask),
        Job::Work(rest) => if rest.load(SeqCst) == 0 {
            Done::Took
        } else {
            Done::Nothing
        },
    }
}

impl Work for Jobber {
    ghost use Rattle.std.specs.Prelude.{◌≡◌, ⊤, refl};
    ghost use Rattle.std.proofs.Common.{◌∙◌};

    ghost keeps = { λ s r w. ⊤ };

    ghost same = { λ u v. v.station ≡ u.station };

    ghost station = { λ w. w.station };

    ghost empty_handed = { λ w. ⊤ };

    ghost itself = { λ w. refl };

    ghost and_then = { λ u v w p q. q ∙ p };

    fn flush(&mut self) -> bool {
        let Job::Wait(left) = &mut self.job else {
            return true;
        };
        *left = left.saturating_sub(1);
        *left == 0
    }

    fn step<R: Wait>(
        &mut self,
        _rt: &R,
        _structure: &Structure,
        _routes: &Routes,
        _pick: u32,
        may_ask: bool,
    ) -> Stepped {
        match work(&mut self.job, may_ask) {
            Done::Put(mark) => {
                self.touched.add(mark);
                self.put = self.put.saturating_add(1);
                Stepped::Did
            }
            Done::Took => Stepped::Did,
            Done::Nothing => Stepped::Idle,
        }
    }

    fn asks_outside(&self) -> bool {
        match &self.job {
            Job::Read(lines, _, rest) => *lines == 0 && rest.load(SeqCst) == 0,
            _ => false,
        }
    }

    fn mark(&self) -> u32 {
        mark_of(self.station)
    }

    fn touched(&mut self) -> Marks {
        let touched = self.touched;
        self.touched = Marks::none();
        touched
    }

    fn puts(&self) -> u64 {
        self.put
    }

    fn is_spent(&self) -> bool {
        false
    }
}

/// How often the worker put, and how much it has yet to do, where it ran until it was told to stop.
pub fn done_by(worker: &Returned<Jobber>) -> Option<(u64, u64)> {
    match worker {
        Returned::Ran(worker) => Some((worker.put, worker.left())),
        Returned::Refused(_) => None,
        Returned::NotStarted(_) => None,
    }
}

/// The same of one of the list.
pub fn done_in_list(worker: &Returned<Kind<Jobber, Jobber>>) -> Option<(u64, u64)> {
    match worker {
        Returned::Ran(Kind::Block(worker)) => Some((worker.put, worker.left())),
        Returned::Ran(Kind::Forwarder(worker)) => Some((worker.put, worker.left())),
        Returned::Refused(_) => None,
        Returned::NotStarted(_) => None,
    }
}
