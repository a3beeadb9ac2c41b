//! Who sleeps, and who is woken.
use crate::table::Table;
use crossbeam_utils::CachePadded;
use sdl_forward_ends::{MARKS, Marks, mark_of};
use sdl_routes::Station;
use std::sync::Wait;
use std::sync::atomic::Ordering::SeqCst;
use std::sync::atomic::{AtomicI64, AtomicU64};
use std::time::Duration;

/// A sleep ends after this time, since a hint may be missed. A longer one takes so many times as much.
const NAP_MICROS: u64 = 8_000;

/// What a worker's word says of it.
#[derive(Clone, Copy)]
enum State {
    /// It makes steps, or pauses between them. A table of words begins so.
    Awake,
    /// It is about to sleep, and looks once more at what there is to do.
    Drowsy,
    /// It looked, found nothing, and is at rest: it sleeps.
    Asleep,
    /// It sleeps, but is not at rest: it waits for room where it puts, or for all others to rest before it asks outside the system.
    Waiting,
}

/// Who finds nothing to do says so in its word, looks once more, and sleeps. Whoever put something where it takes wakes it after
/// that. So once all are at rest, each looked after whatever was last put there: then all are to stop.
#[derive(Drop)]
pub(crate) struct Words {
    /// By the mark of the station where a worker takes: no two workers have one mark (`run_workers` asks for it).
    words: Table,
    /// How many are at rest, which is below 0 while one was woken before it was counted; and how many there are.
    resting: AtomicI64,
    workers: i64,
    /// For each station, the mark of the worker that waits for room there, and one more. 0 where none does.
    rooms: Table,
    /// How many sleeps ended by themselves. While a worker sleeps that nobody wakes, this is a clock: threads have no other one.
    naps: CachePadded<AtomicU64>,
    /// 1 once all are to stop.
    stop: AtomicU64,
}

impl Words {
    pub(crate) fn new(workers: u32) -> Words {
        Words {
            words: Table::new(),
            resting: AtomicI64::new(0),
            workers: workers as i64,
            rooms: Table::new(),
            naps: CachePadded::new(AtomicU64::new(0)),
            stop: AtomicU64::new(0),
        }
    }

    /// Tells all to stop, and wakes those that sleep.
    pub(crate) fn stop(&self) {
        self.stop.store(1, SeqCst);
        for mark in 0..MARKS {
            self.wakes(mark as u32);
        }
    }

    pub(crate) fn is_stopped(&self) -> bool {
        self.stop.load(SeqCst) != 0
    }

    pub(crate) fn resting(&self) -> u64 {
        self.resting.load(SeqCst).max(0) as u64
    }

    pub(crate) fn all_but_one_rest(&self) -> bool {
        self.resting.load(SeqCst).wrapping_add(1) >= self.workers
    }

    /// How many sleeps ended by themselves so far, a longer one counted as so many.
    pub(crate) fn naps(&self) -> u64 {
        self.naps.load(SeqCst)
    }

    /// Changes the state of the worker with this mark. False where it was in another one.
    fn moves(&self, mark: u32, from: State, to: State) -> bool {
        self.words
            .at(mark)
            .compare_exchange(from as u64, to as u64, SeqCst, SeqCst)
            .is_ok()
    }

    /// Wakes the worker with this mark, where it sleeps or is about to.
    fn wakes(&self, mark: u32) {
        let word = self.words.at(mark);
        if word.load(SeqCst) != State::Awake as u64 && self.gets_up(mark) {
            word.wake_all();
        }
    }

    pub(crate) fn wakes_each(&self, marks: Marks) {
        let mut left = marks;
        for _ in 0..MARKS {
            match left.pop() {
                Some(mark) => self.wakes(mark),
                None => break,
            }
        }
    }

    /// The worker with this mark has something to do. It says whether it slept. Whatever it put before is seen by whoever says after
    /// this that it is about to sleep.
    pub(crate) fn gets_up(&self, mark: u32) -> bool {
        let was = self.words.at(mark).swap(State::Awake as u64, SeqCst);
        if was == State::Asleep as u64 {
            self.resting.fetch_sub(1, SeqCst);
        }
        was >= State::Asleep as u64
    }

    /// The worker with this mark is about to sleep. False where it said so before, and nobody woke it since. Who waited, until
    /// that sleep ended by itself, says so anew: its word would else not change, and it would never come to rest.
    pub(crate) fn nods_off(&self, mark: u32) -> bool {
        self.moves(mark, State::Awake, State::Drowsy)
            || self.moves(mark, State::Waiting, State::Drowsy)
    }

    /// The worker with this mark, which was about to sleep, comes to rest, unless somebody woke it, and sleeps so long. All are told
    /// to stop where it is the last. Where it is the last but one, the environment is woken that waits for that.
    pub(crate) fn rests<R: Wait>(&self, rt: &R, mark: u32, naps: u64) {
        if self.moves(mark, State::Drowsy, State::Asleep) {
            let environment = mark_of(Station::Outlet);
            if self.resting.fetch_add(1, SeqCst).wrapping_add(1) >= self.workers {
                self.stop();
            } else if self.all_but_one_rest()
                && self.moves(environment, State::Waiting, State::Awake)
            {
                self.words.at(environment).wake_all();
            }
        }
        self.sleeps(rt, mark, State::Asleep, naps);
    }

    /// The worker with this mark, which was about to sleep, waits, unless somebody woke it. The environment goes on where all others
    /// rest. It says whether the sleep ended by itself.
    pub(crate) fn waits<R: Wait>(&self, rt: &R, mark: u32) -> bool {
        let waits = self.moves(mark, State::Drowsy, State::Waiting);
        if waits && mark == mark_of(Station::Outlet) && self.all_but_one_rest() {
            self.wakes(mark);
        }
        self.sleeps(rt, mark, State::Waiting, 1)
    }

    /// Sleeps while the worker with this mark is in this state, and at most so long. It says whether that ended by itself.
    fn sleeps<R: Wait>(&self, rt: &R, mark: u32, state: State, naps: u64) -> bool {
        let word = self.words.at(mark);
        let time = Duration::from_micros(NAP_MICROS.saturating_mul(naps));
        word.park_timeout(rt, state as u32, time);
        let by_itself = word.load(SeqCst) == state as u64;
        if by_itself {
            self.naps.fetch_add(naps, SeqCst);
        }
        by_itself
    }

    /// The worker with this mark asks for room at the stations with these, but at none where one asked already. It says whether there
    /// is none such.
    pub(crate) fn asks_space(&self, stations: Marks, mark: u32) -> bool {
        let mut left = stations;
        let mut alone = true;
        for _ in 0..MARKS {
            match left.pop() {
                Some(station) => {
                    let room = self.rooms.at(station);
                    let asked = room.compare_exchange(0, mark as u64 + 1, SeqCst, SeqCst);
                    alone = alone && asked.is_ok();
                }
                None => break,
            }
        }
        alone
    }

    /// Wakes the worker that asked for room at the station with this mark.
    pub(crate) fn gives_space(&self, station: u32) {
        let room = self.rooms.at(station);
        if room.load(SeqCst) != 0 {
            let asked = room.swap(0, SeqCst);
            self.wakes((asked.saturating_sub(1) % MARKS as u64) as u32);
        }
    }
}
