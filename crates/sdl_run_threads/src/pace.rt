//! At which pace a worker makes its steps, and how it comes to rest.
use crate::asking::Asking;
use crate::lead::Lead;
use crate::pauses::Pauses;
use crate::told::Told;
use sdl_forward_ends::Marks;
use std::sync::Wait;
use std::sync::atomic::Ordering::Relaxed;

/// After how many steps that did something a worker shows how many they are, and gives room where it takes: half a ring.
const SHOWS_EVERY: u64 = 32;

/// After how many it wakes those that take what it put, unless it has nothing more to do before: one wake serves for many items.
/// Where a step takes long, their sleep ends by itself before. It is a multiple of the number above.
const TELLS_EVERY: u64 = 64;

/// After how many sleeps in a row a worker at rest sleeps longer, where all others but one rest too. So a quiet system costs next
/// to no processor time.
const SHORT_NAPS: u32 = 32;

/// As long as so many other sleeps a longer one takes, unless somebody ends it: an eighth of a second.
const LONG_NAP: u64 = 16;

/// What a worker keeps from step to step, so as to make them at a good pace.
#[derive(Drop)]
pub(crate) struct Pace {
    /// The mark of the worker's word.
    mark: u32,
    /// How many of its steps did something, and whether it paused since the last of them.
    steps: u64,
    has_paused: bool,
    /// How often it has slept at rest since.
    rests: u32,
    /// How many items it put, and the marks of the stations where it put some.
    put: u64,
    stations: Marks,
    /// The marks of those where it put some since it last had nothing more to do, and no backlog.
    untold: Marks,
    lead: Lead,
    asking: Asking,
    pauses: Pauses,
}

impl Pace {
    pub(crate) fn new(mark: u32) -> Pace {
        Pace {
            mark,
            steps: 0,
            has_paused: false,
            rests: 0,
            put: 0,
            stations: Marks::none(),
            untold: Marks::none(),
            lead: Lead::default(),
            asking: Asking::default(),
            pauses: Pauses::default(),
        }
    }

    /// Its steps put so many items, and lately some at the stations with these marks.
    pub(crate) fn puts(&mut self, stations: Marks, put: u64) {
        self.untold.join(stations);
        self.stations.join(stations);
        self.put = put;
    }

    /// Whether the worker may ask outside the system now, where it could wait long: not before what it did has come to its end,
    /// and all that comes of it. So it may where all others are at rest, and where it has waited for that long enough.
    pub(crate) fn may_ask(&mut self, told: &Told) -> bool {
        self.tells(told);
        self.untold = Marks::none();
        self.asking.may(told, self.put, self.steps)
    }

    /// A step did something. It says whether the worker is to look round now.
    #[inline(always)]
    pub(crate) fn stirs(&mut self, told: &Told) -> bool {
        self.steps = self.steps.saturating_add(1);
        if self.has_paused {
            self.goes_on(told);
        }
        self.steps % SHOWS_EVERY == 0
    }

    /// It did something again, after it paused.
    #[inline(never)]
    fn goes_on(&mut self, told: &Told) {
        told.words.gets_up(self.mark);
        self.has_paused = false;
        self.rests = 0;
        self.pauses.ends();
        self.asking.goes_on();
    }

    /// What is due after some steps.
    #[inline(never)]
    pub(crate) fn looks_round<R: Wait>(&mut self, rt: &R, told: &Told) {
        self.shows(told);
        if self.steps % TELLS_EVERY == 0 {
            self.tells(told);
            self.lets_catch_up(rt, told);
        }
    }

    /// Shows how many of its steps did something, and wakes who waits for room where it takes.
    fn shows(&self, told: &Told) {
        told.moved.at(self.mark).store(self.steps, Relaxed);
        told.words.gives_space(self.mark);
    }

    /// Wakes those that take what it put. What its last step put may wait for room still: so they are told once more at the next time.
    fn tells(&self, told: &Told) {
        if !self.untold.is_empty() {
            told.words.gets_up(self.mark);
            told.words.wakes_each(self.untold);
        }
    }

    /// Where it is far ahead, it sleeps until somebody that takes what it put has made steps, or has nothing more to do. So those have a
    /// processor sooner, where there are fewer than workers. It says so before it wakes those that it waits for: where all wait for
    /// one another, one of them is awake.
    fn lets_catch_up<R: Wait>(&mut self, rt: &R, told: &Told) {
        if !self.lead.is_long(self.put, told.moved.sum(self.stations)) {
            return;
        }
        told.words.nods_off(self.mark);
        if told.words.asks_space(self.stations, self.mark) {
            told.words.wakes_each(self.stations);
            told.words.waits(rt, self.mark);
        }
        told.words.gets_up(self.mark);
        self.lead.shrinks(self.put, told.moved.sum(self.stations));
    }

    /// A step did nothing. The worker pauses, or says that it is about to sleep and looks once more, or sleeps. Where what it put
    /// still waits for room, it is not at rest, and asks for room. Where it may not ask yet, it is not, and waits for the others.
    pub(crate) fn pauses<R: Wait>(&mut self, rt: &R, told: &Told, flushed: bool, asks: bool) {
        self.has_paused = true;
        if flushed {
            self.tells(told);
            self.untold = Marks::none();
        } else {
            told.words.wakes_each(self.untold);
        }
        self.shows(told);
        if self.pauses.pause(told) {
            return;
        }
        if told.words.nods_off(self.mark) {
            if !flushed {
                told.words.asks_space(self.untold, self.mark);
            }
        } else if flushed && !asks {
            self.rests(rt, told);
        } else if told.words.waits(rt, self.mark) && flushed {
            self.asking.naps();
        }
    }

    /// It sleeps until something comes, and is at rest.
    fn rests<R: Wait>(&mut self, rt: &R, told: &Told) {
        self.rests = self.rests.saturating_add(1);
        let is_quiet = self.rests >= SHORT_NAPS && told.words.all_but_one_rest();
        let naps = if is_quiet { LONG_NAP } else { 1 };
        told.words.rests(rt, self.mark, naps);
    }
}
