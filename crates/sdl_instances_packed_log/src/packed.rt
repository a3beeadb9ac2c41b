//! A log that is stored whole, its arrivals apart from its turns, and of a turn the short lists in two long ones.
ghost use Rattle.std.specs.Prelude.{◌≡◌, ◌+◌, ◌<◌, ◌≤◌, ◌++◌, Some, IfSome, IfNone, length, slice_get, slice_range, vec_capacity};
ghost use Rattle.sdl_instances_packed_log.specs.Packed.{KeepsStep, AreHeads, turn_of, turns_from, begins, event_shown};

use crate::shown::{Shown, ShownStep, Shows};
use arrayvec::ArrayVec;
use sdl_instances_copies::copies::copied_item;
use sdl_instances_log::copies::copied_frame;
use sdl_instances_log::{Cause, Done, Event, LogStore, Trigger};
use sdl_signal::{Item, Pid, Value};
use sdl_transition_behaviour::{Action, Frame, Next, Step};
use std::alloc::{AllocError, Global};
use std::marker::Model;

/// For how many more events room is taken at once.
const ROOM: usize = 8;

/// What is kept of an event in the order of all: an arrival whole, and of a turn its place among the turns.
#[derive(Drop)]
pub enum Note {
    Entered(Item, Pid),
    Discarded(Item, Cause),
    Turn(usize),
}

/// What is kept of a turn by itself, and where its actions and what they did end in the lists of all turns.
#[derive(Drop)]
pub struct Head {
    pub pid: Pid,
    pub trigger: Trigger,
    pub frame: Frame,
    pub last: Option<Last>,
    pub stopped: Option<u64>,
    pub actions_end: usize,
    pub done_end: usize,
}

/// How a step ends.
#[derive(Drop)]
pub struct Last {
    pub vars: ArrayVec<Value, 8>,
    pub next: Next,
}

/// A log that is stored whole, in less memory than a list of its events takes (this project's own). An arrival takes 160 bytes,
/// and a turn 784. Each action of a turn's step takes 112 more, and what each of them did 144; in a list each event takes 2,672.
#[derive(Drop)]
pub struct Packed {
    notes: Vec<Note>,
    heads: Vec<Head>,
    actions: Vec<Action>,
    done: Vec<Done>,
    /// For how many more events there is room.
    room: usize,
}

impl Model for Packed {
    ghost use Rattle.std.specs.Prelude.{◌+◌, ◌*◌, ◌≤◌, length, vec_capacity};
    ghost use Rattle.sdl_instances_packed_log.specs.Packed.{Log, events_in, AreParts};

    ghost Value = { Log };

    ghost view = { λ p. record { events = events_in p.notes.items p.heads.items p.actions.items p.done.items; room = p.room } };

    ghost invariant = { λ p. AreParts p.notes.items p.heads.items p.actions.items p.done.items
        × (length p.notes.items + p.room ≤ vec_capacity p.notes) × (length p.heads.items + p.room ≤ vec_capacity p.heads)
        × (length p.actions.items + 8 * p.room ≤ vec_capacity p.actions) × (length p.done.items + 8 * p.room ≤ vec_capacity p.done) };
}

/// Moves all items of the short list to the end of the long one.
fn move_all<T: Default + Drop>(from: &mut ArrayVec<T, 8>, to: &mut Vec<T>)
    requires room { length to.old.items + 8 ≤ vec_capacity to.old }
    ensures items { to.new.items ≡ to.old.items ++ from.old.items }
    ensures few { length to.new.items ≤ length to.old.items + 8 }
    ensures capacity { vec_capacity to.new ≡ vec_capacity to.old }
{
    // That there are at most eight is known by it where they are moved.
    let _few = from.len();
    while from.len() > 0 {
        to.push_reserved(from.remove(0));
    }
}

/// Moves the actions of a step to the end of those of the steps before, and answers how it ends.
fn keep_step(step: &mut Step, actions: &mut Vec<Action>) -> Last
    requires room { length actions.old.items + 8 ≤ vec_capacity actions.old }
    ensures kept { KeepsStep step.old result actions.old.items actions.new.items }
    ensures few { length actions.new.items ≤ length actions.old.items + 8 }
    ensures capacity { vec_capacity actions.new ≡ vec_capacity actions.old }
{
    move_all(&mut step.actions, actions);
    Last {
        vars: step.vars.take(),
        next: step.next,
    }
}

impl LogStore for Packed {
    ghost use Rattle.std.specs.Prelude.{◌+◌, length};

    ghost events = { λ p. p.events };

    ghost capacity = { λ p. length p.events + p.room };

    fn new(alloc: Global) -> Self {
        Packed {
            notes: Vec::new(alloc),
            heads: Vec::new(alloc),
            actions: Vec::new(alloc),
            done: Vec::new(alloc),
            room: 0,
        }
    }

    fn make_room(&mut self) -> Result<(), AllocError> {
        if self.room == 0 {
            self.notes.reserve(ROOM)?;
            self.heads.reserve(ROOM)?;
            self.actions.reserve(8 * ROOM)?;
            self.done.reserve(8 * ROOM)?;
            self.room = ROOM;
        }
        Ok(())
    }

    fn enter(&mut self, item: &Item, pid: Pid) {
        self.room -= 1;
        self.notes
            .push_reserved(Note::Entered(copied_item(item), pid));
    }

    fn discard(&mut self, item: Item, cause: Cause) {
        self.room -= 1;
        self.notes.push_reserved(Note::Discarded(item, cause));
    }

    fn turn(
        &mut self,
        pid: Pid,
        trigger: Trigger,
        frame: &Frame,
        step: &mut Step,
        done: &mut ArrayVec<Done, 8>,
        stopped: Option<u64>,
    ) {
        self.room -= 1;
        self.notes.push_reserved(Note::Turn(self.heads.len()));
        let last = keep_step(step, &mut self.actions);
        move_all(done, &mut self.done);
        self.heads.push_reserved(Head {
            pid,
            trigger,
            frame: copied_frame(frame),
            last: Some(last),
            stopped,
            actions_end: self.actions.len(),
            done_end: self.done.len(),
        });
    }

    fn skip(&mut self, frame: &Frame, item: Item) {
        self.room -= 1;
        self.notes.push_reserved(Note::Turn(self.heads.len()));
        self.heads.push_reserved(Head {
            pid: frame.self_pid,
            trigger: Trigger::Implicit(item),
            frame: copied_frame(frame),
            last: None,
            stopped: None,
            actions_end: self.actions.len(),
            done_end: self.done.len(),
        });
    }

    fn stored(&self) -> &[Event] {
        &[]
    }

    fn number(&self) -> u64 {
        self.notes.len() as u64
    }
}

/// Where the actions of the turn at this place begin, and what they did.
fn begin_of(heads: &[Head], place: usize) -> (usize, usize)
    requires { place < length heads.now }
    ensures { result ≡ begins 0 0 heads.now place }
{
    if place == 0 {
        (0, 0)
    } else {
        let before = &heads[place - 1];
        (before.actions_end, before.done_end)
    }
}

/// A turn, whose actions begin at one place, and what they did at another.
fn show_turn<'a>(
    head: &'a Head,
    actions: &'a [Action],
    done: &'a [Done],
    begin: (usize, usize),
) -> Shown<'a>
    requires actions { (begin.0 ≤ head.now.actions_end) × (head.now.actions_end ≤ length actions.now) }
    requires done { (begin.1 ≤ head.now.done_end) × (head.now.done_end ≤ length done.now) }
    ensures { event_shown result ≡ turn_of head.now (slice_range actions.now begin.0 head.now.actions_end) (slice_range done.now begin.1 head.now.done_end) }
{
    let step = match &head.last {
        Some(last) => Some(ShownStep {
            actions: &actions[begin.0..head.actions_end],
            vars: &last.vars,
            next: last.next,
        }),
        None => None,
    };
    Shown::Turn {
        pid: head.pid,
        trigger: &head.trigger,
        frame: &head.frame,
        step,
        done: &done[begin.1..head.done_end],
        stopped: head.stopped,
    }
}

/// The turn at this place.
fn turn_at<'a>(
    heads: &'a [Head],
    actions: &'a [Action],
    done: &'a [Done],
    place: usize,
) -> Shown<'a>
    requires heads { AreHeads 0 0 heads.now (length actions.now) (length done.now) }
    requires within { place < length heads.now }
    ensures { slice_get (turns_from 0 0 heads.now actions.now done.now) place ≡ Some (event_shown result) }
{
    let begin = begin_of(heads, place);
    show_turn(&heads[place], actions, done, begin)
}

impl Packed {
    /// The event of this number, the earliest being 0, where there are so many. No memory is taken.
    pub fn shown(&self, number: usize) -> Option<Shown<'_>>
        ensures some { IfSome result (λ e. slice_get self.now.events number ≡ Some (event_shown e)) }
        ensures none { IfNone result (length self.now.events ≤ number) }
    {
        let Some(note) = self.notes.get(number) else {
            return None;
        };
        match note {
            Note::Entered(item, pid) => Some(Shown::Entered(item, *pid)),
            Note::Discarded(item, cause) => Some(Shown::Discarded(item, *cause)),
            Note::Turn(place) => Some(turn_at(
                self.heads.as_slice(),
                self.actions.as_slice(),
                self.done.as_slice(),
                *place,
            )),
        }
    }
}

impl Shows for Packed {
    ghost use Rattle.std.specs.Prelude.{true};

    ghost stores = { λ _. true };

    fn event(&self, number: usize) -> Option<Shown<'_>> {
        self.shown(number)
    }
}
