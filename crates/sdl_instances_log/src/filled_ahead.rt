//! A log that is stored whole, in places that are filled some time before an event is written there.
ghost use Rattle.std.specs.Prelude.{◌≡◌, ◌+◌, ◌<◌, ◌≤◌, true, OnOk, length, take, vec_capacity};
ghost use Rattle.sdl_instances_log.specs.declared.event.Event.TheVariants as event;
ghost use Rattle.sdl_instances_log.specs.Filled.{IsUnfilled};

use crate::copies::copied_frame;
use crate::event::{Cause, Done, Event, Trigger};
use crate::log_store::LogStore;
use crate::stored::{fill, unfilled};
use arrayvec::ArrayVec;
use sdl_instances_copies::copies::{add_values, copied_item};
use sdl_signal::{Item, Pid};
use sdl_transition_behaviour::{Frame, Step};
use std::alloc::{AllocError, Global};
use std::marker::Model;

/// How many places are filled at a time, at most: as many as there are events, and one where there is none.
const AHEAD: usize = 32;

/// A log that is stored whole, in places that are filled some time before (this project's own). So an arrival writes what it holds
/// alone, and the memory of several events is touched for the first time in one go. Contracts see its events, and how many places
/// there are for them.
#[derive(Drop)]
pub struct FilledAhead {
    /// The events, and behind them places that are filled with something else.
    places: Vec<Event>,
    /// How many events there are.
    count: usize,
}

impl Model for FilledAhead {
    ghost use Rattle.std.specs.Prelude.{◌≤◌, length, take};
    ghost use Rattle.sdl_instances_log.specs.Filled.{Places};

    ghost Value = { Places };

    ghost view = { λ f. record { events = take f.count f.places.items; places = length f.places.items } };

    ghost invariant = { λ f. f.count ≤ length f.places.items };
}

/// Writes the fields of an arrival where one stands, its values where they are to stand, and says whether one does.
#[inline(always)]
fn renews_arrival(place: &mut Event, item: &Item, pid: Pid) -> bool
    ensures { result ≡ true → place.new ≡ event.Entered item.now pid }
{
    match place {
        Event::Entered(noted, entered) => {
            noted.origin = item.origin;
            noted.stamp = item.stamp;
            noted.signal.id = item.signal.id;
            noted.signal.params.clear();
            add_values(&mut noted.signal.params, item.signal.params.as_slice());
            noted.sender = item.sender;
            noted.to = item.to;
            noted.route = item.route;
            *entered = pid;
            true
        }
        Event::Discarded(_, _) => false,
        Event::Turn {
            pid: _,
            trigger: _,
            frame: _,
            step: _,
            done: _,
            stopped: _,
        } => false,
    }
}

/// Writes an arrival over what stands there. In a place that was filled ahead for one, one stands already.
#[inline(always)]
fn write_arrival(place: &mut Event, item: &Item, pid: Pid)
    ensures { place.new ≡ event.Entered item.now pid }
{
    if !renews_arrival(place, item, pid) {
        replace(place, item, pid);
    }
}

/// Writes an arrival over another event.
#[inline(never)]
fn replace(place: &mut Event, item: &Item, pid: Pid)
    ensures { place.new ≡ event.Entered item.now pid }
{
    *place = Event::Entered(copied_item(item), pid);
}

/// Empties the lists of a turn that has a step, and says whether one stands there.
#[inline(always)]
fn empties_turn(place: &mut Event) -> bool
    ensures { result ≡ true → IsUnfilled place.new }
{
    match place {
        Event::Turn {
            pid: _,
            trigger: _,
            frame,
            step,
            done,
            stopped: _,
        } => match step {
            Some(kept) => {
                frame.vars.clear();
                kept.actions.clear();
                kept.vars.clear();
                done.clear();
                true
            }
            None => false,
        },
        Event::Entered(_, _) => false,
        Event::Discarded(_, _) => false,
    }
}

/// Makes a turn whose parts are yet to be written of what stands there. In a place that was filled ahead one stands already.
#[inline(always)]
fn blank(place: &mut Event)
    ensures { IsUnfilled place.new }
{
    if !empties_turn(place) {
        *place = unfilled();
    }
}

/// An arrival whose fields are yet to be written. What it leaves of its place is filled as that of an unfilled turn is.
fn unwritten() -> Event {
    let mut event = unfilled();
    event = Event::Entered(Item::default(), Pid::Null);
    event
}

/// Fills so many places behind those that there are, by turns for a turn and for an arrival, as these mostly come.
#[inline(never)]
fn add_places(places: &mut Vec<Event>, more: usize, turn_first: bool)
    requires room { length places.old.items + more ≤ vec_capacity places.old }
    ensures kept { take (length places.old.items) places.new.items ≡ places.old.items }
    ensures more { length places.new.items ≡ length places.old.items + more }
{
    let mut turn = turn_first;
    for _ in 0..more {
        places.push_reserved(if turn { unfilled() } else { unwritten() });
        turn = !turn;
    }
}

impl FilledAhead {
    /// Fills places for more events. A refusal changes nothing.
    #[inline(never)]
    fn fill_ahead(&mut self) -> Result<(), AllocError>
        ensures same { self.new.events ≡ self.old.events }
        ensures room { OnOk result (length self.new.events < self.new.places) }
    {
        let more = self.count.max(1).min(AHEAD);
        self.places.reserve(more)?;
        let turn_first = self.ends_in_arrival();
        add_places(&mut self.places, more, turn_first);
        Ok(())
    }

    /// Whether the last event is an arrival, behind which a turn mostly stands.
    fn ends_in_arrival(&self) -> bool {
        match self.stored().last() {
            Some(Event::Entered(_, _)) => true,
            _ => false,
        }
    }

    /// The events as a list. No memory is taken.
    pub fn into_list(self) -> Vec<Event>
        ensures { result.items ≡ self.events }
    {
        let FilledAhead { mut places, count } = self;
        places.truncate(count);
        places
    }
}

impl LogStore for FilledAhead {
    ghost use Rattle.sdl_instances_log.specs.Filled.{Places};

    ghost events = { λ f. f.events };

    ghost capacity = { λ f. f.places };

    fn new(alloc: Global) -> Self {
        FilledAhead {
            places: Vec::new(alloc),
            count: 0,
        }
    }

    #[inline(always)]
    fn make_room(&mut self) -> Result<(), AllocError> {
        if self.count < self.places.len() {
            return Ok(());
        }
        self.fill_ahead()
    }

    #[inline(never)]
    fn enter(&mut self, item: &Item, pid: Pid) {
        let place = self.count;
        write_arrival(&mut self.places[place], item, pid);
        self.count = place + 1;
    }

    fn discard(&mut self, item: Item, cause: Cause) {
        let place = self.count;
        self.places[place] = Event::Discarded(item, cause);
        self.count = place + 1;
    }

    fn turn(
        &mut self,
        pid: Pid,
        trigger: Trigger,
        frame: &Frame,
        step: &mut Step,
        done: &mut ArrayVec<Done, 8>,
        stopped: Option<u64>,
    ) {
        let place = self.count;
        blank(&mut self.places[place]);
        fill(
            &mut self.places[place],
            pid,
            trigger,
            frame,
            step,
            done,
            stopped,
        );
        self.count = place + 1;
    }

    fn skip(&mut self, frame: &Frame, item: Item) {
        let place = self.count;
        self.places[place] = Event::Turn {
            pid: frame.self_pid,
            trigger: Trigger::Implicit(item),
            frame: copied_frame(frame),
            step: None,
            done: ArrayVec::new(),
            stopped: None,
        };
        self.count = place + 1;
    }

    fn stored(&self) -> &[Event] {
        &self.places.as_slice()[..self.count]
    }

    fn number(&self) -> u64 {
        self.count as u64
    }
}
