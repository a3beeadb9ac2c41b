//! A log that is counted, and not stored.
use crate::event::{Cause, Done, Event, Trigger};
use crate::log_store::LogStore;
use crate::past::History;
use arrayvec::ArrayVec;
use sdl_signal::{Item, Pid};
use sdl_transition_behaviour::{Frame, Step};
use std::alloc::{AllocError, Global};
use std::marker::Model;

/// A log whose events are not stored, and only their number is kept. It takes no memory, and has room for 2^64 - 1 events.
#[derive(Drop)]
pub struct Unstored {
    events: u64,
    history: History,
}

impl Model for Unstored {
    ghost use Rattle.std.specs.Prelude.{List, ◌≡◌, length};
    ghost use Rattle.sdl_instances_log.specs.declared.event.Event.{Event};

    ghost Value = { List Event };

    ghost view = { λ u. u.history };

    ghost invariant = { λ u. (u.events ≡ length u.history) };
}

impl LogStore for Unstored {
    ghost use Rattle.std.specs.Prelude.{◌^◌, ◌-◌};

    ghost events = { λ u. u };

    ghost capacity = { λ _. 2 ^ 64 - 1 };

    fn new(alloc: Global) -> Self {
        let _ = alloc;
        Unstored {
            events: 0,
            history: History::new(),
        }
    }

    fn make_room(&mut self) -> Result<(), AllocError> {
        if self.events < u64::MAX {
            Ok(())
        } else {
            Err(AllocError)
        }
    }

    fn enter(&mut self, item: &Item, pid: Pid) {
        self.events += 1;
        let before = std::mem::replace(&mut self.history, History::new());
        self.history = before.and_entered(item, pid);
    }

    fn discard(&mut self, item: Item, cause: Cause) {
        self.events += 1;
        let before = std::mem::replace(&mut self.history, History::new());
        self.history = before.and_discarded(&item, cause);
    }

    fn turn(
        &mut self,
        pid: Pid,
        trigger: Trigger,
        frame: &Frame,
        step: &mut Step,
        done: &mut ArrayVec<Done, 8>,
        stopped: Option<u64>,
    ) {
        self.events += 1;
        let before = std::mem::replace(&mut self.history, History::new());
        self.history = before.and_turn(pid, &trigger, frame, step, done, stopped);
    }

    fn skip(&mut self, frame: &Frame, item: Item) {
        self.events += 1;
        let before = std::mem::replace(&mut self.history, History::new());
        self.history = before.and_skipped(frame, &item);
    }

    fn stored(&self) -> &[Event] {
        &[]
    }

    fn number(&self) -> u64 {
        self.events
    }
}
