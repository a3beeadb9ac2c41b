//! A history that only clauses read. It takes no memory.
ghost use Rattle.std.specs.Prelude.{◌≡◌, ◌++◌, ◌∷◌, [], None, Some};
ghost use Rattle.sdl_instances_log.specs.declared.event.Event.TheVariants as event;
ghost use Rattle.sdl_instances_log.specs.declared.event.Trigger.TheVariants as trigger;

use crate::event::{Cause, Done, Trigger};
use arrayvec::ArrayVec;
use sdl_signal::{Item, Pid};
use sdl_transition_behaviour::{Frame, Step};
use std::marker::Model;
use std::snapshot::Snapshot;

/// What has happened, by the parts of its events. A value of it is made for a moment, and never kept.
#[derive(Drop)]
pub enum Past {
    Nothing,
    Entered(Snapshot<Past>, Snapshot<Item>, Pid),
    Discarded(Snapshot<Past>, Snapshot<Item>, Cause),
    Turn {
        before: Snapshot<Past>,
        pid: Pid,
        trigger: Snapshot<Trigger>,
        frame: Snapshot<Frame>,
        step: Snapshot<Step>,
        done: Snapshot<ArrayVec<Done, 8>>,
        stopped: Option<u64>,
    },
    Skipped(Snapshot<Past>, Snapshot<Frame>, Snapshot<Item>),
}

/// A history. It has no bytes, and contracts see it as the list of its events.
#[derive(Drop)]
pub struct History {
    past: Snapshot<Past>,
}

impl Model for History {
    ghost use Rattle.std.specs.Prelude.{List};
    ghost use Rattle.sdl_instances_log.specs.declared.event.Event.{Event};
    ghost use Rattle.sdl_instances_log.specs.Past.{events_of};

    ghost Value = { List Event };

    ghost view = { λ h. events_of h.past.value };
}

impl History {
    /// The history in which nothing has happened.
    pub fn new() -> History
        ensures { result ≡ [] }
    {
        History {
            past: Snapshot::of(&Past::Nothing),
        }
    }

    /// The history with one event more at its end: the item entered the port of the instance.
    pub fn and_entered(self, item: &Item, pid: Pid) -> History
        ensures { result ≡ self ++ event.Entered item.now pid ∷ [] }
    {
        let History { past } = self;
        History {
            past: Snapshot::of(&Past::Entered(past, Snapshot::of(item), pid)),
        }
    }

    /// The history with one event more at its end: the item was discarded.
    pub fn and_discarded(self, item: &Item, cause: Cause) -> History
        ensures { result ≡ self ++ event.Discarded item.now cause ∷ [] }
    {
        let History { past } = self;
        History {
            past: Snapshot::of(&Past::Discarded(past, Snapshot::of(item), cause)),
        }
    }

    /// The history with one event more at its end: the turn of these parts.
    pub fn and_turn(
        self,
        pid: Pid,
        trigger: &Trigger,
        frame: &Frame,
        step: &Step,
        done: &ArrayVec<Done, 8>,
        stopped: Option<u64>,
    ) -> History
        ensures { result ≡ self ++ event.Turn pid trigger.now frame.now (Some step.now) done.now stopped ∷ [] }
    {
        let History { past } = self;
        History {
            past: Snapshot::of(&Past::Turn {
                before: past,
                pid,
                trigger: Snapshot::of(trigger),
                frame: Snapshot::of(frame),
                step: Snapshot::of(step),
                done: Snapshot::of(done),
                stopped,
            }),
        }
    }

    /// The history with one event more at its end: the instance of the frame let the signal go by the implicit transition.
    pub fn and_skipped(self, frame: &Frame, item: &Item) -> History
        ensures { result ≡ self ++ event.Turn frame.now.self_pid (trigger.Implicit item.now) frame.now None (record { items = [] }) None ∷ [] }
    {
        let History { past } = self;
        History {
            past: Snapshot::of(&Past::Skipped(past, Snapshot::of(frame), Snapshot::of(item))),
        }
    }
}
