//! How a block keeps its log: whole, or counted alone.
ghost use Rattle.std.specs.Prelude.{◌≡◌, ◌⊎◌, ◌++◌, ◌∷◌, ◌<◌, [], None, Some, OnOk, length};
ghost use Rattle.sdl_instances_log.specs.declared.event.Event.TheVariants as event;
ghost use Rattle.sdl_instances_log.specs.declared.event.Trigger.TheVariants as trigger;

use crate::event::{Cause, Done, Event, Trigger};
use arrayvec::ArrayVec;
use sdl_signal::{Item, Pid};
use sdl_transition_behaviour::{Frame, Step};
use std::alloc::{AllocError, Global};

/// A way to keep a log (this project's own). Whether its events are stored or not, contracts see the list of them.
pub trait LogStore: Drop {
    ghost use Rattle.std.specs.Prelude.{List, ℕ};
    ghost use Rattle.sdl_instances_log.specs.declared.event.Event.{Event};

    /// The events of the log, the earliest first.
    ghost events: { Self → List Event };

    /// How many events it can hold without taking memory.
    ghost capacity: { Self → ℕ };

    /// The log without events. No memory is taken.
    fn new(alloc: Global) -> Self
        ensures { events result ≡ [] };

    /// Makes room for one more event. A refusal changes nothing.
    fn make_room(&mut self) -> Result<(), AllocError>
        ensures same { events self.new ≡ events self.old }
        ensures room { OnOk result (length (events self.new) < capacity self.new) };

    /// Notes that the item entered the port of the instance.
    fn enter(&mut self, item: &Item, pid: Pid)
        requires { length (events self.old) < capacity self.old }
        ensures { events self.new ≡ events self.old ++ event.Entered item.now pid ∷ [] };

    /// Notes that the item was discarded.
    fn discard(&mut self, item: Item, cause: Cause)
        requires { length (events self.old) < capacity self.old }
        ensures { events self.new ≡ events self.old ++ event.Discarded item cause ∷ [] };

    /// Notes a turn, by its parts. What its transition answered and what its actions did may be taken out, which are the caller's to
    /// fill anew.
    fn turn(
        &mut self,
        pid: Pid,
        trigger: Trigger,
        frame: &Frame,
        step: &mut Step,
        done: &mut ArrayVec<Done, 8>,
        stopped: Option<u64>,
    )
        requires { length (events self.old) < capacity self.old }
        ensures { events self.new ≡ events self.old ++ event.Turn pid trigger frame.now (Some step.old) done.old stopped ∷ [] };

    /// Notes that the instance of the frame let the signal go by the implicit transition.
    fn skip(&mut self, frame: &Frame, item: Item)
        requires { length (events self.old) < capacity self.old }
        ensures { events self.new ≡ events self.old ++ event.Turn frame.now.self_pid (trigger.Implicit item) frame.now None (record { items = [] }) None ∷ [] };

    /// The events as a list, where they are stored as one: all, or none. No memory is taken.
    fn stored(&self) -> &[Event]
        ensures { (result.now ≡ events self.now) ⊎ (result.now ≡ []) };

    /// The number of events. No memory is taken.
    fn number(&self) -> u64
        ensures { result ≡ length (events self.now) };
}
