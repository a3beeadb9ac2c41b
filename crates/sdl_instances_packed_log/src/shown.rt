//! The events of a log that is kept in parts, as they are shown.
ghost use Rattle.std.specs.Prelude.{◌≡◌, ◌≤◌, Some, IfSome, IfNone, true, length, slice_get};
ghost use Rattle.sdl_instances_packed_log.specs.Packed.{event_shown};

use arrayvec::ArrayVec;
use sdl_instances_log::{Cause, Done, LogStore, Trigger, Unstored};
use sdl_signal::{Item, Pid, Value};
use sdl_transition_behaviour::{Action, Frame, Next};

/// An event of a block, whose parts stay where they are kept.
#[derive(Debug, Drop)]
pub enum Shown<'a> {
    /// The item entered the input port of the instance.
    Entered(&'a Item, Pid),
    Discarded(&'a Item, Cause),
    /// An instance made a transition.
    Turn {
        pid: Pid,
        trigger: &'a Trigger,
        frame: &'a Frame,
        /// What the transition answered. The implicit transition has none.
        step: Option<ShownStep<'a>>,
        /// What the actions did, in their order.
        done: &'a [Done],
        /// After a stop, the number of signals that were in the port.
        stopped: Option<u64>,
    },
}

/// What a transition answered.
#[derive(Debug, Drop)]
pub struct ShownStep<'a> {
    pub actions: &'a [Action],
    pub vars: &'a ArrayVec<Value, 8>,
    pub next: Next,
}

/// A way to keep a log that shows its events one by one, where it stores them.
pub trait Shows: LogStore {
    ghost use Rattle.std.specs.Prelude.{Bool};

    /// Whether the log stores its events.
    ghost stores: { Self → Bool };

    /// The event of this number, the earliest being 0. There is none where the log has not so many, or does not store them. No
    /// memory is taken.
    fn event(&self, number: usize) -> Option<Shown<'_>>
        ensures some { IfSome result (λ e. slice_get (Self.events self.now) number ≡ Some (event_shown e)) }
        ensures none { stores self.now ≡ true → IfNone result (length (Self.events self.now) ≤ number) };
}

impl Shows for Unstored {
    ghost use Rattle.std.specs.Prelude.{false};

    ghost stores = { λ _. false };

    fn event(&self, number: usize) -> Option<Shown<'_>> {
        let _ = number;
        None
    }
}
