//! The events of a block, as its log keeps them.
use arrayvec::ArrayVec;
use sdl_signal::{Item, Origin, Pid, SignalId};
use sdl_transition_behaviour::{Frame, Step};

/// Why a signal was discarded on its arrival. (Z.101 discards a signal that no instance can take; the moment is this
/// project's own.)
#[derive(Clone, Copy, Debug, PartialEq, Eq)]
pub enum Cause {
    /// The output named no instance, and the set at the end of the route had none.
    NoInstance,
    /// The instance that the output named does not live.
    Gone,
}

/// What became of an item that arrived.
#[derive(Clone, Copy, Debug, PartialEq, Eq)]
pub enum Arrival {
    Entered(Pid),
    Discarded(Cause),
}

/// What a turn begins with.
#[derive(Debug, PartialEq, Eq, Drop)]
pub enum Trigger {
    /// The start transition.
    Start,
    /// The signal consumed, which the behaviour has a row for.
    Fire(Item),
    /// The signal consumed by the implicit transition, since the behaviour has no row for it.
    Implicit(Item),
}

/// What an action of a transition did.
#[derive(Debug, PartialEq, Eq, Drop)]
pub enum Done {
    /// An output, on its way along a route.
    Sent(Item),
    /// An output that no route fits, by its origin and its signal. It was discarded at once.
    NoRoute(Origin, SignalId),
    /// A create: the new instance, or Null where the set had as many as it may have.
    Made(Pid),
}

// It only fills lists. Its bytes are not all zeros, so that an event's are not filled by one call of the C library. For so many
// bytes that is slower than stores are.
impl Default for Done {
    fn default() -> Self {
        Done::Made(Pid::Null)
    }
}

/// An event of a block.
#[derive(Debug, Drop)]
pub enum Event {
    /// The item entered the input port of the instance.
    Entered(Item, Pid),
    Discarded(Item, Cause),
    /// An instance made a transition.
    Turn {
        pid: Pid,
        trigger: Trigger,
        /// What the instance knew, its port and SENDER already being those after the signal was consumed.
        frame: Frame,
        /// What the transition answered. The implicit transition has none.
        step: Option<Step>,
        /// What the actions did, in their order.
        done: ArrayVec<Done, 8>,
        /// After a stop, the number of signals that were in the port, which are discarded with it.
        stopped: Option<u64>,
    },
}

/// What a turn of the block did, where the items that it sent were put into a hand.
#[derive(Clone, Copy, Debug, PartialEq, Eq)]
pub enum Turn {
    /// No instance is ready: each has started, and each port is empty.
    Idle,
    /// One is ready, and the budget is used.
    Spent,
    /// The instance made a transition, and the items in the hand are to be put on their way.
    Fired(Pid),
}

/// What a turn of the block did.
#[derive(Debug, Drop)]
pub enum Turned {
    /// No instance is ready: each has started, and each port is empty.
    Idle,
    /// One is ready, and the budget is used.
    Spent,
    /// The instance made a transition, and these items are to be put on their way.
    Fired(Pid, ArrayVec<Item, 8>),
}
