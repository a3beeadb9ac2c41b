//! A log that is stored whole.
ghost use Rattle.std.specs.Prelude.{◌≡◌, [], Some};
ghost use Rattle.sdl_instances_log.specs.declared.event.Event.TheVariants as event;
ghost use Rattle.sdl_instances_log.specs.Filled.{IsUnfilled};

use crate::copies::copied_frame;
use crate::event::{Cause, Done, Event, Trigger};
use crate::log_store::LogStore;
use arrayvec::ArrayVec;
use sdl_instances_copies::copies::{add_values, copied_item};
use sdl_signal::{Item, Pid, Signal, StateId};
use sdl_transition_behaviour::{Frame, Next, Step};
use std::alloc::{AllocError, Global};

/// Moves all items of one list into an empty one.
#[inline(always)]
fn move_all<T: Default + Drop>(from: &mut ArrayVec<T, 8>, to: &mut ArrayVec<T, 8>)
    requires { to.old.items ≡ [] }
    ensures { to.new.items ≡ from.old.items }
{
    // That there are at most eight is known by it where they are moved.
    let _few = from.len();
    while from.len() > 0 {
        to.push(from.remove(0));
    }
}

/// Writes the frame where a blank one stands.
#[inline(always)]
fn write_frame(to: &mut Frame, frame: &Frame)
    requires { to.old.vars.items ≡ [] }
    ensures { to.new ≡ frame.now }
{
    to.self_pid = frame.self_pid;
    to.parent = frame.parent;
    to.offspring = frame.offspring;
    to.sender = frame.sender;
    to.state = frame.state;
    add_values(&mut to.vars, frame.vars.as_slice());
    match &frame.signal {
        Some(signal) => write_signal(&mut to.signal, signal),
        None => to.signal = None,
    }
}

/// Writes the signal, whose values are written where they are to stand.
#[inline(always)]
fn write_signal(to: &mut Option<Signal>, signal: &Signal)
    ensures { to.new ≡ Some signal.now }
{
    *to = Some(Signal {
        id: signal.id,
        params: ArrayVec::new(),
    });
    match to {
        Some(kept) => add_values(&mut kept.params, signal.params.as_slice()),
        None => unreachable!(),
    }
}

/// The event of a turn whose parts are yet to be written.
pub(crate) fn unfilled() -> Event
    ensures { IsUnfilled result }
{
    Event::Turn {
        pid: Pid::Null,
        trigger: Trigger::Start,
        frame: Frame {
            self_pid: Pid::Null,
            parent: Pid::Null,
            offspring: Pid::Null,
            sender: Pid::Null,
            state: None,
            vars: ArrayVec::new(),
            signal: None,
        },
        step: Some(Step {
            actions: ArrayVec::new(),
            vars: ArrayVec::new(),
            next: Next::State(StateId(0)),
        }),
        done: ArrayVec::new(),
        stopped: None,
    }
}

/// Writes the parts of a turn where they are yet to be written. What the transition answered and what its actions did is moved.
#[inline(always)]
pub(crate) fn fill(
    blank: &mut Event,
    pid: Pid,
    trigger: Trigger,
    frame: &Frame,
    step: &mut Step,
    done: &mut ArrayVec<Done, 8>,
    stopped: Option<u64>,
)
    requires { IsUnfilled blank.old }
    ensures { blank.new ≡ event.Turn pid trigger frame.now (Some step.old) done.old stopped }
{
    match blank {
        Event::Turn {
            pid: who,
            trigger: begun,
            frame: shown,
            step: answer,
            done: list,
            stopped: dropped,
        } => match answer {
            Some(kept) => {
                *who = pid;
                *begun = trigger;
                write_frame(shown, frame);
                move_all(&mut step.actions, &mut kept.actions);
                move_all(&mut step.vars, &mut kept.vars);
                kept.next = step.next;
                move_all(done, list);
                *dropped = stopped;
            }
            None => unreachable!(),
        },
        Event::Entered(_, _) => unreachable!(),
        Event::Discarded(_, _) => unreachable!(),
    }
}

impl LogStore for Vec<Event> {
    ghost use Rattle.std.specs.Prelude.{vec_capacity};

    ghost events = { λ v. v.items };

    ghost capacity = { λ v. vec_capacity v };

    fn new(alloc: Global) -> Self {
        Vec::new(alloc)
    }

    fn make_room(&mut self) -> Result<(), AllocError> {
        self.reserve(1)
    }

    // apart from its callers, since the compiler then writes the event where it stands in the log, without a copy on the way; and
    // over an unfilled turn. Else what an arrival leaves of its place would be filled by one call of the C library. For so many
    // bytes that is slower than stores are
    #[inline(never)]
    fn enter(&mut self, item: &Item, pid: Pid) {
        let mut event = unfilled();
        event = Event::Entered(copied_item(item), pid);
        self.push_reserved(event);
    }

    fn discard(&mut self, item: Item, cause: Cause) {
        let mut event = unfilled();
        event = Event::Discarded(item, cause);
        self.push_reserved(event);
    }

    fn turn(
        &mut self,
        pid: Pid,
        trigger: Trigger,
        frame: &Frame,
        step: &mut Step,
        done: &mut ArrayVec<Done, 8>,
        stopped: Option<u64>,
    ) {
        self.push_reserved(unfilled());
        let last = self.len() - 1;
        fill(&mut self[last], pid, trigger, frame, step, done, stopped);
    }

    fn skip(&mut self, frame: &Frame, item: Item) {
        let event = Event::Turn {
            pid: frame.self_pid,
            trigger: Trigger::Implicit(item),
            frame: copied_frame(frame),
            step: None,
            done: ArrayVec::new(),
            stopped: None,
        };
        self.push_reserved(event);
    }

    fn stored(&self) -> &[Event] {
        self.as_slice()
    }

    fn number(&self) -> u64 {
        self.len() as u64
    }
}
