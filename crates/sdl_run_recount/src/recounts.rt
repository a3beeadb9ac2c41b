//! The ways to keep a log that can be counted again.
ghost use Rattle.std.specs.Prelude.{◌≡◌, ◌<◌, Some, length, slice_get};
ghost use Rattle.sdl_instances_packed_log.specs.Packed.{event_shown, step_shown};

use sdl_instances_log::{Event, LogStore};
use sdl_instances_packed_log::{Packed, Shown, ShownStep};
use sdl_transition_behaviour::Step;

/// A way to keep a log that stores each of its events, so that it can be counted again (this project's own). A log that is only
/// counted while it is kept, as `Unstored` is, has no such way.
pub trait Recounts: LogStore {
    ghost use Rattle.std.specs.Prelude.{length, slice_get};

    /// The event of this number, the earliest being 0, which the log has. No memory is taken.
    fn event_at(&self, number: usize) -> Shown<'_>
        requires { number < length (Self.events self.now) }
        ensures { slice_get (Self.events self.now) number ≡ Some (event_shown result) };
}

/// What the transition answered, as it is shown.
fn shown_step(step: &Option<Step>) -> Option<ShownStep<'_>>
    ensures { step_shown result ≡ step.now }
{
    match step {
        Some(answer) => Some(ShownStep {
            actions: answer.actions.as_slice(),
            vars: &answer.vars,
            next: answer.next,
        }),
        None => None,
    }
}

/// The event, as it is shown.
fn shown_of(event: &Event) -> Shown<'_>
    ensures { event_shown result ≡ event.now }
{
    match event {
        Event::Entered(item, pid) => Shown::Entered(item, *pid),
        Event::Discarded(item, cause) => Shown::Discarded(item, *cause),
        Event::Turn {
            pid,
            trigger,
            frame,
            step,
            done,
            stopped,
        } => Shown::Turn {
            pid: *pid,
            trigger,
            frame,
            step: shown_step(step),
            done: done.as_slice(),
            stopped: *stopped,
        },
    }
}

impl Recounts for Vec<Event> {
    fn event_at(&self, number: usize) -> Shown<'_> {
        shown_of(&self[number])
    }
}

impl Recounts for Packed {
    fn event_at(&self, number: usize) -> Shown<'_> {
        match self.shown(number) {
            Some(event) => event,
            None => unreachable!(),
        }
    }
}
