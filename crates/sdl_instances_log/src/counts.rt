//! What is counted of a block's log.
ghost use Rattle.std.specs.Prelude.{◌≡◌, ◌+◌, ◌-◌, ◌^◌, ◌<◌, ◌≤◌, ℕ, Option, None, [], length, sum_by};
ghost use Rattle.sdl_signal.specs.declared.values.Pid.{Pid};
ghost use Rattle.sdl_signal.specs.declared.values.Item.{Item};
ghost use Rattle.sdl_transition_behaviour.specs.declared.step.Frame.{Frame};
ghost use Rattle.sdl_transition_behaviour.specs.declared.step.Step.{Step};
ghost use Rattle.sdl_instances_log.specs.declared.event.Event.TheVariants as event;
ghost use Rattle.sdl_instances_log.specs.declared.event.Trigger.TheVariants as trigger;
ghost use Rattle.sdl_instances_log.specs.Counts.{AddsEvent, AreWithin, CanCount, output_by, no_route_by};

use crate::event::{Cause, Done, Trigger};
use arrayvec::ArrayVec;

/// What became of a block's signals, counted (this project's own). Up to 2^64 events fill no count.
#[derive(Clone, Copy, Debug, Default, PartialEq, Eq)]
pub struct Counts {
    /// The outputs, with or without a route.
    pub output: u128,
    /// The outputs that no route fits.
    pub no_route: u128,
    /// The signals that entered an input port.
    pub entered: u128,
    /// The signals that were discarded since their set had no living instance.
    pub no_instance: u128,
    /// The signals that were discarded since the instance that TO named did not live.
    pub gone: u128,
    /// The signals that were consumed by a row.
    pub fired: u128,
    /// The signals that were consumed by the implicit transition.
    pub implicit: u128,
    /// The signals that were in the port of an instance when it stopped.
    pub stopped: u128,
}

impl Counts {
    /// Counts a signal that entered a port.
    pub(crate) fn add_entered(&mut self)
        requires { CanCount self.old }
        ensures adds { (i : Item) (p : Pid) → AddsEvent self.old (event.Entered i p) self.new }
        ensures within { (n : ℕ) → AreWithin n self.old → AreWithin (n + 1) self.new }
    {
        self.entered += 1;
    }

    /// Counts a signal that was discarded on its arrival.
    pub(crate) fn add_discarded(&mut self, cause: Cause)
        requires { CanCount self.old }
        ensures adds { (i : Item) → AddsEvent self.old (event.Discarded i cause) self.new }
        ensures within { (n : ℕ) → AreWithin n self.old → AreWithin (n + 1) self.new }
    {
        match cause {
            Cause::NoInstance => self.no_instance += 1,
            Cause::Gone => self.gone += 1,
        }
    }

    /// Counts a signal that was consumed by the implicit transition.
    pub(crate) fn add_implicit(&mut self)
        requires { CanCount self.old }
        ensures adds { (p : Pid) (i : Item) (f : Frame) → AddsEvent self.old (event.Turn p (trigger.Implicit i) f None (record { items = [] }) None) self.new }
        ensures within { (n : ℕ) → AreWithin n self.old → AreWithin (n + 1) self.new }
    {
        self.implicit += 1;
    }

    /// Counts what a turn consumed, put out and dropped.
    pub(crate) fn add_turn(
        &mut self,
        trigger: &Trigger,
        done: &ArrayVec<Done, 8>,
        stopped: Option<u64>,
    )
        requires { CanCount self.old }
        ensures adds { (p : Pid) (f : Frame) (s : Option Step) → AddsEvent self.old (event.Turn p trigger.now f s done.now stopped) self.new }
        ensures within { (n : ℕ) → AreWithin n self.old → AreWithin (n + 1) self.new }
    {
        match trigger {
            Trigger::Start => {}
            Trigger::Fire(_) => self.fired += 1,
            Trigger::Implicit(_) => self.implicit += 1,
        }
        let (outputs, no_route) = numbers_of_outputs(done.as_slice());
        self.output += outputs as u128;
        self.no_route += no_route as u128;
        if let Some(dropped) = stopped {
            self.stopped += dropped as u128;
        }
    }
}

/// The number of outputs, with or without a route, and of those that no route fits.
fn numbers_of_outputs(done: &[Done]) -> (u64, u64)
    ensures outputs { (result.0 ≡ sum_by output_by done.now) × (result.0 ≤ length done.now) }
    ensures no_route { (result.1 ≡ sum_by no_route_by done.now) × (result.1 ≤ length done.now) }
{
    let mut outputs: u64 = 0;
    let mut no_route: u64 = 0;
    for one in done {
        match one {
            Done::Sent(_) => outputs += 1,
            Done::NoRoute(_, _) => {
                outputs += 1;
                no_route += 1;
            }
            Done::Made(_) => {}
        }
    }
    (outputs, no_route)
}
