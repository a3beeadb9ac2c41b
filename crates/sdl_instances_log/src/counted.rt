//! A log that is counted while it is kept.
ghost use Rattle.std.specs.Prelude.{◌≡◌, ◌++◌, ◌∷◌, ◌<◌, [], None, Some, OnOk, length};
ghost use Rattle.sdl_instances_log.specs.declared.event.Event.TheVariants as event;
ghost use Rattle.sdl_instances_log.specs.declared.event.Trigger.TheVariants as trigger;
ghost use Rattle.sdl_instances_log.specs.Counts.{AreCountsOf};

use crate::counts::Counts;
use crate::event::{Cause, Done, Trigger};
use crate::log_store::LogStore;
use arrayvec::ArrayVec;
use sdl_signal::{Item, Pid};
use sdl_transition_behaviour::{Frame, Step};
use std::alloc::{AllocError, Global};
use std::marker::Model;

/// A log with the counts of its events, so that nobody has to go over them. Contracts see the log.
#[derive(Drop)]
pub struct Counted<K: LogStore> {
    log: K,
    counts: Counts,
}

impl<K: LogStore> Model for Counted<K> {
    ghost use Rattle.std.specs.Prelude.{length};
    ghost use Rattle.sdl_instances_log.specs.Counts.{AreCountsOf, AreWithin};

    ghost Value = { K };

    ghost view = { λ c. c.log };

    ghost invariant = { λ c. AreCountsOf (K.events c.log) c.counts × AreWithin (length (K.events c.log)) c.counts };
}

impl<K: LogStore> Counted<K> {
    /// The log without events. No memory is taken.
    pub fn new(alloc: Global) -> Counted<K>
        ensures { K.events result ≡ [] }
    {
        Counted {
            log: K::new(alloc),
            counts: Counts::default(),
        }
    }

    /// Makes room for one more event. A refusal changes nothing.
    #[inline(always)]
    pub fn make_room(&mut self) -> Result<(), AllocError>
        ensures same { K.events self.new ≡ K.events self.old }
        ensures room { OnOk result (length (K.events self.new) < K.capacity self.new) }
    {
        self.log.make_room()
    }

    /// Notes that the item entered the port of the instance.
    #[inline(always)]
    pub fn enter(&mut self, item: &Item, pid: Pid)
        requires { length (K.events self.old) < K.capacity self.old }
        ensures { K.events self.new ≡ K.events self.old ++ event.Entered item.now pid ∷ [] }
    {
        // The number of events is one of 64 bits, so that one more can be counted.
        let _number = self.log.number();
        self.counts.add_entered();
        self.log.enter(item, pid);
    }

    /// Notes that the item was discarded.
    #[inline(always)]
    pub fn discard(&mut self, item: Item, cause: Cause)
        requires { length (K.events self.old) < K.capacity self.old }
        ensures { K.events self.new ≡ K.events self.old ++ event.Discarded item cause ∷ [] }
    {
        let _number = self.log.number();
        self.counts.add_discarded(cause);
        self.log.discard(item, cause);
    }

    /// Notes a turn, by its parts. What its transition answered and what its actions did may be taken out.
    #[inline(always)]
    pub fn turn(
        &mut self,
        pid: Pid,
        trigger: Trigger,
        frame: &Frame,
        step: &mut Step,
        done: &mut ArrayVec<Done, 8>,
        stopped: Option<u64>,
    )
        requires { length (K.events self.old) < K.capacity self.old }
        ensures { K.events self.new ≡ K.events self.old ++ event.Turn pid trigger frame.now (Some step.old) done.old stopped ∷ [] }
    {
        let _number = self.log.number();
        self.counts.add_turn(&trigger, done, stopped);
        self.log.turn(pid, trigger, frame, step, done, stopped);
    }

    /// Notes that the instance of the frame let the signal go by the implicit transition.
    pub fn skip(&mut self, frame: &Frame, item: Item)
        requires { length (K.events self.old) < K.capacity self.old }
        ensures { K.events self.new ≡ K.events self.old ++ event.Turn frame.now.self_pid (trigger.Implicit item) frame.now None (record { items = [] }) None ∷ [] }
    {
        let _number = self.log.number();
        self.counts.add_implicit();
        self.log.skip(frame, item);
    }

    /// The number of events. No memory is taken.
    #[inline(always)]
    pub fn number(&self) -> u64
        ensures { result ≡ length (K.events self.now) }
    {
        self.log.number()
    }

    /// What became of the signals of the events, counted. No memory is taken.
    pub fn counts(&self) -> Counts
        ensures { AreCountsOf (K.events self.now) result }
    {
        self.counts
    }

    /// The log.
    pub fn log(&self) -> &K
        ensures { result.now ≡ self.now }
    {
        &self.log
    }

    /// The log by itself.
    pub fn into_log(self) -> K
        ensures { result ≡ self }
    {
        self.log
    }
}
