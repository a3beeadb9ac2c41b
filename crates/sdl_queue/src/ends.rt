//! The ends of a queue, each of which its thread owns, and the queue once they are all in one thread again.
ghost use Rattle.std.specs.Prelude.{◌≡◌, [], ◌∷◌, ◌++◌, ◌+◌, length, map, None, MatchResult, MatchOption, IfOk};
ghost use Rattle.crossbeam_queue.specs.SegTies.{IsSegPassOf};
ghost use Rattle.sdl_queue_ring.specs.RingEnds.{IsPutFrom};
ghost use Rattle.sdl_queue.specs.DelayLine.{IsDelayLine};
ghost use Rattle.sdl_queue.specs.Rule.{IsTap, IsWhole, tap_of, left_of};
ghost use Rattle.sdl_queue.specs.declared.rule.Tagged.{Tagged};
ghost use Rattle.sdl_queue.specs.Ends.{fresh_feed, fresh_feeds, put_of, items_of, IsSameFeed, IsSameTap, AreAllEnds, OfQueue, IsOfQueue};

use crate::SerialQueue;
use crate::rule::{Enrol, Feeding, Gather, Line, Pass, Queue, Settling, Tagged, Tapping};
use sdl_signal::Item;
use std::alloc::{AllocError, Global};
use std::collections::VecDeque;
use std::marker::Model;
use std::sync::{Arc, Wait};

/// An end of a queue at which its thread puts items. Contracts see which opening it is of, its number there, and what it
/// has put.
#[derive(Drop)]
pub struct Feed {
    pub(crate) line: Arc<Line, Global>,
    pub(crate) pass: Pass,
    pub(crate) number: u32,
}

impl Model for Feed {
    ghost use Rattle.std.specs.Prelude.{[]};
    ghost use Rattle.sdl_queue.specs.Ends.{FeedEnd, OfQueue};

    ghost Value = { FeedEnd };

    ghost use Rattle.std.specs.Arc.{arc_value};
    ghost use Rattle.sdl_queue.specs.DelayLine.{items_by};
    ghost use Rattle.sdl_queue.specs.Rule.{seen_by, IsFeeder};
    ghost use Rattle.crossbeam_queue.specs.SegTies.{IsSegPassOf};

    ghost view = { λ f. record { opening = OfQueue (arc_value f.line).queue.web; number = f.number; put = items_by f.number (seen_by f.pass.me.view.client); backlog = [] } };

    ghost invariant = { λ f. IsSegPassOf (arc_value f.line).queue f.pass × IsFeeder f.number f.pass.me.view.client };
}

impl Feed {
    /// Puts the item of the slot, where it has one, and leaves the slot empty. Where memory is refused, the item stays there and
    /// nothing is put. May wait for other threads.
    pub fn put_from<R: Wait>(&mut self, rt: &R, slot: &mut Option<Item>)
        ensures same { IsSameFeed self.old self.new }
        ensures put { IsPutFrom slot.old slot.new self.old.put self.new.put }
    {
        let Some(item) = slot.take() else {
            return;
        };
        let tagged = Tagged {
            feeder: self.number,
            item,
            pad: 0,
            more_pad: 0,
        };
        let queue = &self.line.queue;
        if let Err(back) = queue.push_as::<Feeding, R>(rt, &mut self.pass, tagged) {
            *slot = Some(back.item);
        }
    }

    // Its opening is a queue's.
    pub(crate) fn is_of_queue(&self)
        ensures { IsOfQueue self.now.opening }
    {
        let _number = self.number;
    }
}

/// The end of a queue at which its thread takes items. Contracts see which opening it is of, how many feeders that has, and
/// what was taken.
#[derive(Drop)]
pub struct Tap {
    pub(crate) line: Arc<Line, Global>,
    pub(crate) pass: Pass,
    pub(crate) alloc: Global,
}

impl Model for Tap {
    ghost use Rattle.sdl_queue.specs.Ends.{TapEnd, OfQueue};

    ghost Value = { TapEnd };

    ghost use Rattle.std.specs.Arc.{arc_value};
    ghost use Rattle.sdl_queue.specs.Rule.{tap_of, IsOpen};
    ghost use Rattle.crossbeam_queue.specs.SegTies.{IsSegPassOf};

    ghost view = { λ t. record { opening = OfQueue (arc_value t.line).queue.web; feeders = (tap_of t.pass.me.view.client).feeders; taken = (tap_of t.pass.me.view.client).taken } };

    ghost invariant = { λ t. IsSegPassOf (arc_value t.line).queue t.pass × IsOpen t.pass.me.view.client };
}

impl Tap {
    /// Takes the item at the front into the slot, which is empty. It stays empty only where the queue was empty at some moment
    /// of the call. Takes no memory. May wait for other threads.
    pub fn take_into<R: Wait>(&mut self, rt: &R, slot: &mut Option<Item>)
        requires none { slot.old ≡ None }
        ensures same { IsSameTap self.old self.new }
        ensures taken { MatchOption slot.new (self.new.taken ≡ self.old.taken) (λ x. (t : Tagged) × (t.item ≡ x) × (self.new.taken ≡ self.old.taken ++ t ∷ [])) }
    {
        let queue = &self.line.queue;
        let head = queue.head(&mut self.pass);
        match queue.try_pop_from::<Tapping, R>(rt, &mut self.pass, head) {
            Ok(Some(tagged)) => *slot = Some(tagged.item),
            Ok(None) => {}
            Err(_) => self.take_again(rt, slot),
        }
    }

    // Takes the item at the front where a first attempt met another that takes. There is one tap, so that this is for the proof alone.
    #[inline(never)]
    fn take_again<R: Wait>(&mut self, rt: &R, slot: &mut Option<Item>)
        requires none { slot.old ≡ None }
        ensures same { IsSameTap self.old self.new }
        ensures taken { MatchOption slot.new (self.new.taken ≡ self.old.taken) (λ x. (t : Tagged) × (t.item ≡ x) × (self.new.taken ≡ self.old.taken ++ t ∷ [])) }
    {
        if let Some(tagged) = self.line.queue.pop_as::<Tapping, R>(rt, &mut self.pass) {
            *slot = Some(tagged.item);
        }
    }

    // Its opening is a queue's.
    pub(crate) fn is_of_queue(&self)
        ensures { IsOfQueue self.now.opening }
    {
        let _alloc = self.alloc;
    }

    // The feed of one more feeder.
    fn feed(&mut self, number: u32) -> Result<Feed, AllocError>
        requires number { number ≡ self.old.feeders }
        ensures same { (self.new.opening ≡ self.old.opening) × (self.new.taken ≡ self.old.taken) }
        ensures feed { MatchResult result (λ f. (f ≡ fresh_feed self.old.opening number) × (self.new.feeders ≡ self.old.feeders + 1)) (λ _. self.new.feeders ≡ self.old.feeders) }
    {
        let line = Arc::try_clone(&self.line)?;
        let pass = self.line.queue.another::<Enrol>(&mut self.pass);
        Ok(Feed { line, pass, number })
    }
}

/// Opens a queue with this number of feeders, whose feeds come by number. Where memory is refused there is none.
pub fn queue_open<R: Wait>(
    _rt: &R,
    alloc: Global,
    feeders: u32,
) -> Result<(Vec<Feed>, Tap), AllocError>
    ensures feeds { IfOk result (λ ends. ends.0.items ≡ fresh_feeds ends.1.opening feeders) }
    ensures tap { IfOk result (λ ends. (ends.1.feeders ≡ feeders) × (ends.1.taken ≡ [])) }
    ensures all { IfOk result (λ ends. AreAllEnds ends.0.items ends.1) }
{
    let (queue, pass) = Queue::with_rule(alloc)?;
    let line = Arc::new(alloc, Line { queue })?;
    let mut tap = Tap { line, pass, alloc };
    let mut feeds = Vec::with_capacity(alloc, feeders as usize)?;
    for number in 0..feeders {
        feeds.push(tap.feed(number)?)?;
    }
    Ok((feeds, tap))
}

/// A queue all of whose ends have come back. Contracts see how many feeders it had, what each of them put, what was taken
/// and what is left.
#[derive(Drop)]
pub struct Rejoined {
    pub(crate) line: Arc<Line, Global>,
    pub(crate) pass: Pass,
    pub(crate) alloc: Global,
    pub(crate) len: usize,
}

impl Model for Rejoined {
    ghost use Rattle.sdl_queue.specs.Ends.{Account};

    ghost Value = { Account };

    ghost use Rattle.std.specs.Prelude.{◌≡◌, length};
    ghost use Rattle.std.specs.Arc.{arc_value};
    ghost use Rattle.sdl_queue.specs.Rule.{tap_of, left_of, IsWhole};
    ghost use Rattle.crossbeam_queue.specs.SegTies.{IsSegPassOf};

    ghost view = { λ r. let t = tap_of r.pass.me.view.client in record { feeders = t.feeders; puts = t.joined; taken = t.taken; left = left_of t } };

    ghost invariant = { λ r. IsSegPassOf (arc_value r.line).queue r.pass × IsWhole r.pass.me.view.client × (r.len ≡ length (left_of (tap_of r.pass.me.view.client))) };
}

// A feed that has come back.
pub(crate) fn gather(queue: &Queue, pass: &mut Pass, feed: Feed)
    requires pass { IsSegPassOf queue.now pass.old × IsTap pass.old.me.view.client }
    requires feed { feed.opening ≡ OfQueue queue.now.web }
    ensures pass { IsSegPassOf queue.now pass.new × IsTap pass.new.me.view.client }
    ensures joined { let t = tap_of pass.old.me.view.client in let u = tap_of pass.new.me.view.client in (u.feeders ≡ t.feeders) × (u.taken ≡ t.taken) × (u.joined ≡ t.joined ++ put_of feed ∷ []) }
{
    let Feed {
        line,
        pass: theirs,
        number: _,
    } = feed;
    queue.absorb::<Gather>(pass, theirs);
    drop(line);
}

// Takes the item at the front of a queue all of whose feeds have come back.
fn take_left<R: Wait>(rt: &R, queue: &Queue, pass: &mut Pass) -> Option<Tagged>
    requires pass { IsSegPassOf queue.now pass.old × IsWhole pass.old.me.view.client }
    ensures pass { IsSegPassOf queue.now pass.new × IsWhole pass.new.me.view.client }
    ensures left { MatchOption result (left_of (tap_of pass.old.me.view.client) ≡ []) (λ x. left_of (tap_of pass.old.me.view.client) ≡ x ∷ left_of (tap_of pass.new.me.view.client)) }
{
    queue.pop_as::<Settling, R>(rt, pass)
}

/// Puts the ends of one opening together again, in whatever threads they were used, the feeds in any order. Takes no memory.
/// May wait for other threads.
pub fn rejoin<R: Wait>(rt: &R, feeds: Vec<Feed>, tap: Tap) -> Rejoined
    requires { AreAllEnds feeds.items tap }
    ensures ends { (result.feeders ≡ tap.feeders) × (result.puts ≡ map put_of feeds.items) × (result.taken ≡ tap.taken) }
    ensures delay_line { IsDelayLine result.feeders result.puts result.taken result.left }
{
    let Tap {
        line,
        mut pass,
        alloc,
    } = tap;
    for feed in feeds {
        gather(&line.queue, &mut pass, feed);
    }
    let len = line.queue.len_as::<Settling, R>(rt, &mut pass);
    Rejoined {
        line,
        pass,
        alloc,
        len,
    }
}

impl Rejoined {
    /// How many items are left. Takes no memory.
    pub fn len(&self) -> usize
        ensures { result ≡ length self.now.left }
    {
        self.len
    }

    /// What is left, in a queue of one thread. `Err` hands back the same where memory was refused. May wait for other threads.
    pub fn into_serial<R: Wait>(self, rt: &R) -> Result<SerialQueue, (Rejoined, AllocError)>
        ensures { MatchResult result (λ q. q ≡ items_of self.left) (λ back. back.0 ≡ self) }
    {
        let Ok(mut items) = VecDeque::with_capacity(self.alloc, self.len) else {
            return Err((self, AllocError));
        };
        let Rejoined {
            line,
            mut pass,
            alloc: _,
            len,
        } = self;
        for _ in 0..len {
            let Some(tagged) = take_left(rt, &line.queue, &mut pass) else {
                unreachable!()
            };
            items.push_back_reserved(tagged.item);
        }
        Ok(SerialQueue::of(items))
    }
}
