//! The ends of a queue or of a ring, by one name: who puts, takes and puts together again need not know which it is.
ghost use Rattle.std.specs.Prelude.{◌≡◌, ◌↔◌, [], ◌∷◌, ◌++◌, map, None, MatchOption, IfOk, IsTrue};
ghost use Rattle.std.specs.Arc.{arc_value};
ghost use Rattle.crossbeam_queue.specs.SegTies.{IsSegPassOf};
ghost use Rattle.sdl_queue_ring.specs.RingEnds.{IsPutFrom};
ghost use Rattle.sdl_queue.specs.DelayLine.{IsDelayLine};
ghost use Rattle.sdl_queue.specs.declared.rule.Tagged.{Tagged};
ghost use Rattle.sdl_queue.specs.Rule.{IsTap, tap_of};
ghost use Rattle.sdl_queue.specs.Ends.{OfQueue, OfRing, IsOfQueue, IsOfRing, fresh_feeds, put_of, put_list, IsSameFeed, IsSameTap, AreAllEnds};
ghost use Rattle.sdl_queue.specs.Any.{queue_feed, tap_end};
ghost use Rattle.sdl_queue.specs.declared.any.TapKind.TheVariants as tap_kind;
ghost use Rattle.sdl_queue.specs.Rest.{AreRejoinedAs};

use crate::ends::gather;
use crate::rule::{Pass, Queue, Settling};
use crate::{
    Feed, Rejoined, Rest, RingFeed, RingRejoined, RingTap, Tap, queue_open, ring_open, ring_rejoin,
};
use sdl_signal::Item;
use std::alloc::{AllocError, Global};
use std::marker::Model;
use std::sync::Wait;

/// How many items a ring has room for. What is put beyond that waits in its feeder's backlog.
const RING_SLOTS: usize = 64;

#[derive(Drop)]
pub(crate) enum FeedKind {
    Queue(Feed),
    Ring(RingFeed),
}

/// An end at which its thread puts items: of a queue, or of a ring.
#[derive(Drop)]
pub struct AnyFeed {
    pub(crate) kind: FeedKind,
}

impl Model for AnyFeed {
    ghost use Rattle.sdl_queue.specs.Ends.{FeedEnd};
    ghost use Rattle.sdl_queue.specs.Any.{feed_end};

    ghost Value = { FeedEnd };

    ghost view = { λ f. feed_end f.kind };
}

impl AnyFeed {
    /// Puts the item of the slot, where it has one, and leaves the slot empty. Where memory is refused, the item stays there and
    /// nothing is put. May wait for other threads, but at a ring.
    #[inline(always)]
    pub fn put_from<R: Wait>(&mut self, rt: &R, slot: &mut Option<Item>)
        ensures same { IsSameFeed self.old self.new }
        ensures put { IsPutFrom slot.old slot.new self.old.put self.new.put }
    {
        match &mut self.kind {
            FeedKind::Queue(feed) => feed.put_from(rt, slot),
            FeedKind::Ring(feed) => feed.put_from(slot),
        }
    }

    /// Puts a ring's backlog into the ring, whole, where there is a free slot, and says whether no backlog is left. Takes no memory.
    #[inline(always)]
    pub fn flush(&mut self) -> bool
        ensures same { IsSameFeed self.old self.new }
        ensures put { self.new.put ≡ self.old.put }
        ensures empty { IsTrue result ↔ (self.new.backlog ≡ []) }
    {
        match &mut self.kind {
            FeedKind::Queue(_) => true,
            FeedKind::Ring(feed) => feed.flush(),
        }
    }
}

#[derive(Drop)]
pub(crate) enum TapKind {
    Queue(Tap),
    Ring(RingTap),
}

/// The end at which its thread takes items: of a queue, or of a ring.
#[derive(Drop)]
pub struct AnyTap {
    pub(crate) kind: TapKind,
}

impl Model for AnyTap {
    ghost use Rattle.sdl_queue.specs.Ends.{TapEnd};
    ghost use Rattle.sdl_queue.specs.Any.{tap_end};

    ghost Value = { TapEnd };

    ghost view = { λ t. tap_end t.kind };
}

impl AnyTap {
    /// Takes the item at the front into the slot, which is empty. It stays empty only where there was none at some moment of the
    /// call. Takes no memory. May wait for other threads, but at a ring.
    #[inline(always)]
    pub fn take_into<R: Wait>(&mut self, rt: &R, slot: &mut Option<Item>)
        requires none { slot.old ≡ None }
        ensures same { IsSameTap self.old self.new }
        ensures taken { MatchOption slot.new (self.new.taken ≡ self.old.taken) (λ x. (t : Tagged) × (t.item ≡ x) × (self.new.taken ≡ self.old.taken ++ t ∷ [])) }
    {
        match &mut self.kind {
            TapKind::Queue(tap) => tap.take_into(rt, slot),
            TapKind::Ring(tap) => tap.take_into(slot),
        }
    }
}

/// Opens a queue with this number of feeders, whose feeds come by number. Where memory is refused there is none.
#[tactic(auto, using(crate::proofs::Anys::fresh_queue))]
pub fn any_queue<R: Wait>(
    rt: &R,
    alloc: Global,
    feeders: u32,
) -> Result<(Vec<AnyFeed>, AnyTap), AllocError>
    ensures feeds { IfOk result (λ ends. ends.0.items ≡ fresh_feeds ends.1.opening feeders) }
    ensures tap { IfOk result (λ ends. (ends.1.feeders ≡ feeders) × (ends.1.taken ≡ [])) }
    ensures kind { IfOk result (λ ends. IsOfQueue ends.1.opening) }
{
    let (feeds, tap) = queue_open(rt, alloc, feeders)?;
    tap.is_of_queue();
    let feeds = each_any(alloc, feeds)?;
    let kind = TapKind::Queue(tap);
    Ok((feeds, AnyTap { kind }))
}

fn each_any(alloc: Global, feeds: Vec<Feed>) -> Result<Vec<AnyFeed>, AllocError>
    ensures { IfOk result (λ all. all.items ≡ map queue_feed feeds.items) }
{
    let mut all = Vec::with_capacity(alloc, feeds.len())?;
    for feed in feeds {
        let kind = FeedKind::Queue(feed);
        all.push(AnyFeed { kind })?;
    }
    Ok(all)
}

/// Opens a ring, with the feed of its one feeder. Where memory is refused there is none.
pub fn any_ring(alloc: Global) -> Result<(Vec<AnyFeed>, AnyTap), AllocError>
    ensures feeds { IfOk result (λ ends. ends.0.items ≡ fresh_feeds ends.1.opening 1) }
    ensures tap { IfOk result (λ ends. (ends.1.feeders ≡ 1) × (ends.1.taken ≡ [])) }
    ensures kind { IfOk result (λ ends. IsOfRing ends.1.opening) }
{
    let (feed, tap) = ring_open(alloc, RING_SLOTS)?;
    let mut feeds = Vec::with_capacity(alloc, 1)?;
    let kind = FeedKind::Ring(feed);
    feeds.push(AnyFeed { kind })?;
    let kind = TapKind::Ring(tap);
    Ok((feeds, AnyTap { kind }))
}

/// Puts the ends of one opening together again, in whatever threads they were used, the feeds in any order. Takes no memory.
/// May wait for other threads, but at a ring.
#[tactic(auto, using(crate::proofs::Anys::ring_rejoined, crate::proofs::Anys::queue_rejoined))]
pub fn any_rejoin<R: Wait>(rt: &R, feeds: Vec<AnyFeed>, tap: AnyTap) -> Rest
    requires { AreAllEnds feeds.items tap }
    ensures { AreRejoinedAs feeds.items tap result }
{
    let AnyTap { kind } = tap;
    match kind {
        TapKind::Queue(queue) => Rest::Ruled(rejoin_queue(rt, feeds, queue)),
        TapKind::Ring(ring) => Rest::Ring(rejoin_ring(feeds, ring)),
    }
}

// A feed of this queue that has come back.
fn gather_any(queue: &Queue, pass: &mut Pass, feed: AnyFeed)
    requires pass { IsSegPassOf queue.now pass.old × IsTap pass.old.me.view.client }
    requires feed { feed.opening ≡ OfQueue queue.now.web }
    ensures pass { IsSegPassOf queue.now pass.new × IsTap pass.new.me.view.client }
    ensures joined { let t = tap_of pass.old.me.view.client in let u = tap_of pass.new.me.view.client in (u.feeders ≡ t.feeders) × (u.taken ≡ t.taken) × (u.joined ≡ t.joined ++ put_of feed ∷ []) }
{
    match feed.kind {
        FeedKind::Queue(feed) => gather(queue, pass, feed),
        FeedKind::Ring(_) => unreachable!(),
    }
}

fn rejoin_queue<R: Wait>(rt: &R, feeds: Vec<AnyFeed>, tap: Tap) -> Rejoined
    requires { AreAllEnds feeds.items tap }
    ensures ends { (result.feeders ≡ tap.feeders) × (result.puts ≡ map put_of feeds.items) × (result.taken ≡ tap.taken) }
    ensures delay_line { IsDelayLine result.feeders result.puts result.taken result.left }
    ensures kind { IsOfQueue tap.opening }
{
    let Tap {
        line,
        mut pass,
        alloc,
    } = tap;
    for feed in feeds {
        gather_any(&line.queue, &mut pass, feed);
    }
    let len = line.queue.len_as::<Settling, R>(rt, &mut pass);
    Rejoined {
        line,
        pass,
        alloc,
        len,
    }
}

fn rejoin_ring(mut feeds: Vec<AnyFeed>, tap: RingTap) -> RingRejoined
    requires { AreAllEnds feeds.items (tap_end (tap_kind.Ring tap)) }
    ensures ends { (put_list 0 result.put ∷ [] ≡ map put_of feeds.items) × (result.taken ≡ tap.taken) }
    ensures delay_line { result.put ≡ result.taken ++ result.left }
{
    let Some(feed) = feeds.pop() else {
        unreachable!()
    };
    match feed.kind {
        FeedKind::Ring(feed) => ring_rejoin(feed, tap),
        FeedKind::Queue(feed) => {
            feed.is_of_queue();
            unreachable!()
        }
    }
}
