//! The ends of one worker.
ghost use Rattle.std.specs.Prelude.{◌≡◌, ◌≢◌, ◌↔◌, ◌<◌, [], ◌∷◌, ◌++◌, None, Some, map, IfOk, IsTrue, MatchOption};
ghost use Rattle.sdl_routes.specs.declared.route.Station.{Station};
ghost use Rattle.sdl_routes.specs.Routes.{EachOnce};
ghost use Rattle.sdl_queue_ring.specs.RingEnds.{IsPutFrom};
ghost use Rattle.sdl_forward_ends.specs.Stations.{stations_of};
ghost use Rattle.sdl_forward_ends.specs.Ends.{put_at, taken_by, HasFeed, HasNoBacklog, IsSameEnds};
ghost use Rattle.std.specs.List.{AllByRecursion};
ghost use Rattle.sdl_forward_ends.specs.FeedsLeft.{filled};
ghost use Rattle.sdl_forward_ends.specs.Marks.{mark};
ghost use Rattle.sdl_forward_ends.specs.Flushed.{IsFlushed, IsClear, IsClearAt, AreFlushed};

use crate::Index;
use crate::marks::{Marks, mark_of};
use sdl_queue::{AnyFeed, AnyTap};
use sdl_routes::Station;
use sdl_signal::Item;
use std::alloc::{AllocError, Global};
use std::marker::Model;
use std::sync::Wait;

/// The ends of one worker: the tap of the station that it takes from, and a feed for each station that it puts at.
#[derive(Drop)]
pub struct Ends {
    pub(crate) tap: Option<(Station, AnyTap)>,
    /// `None` where the feed was given back.
    pub(crate) feeds: Vec<(Station, Option<AnyFeed>)>,
    pub(crate) index: Index,
    /// A bit for the place of each feed where it put something since that was asked last: that of the place modulo 64. No claim rests
    /// on it, nor on the next two.
    pub(crate) touched: u64,
    /// How many items it put.
    pub(crate) puts: u64,
    /// The last flush left no backlog.
    pub(crate) flushed: bool,
}

impl Model for Ends {
    ghost use Rattle.sdl_forward_ends.specs.Stations.{stations_of};
    ghost use Rattle.sdl_forward_ends.specs.Ends.{WorkerEnds};
    ghost use Rattle.sdl_forward_ends.specs.FeedsLeft.{feeds_held};
    ghost use Rattle.sdl_forward_ends.specs.Index.{IsIndexOf};

    ghost Value = { WorkerEnds };

    ghost view = { λ e. record { tap = e.tap; feeds = feeds_held e.feeds.items } };

    ghost invariant = { λ e. IsIndexOf e.index (stations_of e.feeds.items) };
}

impl Ends {
    /// The ends of one worker: its tap, and its feeds, at most one for each station.
    pub fn new(
        alloc: Global,
        tap: Option<(Station, AnyTap)>,
        feeds: Vec<(Station, AnyFeed)>,
    ) -> Result<Ends, AllocError>
        requires { EachOnce (stations_of feeds.items) }
        ensures { IfOk result (λ e. e ≡ record { tap = tap; feeds = feeds.items }) }
    {
        let index = Index::of(alloc, feeds.as_slice())?;
        let feeds = places_of(alloc, feeds)?;
        Ok(Ends {
            tap,
            feeds,
            index,
            touched: 0,
            puts: 0,
            flushed: true,
        })
    }

    /// Takes the item at the front of the worker's station into the slot, which is empty. It stays empty where the station was
    /// empty at some moment of the call, and for a worker that takes from none. Takes no memory. May wait for other threads.
    #[inline(always)]
    pub fn take_into<R: Wait>(&mut self, rt: &R, slot: &mut Option<Item>)
        requires none { slot.old ≡ None }
        ensures taken { MatchOption slot.new (taken_by self.new ≡ taken_by self.old) (λ item. taken_by self.new ≡ taken_by self.old ++ item ∷ []) }
        ensures feeds { self.new.feeds ≡ self.old.feeds }
        ensures none { self.old.tap ≡ None → slot.new ≡ None }
        ensures same { IsSameEnds self.old self.new }
    {
        match &mut self.tap {
            Some((_, tap)) => tap.take_into(rt, slot),
            None => {}
        }
    }

    /// Whether the worker has a feed at the station.
    pub fn has_feed(&self, station: Station) -> bool
        ensures { IsTrue result ↔ HasFeed self.now station }
    {
        let Some(place) = self.index.get(station) else {
            return false;
        };
        self.feeds[place].1.is_some()
    }

    /// Puts the item of the slot, where it has one, at the station, where the worker has a feed, and leaves the slot empty. Where
    /// memory is refused, the item stays there and nothing is put. May wait for other threads.
    #[inline(always)]
    pub fn put_from<R: Wait>(&mut self, rt: &R, station: Station, slot: &mut Option<Item>)
        requires { HasFeed self.old station }
        ensures put { IsPutFrom slot.old slot.new (put_at self.old station) (put_at self.new station) }
        ensures others { (s : Station) → s ≢ station → put_at self.new s ≡ put_at self.old s }
        ensures tap { self.new.tap ≡ self.old.tap }
        ensures same { IsSameEnds self.old self.new }
    {
        let Some(place) = self.index.get(station) else {
            unreachable!()
        };
        self.touched |= 1 << (place % 64);
        self.puts = self.puts.wrapping_add(1);
        match &mut self.feeds[place].1 {
            Some(feed) => feed.put_from(rt, slot),
            None => unreachable!(),
        }
    }

    /// Puts the backlogs of its rings into these, each where there is a free slot, and says whether no backlog is left. Takes no
    /// memory.
    #[inline(always)]
    pub fn flush(&mut self) -> bool
        ensures put { (s : Station) → put_at self.new s ≡ put_at self.old s }
        ensures tap { self.new.tap ≡ self.old.tap }
        ensures empty { IsTrue result ↔ HasNoBacklog self.new }
        ensures same { IsSameEnds self.old self.new }
    {
        let empty = flush_all(&mut self.feeds);
        self.flushed = empty;
        empty
    }

    /// The marks of the stations where something came to lie since this was asked last; where the last flush left a backlog, also those
    /// that were told then. It is a hint: no claim rests on it.
    pub fn touched(&mut self) -> Marks
        ensures put { (s : Station) → put_at self.new s ≡ put_at self.old s }
        ensures tap { self.new.tap ≡ self.old.tap }
        ensures same { IsSameEnds self.old self.new }
    {
        let marks = marks_of(self.feeds.as_slice(), self.touched);
        if self.flushed {
            self.touched = 0;
        }
        marks
    }

    /// How many items it put, as far as it counts. It is a hint: no claim rests on it.
    pub fn puts(&self) -> u64 {
        self.puts
    }
}

/// The marks of the stations of these feeds whose places have a bit.
fn marks_of(feeds: &[(Station, Option<AnyFeed>)], bits: u64) -> Marks {
    let mut marks = Marks::none();
    for place in 0..feeds.len() {
        if bits & 1 << (place % 64) != 0 {
            marks.add(mark_of(feeds[place].0));
        }
    }
    marks
}

/// Flushes each of these feeds, and says whether no backlog is left.
#[tactic(auto, using(crate::proofs::Flushed::all_clear))]
#[inline(always)]
fn flush_all(feeds: &mut Vec<(Station, Option<AnyFeed>)>) -> bool
    ensures flushed { AreFlushed feeds.old.items feeds.new.items }
    ensures empty { IsTrue result ↔ AllByRecursion IsClearAt feeds.new.items }
{
    let mut empty = true;
    for place in 0..feeds.len() {
        empty &= flush_one(&mut feeds[place].1);
    }
    empty
}

/// Flushes the feed, where there is one, and says whether no backlog is left.
#[inline(always)]
fn flush_one(feed: &mut Option<AnyFeed>) -> bool
    ensures flushed { IsFlushed feed.old feed.new }
    ensures empty { IsTrue result ↔ IsClear feed.new }
{
    match feed {
        Some(feed) => feed.flush(),
        None => true,
    }
}

/// A place for each of the feeds, with the feed.
fn places_of(
    alloc: Global,
    feeds: Vec<(Station, AnyFeed)>,
) -> Result<Vec<(Station, Option<AnyFeed>)>, AllocError>
    ensures { IfOk result (λ places. places.items ≡ map filled feeds.items) }
{
    let mut places = Vec::with_capacity(alloc, feeds.len())?;
    for (station, feed) in feeds {
        places.push((station, Some(feed)))?;
    }
    Ok(places)
}
