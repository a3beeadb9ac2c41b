//! The ends of all workers come back.
ghost use Rattle.std.specs.Option.{option_to_list};
ghost use Rattle.std.specs.Prelude.{◌≡◌, ℕ, ◌+◌, ◌<◌, ◌≤◌, [], ◌∷◌, ◌++◌, None, Some, length, map, vec_len, vec_capacity, OnOk};
ghost use Rattle.std.specs.List.{AllByRecursion};
ghost use Rattle.sdl_routes.specs.declared.route.Station.{Station};
ghost use Rattle.sdl_routes.specs.Routes.{EachOnce};
ghost use Rattle.sdl_forward_ends.specs.Ends.{feed_at, tap_at, column, IsWholeAt, AreAllEndsOf, IsRejoinedAt, AreRejoined};
ghost use Rattle.sdl_forward_ends.specs.Shelves.{drop_feed, drop_tap, without, later_of};

use crate::Ends;
use sdl_queue::{AnyFeed, AnyTap, Rest, any_rejoin};
use sdl_routes::Station;
use sdl_signal::lists::{put_last, take_first};
use std::alloc::{AllocError, Global};
use std::marker::Model;
use std::sync::Wait;

/// A station, and room for the feeds of its queue.
#[derive(Drop)]
pub struct Slot {
    pub(crate) station: Station,
    pub(crate) feeds: Vec<AnyFeed>,
}

/// Room for all queues once their ends come back. Contracts see the stations, each with the number of feeds that there is room
/// for.
#[derive(Drop)]
pub struct Shelf {
    pub(crate) slots: Vec<Slot>,
    pub(crate) rests: Vec<(Station, Rest)>,
}

impl Model for Shelf {
    ghost use Rattle.std.specs.Prelude.{◌≡◌, ◌≤◌, List, [], ℕ, map, length, vec_capacity};
    ghost use Rattle.std.specs.List.{AllByRecursion};
    ghost use Rattle.sdl_routes.specs.declared.route.Station.{Station};
    ghost use Rattle.sdl_forward_ends.specs.Shelves.{room_of, IsFree};

    ghost Value = { List (Station × ℕ) };

    ghost view = { λ s. map room_of s.slots.items };

    ghost invariant = { λ s. AllByRecursion IsFree s.slots.items × (s.rests.items ≡ []) × (length s.slots.items ≤ vec_capacity s.rests) };
}

impl Shelf {
    /// No room yet.
    pub fn new(alloc: Global) -> Shelf
        ensures { result ≡ [] }
    {
        Shelf {
            slots: Vec::new(alloc),
            rests: Vec::new(alloc),
        }
    }

    /// Adds room for the queue of a station with so many feeders. What a refusal leaves is not said.
    pub fn add(&mut self, alloc: Global, station: Station, feeders: u32) -> Result<(), AllocError>
        ensures { OnOk result ((room : ℕ) × (feeders ≤ room) × (self.new ≡ self.old ++ (station, room) ∷ [])) }
    {
        self.rests.reserve(self.slots.len() + 1)?;
        let feeds = Vec::with_capacity(alloc, feeders as usize)?;
        self.slots.push(Slot { station, feeds })?;
        Ok(())
    }
}

impl Ends {
    /// Gives the feed of this station back.
    fn give_feed(&mut self, station: Station) -> Option<AnyFeed>
        ensures feed { result ≡ feed_at self.old.feeds station }
        ensures rest { self.new ≡ record { tap = self.old.tap; feeds = drop_feed station self.old.feeds } }
    {
        let place = self.index.get(station)?;
        self.feeds[place].1.take()
    }

    /// Gives the tap back, where it is of this station.
    fn give_tap(&mut self, station: Station) -> Option<AnyTap>
        ensures tap { result ≡ tap_at self.old.tap station }
        ensures rest { self.new ≡ record { tap = drop_tap station self.old.tap; feeds = self.old.feeds } }
    {
        match self.tap.take() {
            Some((at, tap)) => {
                if at == station {
                    return Some(tap);
                }
                self.tap = Some((at, tap));
                None
            }
            None => None,
        }
    }
}

/// Puts an element behind the others, where there is one, of a list that has room for it.
fn put_given<T: Drop>(list: &mut Vec<T>, given: Option<T>)
    requires { vec_len list.old + length (option_to_list given) ≤ vec_capacity list.old }
    ensures items { list.new.items ≡ list.old.items ++ option_to_list given }
    ensures room { (more : ℕ) → vec_len list.old + (length (option_to_list given) + more) ≤ vec_capacity list.old → vec_len list.new + more ≤ vec_capacity list.new }
{
    match given {
        Some(element) => put_last(list, element),
        None => {}
    }
}

/// Takes the ends of this station from one worker.
fn collect(one: &mut Ends, station: Station, feeds: &mut Vec<AnyFeed>, tap: &mut Option<AnyTap>)
    requires { vec_len feeds.old + length (option_to_list (feed_at one.old.feeds station)) ≤ vec_capacity feeds.old }
    ensures feeds { feeds.new.items ≡ feeds.old.items ++ option_to_list (feed_at one.old.feeds station) }
    ensures tap { tap.new ≡ later_of tap.old (tap_at one.old.tap station) }
    ensures rest { one.new ≡ without station one.old }
    ensures room { (more : ℕ) → vec_len feeds.old + (length (option_to_list (feed_at one.old.feeds station)) + more) ≤ vec_capacity feeds.old → vec_len feeds.new + more ≤ vec_capacity feeds.new }
{
    put_given(feeds, one.give_feed(station));
    if let Some(found) = one.give_tap(station) {
        *tap = Some(found);
    }
}

/// Takes the ends of this station from all workers, and puts its queue together again.
fn rejoin_at<R: Wait>(rt: &R, ends: &mut Vec<Ends>, slot: Slot) -> Rest
    requires empty { slot.feeds.items ≡ [] }
    requires whole { IsWholeAt slot.station ends.old.items }
    requires room { length (column slot.station ends.old.items) ≤ vec_capacity slot.feeds }
    ensures rejoined { IsRejoinedAt ends.old.items slot.station result }
    ensures others { ends.new.items ≡ map (without slot.station) ends.old.items }
{
    let Slot { station, feeds } = slot;
    let mut feeds = feeds;
    let mut tap = None;
    for number in 0..ends.len() {
        collect(&mut ends[number], station, &mut feeds, &mut tap);
    }
    let Some(tap) = tap else { unreachable!() };
    any_rejoin(rt, feeds, tap)
}

/// Puts the queues of all stations together again, in order. Takes no memory. May wait for other threads.
pub fn ends_rejoin<R: Wait>(rt: &R, ends: Vec<Ends>, shelf: Shelf) -> Vec<(Station, Rest)>
    requires once { EachOnce (map (λ x. x.0) shelf) }
    requires all { AreAllEndsOf (map (λ x. x.0) shelf) ends.items }
    requires room { AllByRecursion (λ x. length (column x.0 ends.items) ≤ x.1) shelf }
    ensures { AreRejoined ends.items (map (λ x. x.0) shelf) result.items }
{
    let Shelf { slots, rests } = shelf;
    let mut slots = slots;
    let mut rests = rests;
    let mut ends = ends;
    while slots.len() > 0 {
        let slot = take_first(&mut slots);
        let station = slot.station;
        let rest = rejoin_at(rt, &mut ends, slot);
        put_last(&mut rests, (station, rest));
    }
    rests
}
