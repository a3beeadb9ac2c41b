//! The signals of a port where some state may save a signal.
//!
//! Each signal has a queue of its own, by its number, and each item has a number of arrival. So no item is moved whatever a
//! state saves: the next is the one with the least number among those that stand first in the queue of a signal that is not
//! saved. That takes one look at each queue, and there are at most as many as the system has signals (64). A queue comes when
//! its signal comes, and it grows before anything else changes.
ghost use Rattle.std.specs.Prelude.{◌≡◌, ◌<◌, ◌^◌, ℕ, ◌≤◌, ◌++◌, ◌∷◌, [], List, OnOk, OnErr, IfSome, IfNone, IsSome, Some, None, option_copied, get_or, length, map};
ghost use Rattle.std.specs.VecDeque.{deque_len, deque_capacity};
ghost use Rattle.sdl_signal.specs.declared.values.Item.{Item as AnItem};
ghost use Rattle.sdl_transition_saves.specs.Saves.{holds};
ghost use Rattle.sdl_instances_processes.specs.Ports.{TakesOut, next_in};

use crate::found::{first_not_saved, last_of};
use crate::numbered::{ArrivalList, Numbered};
use sdl_signal::Item;
use sdl_transition_saves::SignalSet;
use std::alloc::{AllocError, Global};
use std::collections::VecDeque;
use std::marker::Model;

/// Signals in the order of their arrival, in a queue for each signal.
#[derive(Drop)]
pub struct ItemsBySignal {
    alloc: Global,
    queues: Vec<VecDeque<Numbered>>,
    /// The number of the next arrival.
    next: u64,
    /// How many signals there are.
    count: u64,
    /// All of them, for contracts.
    all: ArrivalList,
}

impl Model for ItemsBySignal {
    ghost use Rattle.std.specs.Prelude.{◌≡◌, ◌≤◌, List, length, map};
    ghost use Rattle.sdl_signal.specs.declared.values.Item.{Item};
    ghost use Rattle.sdl_instances_processes.specs.Arrivals.{AreBySignal, Rises, item_of};

    ghost Value = { List Item };

    ghost view = { λ i. map item_of i.all };

    ghost invariant = { λ i. AreBySignal (map (λ q. q.items) i.queues.items) i.all × Rises i.all i.next × (i.count ≡ length i.all) × (i.count ≤ i.next) };
}

/// Adds empty queues until there are so many. A refusal leaves those that were there as they were.
fn extend(
    alloc: Global,
    queues: &mut Vec<VecDeque<Numbered>>,
    count: usize,
) -> Result<(), AllocError>
    ensures same { (n : ℕ) → get_or (map (λ q. q.items) queues.new.items) n [] ≡ get_or (map (λ q. q.items) queues.old.items) n [] }
    ensures count { OnOk result (count ≤ length queues.new.items) }
{
    for _ in queues.len()..count {
        queues.push(VecDeque::new(alloc))?;
    }
    Ok(())
}

/// Takes room for one more in the queue at this place. A refusal leaves the queues as they were.
fn make_room(
    alloc: Global,
    queues: &mut Vec<VecDeque<Numbered>>,
    place: usize,
) -> Result<(), AllocError>
    requires { place < 2 ^ 32 }
    ensures same { (n : ℕ) → get_or (map (λ q. q.items) queues.new.items) n [] ≡ get_or (map (λ q. q.items) queues.old.items) n [] }
    ensures within { OnOk result (place < length queues.new.items) }
    ensures room { OnOk result ((d : _) → deque_len (get_or queues.new.items place d) < deque_capacity (get_or queues.new.items place d)) }
{
    extend(alloc, queues, place + 1)?;
    let queue = &mut queues[place];
    queue.reserve(1)
}

impl ItemsBySignal {
    /// No signal. No memory is taken.
    pub fn new(alloc: Global) -> ItemsBySignal
        ensures { result ≡ [] }
    {
        ItemsBySignal {
            alloc,
            queues: Vec::new(alloc),
            next: 0,
            count: 0,
            all: ArrivalList::empty(),
        }
    }

    /// Puts the item of the slot, where it has one, at the back, and leaves the slot empty. A refusal changes nothing. It comes
    /// too where the numbers of arrival have come to their end.
    pub fn receive_from(&mut self, slot: &mut Option<Item>) -> Result<(), AllocError>
        ensures ok { OnOk result ((slot.new ≡ None) × IfSome slot.old (λ item. self.new ≡ self.old ++ item ∷ []) × IfNone slot.old (self.new ≡ self.old)) }
        ensures err { OnErr result ((self.new ≡ self.old) × (slot.new ≡ slot.old)) }
    {
        let Some(item) = &*slot else {
            return Ok(());
        };
        let place = item.signal.id.0 as usize;
        if self.next == u64::MAX {
            return Err(AllocError);
        }
        make_room(self.alloc, &mut self.queues, place)?;
        let Some(item) = slot.take() else {
            unreachable!()
        };
        let arrival = Numbered {
            number: self.next,
            item,
        };
        self.all.push(&arrival);
        self.queues[place].push_back_reserved(arrival);
        self.next += 1;
        self.count += 1;
        Ok(())
    }

    /// The item at the back.
    pub fn last(&self) -> &Item
        requires { 0 < length self.now }
        ensures { (before : List AnItem) (item : AnItem) → self.now ≡ before ++ item ∷ [] → result.now ≡ item }
    {
        let Some(found) = last_of(self.queues.as_slice()) else {
            unreachable!()
        };
        let Some(arrival) = self.queues[found.place].back() else {
            unreachable!()
        };
        &arrival.item
    }

    /// The number of signals.
    pub fn len(&self) -> u64
        ensures { result ≡ length self.now }
    {
        self.count
    }

    /// The first signal that is not saved.
    pub fn first(&self, saved: SignalSet) -> Option<&Item>
        ensures { option_copied result ≡ next_in (holds saved) self.now }
    {
        let Some(found) = first_not_saved(self.queues.as_slice(), saved) else {
            return None;
        };
        let Some(arrival) = self.queues[found.place].front() else {
            unreachable!()
        };
        Some(&arrival.item)
    }

    /// Takes the first signal out that is not saved.
    pub fn take_first(&mut self, saved: SignalSet) -> Item
        requires { IsSome (next_in (holds saved) self.old) }
        ensures { TakesOut (holds saved) self.old result self.new }
    {
        let Some(found) = first_not_saved(self.queues.as_slice(), saved) else {
            unreachable!()
        };
        let Some(arrival) = self.queues[found.place].pop_front() else {
            unreachable!()
        };
        self.all.leave(found.place);
        self.count -= 1;
        arrival.item
    }
}
