//! The places of the living instances of each set.
ghost use Rattle.std.specs.Prelude.{◌≡◌, ℕ, ◌+◌, ◌<◌, ◌≤◌, ◌++◌, ◌∷◌, [], OnOk, length, map, get_or, slice_set, vec_capacity};
ghost use Rattle.std.specs.List.{AllByRecursion};
ghost use Rattle.sdl_instances_processes.specs.Places.{left, lowered};

use sdl_signal::SetId;
use std::alloc::{AllocError, Global};
use std::marker::Model;

/// How many more places each list has room for, once room was taken.
const ROOM: usize = 16;

/// For each set, by its number, the places of its living instances in order. A set with no list has none. Each list has
/// room for so many more places.
#[derive(Drop)]
pub struct PlacesBySet {
    lists: Vec<Vec<usize>>,
    room: usize,
}

impl Model for PlacesBySet {
    ghost use Rattle.std.specs.Prelude.{◌+◌, ◌≤◌, length, map, vec_capacity};
    ghost use Rattle.std.specs.List.{AllByRecursion};
    ghost use Rattle.sdl_instances_processes.specs.Places.{BySet};

    ghost Value = { BySet };

    ghost view = { λ b. record { lists = map (λ v. v.items) b.lists.items; room = b.room } };

    ghost invariant = { λ b. AllByRecursion (λ v. length v.items + b.room ≤ vec_capacity v) b.lists.items };
}

/// Adds empty lists until there are so many. A refusal leaves those that were there as they were.
fn extend(alloc: Global, lists: &mut Vec<Vec<usize>>, count: usize) -> Result<(), AllocError>
    ensures same { (n : ℕ) → get_or (map (λ v. v.items) lists.new.items) n [] ≡ get_or (map (λ v. v.items) lists.old.items) n [] }
    ensures count { OnOk result (count ≤ length lists.new.items) }
{
    for _ in lists.len()..count {
        lists.push(Vec::new(alloc))?;
    }
    Ok(())
}

/// Takes room for so many more places in each list. A refusal changes no list.
fn reserve_each(lists: &mut Vec<Vec<usize>>, room: usize) -> Result<(), AllocError>
    ensures same { map (λ v. v.items) lists.new.items ≡ map (λ v. v.items) lists.old.items }
    ensures room { OnOk result (AllByRecursion (λ v. length v.items + room ≤ vec_capacity v) lists.new.items) }
{
    for list in lists.iter_mut() {
        list.reserve(room)?;
    }
    Ok(())
}

/// The place, once the one at `gone` is gone.
fn lowered(place: usize, gone: usize) -> usize
    ensures { result ≡ lowered gone place }
{
    if gone < place { place - 1 } else { place }
}

/// Lowers the places after this one by 1.
fn lower(places: &mut Vec<usize>, gone: usize)
    ensures items { places.new.items ≡ map (lowered gone) places.old.items }
    ensures capacity { vec_capacity places.new ≡ vec_capacity places.old }
{
    for place in places.iter_mut() {
        *place = lowered(*place, gone);
    }
}

/// Takes the place out of the list, and lowers those after it by 1.
fn leave(places: &mut Vec<usize>, gone: usize)
    ensures items { places.new.items ≡ left gone places.old.items }
    ensures room { (length places.new.items ≤ length places.old.items) × (vec_capacity places.new ≡ vec_capacity places.old) }
{
    places.retain(|place| *place != gone);
    lower(places, gone);
}

/// Takes the place out of each list, and lowers those after it by 1.
fn leave_each(lists: &mut Vec<Vec<usize>>, gone: usize)
    ensures items { map (λ v. v.items) lists.new.items ≡ map (left gone) (map (λ v. v.items) lists.old.items) }
    ensures room { (room : ℕ) → AllByRecursion (λ v. length v.items + room ≤ vec_capacity v) lists.old.items → AllByRecursion (λ v. length v.items + room ≤ vec_capacity v) lists.new.items }
{
    for list in lists.iter_mut() {
        leave(list, gone);
    }
}

impl PlacesBySet {
    /// No list.
    pub fn new(alloc: Global) -> PlacesBySet
        ensures { result.lists ≡ [] }
    {
        PlacesBySet {
            lists: Vec::new(alloc),
            room: 0,
        }
    }

    /// Takes room for as many places in each list as a turn can create instances, and lists for so many sets. A refusal
    /// changes no list.
    pub fn make_room(&mut self, alloc: Global, sets: usize) -> Result<(), AllocError>
        ensures same { (n : ℕ) → get_or self.new.lists n [] ≡ get_or self.old.lists n [] }
        ensures room { OnOk result (8 ≤ self.new.room) }
        ensures sets { OnOk result (sets ≤ length self.new.lists) }
    {
        if self.lists.len() < sets {
            self.room = 0;
            extend(alloc, &mut self.lists, sets)?;
        }
        if self.room < 8 {
            self.room = 0;
            reserve_each(&mut self.lists, ROOM)?;
            self.room = ROOM;
        }
        Ok(())
    }

    /// The places of the set.
    pub fn of_set(&self, set: SetId) -> &[usize]
        ensures { result.now ≡ get_or self.now.lists set.0 [] }
    {
        match self.lists.get(set.0 as usize) {
            Some(list) => list.as_slice(),
            None => &[],
        }
    }

    /// Adds a place behind those of the set.
    pub fn add(&mut self, set: SetId, place: usize)
        requires set { set.0 < length self.old.lists }
        requires room { 0 < self.old.room }
        ensures lists { self.new.lists ≡ slice_set self.old.lists set.0 (get_or self.old.lists set.0 [] ++ place ∷ []) }
        ensures room { self.old.room ≡ self.new.room + 1 }
    {
        let list = &mut self.lists[set.0 as usize];
        match list.push(place) {
            Ok(()) => {}
            Err(_) => unreachable!(),
        }
        self.room -= 1;
    }

    /// Takes a place out of its list, and lowers those after it by 1 in each list.
    pub fn leave(&mut self, gone: usize)
        ensures { self.new.lists ≡ map (left gone) self.old.lists }
    {
        leave_each(&mut self.lists, gone);
    }
}
