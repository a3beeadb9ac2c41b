//! The living instances by their places, and which of them are ready.
ghost use Rattle.std.specs.Prelude.{◌≡◌, ℕ, ◌+◌, ◌<◌, ◌≤◌, ◌++◌, ◌∷◌, [], List, Some, None, All, IsSome, OnOk, OnErr, IfOk, IfSome, length, count_by, take, slice_get, slice_set, remove, true};
ghost use Rattle.std.specs.Map.{keys_of, values_of};
ghost use Rattle.sdl_signal.specs.declared.values.Pid.{Pid};
ghost use Rattle.sdl_signal.specs.declared.values.Pid.TheVariants as pid;
ghost use Rattle.sdl_signal.specs.declared.values.Item.{Item};
ghost use Rattle.sdl_instances_processes.specs.Ports.{TakesOut};
ghost use Rattle.sdl_instances_processes.specs.Record.{Record, consumed, front_of, is_ready, saved_now};
ghost use Rattle.sdl_instances_processes.specs.Places.{is_of};
ghost use Rattle.sdl_instances_processes.specs.Ready.{IsReadyPlace};

use crate::all_by_set::places_by_set;
use crate::by_set::PlacesBySet;
use crate::instance::Instance;
use crate::ready::ReadyCounts;
use arrayvec::ArrayVec;
use indexmap::IndexMap;
use sdl_signal::{Item, Pid, SetId, StateId, Value};
use std::alloc::{AllocError, Global};
use std::marker::Model;

/// The living instances of a block in the order of their creation, with the counts of those that are ready. The places of
/// those of each set stand beside them.
#[derive(Drop)]
pub struct Instances {
    map: IndexMap<Pid, Instance>,
    ready: ReadyCounts,
    by_set: PlacesBySet,
}

impl Model for Instances {
    ghost use Rattle.std.specs.Prelude.{◌-◌, min, length};
    ghost use Rattle.std.specs.Map.{values_of};
    ghost use Rattle.indexmap.specs.IndexMap.{spare};
    ghost use Rattle.sdl_instances_processes.specs.Places.{Listed, AreBySet};
    ghost use Rattle.sdl_instances_processes.specs.Ready.{AreReadyCounts, room_of};

    ghost Value = { Listed };

    ghost view = { λ i. record { entries = i.map.entries; creatable = min (spare i.map) (min (room_of i.ready - length i.map.entries) i.by_set.room); sets = length i.by_set.lists } };

    ghost invariant = { λ i. AreReadyCounts i.ready (values_of i.map.entries) × AreBySet i.by_set.lists i.map.entries };
}

impl Instances {
    /// The instances of the map.
    pub fn of_map(alloc: Global, map: IndexMap<Pid, Instance>) -> Result<Instances, AllocError>
        ensures { IfOk result (λ i. i.entries ≡ map.entries) }
    {
        let mut ready = ReadyCounts::new(alloc);
        ready.make_room(map.len())?;
        ready.recount(map.values().as_slice());
        let by_set = places_by_set(alloc, &map)?;
        Ok(Instances { map, ready, by_set })
    }

    /// Takes room for as many instances as a turn can create, of so many sets. A refusal changes no instance.
    #[inline(always)]
    pub fn make_room(&mut self, alloc: Global, sets: usize) -> Result<(), AllocError>
        ensures same { self.new.entries ≡ self.old.entries }
        ensures room { OnOk result (8 ≤ self.new.creatable) }
        ensures sets { OnOk result (sets ≤ self.new.sets) }
    {
        self.map.reserve(8)?;
        self.ready.make_room(self.map.len() + 8)?;
        self.by_set.make_room(alloc, sets)
    }

    /// The instances by their Pids.
    pub fn map(&self) -> &IndexMap<Pid, Instance>
        ensures { result.now.entries ≡ self.now.entries }
    {
        &self.map
    }

    /// The instances in the order of their creation.
    pub fn values(&self) -> &[Instance]
        ensures { result.now ≡ values_of self.now.entries }
    {
        self.map.values().as_slice()
    }

    /// How many instances are ready.
    pub fn ready_count(&self) -> usize
        ensures { result ≡ count_by is_ready (values_of self.now.entries) }
    {
        self.ready.count()
    }

    /// The place of the ready instance before which stand k ready ones.
    pub fn ready_at(&self, k: usize) -> usize
        requires { k < count_by is_ready (values_of self.now.entries) }
        ensures { IsReadyPlace (values_of self.now.entries) k result }
    {
        self.ready.at(k)
    }

    /// How many instances of the set there are.
    pub fn number_of(&self, set: SetId) -> usize
        ensures { result ≡ count_by (is_of set) (keys_of self.now.entries) }
    {
        self.by_set.of_set(set).len()
    }

    /// The place of the instance of the set before which stand k others.
    pub fn place_of(&self, set: SetId, k: usize) -> usize
        requires { k < count_by (is_of set) (keys_of self.now.entries) }
        ensures within { result < length self.now.entries }
        ensures member { IfSome (slice_get (keys_of self.now.entries) result) (λ p. is_of set p ≡ true) }
        ensures others { count_by (is_of set) (take result (keys_of self.now.entries)) ≡ k }
    {
        self.by_set.of_set(set)[k]
    }

    /// The instance at this place.
    pub fn get(&self, place: usize) -> (Pid, &Instance)
        requires { place < length self.now.entries }
        ensures { slice_get self.now.entries place ≡ Some (result.0, result.1.now) }
    {
        match self.map.get_index(place) {
            Some((pid, instance)) => (*pid, instance),
            None => unreachable!(),
        }
    }

    /// Puts the item of the slot, which has one, at the back of the port of the instance at this place. The slot is empty after
    /// that. A refusal changes nothing.
    #[inline(always)]
    pub fn receive_from(&mut self, place: usize, slot: &mut Option<Item>) -> Result<Pid, AllocError>
        requires within { place < length self.old.entries }
        requires item { IsSome slot.old }
        ensures ok { IfOk result (λ p. IfSome slot.old (λ item. (r : Record) × (slice_get self.old.entries place ≡ Some (p, r)) × (self.new.entries ≡ slice_set self.old.entries place (p, record r { port = r.port ++ item ∷ [] })))) }
        ensures emptied { OnOk result (slot.new ≡ None) }
        ensures err { OnErr result ((self.new.entries ≡ self.old.entries) × (slot.new ≡ slot.old)) }
    {
        let (pid, instance) = self.map.pair_mut(place);
        let pid = *pid;
        let was_ready = instance.is_ready();
        match instance.receive_from(slot) {
            Ok(()) => {
                let is_ready = instance.is_ready();
                self.ready.follow(place, was_ready, is_ready);
                Ok(pid)
            }
            Err(_) => Err(AllocError),
        }
    }

    /// The item at the back of the port of the instance at this place.
    #[inline(always)]
    pub fn last_received(&self, place: usize) -> &Item
        requires within { place < length self.now.entries }
        requires waiting { (p : Pid) (r : Record) → slice_get self.now.entries place ≡ Some (p, r) → 0 < length r.port }
        ensures { (p : Pid) (r : Record) (before : List Item) (item : Item) → slice_get self.now.entries place ≡ Some (p, r) → r.port ≡ before ++ item ∷ [] → result.now ≡ item }
    {
        let (_, instance) = self.get(place);
        instance.last_received()
    }

    /// Takes the first signal that its state does not save from the port of the instance at this place, whose SENDER it sets.
    pub fn consume(&mut self, place: usize) -> Item
        requires within { place < length self.old.entries }
        requires front { (p : Pid) (r : Record) → slice_get self.old.entries place ≡ Some (p, r) → IsSome (front_of r) }
        ensures consumed { (p : Pid) (r : Record) → slice_get self.old.entries place ≡ Some (p, r) → (rest : List Item) × TakesOut (saved_now r) r.port result rest × (self.new.entries ≡ slice_set self.old.entries place (p, consumed r result rest)) }
        ensures creatable { (self.new.creatable ≡ self.old.creatable) × (self.new.sets ≡ self.old.sets) }
    {
        let (_, instance) = self.map.pair_mut(place);
        let item = instance.consume();
        let is_ready = instance.is_ready();
        self.ready.follow(place, true, is_ready);
        item
    }

    /// Gives OFFSPRING of the instance at this place this value.
    pub fn set_offspring(&mut self, place: usize, offspring: Pid)
        requires { place < length self.old.entries }
        ensures entries { (p : Pid) (r : Record) → slice_get self.old.entries place ≡ Some (p, r) → self.new.entries ≡ slice_set self.old.entries place (p, record r { offspring = offspring }) }
        ensures creatable { (self.new.creatable ≡ self.old.creatable) × (self.new.sets ≡ self.old.sets) }
    {
        let (_, instance) = self.map.pair_mut(place);
        instance.set_offspring(offspring);
    }

    /// Lets the instance at this place go on in the state with these variables.
    #[inline(always)]
    pub fn proceed(&mut self, place: usize, state: StateId, vars: &ArrayVec<Value, 8>)
        requires { place < length self.old.entries }
        ensures { (p : Pid) (r : Record) → slice_get self.old.entries place ≡ Some (p, r) → self.new.entries ≡ slice_set self.old.entries place (p, record r { state = Some state; vars = vars.now.items }) }
    {
        let (_, instance) = self.map.pair_mut(place);
        let was_ready = instance.is_ready();
        instance.proceed(state, vars);
        let is_ready = instance.is_ready();
        self.ready.follow(place, was_ready, is_ready);
    }

    /// Adds an instance of the set, with this serial number.
    pub fn add(&mut self, set: SetId, serial: u32, instance: Instance)
        requires set { set.0 < self.old.sets }
        requires room { 0 < self.old.creatable }
        requires absent { All (λ (e : Pid × Record). pid.Inst set serial ≡ e.0 → ⊥) self.old.entries }
        ensures entries { self.new.entries ≡ self.old.entries ++ (pid.Inst set serial, instance) ∷ [] }
        ensures creatable { self.old.creatable ≤ self.new.creatable + 1 }
        ensures sets { self.new.sets ≡ self.old.sets }
    {
        let pid = Pid::Inst(set, serial);
        let place = self.map.len();
        let is_ready = instance.is_ready();
        match self.map.insert(pid, instance) {
            Ok(_) => {}
            Err(_) => unreachable!(),
        }
        self.by_set.add(set, place);
        if is_ready {
            self.ready.note(place);
        }
    }

    /// Takes the instance at this place out.
    pub fn remove(&mut self, place: usize) -> (Pid, Instance)
        requires { place < length self.old.entries }
        ensures value { slice_get self.old.entries place ≡ Some result }
        ensures entries { self.new.entries ≡ remove self.old.entries place }
    {
        self.by_set.leave(place);
        match self.map.shift_remove_index(place) {
            Some(gone) => {
                self.ready.recount(self.map.values().as_slice());
                gone
            }
            None => unreachable!(),
        }
    }
}
