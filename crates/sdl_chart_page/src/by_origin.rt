//! A value for each output of a run.
ghost use Rattle.std.specs.Prelude.{◌≡◌, ◌<◌, ℕ, [], ◌∷◌, ◌++◌, IfOk, OnOk, IsSome, length, map, replicate, slice_get, slice_set};
ghost use Rattle.sdl_chart_page.specs.Origins.{value_at, with_value, GrowsBy, IsLonger};

use sdl_signal::Origin;
use std::alloc::{AllocError, Global};
use std::marker::Model;

/// A value for each output of a run, by the output's origin (this project's own). Contracts see a list of values for each worker.
#[derive(Drop)]
pub struct ByOrigin<T> {
    alloc: Global,
    lists: Vec<Vec<T>>,
}

impl<T> Model for ByOrigin<T> {
    ghost use Rattle.std.specs.Prelude.{List, map};

    ghost Value = { List (List T) };

    ghost view = { λ b. map (λ v. v.items) b.lists.items };
}

/// So many times the same value.
fn repeated<T: Copy>(alloc: Global, count: usize, value: T) -> Result<Vec<T>, AllocError>
    ensures { IfOk result (λ list. list.items ≡ replicate count value) }
{
    let mut list = Vec::with_capacity(alloc, count)?;
    for _number in 0..count {
        list.push(value)?;
    }
    Ok(list)
}

/// Adds this value to the list until it has a place of this number.
fn reach_place<T: Copy>(list: &mut Vec<T>, place: usize, value: T) -> Result<(), AllocError>
    ensures room { OnOk result (place < length list.new.items) }
    ensures longer { IsLonger value list.old.items list.new.items }
{
    while list.len() <= place {
        list.push(value)?;
    }
    Ok(())
}

/// Adds workers without outputs until there is one of this number.
fn reach_worker<T: Copy>(
    lists: &mut Vec<Vec<T>>,
    alloc: Global,
    worker: usize,
) -> Result<(), AllocError>
    ensures room { OnOk result (worker < length lists.new.items) }
    ensures same { (o : Origin) → value_at (map (λ v. v.items) lists.new.items) o ≡ value_at (map (λ v. v.items) lists.old.items) o }
{
    while lists.len() <= worker {
        lists.push(Vec::new(alloc))?;
    }
    Ok(())
}

/// The value at this place, where the list has one.
fn read<T: Copy>(list: &[T], place: usize) -> Option<T>
    ensures { result ≡ slice_get list.now place }
{
    list.get(place).copied()
}

/// Writes the value at this place, where the list has one.
fn write<T: Copy>(list: &mut Vec<T>, place: usize, value: T)
    ensures { list.new.items ≡ slice_set list.old.items place value }
{
    if place < list.len() {
        list[place] = value;
    }
}

impl<T: Copy> ByOrigin<T> {
    /// No worker yet.
    pub fn new(alloc: Global) -> ByOrigin<T>
        ensures { result ≡ [] }
    {
        ByOrigin {
            alloc,
            lists: Vec::new(alloc),
        }
    }

    /// Adds the next worker, with this value for each of so many outputs. A refusal changes nothing.
    pub fn add_worker(&mut self, outputs: usize, value: T) -> Result<(), AllocError>
        ensures { OnOk result (self.new ≡ self.old ++ replicate outputs value ∷ []) }
    {
        let list = repeated(self.alloc, outputs, value)?;
        self.lists.push(list)?;
        Ok(())
    }

    /// Makes room for the output of this origin and those before it. Each that had no value has this one.
    pub fn reach(&mut self, origin: Origin, value: T) -> Result<(), AllocError>
        ensures room { OnOk result (IsSome (value_at self.new origin)) }
        ensures grown { GrowsBy value self.old self.new }
    {
        let worker = origin.worker as usize;
        reach_worker(&mut self.lists, self.alloc, worker)?;
        reach_place(&mut self.lists[worker], origin.number as usize, value)
    }

    /// The value of the output of this origin, where there is such an output.
    pub fn at(&self, origin: Origin) -> Option<T>
        ensures { result ≡ value_at self.now origin }
    {
        match self.lists.get(origin.worker as usize) {
            Some(list) => read(list.as_slice(), origin.number as usize),
            None => None,
        }
    }

    /// Writes the value of the output of this origin, where there is such an output.
    pub fn put(&mut self, origin: Origin, value: T)
        ensures { self.new ≡ with_value self.old origin value }
    {
        let worker = origin.worker as usize;
        if worker < self.lists.len() {
            write(&mut self.lists[worker], origin.number as usize, value);
        }
    }

    /// This value for each of the same outputs.
    pub fn alike<U: Copy + Drop>(
        &self,
        alloc: Global,
        value: U,
    ) -> Result<ByOrigin<U>, AllocError> {
        let mut values = ByOrigin::new(alloc);
        for list in &self.lists {
            values.add_worker(list.len(), value)?;
        }
        Ok(values)
    }
}
