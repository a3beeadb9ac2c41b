//! How many instances are ready, and which is the ready one at a pick.
ghost use Rattle.std.specs.Prelude.{◌≡◌, ◌+◌, ◌<◌, ◌≤◌, ◌^◌, ℕ, [], List, OnOk, Some, sum, take, length, get_or, count_by, slice_get, slice_set};
ghost use Rattle.sdl_instances_processes.specs.Record.{Record, is_ready};
ghost use Rattle.sdl_instances_processes.specs.Ready.{AreReadyCounts, IsRaised, IsReadyPlace, OneMoreReady, room_of};

use crate::instance::Instance;
use std::alloc::{AllocError, Global};

/// How many places are counted in one number, and how many of these numbers in one of the list above.
const GROUP: usize = 32;

/// Which instances are ready, counted at three widths: so the one at a pick is found by a few short walks, and what an
/// instance changes is one number of each list. Numbers behind the last place are 0.
#[derive(Drop)]
pub struct ReadyCounts {
    /// How many instances are ready.
    pub(crate) count: usize,
    /// For each place 1 where its instance is ready, and else 0.
    pub(crate) places: Vec<usize>,
    /// How many are ready among each 32 places in turn.
    pub(crate) groups: Vec<usize>,
    /// How many are ready among each 1,024 places in turn.
    pub(crate) ranges: Vec<usize>,
}

/// Adds zeros until there are so many numbers. A refusal adds none.
#[inline(always)]
fn extend(counts: &mut Vec<usize>, len: usize) -> Result<(), AllocError>
    ensures same { (n : ℕ) → sum (take n counts.new.items) ≡ sum (take n counts.old.items) }
    ensures grows { length counts.old.items ≤ length counts.new.items }
    ensures long { OnOk result (len ≤ length counts.new.items) }
{
    if counts.len() < len {
        counts.resize(len, 0)?;
    }
    Ok(())
}

/// Raises the number there by 1.
fn raise(counts: &mut Vec<usize>, at: usize)
    requires within { at < length counts.old.items }
    requires few { get_or counts.old.items at 0 + 1 < 2 ^ 64 }
    ensures { IsRaised at counts.old.items counts.new.items }
{
    counts[at] += 1;
}

/// Lowers the number there by 1.
fn lower(counts: &mut Vec<usize>, at: usize)
    requires { 0 < get_or counts.old.items at 0 }
    ensures { IsRaised at counts.new.items counts.old.items }
{
    counts[at] -= 1;
}

/// Makes each number 0.
fn clear(counts: &mut Vec<usize>)
    ensures zero { (n : ℕ) → sum (take n counts.new.items) ≡ 0 }
    ensures long { length counts.new.items ≡ length counts.old.items }
{
    counts.fill(0);
}

/// Walks from this number on, over as many as are to be skipped. It gives where it stops, and how many of those counted
/// there are still to be skipped.
fn seek(counts: &[usize], start: usize, skip: usize) -> (usize, usize)
    requires { sum (take start counts.now) + skip < sum counts.now }
    ensures skipped { sum (take result.0 counts.now) + result.1 ≡ sum (take start counts.now) + skip }
    ensures here { result.1 < get_or counts.now result.0 0 }
{
    let mut at = start;
    let mut left = skip;
    while counts[at] <= left {
        left -= counts[at];
        at += 1;
    }
    (at, left)
}

impl ReadyCounts {
    /// The counts where no instance is. No memory is taken.
    pub fn new(alloc: Global) -> ReadyCounts
        ensures { AreReadyCounts result [] }
    {
        ReadyCounts {
            count: 0,
            places: Vec::new(alloc),
            groups: Vec::new(alloc),
            ranges: Vec::new(alloc),
        }
    }

    /// Takes room for so many places. A refusal changes no count.
    pub fn make_room(&mut self, len: usize) -> Result<(), AllocError>
        ensures same { (rs : List Record) → AreReadyCounts self.old rs → AreReadyCounts self.new rs }
        ensures room { OnOk result (len ≤ room_of self.new) }
    {
        extend(&mut self.places, len)?;
        extend(&mut self.groups, len / GROUP + 1)?;
        extend(&mut self.ranges, len / GROUP / GROUP + 1)
    }

    /// Notes that the instance at this place is ready, which it was not.
    pub fn note(&mut self, place: usize)
        requires { (old : List Record) × (new : List Record) × AreReadyCounts self.old old × OneMoreReady place old new × (length new ≤ room_of self.old) × (place < length new) }
        ensures counts { (old : List Record) (new : List Record) → AreReadyCounts self.old old → OneMoreReady place old new → length new ≤ room_of self.old → AreReadyCounts self.new new }
        ensures room { room_of self.new ≡ room_of self.old }
    {
        self.count += 1;
        raise(&mut self.places, place);
        raise(&mut self.groups, place / GROUP);
        raise(&mut self.ranges, place / GROUP / GROUP);
    }

    /// Notes that the instance at this place is not ready, which it was.
    pub fn forget(&mut self, place: usize)
        requires { (old : List Record) × (new : List Record) × AreReadyCounts self.old old × OneMoreReady place new old × (place < length old) }
        ensures counts { (old : List Record) (new : List Record) → AreReadyCounts self.old old → OneMoreReady place new old → length new ≤ room_of self.old → AreReadyCounts self.new new }
        ensures room { room_of self.new ≡ room_of self.old }
    {
        self.count -= 1;
        lower(&mut self.places, place);
        lower(&mut self.groups, place / GROUP);
        lower(&mut self.ranges, place / GROUP / GROUP);
    }

    /// Notes whether the instance at this place is ready now, of which it is told whether it was.
    #[inline(always)]
    pub fn follow(&mut self, place: usize, was: bool, is: bool)
        requires { (old : List Record) × (r : Record) × (t : Record) × AreReadyCounts self.old old × (slice_get old place ≡ Some r) × (is_ready r ≡ was) × (is_ready t ≡ is) }
        ensures counts { (old : List Record) (r : Record) (t : Record) → AreReadyCounts self.old old → slice_get old place ≡ Some r → is_ready r ≡ was → is_ready t ≡ is → AreReadyCounts self.new (slice_set old place t) }
        ensures room { room_of self.new ≡ room_of self.old }
    {
        if was != is {
            if is {
                self.note(place);
            } else {
                self.forget(place);
            }
        }
    }

    /// Counts these instances, in place of those that were counted before.
    pub fn recount(&mut self, instances: &[Instance])
        requires { length instances.now ≤ room_of self.old }
        ensures counts { AreReadyCounts self.new instances.now }
        ensures room { room_of self.new ≡ room_of self.old }
    {
        self.forget_all();
        for (place, instance) in instances.iter().enumerate() {
            if instance.is_ready() {
                self.note(place);
            }
        }
    }

    /// Makes each count 0.
    fn forget_all(&mut self)
        ensures counts { AreReadyCounts self.new [] }
        ensures room { room_of self.new ≡ room_of self.old }
    {
        self.count = 0;
        clear(&mut self.places);
        clear(&mut self.groups);
        clear(&mut self.ranges);
    }

    /// How many instances are ready.
    pub fn count(&self) -> usize
        ensures { (rs : List Record) → AreReadyCounts self.now rs → result ≡ count_by is_ready rs }
    {
        self.count
    }

    /// The place of the ready instance before which stand k ready ones.
    pub fn at(&self, k: usize) -> usize
        requires { (rs : List Record) × AreReadyCounts self.now rs × (k < count_by is_ready rs) }
        ensures { (rs : List Record) → AreReadyCounts self.now rs → IsReadyPlace rs k result }
    {
        let (range, skip) = seek(self.ranges.as_slice(), 0, k);
        let (group, skip) = seek(self.groups.as_slice(), range * GROUP, skip);
        let (place, _) = seek(self.places.as_slice(), group * GROUP, skip);
        place
    }
}
