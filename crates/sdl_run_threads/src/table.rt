//! Numbers that threads share, by mark.
use crossbeam_utils::CachePadded;
use sdl_forward_ends::{MARKS, Marks};
use std::array::from_fn;
use std::sync::atomic::AtomicU64;
use std::sync::atomic::Ordering::Relaxed;

/// A number for each mark, each on cache lines of its own.
#[derive(Drop)]
pub(crate) struct Table {
    numbers: [CachePadded<AtomicU64>; MARKS],
}

impl Table {
    /// All are 0.
    pub(crate) fn new() -> Table {
        Table {
            numbers: from_fn(|_| CachePadded::new(AtomicU64::new(0))),
        }
    }

    /// Marks are below `MARKS` (`mark_of` says so), so the remainder changes none. It spares a test of each place.
    pub(crate) fn at(&self, mark: u32) -> &AtomicU64 {
        &self.numbers[mark as usize % MARKS]
    }

    /// The sum of the numbers of these marks.
    pub(crate) fn sum(&self, marks: Marks) -> u64 {
        let mut left = marks;
        let mut sum: u64 = 0;
        for _ in 0..MARKS {
            match left.pop() {
                Some(mark) => sum = sum.wrapping_add(self.at(mark).load(Relaxed)),
                None => break,
            }
        }
        sum
    }

    pub(crate) fn sum_of_all(&self) -> u64 {
        let numbers = self.numbers.iter();
        numbers.fold(0u64, |sum, number| sum.wrapping_add(number.load(Relaxed)))
    }
}
