//! Two threads that put while a third takes.
ghost use Rattle.sdl_queue.specs.Ends.{IsSameFeed, IsSameTap};

use super::ends::{open_two, put_all, rejoin_two};
use sdl_queue::{Feed, SerialQueue, Tap};
use sdl_signal::Item;
use std::sync::Wait;
use std::test::Fail;
use std::thread;
use std::thread::Threads;

const ITEMS: u64 = 1_000;

const WANTED: usize = 500;

const TRIES: u64 = 100_000_000;

// Takes until there are as many as wanted, and answers them.
fn take_some<R: Wait>(rt: &R, mut tap: Tap, mut taken: Vec<Item>) -> (Tap, Vec<Item>)
    ensures { IsSameTap tap result.0 }
{
    for _ in 0..TRIES {
        if taken.len() >= WANTED {
            break;
        }
        match tap.take(rt) {
            Some(item) => {
                let _ = taken.push(item);
            }
            None => thread::yield_now(),
        }
    }
    (tap, taken)
}

// The three, each in a thread of its own.
fn worked<R: Threads + Wait + Sync>(
    rt: &R,
    first: Feed,
    second: Feed,
    tap: Tap,
    taken: Vec<Item>,
) -> ((Feed, u64), ((Feed, u64), (Tap, Vec<Item>)))
    ensures first { IsSameFeed first result.0.0 }
    ensures second { IsSameFeed second result.1.0.0 }
    ensures tap { IsSameTap tap result.1.1.0 }
{
    thread::join(
        rt,
        move ||
            ensures { IsSameFeed first result.0 }
        { put_all(rt, first, 0, ITEMS) },
        move ||
            ensures { IsSameFeed second result.0.0 × IsSameTap tap result.1.0 }
        {
            thread::join(
                rt,
                move ||
                    ensures { IsSameFeed second result.0 }
                { put_all(rt, second, 1, ITEMS) },
                move ||
                    ensures { IsSameTap tap result.0 }
                { take_some(rt, tap, taken) },
            )
        },
    )
}

// Whether the items of this worker, first those taken and then those left, are all that it put, in order.
fn all_in_order(worker: u32, taken: &[Item], left: &SerialQueue) -> bool {
    let mut next: u64 = 0;
    for item in taken.iter().chain(left.left()) {
        if item.origin.worker == worker {
            if item.origin.number != next {
                return false;
            }
            next = next.saturating_add(1);
        }
    }
    next == ITEMS
}

#[test]
fn two_threads_put_while_a_third_takes(rt: HostRuntime) -> Result<(), Fail> {
    let (feeds, first, second, tap) = open_two(&rt, rt.alloc())?;
    let taken = Vec::with_capacity(rt.alloc(), WANTED)?;
    let ((first, a), ((second, b), (tap, taken))) = worked(&rt, first, second, tap, taken);
    assert!(rt; (a, b) == (ITEMS, ITEMS));
    assert!(rt; taken.len() == WANTED);
    let rejoined = rejoin_two(&rt, feeds, first, second, tap)?;
    assert!(rt; rejoined.len() == 1_500);
    let left = rejoined.into_serial(&rt).map_err(|(_, error)| error)?;
    for worker in 0..2 {
        assert!(rt; all_in_order(worker, &taken, &left));
    }
    Ok(())
}
