//! A queue with two feeders, as the tests open it, fill it and put it together again.
ghost use Rattle.std.specs.Prelude.{◌≡◌, [], IfOk};
ghost use Rattle.sdl_queue.specs.Ends.{fresh_feed, IsSameFeed};

use sdl_queue::{Feed, Rejoined, Tap, queue_open, rejoin};
use sdl_signal::{Item, Origin};
use std::alloc::{AllocError, Global};
use std::sync::Wait;

/// An item that its origin tells from others.
pub fn item_of(worker: u32, number: u64) -> Item {
    Item {
        origin: Origin { worker, number },
        ..Item::default()
    }
}

/// A queue with two feeders, and the list in which their feeds came.
pub fn open_two<R: Wait>(rt: &R, alloc: Global) -> Result<(Vec<Feed>, Feed, Feed, Tap), AllocError>
    ensures list { IfOk result (λ r. r.0.items ≡ []) }
    ensures feeds { IfOk result (λ r. (r.1 ≡ fresh_feed r.3.opening 0) × (r.2 ≡ fresh_feed r.3.opening 1)) }
    ensures tap { IfOk result (λ r. r.3.feeders ≡ 2) }
{
    let (mut feeds, tap) = queue_open(rt, alloc, 2)?;
    let second = feeds.pop().unwrap();
    let first = feeds.pop().unwrap();
    Ok((feeds, first, second, tap))
}

/// The feeds come back in the other order.
pub fn rejoin_two<R: Wait>(
    rt: &R,
    mut feeds: Vec<Feed>,
    first: Feed,
    second: Feed,
    tap: Tap,
) -> Result<Rejoined, AllocError>
    requires list { feeds.items ≡ [] }
    requires ends { (first.opening ≡ tap.opening) × (first.number ≡ 0) × (second.opening ≡ tap.opening) × (second.number ≡ 1) × (tap.feeders ≡ 2) }
{
    feeds.push(second)?;
    feeds.push(first)?;
    Ok(rejoin(rt, feeds, tap))
}

/// Puts this many items of this worker, each once more where memory was refused, and answers how many were put.
pub fn put_all<R: Wait>(rt: &R, mut feed: Feed, worker: u32, items: u64) -> (Feed, u64)
    ensures { IsSameFeed feed result.0 }
{
    for number in 0..items {
        if let Err(back) = feed.put(rt, item_of(worker, number)) {
            if let Err(_) = feed.put(rt, back) {
                return (feed, number);
            }
        }
    }
    (feed, items)
}
