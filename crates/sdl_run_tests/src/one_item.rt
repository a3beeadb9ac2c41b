//! A queue whose ends were apart, with one item in it.
ghost use Rattle.std.specs.Prelude.{◌≡◌, [], IfOk};
ghost use Rattle.sdl_queue.specs.Ends.{fresh_feed};

use sdl_queue::{Feed, Rejoined, Rest, Tap, queue_open, rejoin};
use sdl_signal::{Item, RouteId};
use sdl_test_systems::Stop;
use std::alloc::{AllocError, Global};
use std::sync::Wait;

/// What is left of a queue with one feeder, which put an item of this route.
pub fn rest_of_one<R: Wait>(rt: &R, alloc: Global, route: RouteId) -> Result<Rest, Stop> {
    let (feeds, mut feed, tap) = open_one(rt, alloc)?;
    let item = Item {
        route,
        ..Item::default()
    };
    if let Err(_) = feed.put(rt, item) {
        return Err(Stop::Memory);
    }
    let rejoined = rejoin_one(rt, feeds, feed, tap)?;
    Ok(Rest::Ruled(rejoined))
}

/// A queue with one feeder, and the list in which its feed came.
fn open_one<R: Wait>(rt: &R, alloc: Global) -> Result<(Vec<Feed>, Feed, Tap), AllocError>
    ensures list { IfOk result (λ r. r.0.items ≡ []) }
    ensures feed { IfOk result (λ r. r.1 ≡ fresh_feed r.2.opening 0) }
    ensures tap { IfOk result (λ r. r.2.feeders ≡ 1) }
{
    let (mut feeds, tap) = queue_open(rt, alloc, 1)?;
    let feed = feeds.pop().unwrap();
    Ok((feeds, feed, tap))
}

/// The feed comes back.
fn rejoin_one<R: Wait>(
    rt: &R,
    mut feeds: Vec<Feed>,
    feed: Feed,
    tap: Tap,
) -> Result<Rejoined, AllocError>
    requires list { feeds.items ≡ [] }
    requires ends { (feed.opening ≡ tap.opening) × (feed.number ≡ 0) × (tap.feeders ≡ 1) }
{
    feeds.push(feed)?;
    Ok(rejoin(rt, feeds, tap))
}
