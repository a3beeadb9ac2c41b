//! The ends of a queue and of a ring, kept together, so that they can be put together again.
ghost use Rattle.sdl_queue.specs.Ends.{IsSameFeed};

use sdl_queue::{
    Feed, Rejoined, RingFeed, RingRejoined, RingTap, Tap, queue_open, rejoin, ring_open,
    ring_rejoin,
};
use sdl_signal::Item;
use std::alloc::{AllocError, Global};
use std::marker::Model;
use std::sync::Wait;

/// All ends of one queue.
#[derive(Drop)]
pub struct QueueEnds {
    feeds: Vec<Feed>,
    tap: Tap,
}

impl Model for QueueEnds {
    ghost use Rattle.sdl_queue.specs.Ends.{AreAllEnds};

    ghost Value = { Unit {0} };

    ghost view = { λ e. tt };

    ghost invariant = { λ e. AreAllEnds e.feeds.items e.tap };
}

impl QueueEnds {
    pub fn open<R: Wait>(rt: &R, alloc: Global, feeders: u32) -> Result<QueueEnds, AllocError> {
        let (feeds, tap) = queue_open(rt, alloc, feeders)?;
        Ok(QueueEnds { feeds, tap })
    }

    /// The feeder of this number puts the item. It says whether there is such a feeder.
    pub fn put<R: Wait>(&mut self, rt: &R, feeder: u32, item: Item) -> Result<bool, AllocError> {
        let Some(feed) = self.feeds.get_mut(feeder as usize) else {
            return Ok(false);
        };
        match put_with_retry(feed, rt, item) {
            Ok(()) => Ok(true),
            Err(_) => Err(AllocError),
        }
    }

    pub fn take<R: Wait>(&mut self, rt: &R) -> Option<Item> {
        self.tap.take(rt)
    }

    pub fn rejoin<R: Wait>(self, rt: &R) -> Rejoined {
        let QueueEnds { feeds, tap } = self;
        rejoin(rt, feeds, tap)
    }
}

/// Puts the item. A refused put hands it back, so it is put once more.
fn put_with_retry<R: Wait>(feed: &mut Feed, rt: &R, item: Item) -> Result<(), Item>
    ensures { IsSameFeed feed.old feed.new }
{
    match feed.put(rt, item) {
        Ok(()) => Ok(()),
        Err(item) => feed.put(rt, item),
    }
}

/// The two ends of one ring.
#[derive(Drop)]
pub struct RingEnds {
    feed: RingFeed,
    tap: RingTap,
}

impl Model for RingEnds {
    ghost use Rattle.std.specs.Prelude.{◌≡◌};

    ghost Value = { Unit {0} };

    ghost view = { λ e. tt };

    ghost invariant = { λ e. e.feed.opening ≡ e.tap.opening };
}

impl RingEnds {
    ghost use Rattle.std.specs.Prelude.{◌≤◌};

    pub fn open(alloc: Global, slots: usize) -> Result<RingEnds, AllocError>
        requires { (1 ≤ slots) × (slots ≤ 64) }
    {
        let (feed, tap) = ring_open(alloc, slots)?;
        Ok(RingEnds { feed, tap })
    }

    /// Puts the item, once more after a refusal.
    pub fn put(&mut self, item: Item) -> Result<(), AllocError> {
        match self.feed.put(item) {
            Ok(()) => Ok(()),
            Err((item, _)) => match self.feed.put(item) {
                Ok(()) => Ok(()),
                Err((_, error)) => Err(error),
            },
        }
    }

    pub fn take(&mut self) -> Option<Item> {
        self.tap.take()
    }

    /// Moves what waits for room, where there is room for it, and says whether nothing waits any more.
    pub fn flush(&mut self) -> bool {
        self.feed.flush()
    }

    pub fn rejoin(self) -> RingRejoined {
        let RingEnds { feed, tap } = self;
        ring_rejoin(feed, tap)
    }
}
