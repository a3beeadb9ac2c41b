//! The ends of the workers, while they are distributed.
ghost use Rattle.std.specs.Prelude.{◌≡◌, length, IfOk, OnOk};
ghost use Rattle.sdl_routes.specs.Routes.{EachOnce};
ghost use Rattle.sdl_forward_ends.specs.Stations.{stations_of};
ghost use Rattle.sdl_forward_ends.specs.Ends.{no_ends};
ghost use Rattle.sdl_forward_opening.specs.Puts.{count_true};
ghost use Rattle.sdl_forward_opening.specs.Hands.{with_feed, with_tap, distributed, all_empty};

use sdl_forward_ends::Ends;
use sdl_queue::{AnyFeed, AnyTap};
use sdl_routes::Station;
use std::alloc::{AllocError, Global};
use std::marker::Model;

/// The ends that a worker was given so far.
#[derive(Drop)]
pub(crate) struct Share {
    tap: Option<(Station, AnyTap)>,
    feeds: Vec<(Station, AnyFeed)>,
}

impl Model for Share {
    ghost use Rattle.sdl_forward_ends.specs.Ends.{WorkerEnds};

    ghost Value = { WorkerEnds };

    ghost view = { λ e. record { tap = e.tap; feeds = e.feeds.items } };
}

impl Share {
    fn new(alloc: Global) -> Share
        ensures { result ≡ no_ends }
    {
        Share {
            tap: None,
            feeds: Vec::new(alloc),
        }
    }

    // What a refusal leaves is not said.
    fn add_feed(&mut self, station: Station, feed: AnyFeed) -> Result<(), AllocError>
        ensures { OnOk result (self.new ≡ with_feed station feed self.old) }
    {
        self.feeds.push((station, feed))?;
        Ok(())
    }

    pub(crate) fn set_tap(&mut self, station: Station, tap: AnyTap)
        ensures { self.new ≡ with_tap station tap self.old }
    {
        self.tap = Some((station, tap));
    }

    pub(crate) fn into_ends(self, alloc: Global) -> Result<Ends, AllocError>
        requires { EachOnce (stations_of self.feeds) }
        ensures { IfOk result (λ e. e ≡ self) }
    {
        Ends::new(alloc, self.tap, self.feeds)
    }
}

/// Nothing, for each of so many workers.
pub(crate) fn no_shares(alloc: Global, count: usize) -> Result<Vec<Share>, AllocError>
    ensures { IfOk result (λ shares. shares.items ≡ all_empty count) }
{
    let mut shares = Vec::with_capacity(alloc, count)?;
    for _ in 0..count {
        shares.push(Share::new(alloc))?;
    }
    Ok(shares)
}

/// Gives the feeds of a station, in order, to the workers that are marked. What a refusal leaves is not said.
pub(crate) fn distribute(
    shares: &mut Vec<Share>,
    marks: &[bool],
    station: Station,
    feeds: Vec<AnyFeed>,
) -> Result<(), AllocError>
    requires places { length marks.now ≡ length shares.old.items }
    requires feeds { count_true marks.now ≡ length feeds.items }
    ensures { OnOk result (shares.new.items ≡ distributed station marks.now feeds.items shares.old.items) }
{
    let mut feeds = feeds.into_iter();
    for place in 0..marks.len() {
        if marks[place] {
            let Some(feed) = feeds.next() else {
                unreachable!()
            };
            shares[place].add_feed(station, feed)?;
        }
    }
    Ok(())
}
