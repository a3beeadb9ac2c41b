//! A board: the queues of all stations, on one thread.
ghost use Rattle.std.specs.Prelude.{◌≡◌, ◌<◌, ◌≤◌, List, [], ◌∷◌, ◌++◌, Some, Contains, ⊤, map, IfOk, MatchBool, MatchOption};
ghost use Rattle.sdl_queue.specs.declared.rest.Rest.TheVariants.{Serial};
ghost use Rattle.sdl_routes.specs.declared.route.Hop.{Hop};
ghost use Rattle.sdl_routes.specs.declared.route.Station.{Station};
ghost use Rattle.sdl_routes.specs.declared.route.Station.TheVariants.{Line};
ghost use Rattle.sdl_routes.specs.Routes.{EachOnce};
ghost use Rattle.sdl_forward.specs.Serials.{AreSerial};
ghost use Rattle.sdl_forward.specs.Boards.{stations_of, waiting, ChangesOnly, lists_of, IsBoardOf};

use crate::busy::Busy;
use crate::hints::Hints;
use sdl_forward_opening::stations::stations_of;
use sdl_queue::{Rest, SerialQueue};
use sdl_routes::{Routes, Station};
use sdl_signal::{ChannelId, Item};
use std::alloc::{AllocError, Global};
use std::marker::Model;

/// A queue for each station of some route. Contracts see a list of the stations, each with the items that wait there, from the
/// front.
#[derive(Drop)]
pub struct Board {
    rests: Vec<(Station, Rest)>,
    hints: Hints,
    busy: Busy,
}

impl Model for Board {
    ghost use Rattle.std.specs.Prelude.{List};
    ghost use Rattle.sdl_signal.specs.declared.values.Item.{Item};
    ghost use Rattle.sdl_routes.specs.declared.route.Station.{Station};
    ghost use Rattle.sdl_forward.specs.Boards.{stations_of, lists_of};
    ghost use Rattle.sdl_forward.specs.Busy.{ShowsAllBusy};
    ghost use Rattle.sdl_forward.specs.Serials.{AreSerial};
    ghost use Rattle.sdl_routes.specs.Routes.{EachOnce};

    ghost Value = { List (Station × List Item) };

    ghost view = { λ b. lists_of b.rests.items };

    ghost invariant = { λ b. EachOnce (stations_of b.rests.items) × AreSerial b.rests.items × ShowsAllBusy b.busy (lists_of b.rests.items) };
}

impl Board {
    /// A board of empty queues, one for each station of the routes: lines by channel, forth before back, then inlets by block,
    /// then the outlet.
    pub fn new(alloc: Global, routes: &Routes) -> Result<Board, AllocError>
        ensures stations { IfOk result (λ board. IsBoardOf routes.now board) }
        ensures empty { IfOk result (λ board. (s : Station) → waiting board s ≡ []) }
    {
        let stations = stations_of(alloc, routes)?;
        Ok(Board::of(empty_queues(alloc, stations.as_slice())?))
    }

    /// A board of these queues of one thread, at most one for each station.
    pub(crate) fn of(rests: Vec<(Station, Rest)>) -> Board
        requires once { EachOnce (stations_of rests.items) }
        requires serial { AreSerial rests.items }
        ensures { result ≡ lists_of rests.items }
    {
        let hints = Hints::of(rests.as_slice());
        let busy = Busy::of(rests.as_slice());
        Board { rests, hints, busy }
    }

    /// Puts the item of the slot, where it has one, at the back of the station, which is one of the board's, and leaves the slot
    /// empty. Where memory is refused, the item stays there and the board is as it was.
    #[inline(always)]
    pub fn put_from(&mut self, station: Station, slot: &mut Option<Item>)
        requires { Contains (stations_of self.old) station }
        ensures put { MatchOption slot.new
            (MatchOption slot.old (self.new ≡ self.old) (λ item. waiting self.new station ≡ waiting self.old station ++ item ∷ []))
            (λ back. (slot.old ≡ Some back) × (self.new ≡ self.old)) }
        ensures others { ChangesOnly self.old self.new station }
    {
        let Some(place) = self.hints.find(self.rests.as_slice(), station) else {
            unreachable!()
        };
        self.busy.note(station, true);
        match &mut self.rests[place].1 {
            Rest::Serial(queue) => put_slot(queue, slot),
            Rest::Ruled(_) => unreachable!(),
            Rest::Ring(_) => unreachable!(),
        }
    }

    /// Takes the item at the front of the station. `None` exactly where no item waits there, as where the board has no such
    /// station. It takes no memory.
    #[inline(always)]
    pub fn take(&mut self, station: Station) -> Option<Item>
        ensures take { MatchOption result
            ((waiting self.old station ≡ []) × (self.new ≡ self.old))
            (λ item. waiting self.old station ≡ item ∷ waiting self.new station) }
        ensures others { ChangesOnly self.old self.new station }
    {
        let place = self.hints.find(self.rests.as_slice(), station)?;
        match &mut self.rests[place].1 {
            Rest::Serial(queue) => {
                let item = queue.take();
                self.busy.note(station, queue.len() != 0);
                item
            }
            Rest::Ruled(_) => unreachable!(),
            Rest::Ring(_) => unreachable!(),
        }
    }

    /// Whether nothing waits at any delaying path. It may still say no once nothing does.
    pub fn has_no_busy_path(&self) -> bool
        ensures { MatchBool result ((h : Hop) → waiting self.now (Line h) ≡ []) ⊤ }
    {
        self.busy.is_clear()
    }

    /// A channel up to which, from this one on, nothing waits at any path: mostly the first at which something does.
    pub fn next_busy(&self, channel: ChannelId) -> ChannelId
        ensures { (h : Hop) → channel.0 ≤ h.channel.0 → h.channel.0 < result.0 → waiting self.now (Line h) ≡ [] }
    {
        ChannelId(self.busy.next(channel.0))
    }

    /// What is left at each station, in the order of the board. It takes no memory.
    pub fn into_rests(self) -> Vec<(Station, Rest)>
        ensures { lists_of result.items ≡ self }
    {
        self.rests
    }
}

/// Puts the item of the slot, where it has one, at the back of the queue, and leaves the slot empty. Where memory is refused, the
/// item stays there and the queue is as it was. The item is taken out of its slot only here, so that it is copied once.
#[inline(always)]
fn put_slot(queue: &mut SerialQueue, slot: &mut Option<Item>)
    ensures { MatchOption slot.new
        (MatchOption slot.old (queue.new ≡ queue.old) (λ item. queue.new ≡ queue.old ++ item ∷ []))
        (λ back. (slot.old ≡ Some back) × (queue.new ≡ queue.old)) }
{
    let Some(item) = slot.take() else {
        return;
    };
    if let Err((item, _)) = queue.put(item) {
        *slot = Some(item);
    }
}

/// An empty queue for each of these stations.
fn empty_queues(alloc: Global, stations: &[Station]) -> Result<Vec<(Station, Rest)>, AllocError>
    ensures { IfOk result (λ rests. rests.items ≡ map (λ s. (s, Serial [])) stations.now) }
{
    let mut rests = Vec::with_capacity(alloc, stations.len())?;
    for station in stations {
        rests.push((*station, Rest::Serial(SerialQueue::new(alloc))))?;
    }
    Ok(rests)
}
