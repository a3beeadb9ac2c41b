//! The delaying paths at which something may wait.
ghost use Rattle.std.specs.Prelude.{◌≡◌, ◌≢◌, ◌<◌, ◌≤◌, false, ⊤, MatchBool};
ghost use Rattle.sdl_routes.specs.declared.route.Hop.{Hop};
ghost use Rattle.sdl_routes.specs.declared.route.Station.TheVariants.{Line};
ghost use Rattle.sdl_forward.specs.Boards.{lists_of};
ghost use Rattle.sdl_forward.specs.Busy.{IsClear, ShowsAllBusy};

use sdl_queue::Rest;
use sdl_routes::{Hop, Station};
use sdl_structure_parts::limits::MOST_CHANNELS;

/// The number of channels that have a mark of their own: those of a structure are no more.
const CHANNELS: u32 = MOST_CHANNELS as u32;

/// Marks of delaying paths: at a path without one nothing waits.
#[derive(Drop)]
pub(crate) struct Busy {
    /// A bit for each channel, where something may wait forth.
    pub(crate) forth: u64,
    /// A bit for each channel, where something may wait back.
    pub(crate) back: u64,
    /// One mark for all further channels.
    pub(crate) further: bool,
}

impl Busy {
    /// A mark for each path of these at which something is left.
    pub(crate) fn of(rests: &[(Station, Rest)]) -> Busy
        ensures { ShowsAllBusy result (lists_of rests.now) }
    {
        let mut busy = Busy {
            forth: 0,
            back: 0,
            further: false,
        };
        for (station, rest) in rests {
            if rest.len() != 0 {
                busy.note(*station, true);
            }
        }
        busy
    }

    /// Notes whether something may wait at the station, where it is a path.
    #[inline(always)]
    pub(crate) fn note(&mut self, station: Station, some: bool)
        ensures { (h : Hop) → IsClear self.new h → (Line h ≡ station → some ≡ false) × (Line h ≢ station → IsClear self.old h) }
    {
        let Station::Line(hop) = station else {
            return;
        };
        if some {
            self.mark(hop);
        } else {
            self.clear(hop);
        }
    }

    #[inline(always)]
    fn mark(&mut self, hop: Hop)
        ensures { (h : Hop) → IsClear self.new h → IsClear self.old h × (h ≢ hop) }
    {
        let channel = hop.channel.0;
        if channel >= CHANNELS {
            self.further = true;
        } else if hop.back {
            self.back |= 1 << channel;
        } else {
            self.forth |= 1 << channel;
        }
    }

    /// Takes the mark off, where the path has one of its own.
    #[inline(always)]
    fn clear(&mut self, hop: Hop)
        ensures { (h : Hop) → h ≢ hop → IsClear self.new h → IsClear self.old h }
    {
        let channel = hop.channel.0;
        if channel >= CHANNELS {
            return;
        }
        if hop.back {
            self.back &= !(1 << channel);
        } else {
            self.forth &= !(1 << channel);
        }
    }

    /// Whether no path is marked.
    pub(crate) fn is_clear(&self) -> bool
        ensures { MatchBool result ((h : Hop) → IsClear self.now h) ⊤ }
    {
        self.forth == 0 && self.back == 0 && !self.further
    }

    /// A channel up to which, from this one on, no path is marked: the first that has a mark of its own, at most 64.
    pub(crate) fn next(&self, channel: u32) -> u32
        ensures { (h : Hop) → channel ≤ h.channel.0 → h.channel.0 < result → IsClear self.now h }
    {
        if channel >= CHANNELS {
            return CHANNELS;
        }
        let forth = (self.forth >> channel).trailing_zeros();
        let back = (self.back >> channel).trailing_zeros();
        (channel + forth.min(back)).min(CHANNELS)
    }
}
