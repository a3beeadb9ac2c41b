//! Where the queue of each station may stand.
ghost use Rattle.std.specs.Prelude.{◌≡◌, Some, Contains, slice_get, MatchOption};
ghost use Rattle.sdl_forward.specs.Boards.{stations_of};

use sdl_routes::{Hop, Station};
use sdl_structure_parts::limits::{MOST_BLOCKS, MOST_CHANNELS};

/// The number of delaying paths that have a hint of their own: those of a structure are no more.
const LINES: usize = 2 * MOST_CHANNELS;

/// The number of inlets that have a hint of their own: the blocks of a structure are no more.
const INLETS: usize = MOST_BLOCKS;

/// A place for each station, at which a look-up looks first. It need not be the right one.
#[derive(Drop)]
pub(crate) struct Hints {
    /// By twice the channel's number, and one more for back.
    lines: [u8; LINES],
    /// By the block's number.
    inlets: [u8; INLETS],
    outlet: u8,
}

impl Hints {
    /// The places of these entries, as far as there is a hint for them.
    pub(crate) fn of<T>(entries: &[(Station, T)]) -> Hints {
        let mut hints = Hints {
            lines: [0; LINES],
            inlets: [0; INLETS],
            outlet: 0,
        };
        for (place, entry) in entries.iter().enumerate() {
            let Ok(place) = u8::try_from(place) else {
                break;
            };
            hints.set(entry.0, place);
        }
        hints
    }

    /// The place of an entry of the station. `None` where there is none.
    #[inline(always)]
    pub(crate) fn find<T>(&self, entries: &[(Station, T)], station: Station) -> Option<usize>
        ensures { MatchOption result (Contains (stations_of entries.now) station → ⊥) (λ place. slice_get (stations_of entries.now) place ≡ Some station) }
    {
        let hint = self.get(station);
        if hint < entries.len() && entries[hint].0 == station {
            return Some(hint);
        }
        for (place, entry) in entries.iter().enumerate() {
            if entry.0 == station {
                return Some(place);
            }
        }
        None
    }

    #[inline(always)]
    fn get(&self, station: Station) -> usize {
        let hint = match station {
            Station::Line(hop) => self.lines.get(number_of(hop)),
            Station::Inlet(block) => self.inlets.get(block.0 as usize),
            Station::Outlet => Some(&self.outlet),
        };
        match hint {
            Some(place) => *place as usize,
            None => 0,
        }
    }

    fn set(&mut self, station: Station, place: u8) {
        match station {
            Station::Line(hop) => {
                let number = number_of(hop);
                if number < LINES {
                    self.lines[number] = place;
                }
            }
            Station::Inlet(block) => {
                let number = block.0 as usize;
                if number < INLETS {
                    self.inlets[number] = place;
                }
            }
            Station::Outlet => self.outlet = place,
        }
    }
}

fn number_of(hop: Hop) -> usize {
    2 * hop.channel.0 as usize + usize::from(hop.back)
}
