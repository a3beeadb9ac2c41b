//! Where the entry of each station stands in a list.
ghost use Rattle.std.specs.Prelude.{◌≡◌, ◌≢◌, ℕ, ◌^◌, ◌<◌, OnOk, IfOk};
ghost use Rattle.sdl_routes.specs.declared.route.Station.{Station};
ghost use Rattle.sdl_routes.specs.Routes.{EachOnce, hop_number};
ghost use Rattle.sdl_forward_ends.specs.Index.{place_at, place_of, IsIndexOf};
ghost use Rattle.sdl_forward_ends.specs.Stations.{stations_of};

use sdl_routes::{Hop, Station};
use std::alloc::{AllocError, Global};

/// The place of each station's entry in a list, found at once.
#[derive(Drop)]
pub struct Index {
    /// By twice the channel's number, and one more for back.
    pub(crate) lines: Vec<Option<usize>>,
    /// By the block's number.
    pub(crate) inlets: Vec<Option<usize>>,
    pub(crate) outlet: Option<usize>,
}

impl Index {
    fn new(alloc: Global) -> Index
        ensures { (s : Station) → place_of result s ≡ None }
    {
        Index {
            lines: Vec::new(alloc),
            inlets: Vec::new(alloc),
            outlet: None,
        }
    }

    /// The place of each of these entries, at most one for each station.
    pub fn of<T>(alloc: Global, entries: &[(Station, T)]) -> Result<Index, AllocError>
        requires { EachOnce (stations_of entries.now) }
        ensures { IfOk result (λ index. IsIndexOf index (stations_of entries.now)) }
    {
        let mut index = Index::new(alloc);
        for (place, entry) in entries.iter().enumerate() {
            index.set(entry.0, place)?;
        }
        Ok(index)
    }

    /// The place of the station's entry. `None` where it has none.
    pub fn get(&self, station: Station) -> Option<usize>
        ensures { result ≡ place_of self.now station }
    {
        match station {
            Station::Line(hop) => get(self.lines.as_slice(), number_of(hop)),
            Station::Inlet(block) => get(self.inlets.as_slice(), block.0 as usize),
            Station::Outlet => self.outlet,
        }
    }

    // Gives the station this place. Where memory is refused, no other station's place changes either.
    fn set(&mut self, station: Station, place: usize) -> Result<(), AllocError>
        ensures ok { OnOk result (place_of self.new station ≡ Some place) }
        ensures others { (t : Station) → t ≢ station → place_of self.new t ≡ place_of self.old t }
    {
        match station {
            Station::Line(hop) => set(&mut self.lines, number_of(hop), place),
            Station::Inlet(block) => set(&mut self.inlets, block.0 as usize, place),
            Station::Outlet => {
                self.outlet = Some(place);
                Ok(())
            }
        }
    }
}

fn number_of(hop: Hop) -> usize
    ensures value { result ≡ hop_number hop }
    ensures bound { result < 2 ^ 33 }
{
    2 * hop.channel.0 as usize + usize::from(hop.back)
}

fn get(places: &[Option<usize>], number: usize) -> Option<usize>
    ensures { result ≡ place_at places.now number }
{
    match places.get(number) {
        Some(place) => *place,
        None => None,
    }
}

fn set(places: &mut Vec<Option<usize>>, number: usize, place: usize) -> Result<(), AllocError>
    requires { number < 2 ^ 33 }
    ensures ok { OnOk result (place_at places.new.items number ≡ Some place) }
    ensures others { (n : ℕ) → n ≢ number → place_at places.new.items n ≡ place_at places.old.items n }
{
    if places.len() <= number {
        places.resize(number + 1, None)?;
    }
    places[number] = Some(place);
    Ok(())
}
