//! The table of all routes of a structure.
ghost use Rattle.std.specs.Prelude.{◌≡◌, ◌≤◌, length, slice_get, option_map, option_copied, IfSome, IfOk, IsErrOf, ◌↔◌};
ghost use Rattle.sdl_routes.specs.Routes.{AreRoutesOf, HasTooMany, FollowsIn, IsChoice};
ghost use Rattle.sdl_routes.specs.Table.{IsTable};

use crate::choice::station_after;
use crate::index::Index;
use crate::route::{Route, Station, TableRow, Wish};
use crate::search::all_routes;
use sdl_signal::RouteId;
use sdl_structure_parts::Checked;
use std::alloc::Global;
use std::marker::Model;
use thiserror::Error;

/// Why there is no table.
#[derive(Clone, Copy, Debug, PartialEq, Eq, Error)]
pub enum RouteFault {
    /// The structure has over 4,096 routes.
    #[error("P1 TooMany")]
    TooMany,
    /// A growth was refused.
    #[error("P2 Memory")]
    Memory,
}

/// All routes of a structure, by signal number and then by their hops. A route's number is its place.
#[derive(Drop)]
pub struct Routes {
    rows: Vec<TableRow>,
    index: Index,
}

impl Model for Routes {
    ghost use Rattle.std.specs.Prelude.{List};
    ghost use Rattle.sdl_routes.specs.declared.route.TableRow.{TableRow};
    ghost use Rattle.sdl_routes.specs.Table.{IsTable};
    ghost use Rattle.sdl_routes.specs.Index.{IsIndexOf};

    ghost Value = { List TableRow };

    ghost view = { λ t. t.rows.items };

    ghost invariant = { λ t. IsTable t.rows.items × IsIndexOf t.rows.items t.index };
}

impl Routes {
    /// All routes of the structure, each once, by signal number and then by their hops, a hop by its channel's number and
    /// forth before back. `TooMany` exactly where there are over 4,096, whatever memory there is.
    pub fn build(alloc: Global, checked: &Checked) -> Result<Routes, RouteFault>
        ensures ok { IfOk result (AreRoutesOf checked.now) }
        ensures table { IfOk result IsTable }
        ensures too_many { IsErrOf result RouteFault.TooMany ↔ HasTooMany checked.now }
    {
        let rows = all_routes(alloc, checked.structure())?;
        match Index::of(alloc, rows.as_slice()) {
            Ok(index) => Ok(Routes { rows, index }),
            Err(_) => Err(RouteFault::Memory),
        }
    }

    /// The route of this number.
    pub fn get(&self, route: RouteId) -> Option<&Route>
        ensures value { option_copied result ≡ option_map (λ row. row.route) (slice_get self.now route.0) }
        ensures table { IsTable self.now }
    {
        match self.rows.get(route.0 as usize) {
            Some(row) => Some(&row.route),
            None => None,
        }
    }

    /// The number of routes, at most 4,096.
    pub fn len(&self) -> usize
        ensures value { result ≡ length self.now }
        ensures table { IsTable self.now }
    {
        self.rows.len()
    }

    /// The first station of the route for `None`, else the station after the one given. `None` after the last station,
    /// for a station that is not the route's, and for a route that is not in the table.
    #[inline(always)]
    pub fn next(&self, route: RouteId, after: Option<Station>) -> Option<Station>
        ensures known { IfSome (slice_get self.now route.0) (λ row. FollowsIn row.route.stations.items after result) }
        ensures unknown { length self.now ≤ route.0 → result ≡ None }
        ensures table { IsTable self.now }
    {
        match self.rows.get(route.0 as usize) {
            Some(row) => station_after(row.route.stations.as_slice(), after),
            None => None,
        }
    }

    /// With n routes that fit the wish, in their order, the one at `pick` modulo n. `None` exactly where none fits.
    #[inline(always)]
    pub fn choose(&self, wish: &Wish, pick: u32) -> Option<RouteId>
        ensures choice { IsChoice self.now wish.now pick result }
        ensures table { IsTable self.now }
    {
        match self.index.entry_of(wish) {
            Some(entry) => entry.at(pick),
            None => None,
        }
    }
}
