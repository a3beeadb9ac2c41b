//! The stations of all routes.
ghost use Rattle.std.specs.Prelude.{◌≡◌, IfOk};
ghost use Rattle.std.specs.List.{flat_map};
ghost use Rattle.sdl_forward_opening.specs.Stations.{AreAllStations};

use sdl_routes::{Routes, Station};
use sdl_signal::RouteId;
use std::alloc::{AllocError, Global};

/// The stations of the routes, each once: lines by channel, forth before back, then inlets by block, then the outlet.
pub fn stations_of(alloc: Global, routes: &Routes) -> Result<Vec<Station>, AllocError>
    ensures { IfOk result (λ stations. AreAllStations routes.now stations.items) }
{
    let mut stations = all_stations(alloc, routes)?;
    stations.sort_unstable();
    stations.dedup();
    Ok(stations)
}

// The stations of the routes, route by route.
fn all_stations(alloc: Global, routes: &Routes) -> Result<Vec<Station>, AllocError>
    ensures { IfOk result (λ stations. stations.items ≡ flat_map (λ row. row.route.stations.items) routes.now) }
{
    let mut stations = Vec::new(alloc);
    for number in 0..routes.len() {
        let Some(route) = routes.get(RouteId(number as u32)) else {
            unreachable!()
        };
        stations.extend_from_slice(route.stations.as_slice())?;
    }
    Ok(stations)
}
