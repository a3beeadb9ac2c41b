//! Whether a route fits a wish, and the way along one.
ghost use Rattle.std.specs.Prelude.{◌≡◌, slice_get, IsTrue, ◌↔◌};
ghost use Rattle.sdl_routes.specs.Routes.{Fits, EndsAs, GoesBy, FollowsIn, EachOnce};

use crate::route::{EndPoint, Goal, Route, Station, TableRow, Via, Wish};

/// Whether the route ends as the goal says.
fn ends_as(route: &Route, goal: Goal) -> bool
    ensures { IsTrue result ↔ EndsAs route.now goal }
{
    match goal {
        Goal::Anywhere => true,
        Goal::Null => false,
        Goal::Environment => matches!(route.end, EndPoint::Environment(_)),
        Goal::Set(set) => route.end == EndPoint::Set(set),
    }
}

/// Whether the route starts at the gate, or has a hop of the channel.
fn goes_by(route: &Route, via: Via) -> bool
    ensures { IsTrue result ↔ GoesBy route.now via }
{
    match via {
        Via::Any => true,
        Via::Gate(gate) => route.start == gate,
        Via::Channel(channel) => route.hops.as_slice().iter().any(|h| h.channel == channel),
    }
}

/// Whether the route fits the wish.
pub fn fits(row: &TableRow, wish: &Wish) -> bool
    ensures { IsTrue result ↔ Fits row.now wish.now }
{
    row.route.signal == wish.signal
        && row.source == wish.source
        && ends_as(&row.route, wish.goal)
        && goes_by(&row.route, wish.via)
}

/// Whether the two are one station.
fn is_same(a: &Station, b: &Station) -> bool
    ensures { IsTrue result ↔ a.now ≡ b.now }
{
    *a == *b
}

/// The station at this place.
fn station_at(stations: &[Station], place: usize) -> Option<Station>
    ensures { result ≡ slice_get stations.now place }
{
    stations.get(place).copied()
}

/// The station after this one, and the first after none.
pub fn station_after(stations: &[Station], after: Option<Station>) -> Option<Station>
    requires { EachOnce stations.now }
    ensures { FollowsIn stations.now after result }
{
    let Some(station) = after else {
        return station_at(stations, 0);
    };
    for place in 0..stations.len() {
        if is_same(&stations[place], &station) {
            return station_at(stations, place + 1);
        }
    }
    None
}
