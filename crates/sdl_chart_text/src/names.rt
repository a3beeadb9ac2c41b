//! The names of the gates and the set at which routes start and end.
ghost use Rattle.std.specs.Prelude.{◌≡◌};
ghost use Rattle.sdl_chart_text.specs.Legends.{start_text, end_gate_text, finish_text};

use sdl_app_file_commands::names::{gate_name, set_name};
use sdl_routes::{EndPoint, Routes};
use sdl_signal::RouteId;
use sdl_structure_parts::Structure;

/// The name of the gate at which a route starts. It is empty where there is no such route.
pub fn start_name<'a>(structure: &'a Structure, routes: &Routes, route: RouteId) -> &'a str
    ensures { result.now ≡ start_text structure.now routes.now route }
{
    match routes.get(route) {
        Some(found) => gate_name(structure, found.start),
        None => "",
    }
}

/// The name of the gate at which a route ends. It is empty where there is no such route.
pub fn end_name<'a>(structure: &'a Structure, routes: &Routes, route: RouteId) -> &'a str
    ensures { result.now ≡ end_gate_text structure.now routes.now route }
{
    match routes.get(route) {
        Some(found) => gate_name(structure, found.end_gate),
        None => "",
    }
}

/// The name of the set at which a route ends, or `env`.
pub(crate) fn finish_name<'a>(structure: &'a Structure, routes: &Routes, route: RouteId) -> &'a str
    ensures { result.now ≡ finish_text structure.now routes.now route }
{
    match routes.get(route) {
        Some(found) => match found.end {
            EndPoint::Set(set) => set_name(structure, set),
            EndPoint::Environment(_) => "env",
        },
        None => "",
    }
}
