//! A structure with its routes, as the environment's step takes them.
use sdl_routes::Routes;
use sdl_structure_parts::Structure;

/// A structure, and its routes.
#[derive(Clone, Copy, Drop)]
pub struct RoutedStructure<'s> {
    pub structure: &'s Structure,
    pub routes: &'s Routes,
}
