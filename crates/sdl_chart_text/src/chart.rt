//! What a chart is made of.
use crate::left::Left;
use crate::states::States;
use sdl_chart_page::{ByOrigin, Lists, Page};
use sdl_routes::Routes;
use sdl_structure_parts::Structure;

/// What a chart is made of: the names, the lists that a run left, their page, and where the signals are that did not arrive.
#[derive(Drop)]
pub struct Chart<'a, K> {
    pub structure: &'a Structure,
    pub routes: &'a Routes,
    pub states: &'a States,
    pub lists: &'a Lists<'a, K>,
    pub page: &'a Page,
    pub left: &'a ByOrigin<Left>,
}
