//! What is asked for of a chart.
use sdl_signal::SetId;

/// What is asked for of a chart.
#[derive(Clone, Copy)]
pub struct Wanted<'a> {
    /// The part of the page: from this row on, and to before that one. Rows count from 0.
    pub first: usize,
    pub past: usize,
    /// The sets whose instances have lifelines; those of the others share one. Where there are none, each set is kept.
    pub only: &'a [SetId],
    /// Whether the instances of a set share a lifeline.
    pub by_set: bool,
}
