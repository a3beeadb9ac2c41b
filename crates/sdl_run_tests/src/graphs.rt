//! The graphs of these tests: Echoes, and behind a hundred numbers the office.
use super::{echo_graph, office};
use sdl_graph_program::{Frame, Graph, Offer, Step};

/// The number of the office's first transition.
pub const OFFICE_FROM: u32 = 100;

pub struct Graphs;

impl Graph for Graphs {
    fn offer(number: u32) -> Offer {
        if number < OFFICE_FROM {
            return echo_graph::offer(number);
        }
        office::offer(number - OFFICE_FROM)
    }

    fn step(number: u32, frame: &Frame) -> Step {
        if number < OFFICE_FROM {
            return echo_graph::step(number, frame);
        }
        office::step(number - OFFICE_FROM, frame)
    }

    fn fill(number: u32, frame: &Frame, step: &mut Step) -> bool {
        if number < OFFICE_FROM {
            return echo_graph::fill(number, frame, step);
        }
        false
    }
}
