//! The graph of these tests: the pair, and behind ten numbers the light.
use super::{light, pair};
use sdl_graph::{Graph, no_offer, no_step};
use sdl_test_systems::{offer_of, step_of};
use sdl_transition_behaviour::{Frame, Offer, Step};

/// The number of the light's first transition.
pub const LIGHT: u32 = 10;

pub struct Graphs;

impl Graph for Graphs {
    fn offer(number: u32) -> Offer {
        let offers = if number < LIGHT {
            pair::OFFERS.get(number as usize)
        } else {
            light::OFFERS.get((number - LIGHT) as usize)
        };
        match offers {
            Some(parts) => offer_of(parts),
            None => no_offer(),
        }
    }

    fn step(number: u32, frame: &Frame) -> Step {
        if number >= LIGHT {
            return light::step(number - LIGHT, frame);
        }
        match pair::STEPS.get(number as usize) {
            Some(doings) => step_of(frame, doings),
            None => no_step(),
        }
    }
}
