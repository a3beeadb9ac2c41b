//! The graph of the wheels.
use super::wheel;
use sdl_graph::Graph;
use sdl_transition_behaviour::{Frame, Offer, Step};

pub struct Wheels;

impl Graph for Wheels {
    fn offer(number: u32) -> Offer {
        wheel::offer(number)
    }

    fn step(number: u32, frame: &Frame) -> Step {
        wheel::step(number, frame)
    }
}
