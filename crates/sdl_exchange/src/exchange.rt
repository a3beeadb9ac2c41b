//! The exchange: all its transitions by number, and its sets.
use crate::control::{
    CALL_TRANSITIONS, CALLS, SWITCH, SWITCH_TRANSITIONS, call_offer, call_step, switch_offer,
    switch_step,
};
use crate::line;
use crate::numbers::USES;
use sdl_graph_program::{Design, Frame, Graph, Offer, Step};

/// The agents of the exchange.
pub struct Exchange;

// The numbers of the first transitions of the sets.
const LINE_B: u32 = line::TRANSITIONS;

const SWITCH_FIRST: u32 = LINE_B + line::TRANSITIONS;

const CALL_FIRST: u32 = SWITCH_FIRST + SWITCH_TRANSITIONS;

/// How many transitions the exchange has.
pub const TRANSITIONS: u32 = CALL_FIRST + CALL_TRANSITIONS;

impl Graph for Exchange {
    fn offer(number: u32) -> Offer {
        if number < LINE_B {
            line::offer(number)
        } else if number < SWITCH_FIRST {
            line::offer(number - LINE_B)
        } else if number < CALL_FIRST {
            switch_offer(number - SWITCH_FIRST)
        } else {
            call_offer(number - CALL_FIRST)
        }
    }

    fn step(number: u32, frame: &Frame) -> Step {
        if number < LINE_B {
            line::step(number, frame)
        } else if number < SWITCH_FIRST {
            line::step(number - LINE_B, frame)
        } else if number < CALL_FIRST {
            switch_step(number - SWITCH_FIRST, frame)
        } else {
            call_step(number - CALL_FIRST, frame)
        }
    }
}

/// The sets of the exchange, in the order of the numbers of their transitions.
pub const DESIGN: Design = Design {
    uses: &USES,
    sets: &[line::LINE_A, line::LINE_B, SWITCH, CALLS],
};
