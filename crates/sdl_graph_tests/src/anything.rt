//! A system whose transitions owe their offers alone.
use sdl_agents::offers::forward_offer;
use sdl_agents::steps::forward;
use sdl_signal::SignalId;
use sdl_transition::{Agents, Frame, Run, Transition};
use std::alloc::{AllocError, Global};

/// A system that allows every step, so that its transitions owe their offers alone.
#[derive(Drop)]
pub struct Anything;

impl Agents for Anything {
    ghost may = { λ _ _ _. Unit {0} };
}

/// Makes the transition for `ping`, stores it in that system, and answers its number.
pub fn store_anything(alloc: Global) -> Result<u32, AllocError> {
    let run_ping: Run = Box::new(alloc, |frame: &Frame| forward(frame, SignalId(1)))?;
    let ping: Transition<Anything> = Transition::store(
        9,
        forward_offer(1, SignalId(0), SignalId(1)),
        run_ping,
    );
    Ok(ping.number)
}
