//! Ring, bound: X and Y pass a token round, which counts its steps.
use crate::plan::{Plan, Planned};
use crate::ring_left::look;
use sdl_agents::ring;
use sdl_examples::RING;
use sdl_test_systems::Stop;
use std::alloc::Global;
use std::process::Abort;

/// The sets of Ring.
const SETS: u32 = 2;

/// Makes the agents of Ring, carries the plan out, and looks at what is left.
pub fn run(rt: &impl Abort, alloc: Global, plan: Plan) -> Result<(), Stop> {
    let planned = Planned {
        alloc,
        file: RING,
        plan,
    };
    let left = ring::run(alloc, SETS, planned)??;
    look(rt, &plan, &left)
}
