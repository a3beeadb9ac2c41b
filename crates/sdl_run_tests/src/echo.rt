//! Echo, bound: E answers each `ping(n)` with `pong(n)`.
use crate::plan::{Left, Plan, Planned};
use sdl_agents::echo;
use sdl_test_systems::Stop;
use std::alloc::Global;

/// The sets of Echo.
const SETS: u32 = 1;

/// Makes the agents of Echo, and carries the plan out with the structure of this file.
pub fn run(alloc: Global, file: &str, plan: Plan) -> Result<Left, Stop> {
    echo::run(alloc, SETS, Planned { alloc, file, plan })?
}
