//! Whole runs of Ring.
use crate::plan::Plan;
use crate::ring;
use sdl_test_systems::Stop;
use std::alloc::{AllocError, Global};
use std::process::Abort;
use std::test::Fail;

const BUDGET: u32 = 100;

/// Runs Ring under the schedule.
fn run(rt: &impl Abort, alloc: Global, schedule: &[u32]) -> Result<(), Stop> {
    let plan = Plan {
        budget: BUDGET,
        schedule,
        input: &[],
    };
    ring::run(rt, alloc, plan)
}

/// So many numbers of a fixed rule: each is the one before by 1,664,525 and 1,013,904,223 more, modulo 2 to the 32.
fn numbers(alloc: Global, count: usize) -> Result<Vec<u32>, AllocError> {
    let mut numbers = Vec::with_capacity(alloc, count)?;
    let mut number: u32 = 1;
    for _ in 0..count {
        number = number.wrapping_mul(1_664_525).wrapping_add(1_013_904_223);
        numbers.push(number)?;
    }
    Ok(numbers)
}

#[test]
fn ring_runs_in_turns_and_under_schedules(rt: HostRuntime) -> Result<(), Fail> {
    run(&rt, rt.alloc(), &[])?;
    run(&rt, rt.alloc(), &[1, 0, 5])?;
    let schedule = numbers(rt.alloc(), 10_000)?;
    run(&rt, rt.alloc(), schedule.as_slice())?;
    Ok(())
}

// Run it with each allocation refused in turn: the system comes back and then runs, or the run ends with what balances.
// Refusals before there is a system are met by beginning again.
#[test]
fn a_refused_run_gives_the_system_back_or_balances(rt: HostRuntime) -> Result<(), Fail> {
    match run(&rt, rt.alloc(), &[1, 0, 5]) {
        Err(Stop::Memory) => run(&rt, rt.alloc(), &[1, 0, 5])?,
        other => other?,
    }
    Ok(())
}
