//! A run of a bound system on one thread.
ghost use Rattle.std.specs.Prelude.{◌≡◌, ◌⊎◌};
ghost use Rattle.std.specs.Io.KnownBytes.{Keeps};
ghost use Rattle.sdl_app_file_runs.specs.Outcomes.{HasRunOrNot, HasMade};
ghost use Rattle.sdl_app_file_commands.specs.Running.{HasBudget};
ghost use Rattle.sdl_transition.specs.Bound.{IsBound, structure_of, routes_of};
ghost use Rattle.sdl_run_driver.specs.Closings.{plan_of_bound};

use crate::closing::report_closing;
use sdl_app_command::arguments::Options;
use sdl_app_command::errors::without_memory;
use sdl_app_command::status::REFUSED;
use sdl_instances_log::Unstored;
use sdl_instances_packed_log::{Packed, Shows};
use sdl_run::{StartFault, run_keeping};
use sdl_transition::{Agents, Bound};
use std::alloc::Global;
use std::io::{Read, Write};

/// How a system is run.
#[derive(Clone, Copy)]
pub struct Settings<'a> {
    pub alloc: Global,
    pub options: Options,
    /// On one thread: the workers that make a step before all take turns, each with its pick.
    pub schedule: &'a [u32],
}

/// Runs a system that is bound, with its structure's budget, and answers the exit status. The logs are stored where a trace
/// was asked for, and else counted alone.
pub fn run_bound<S: Agents + Drop, R: Read, W: Write, E: Write>(
    settings: Settings,
    bound: Bound<S>,
    input: &mut R,
    output: &mut W,
    errors: &mut E,
) -> u8
    requires bound { IsBound S.may bound }
    requires budget { HasBudget (structure_of bound) }
    ensures run { HasRunOrNot (structure_of bound) (routes_of bound) result }
    ensures made { (result ≡ 1) ⊎ HasMade S.may (plan_of_bound bound (structure_of bound).budget) settings.entry.options
        (R.remaining input.old) (R.remaining input.new) (W.contents output.old) (W.contents output.new) result }
    ensures refused { result ≡ 1 → (input.new ≡ input.old) × (output.new ≡ output.old) }
    ensures silent { result ≡ 0 → Keeps (E.contents errors.old) (E.contents errors.new) }
{
    if settings.options.trace {
        run_with::<S, Packed, R, W, E>(settings, bound, input, output, errors)
    } else {
        run_with::<S, Unstored, R, W, E>(settings, bound, input, output, errors)
    }
}

/// Runs a system that is bound, with its structure's budget and logs of this kind, and answers the exit status.
fn run_with<S: Agents + Drop, K: Shows, R: Read, W: Write, E: Write>(
    settings: Settings,
    bound: Bound<S>,
    input: &mut R,
    output: &mut W,
    errors: &mut E,
) -> u8
    requires bound { IsBound S.may bound }
    requires budget { HasBudget (structure_of bound) }
    ensures run { HasRunOrNot (structure_of bound) (routes_of bound) result }
    ensures made { (result ≡ 1) ⊎ HasMade S.may (plan_of_bound bound (structure_of bound).budget) settings.entry.options
        (R.remaining input.old) (R.remaining input.new) (W.contents output.old) (W.contents output.new) result }
    ensures refused { result ≡ 1 → (input.new ≡ input.old) × (output.new ≡ output.old) }
    ensures silent { result ≡ 0 → Keeps (E.contents errors.old) (E.contents errors.new) }
{
    let structure = bound.checked().structure();
    let budget = structure.budget();
    match run_keeping::<S, K, R, W>(
        settings.alloc,
        bound,
        budget,
        settings.schedule,
        input,
        output,
    ) {
        Ok(closing) => report_closing(settings.options, &closing, output, errors),
        Err(StartFault::Memory(_)) => {
            without_memory(errors);
            REFUSED
        }
    }
}
