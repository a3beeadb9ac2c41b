//! A run of a bound system in threads.
ghost use Rattle.std.specs.Prelude.{◌≡◌, ◌⊎◌};
ghost use Rattle.std.specs.Io.KnownBytes.{Keeps};
ghost use Rattle.sdl_app_file_runs.specs.Outcomes.{HasRunOrNot, HasMade};
ghost use Rattle.sdl_app_file_commands.specs.Running.{HasBudget};
ghost use Rattle.sdl_transition.specs.Bound.{IsBound, structure_of, routes_of};
ghost use Rattle.sdl_run_driver.specs.Closings.{plan_of_bound};

use crate::closing::report_closing;
use crate::running::{Settings, run_bound};
use sdl_app_command::errors::without_memory;
use sdl_app_command::status::REFUSED;
use sdl_instances_log::Unstored;
use sdl_instances_packed_log::{Packed, Shows};
use sdl_run::{OpenGate, StartFault, run_threads_keeping};
use sdl_transition::{Agents, Bound};
use std::io::{Read, Write};
use std::sync::Wait;
use std::thread::Threads;

/// Runs a system that is bound, with its structure's budget, and answers the exit status: with each block and each delaying path
/// in a thread of its own, unless one thread was asked for. The logs are stored where a trace was asked for, and else counted
/// alone. May wait for other threads.
pub fn run_bound_in_threads<
    S: Agents + Send + Drop,
    T: Threads + Wait + Sync,
    R: Read,
    W: Write,
    E: Write,
>(rt: &T, settings: Settings, bound: Bound<S>, input: &mut R, output: &mut W, errors: &mut E) -> u8
    requires bound { IsBound S.may bound }
    requires budget { HasBudget (structure_of bound) }
    ensures run { HasRunOrNot (structure_of bound) (routes_of bound) result }
    ensures made { (result ≡ 1) ⊎ HasMade S.may (plan_of_bound bound (structure_of bound).budget) settings.entry.options
        (R.remaining input.old) (R.remaining input.new) (W.contents output.old) (W.contents output.new) result }
    ensures refused { result ≡ 1 → (input.new ≡ input.old) × (output.new ≡ output.old) }
    ensures silent { result ≡ 0 → Keeps (E.contents errors.old) (E.contents errors.new) }
{
    if settings.options.serial {
        run_bound(settings, bound, input, output, errors)
    } else if settings.options.trace {
        run_with::<S, Packed, T, R, W, E>(rt, settings, bound, input, output, errors)
    } else {
        run_with::<S, Unstored, T, R, W, E>(rt, settings, bound, input, output, errors)
    }
}

/// Runs a system that is bound in threads, with its structure's budget and logs of this kind, and answers the exit status.
fn run_with<
    S: Agents + Send + Drop,
    K: Shows + Send,
    T: Threads + Wait + Sync,
    R: Read,
    W: Write,
    E: Write,
>(rt: &T, settings: Settings, bound: Bound<S>, input: &mut R, output: &mut W, errors: &mut E) -> u8
    requires bound { IsBound S.may bound }
    requires budget { HasBudget (structure_of bound) }
    ensures run { HasRunOrNot (structure_of bound) (routes_of bound) result }
    ensures made { (result ≡ 1) ⊎ HasMade S.may (plan_of_bound bound (structure_of bound).budget) settings.entry.options
        (R.remaining input.old) (R.remaining input.new) (W.contents output.old) (W.contents output.new) result }
    ensures refused { result ≡ 1 → (input.new ≡ input.old) × (output.new ≡ output.old) }
    ensures silent { result ≡ 0 → Keeps (E.contents errors.old) (E.contents errors.new) }
{
    let structure = bound.checked().structure();
    let budget = structure.budget();
    match run_threads_keeping::<S, K, OpenGate, T, R, W>(
        rt,
        settings.alloc,
        bound,
        budget,
        &OpenGate,
        input,
        output,
    ) {
        Ok(closing) => report_closing(settings.options, &closing, output, errors),
        Err(StartFault::Memory(_)) => {
            without_memory(errors);
            REFUSED
        }
    }
}
