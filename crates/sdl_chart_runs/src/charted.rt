//! A run whose chart is written.
ghost use Rattle.std.specs.Prelude.{◌≡◌, ◌≤◌, ◌⊎◌, true, IfOk, IfErr};
ghost use Rattle.std.specs.Io.KnownBytes.{Keeps};
ghost use Rattle.sdl_routes.specs.Routes.{AreRoutesOf};
ghost use Rattle.sdl_transition.specs.Bound.{IsBound, structure_of, routes_of};
ghost use Rattle.sdl_run_outcome.specs.Outcome.{IsComplete};
ghost use Rattle.sdl_run_driver.specs.Closings.{HasReadIn, StopsByMemory, IsSameBound, outcome_in, plan_of_bound};
ghost use Rattle.sdl_run_driver.specs.Ended.{HasEnded};
ghost use Rattle.sdl_app_file_commands.specs.Running.{HasBudget};
ghost use Rattle.sdl_app_file_runs.specs.Outcomes.{IsToldBy};
ghost use Rattle.sdl_chart_page.specs.Entries.{AreStored};
ghost use Rattle.sdl_chart_page.specs.Pages.{AreOrderly};
ghost use Rattle.sdl_chart_runs.specs.Charts.{HasToldChart, HasCharted, entries_left};

use crate::drawn::{ToChart, chart_closing, write_chart_fault};
use sdl_app_command::arguments::Options;
use sdl_app_command::errors::without_memory;
use sdl_app_command::status::{FAULTY, REFUSED};
use sdl_app_file_runs::closing::report_closing;
use sdl_app_file_runs::running::Settings;
use sdl_instances_packed_log::{Packed, Shows};
use sdl_run::{Closing, OpenGate, StartFault, run_keeping, run_threads_keeping};
use sdl_run_audit::{Recounts, audit};
use sdl_signal::OutputEnd;
use sdl_transition::{Agents, Bound};
use std::io::{Read, Write, sink};
use std::sync::Wait;
use std::thread::Threads;

/// Runs a system that is bound, with its structure's budget and in threads unless one thread was asked for, and writes the chart of
/// the run in place of the environment's lines. Answers the exit status. May wait for other threads.
pub fn run_charted<S: Agents + Send + Drop, T: Threads + Wait + Sync, R: Read, W: Write, E: Write>(
    rt: &T,
    settings: Settings,
    bound: Bound<S>,
    to_chart: &ToChart,
    input: &mut R,
    output: &mut W,
    errors: &mut E,
) -> u8
    requires bound { IsBound S.may bound }
    requires budget { HasBudget (structure_of bound) }
    ensures made { (result ≡ 1) ⊎ HasCharted S.may (plan_of_bound bound (structure_of bound).budget) to_chart.now.states to_chart.now.charting
        (R.remaining input.old) (R.remaining input.new) (W.contents output.old) (W.contents output.new) result }
    ensures refused { result ≡ 1 → (input.new ≡ input.old) × (output.new ≡ output.old) }
    ensures silent { result ≡ 0 → Keeps (E.contents errors.old) (E.contents errors.new) }
{
    run_with::<S, Packed, T, R, W, E>(rt, settings, bound, to_chart, input, output, errors)
}

/// The same with logs of this kind.
fn run_with<
    S: Agents + Send + Drop,
    K: Recounts + Shows + Send,
    T: Threads + Wait + Sync,
    R: Read,
    W: Write,
    E: Write,
>(
    rt: &T,
    settings: Settings,
    bound: Bound<S>,
    to_chart: &ToChart,
    input: &mut R,
    output: &mut W,
    errors: &mut E,
) -> u8
    requires bound { IsBound S.may bound }
    requires budget { HasBudget (structure_of bound) }
    requires stores { (log : _) → K.stores log ≡ true }
    ensures made { (result ≡ 1) ⊎ HasCharted S.may (plan_of_bound bound (structure_of bound).budget) to_chart.now.states to_chart.now.charting
        (R.remaining input.old) (R.remaining input.new) (W.contents output.old) (W.contents output.new) result }
    ensures refused { result ≡ 1 → (input.new ≡ input.old) × (output.new ≡ output.old) }
    ensures silent { result ≡ 0 → Keeps (E.contents errors.old) (E.contents errors.new) }
{
    let structure = bound.checked().structure();
    let budget = structure.budget();
    match run_stored::<S, K, T, R>(rt, settings, bound, budget, input) {
        Ok(closing) => report_charted(rt, settings, closing, to_chart, output, errors),
        Err(StartFault::Memory(_)) => {
            without_memory(errors);
            REFUSED
        }
    }
}

/// Runs a system that is bound, in threads unless one thread was asked for. What the environment receives is not written.
fn run_stored<S: Agents + Send, K: Recounts + Send, T: Threads + Wait + Sync, R: Read>(
    rt: &T,
    settings: Settings,
    bound: Bound<S>,
    budget: u32,
    input: &mut R,
) -> Result<Closing<S, K>, StartFault<S>>
    requires bound { IsBound S.may bound }
    requires budget { (1 ≤ budget) × (budget ≤ 1000000) }
    ensures ended { IfOk result (λ c. HasEnded S.may (plan_of_bound bound budget) (outcome_in K.events c) c.end c.ledger) }
    ensures reading { IfOk result (λ c. HasReadIn (plan_of_bound bound budget) (R.remaining input.old) (R.remaining input.new) c) }
    ensures stopped { IfOk result (λ c. StopsByMemory c.input c.end) }
    ensures bound { IfOk result (λ c. IsSameBound bound c.bound) }
    ensures untouched { IfErr result (λ f. input.new ≡ input.old) }
{
    let mut nothing = sink();
    if settings.options.serial {
        run_keeping(
            settings.alloc,
            bound,
            budget,
            settings.schedule,
            input,
            &mut nothing,
        )
    } else {
        run_threads_keeping(
            rt,
            settings.alloc,
            bound,
            budget,
            &OpenGate,
            input,
            &mut nothing,
        )
    }
}

/// Writes the chart of a run that ended, and how it ended, and answers the exit status.
fn report_charted<S: Drop, K: Recounts + Shows, T: Wait, W: Write, E: Write>(
    rt: &T,
    settings: Settings,
    closing: Closing<S, K>,
    to_chart: &ToChart,
    output: &mut W,
    errors: &mut E,
) -> u8
    requires routes { AreRoutesOf (structure_of closing.bound) (routes_of closing.bound) }
    requires complete { IsComplete (plan_of_bound closing.bound 0) (outcome_in K.events closing) }
    requires stored { AreStored K.stores closing.logs.items }
    requires orderly { AreOrderly (entries_left (outcome_in K.events closing)) }
    ensures told { HasToldChart (structure_of closing.bound) (routes_of closing.bound) to_chart.now.states to_chart.now.charting
        (outcome_in K.events closing) closing.input closing.end (W.contents output.old) (W.contents output.new) result }
    ensures silent { result ≡ 0 → Keeps (E.contents errors.old) (E.contents errors.new) }
{
    // The audit makes each queue one of one thread, in which the items that are left can be read.
    let (closing, _) = audit(rt, closing);
    report_read(settings, closing, to_chart, output, errors)
}

/// The same where each queue that is left is one of one thread.
fn report_read<S: Drop, K: Shows, W: Write, E: Write>(
    settings: Settings,
    closing: Closing<S, K>,
    to_chart: &ToChart,
    output: &mut W,
    errors: &mut E,
) -> u8
    requires stored { AreStored K.stores closing.logs.items }
    requires orderly { AreOrderly (entries_left (outcome_in K.events closing)) }
    ensures told { HasToldChart (structure_of closing.bound) (routes_of closing.bound) to_chart.now.states to_chart.now.charting
        (outcome_in K.events closing) closing.input closing.end (W.contents output.old) (W.contents output.new) result }
    ensures silent { result ≡ 0 → Keeps (E.contents errors.old) (E.contents errors.new) }
{
    match chart_closing(settings.alloc, &closing, to_chart, output) {
        Ok(end) => report_with(settings.options, closing, end, output, errors),
        Err(fault) => {
            let end = closing.output;
            report_with(settings.options, closing, end, output, &mut *errors);
            write_chart_fault(errors, fault);
            FAULTY
        }
    }
}

/// Writes how a run ended whose chart was written with this end, and answers the exit status.
fn report_with<S: Drop, K: Shows, W: Write, E: Write>(
    options: Options,
    closing: Closing<S, K>,
    end: OutputEnd,
    output: &mut W,
    errors: &mut E,
) -> u8
    ensures told { IsToldBy closing.input end closing.end result }
    ensures kept { Keeps (W.contents output.old) (W.contents output.new) }
    ensures silent { result ≡ 0 → Keeps (E.contents errors.old) (E.contents errors.new) }
{
    let mut closing = closing;
    closing.output = end;
    let mut options = options;
    options.ledger = false;
    options.trace = false;
    report_closing(options, &closing, output, errors)
}
