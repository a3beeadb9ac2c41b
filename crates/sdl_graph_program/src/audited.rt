//! A run whose closing is audited.
ghost use Rattle.std.specs.Prelude.{◌≡◌, ◌≢◌, ◌≤◌, ℕ, ◌⊎◌, false, true, List, Option, IfOk, IfErr, OnOk};
ghost use Rattle.std.specs.Io.KnownBytes.{Keeps, Appends};
ghost use Rattle.sdl_routes.specs.Routes.{AreRoutesOf};
ghost use Rattle.sdl_transition.specs.Bound.{IsBound, structure_of, routes_of};
ghost use Rattle.sdl_run_outcome.specs.Outcome.{IsComplete};
ghost use Rattle.sdl_run_driver.specs.Closings.{HasReadIn, HasWrittenIn, StopsByMemory, IsSameBound, outcome_in, plan_of_bound};
ghost use Rattle.sdl_run_driver.specs.Ended.{HasEnded};
ghost use Rattle.sdl_run_serial.specs.Serial.{IsBackIn};
ghost use Rattle.sdl_app_file_commands.specs.Commands.{HasPrinted};
ghost use Rattle.sdl_app_file_runs.specs.Outcomes.{IsToldBy};
ghost use Rattle.sdl_app_file_commands.specs.Running.{HasBudget};
ghost use Rattle.sdl_graph_program.specs.Outcomes.{HasAudited, HasMadeAudited, audit_text};

use sdl_app_command::arguments::Options;
use sdl_app_command::ends::{flushed, report_output};
use sdl_app_command::errors::{without_memory, write_error};
use sdl_app_command::status::{FAULTY, REFUSED, WHOLE};
use sdl_app_file_commands::commands::written;
use sdl_app_file_runs::closing::report_closing;
use sdl_app_file_runs::running::Settings;
use sdl_instances_packed_log::{Packed, Shows};
use sdl_run::{Closing, OpenGate, StartFault, run_keeping, run_threads_keeping};
use sdl_run_audit::{AuditFault, Recounts, audit};
use sdl_signal::OutputEnd;
use sdl_transition::{Agents, Bound};
use std::io;
use std::io::{Read, Write};
use std::sync::Wait;
use std::thread::Threads;

/// Runs a system that is bound, with its structure's budget, tells of the run, and audits what it left. Answers the exit status.
pub fn run_audited<S: Agents + Send + Drop, T: Threads + Wait + Sync, R: Read, W: Write, E: Write>(
    rt: &T,
    settings: Settings,
    bound: Bound<S>,
    input: &mut R,
    output: &mut W,
    errors: &mut E,
) -> u8
    requires bound { IsBound S.may bound }
    requires budget { HasBudget (structure_of bound) }
    ensures made { (result ≡ 1) ⊎ HasMadeAudited S.may (plan_of_bound bound (structure_of bound).budget) settings.entry.options true
        (R.remaining input.old) (R.remaining input.new) (W.contents output.old) (W.contents output.new) result }
    ensures refused { result ≡ 1 → (input.new ≡ input.old) × (output.new ≡ output.old) }
    ensures silent { result ≡ 0 → Keeps (E.contents errors.old) (E.contents errors.new) }
{
    match try_run_audited(rt, settings, bound, input, output, &mut *errors) {
        Ok(status) => status,
        Err(StartFault::Memory(_)) => {
            without_memory(errors);
            REFUSED
        }
    }
}

/// Runs a system that is bound, with its structure's budget and in threads unless one thread was asked for, tells of the run, and
/// audits what it left. Answers the exit status. Where memory is refused before the first step, nothing is told, and the system is
/// handed back. May wait for other threads.
pub fn try_run_audited<
    S: Agents + Send + Drop,
    T: Threads + Wait + Sync,
    R: Read,
    W: Write,
    E: Write,
>(
    rt: &T,
    settings: Settings,
    bound: Bound<S>,
    input: &mut R,
    output: &mut W,
    errors: &mut E,
) -> Result<u8, StartFault<S>>
    requires bound { IsBound S.may bound }
    requires budget { HasBudget (structure_of bound) }
    ensures made { IfOk result (HasMadeAudited S.may (plan_of_bound bound (structure_of bound).budget) settings.entry.options true
        (R.remaining input.old) (R.remaining input.new) (W.contents output.old) (W.contents output.new)) }
    // The status of a refusal is not that of a run.
    ensures started { IfOk result (λ status. status ≢ 1) }
    ensures silent { IfOk result (λ status. status ≡ 0 → Keeps (E.contents errors.old) (E.contents errors.new)) }
    ensures back { IfErr result (λ f. IsBackIn S.may bound f) }
    ensures untouched { IfErr result (λ f. (input.new ≡ input.old) × (output.new ≡ output.old) × (errors.new ≡ errors.old)) }
{
    try_run_with::<S, Packed, T, R, W, E>(rt, settings, bound, input, output, errors)
}

/// The same with logs of this kind.
fn try_run_with<
    S: Agents + Send + Drop,
    K: Recounts + Shows + Send,
    T: Threads + Wait + Sync,
    R: Read,
    W: Write,
    E: Write,
>(
    rt: &T,
    settings: Settings,
    bound: Bound<S>,
    input: &mut R,
    output: &mut W,
    errors: &mut E,
) -> Result<u8, StartFault<S>>
    requires bound { IsBound S.may bound }
    requires budget { HasBudget (structure_of bound) }
    ensures made { IfOk result (HasMadeAudited S.may (plan_of_bound bound (structure_of bound).budget) settings.entry.options true
        (R.remaining input.old) (R.remaining input.new) (W.contents output.old) (W.contents output.new)) }
    ensures started { IfOk result (λ status. status ≢ 1) }
    ensures silent { IfOk result (λ status. status ≡ 0 → Keeps (E.contents errors.old) (E.contents errors.new)) }
    ensures back { IfErr result (λ f. IsBackIn S.may bound f) }
    ensures untouched { IfErr result (λ f. (input.new ≡ input.old) × (output.new ≡ output.old) × (errors.new ≡ errors.old)) }
{
    let structure = bound.checked().structure();
    let budget = structure.budget();
    match run_stored::<S, K, T, R, W>(rt, settings, bound, budget, input, &mut *output) {
        Ok(closing) => Ok(report_audited(rt, settings.options, closing, output, errors)),
        Err(fault) => Err(fault),
    }
}

/// Runs a system that is bound, in threads unless one thread was asked for.
fn run_stored<S: Agents + Send, K: Recounts + Send, T: Threads + Wait + Sync, R: Read, W: Write>(
    rt: &T,
    settings: Settings,
    bound: Bound<S>,
    budget: u32,
    input: &mut R,
    output: &mut W,
) -> Result<Closing<S, K>, StartFault<S>>
    requires bound { IsBound S.may bound }
    requires budget { (1 ≤ budget) × (budget ≤ 1000000) }
    ensures ended { IfOk result (λ c. HasEnded S.may (plan_of_bound bound budget) (outcome_in K.events c) c.end c.ledger) }
    ensures reading { IfOk result (λ c. HasReadIn (plan_of_bound bound budget) (R.remaining input.old) (R.remaining input.new) c) }
    ensures writing { IfOk result (λ c. HasWrittenIn (plan_of_bound bound budget) (W.contents output.old) (W.contents output.new) c) }
    ensures stopped { IfOk result (λ c. StopsByMemory c.input c.end) }
    ensures bound { IfOk result (λ c. IsSameBound bound c.bound) }
    ensures back { IfErr result (λ f. IsBackIn S.may bound f) }
    ensures untouched { IfErr result (λ f. (input.new ≡ input.old) × (output.new ≡ output.old)) }
{
    if settings.options.serial {
        run_keeping(
            settings.alloc,
            bound,
            budget,
            settings.schedule,
            input,
            output,
        )
    } else {
        run_threads_keeping(rt, settings.alloc, bound, budget, &OpenGate, input, output)
    }
}

/// Writes what was asked for of a run that ended, how it ended, and what its audit found, and answers the exit status.
fn report_audited<S: Drop, K: Recounts + Shows, T: Wait, W: Write, E: Write>(
    rt: &T,
    options: Options,
    closing: Closing<S, K>,
    output: &mut W,
    errors: &mut E,
) -> u8
    requires routes { AreRoutesOf (structure_of closing.bound) (routes_of closing.bound) }
    requires complete { IsComplete (plan_of_bound closing.bound 0) (outcome_in K.events closing) }
    ensures told { (told : ℕ) × (books : Option (List ℕ)) × IsToldBy closing.input closing.output closing.end told
        × (options.ledger ≡ false → options.trace ≡ false → Keeps (W.contents output.old) books) × HasAudited true books (W.contents output.new) told result }
    ensures silent { result ≡ 0 → Keeps (E.contents errors.old) (E.contents errors.new) }
{
    let (closing, answer) = audit(rt, closing);
    let told = report_closing(options, &closing, output, &mut *errors);
    report_audit(told, answer, output, errors)
}

/// Writes what an audit found, and answers the exit status of the run, which was told with this one.
fn report_audit<W: Write, E: Write>(
    told: u8,
    answer: Result<(), AuditFault>,
    output: &mut W,
    errors: &mut E,
) -> u8
    ensures audited { HasAudited true (W.contents output.old) (W.contents output.new) told result }
    ensures silent { result ≡ 0 → (told ≡ 0) × Keeps (E.contents errors.old) (E.contents errors.new) }
{
    match answer {
        Ok(()) => report_passed(told, output, errors),
        Err(fault) => {
            write_error(errors, fault);
            FAULTY
        }
    }
}

/// Writes that an audit found nothing wrong. Where the output had a fault before, that was told with the run.
fn report_passed<W: Write, E: Write>(told: u8, output: &mut W, errors: &mut E) -> u8
    ensures audited { HasAudited true (W.contents output.old) (W.contents output.new) told result }
    ensures silent { result ≡ 0 → (told ≡ 0) × Keeps (E.contents errors.old) (E.contents errors.new) }
{
    match flushed(output, OutputEnd::Whole) {
        OutputEnd::Whole => match print_passed(output, errors) {
            WHOLE => told,
            _ => FAULTY,
        },
        OutputEnd::WriteFault => {
            if told == WHOLE {
                report_output(OutputEnd::WriteFault, errors);
            }
            FAULTY
        }
    }
}

/// Writes the line that nothing is wrong, and answers the status of that.
fn print_passed<W: Write, E: Write>(output: &mut W, errors: &mut E) -> u8
    ensures printed { HasPrinted (W.contents output.old) (W.contents output.new) audit_text result }
    ensures silent { result ≡ 0 → Keeps (E.contents errors.old) (E.contents errors.new) }
{
    let text = write_passed(output);
    written(text, output, errors)
}

/// Writes the line that nothing is wrong.
fn write_passed<W: Write>(output: &mut W) -> io::Result<()>
    ensures { OnOk result (Appends (W.contents output.old) (W.contents output.new) audit_text) }
{
    writeln!(output, "audit ok")
}
