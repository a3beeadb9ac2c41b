//! What is told of a run that ended: its ledger and its trace, where they were asked for, and how it ended.
ghost use Rattle.std.specs.Prelude.{◌≡◌, false, IsOk};
ghost use Rattle.std.specs.Io.KnownBytes.{Keeps};
ghost use Rattle.sdl_app_command.specs.Status.{HasFlushed};
ghost use Rattle.sdl_app_file_runs.specs.Outcomes.{status_of_end, IsToldBy};

use crate::ledger::write_ledger;
use sdl_app_command::arguments::Options;
use sdl_app_command::ends::{flushed, report_input, report_output};
use sdl_app_command::errors::write_error;
use sdl_app_command::status::{FAULTY, WHOLE};
use sdl_app_file_commands::names::block_name;
use sdl_app_file_commands::trace::write_trace;
use sdl_instances_packed_log::Shows;
use sdl_run::{Closing, RunEnd};
use sdl_signal::OutputEnd;
use sdl_structure_parts::Structure;
use std::io::{Result, Write};

/// Writes what was asked for of a run that ended, and how it ended, and answers the exit status.
pub fn report_closing<S: Drop, K: Shows, W: Write, E: Write>(
    options: Options,
    closing: &Closing<S, K>,
    output: &mut W,
    errors: &mut E,
) -> u8
    ensures status { IsToldBy closing.now.input closing.now.output closing.now.end result }
    // Where neither was asked for, nothing more is written.
    ensures no_books { options.ledger ≡ false → options.trace ≡ false → Keeps (W.contents output.old) (W.contents output.new) }
    ensures silent { result ≡ 0 → Keeps (E.contents errors.old) (E.contents errors.new) }
{
    let written = write_closing(options, closing, output);
    let input_status = report_input(closing.input, errors);
    let output_status = report_output(written, errors);
    let end_status = report_end(closing.bound.checked().structure(), closing.end, errors);
    input_status.max(output_status).max(end_status)
}

/// Writes the ledger and the trace, where they were asked for and all lines of the environment went out.
fn write_closing<S, K: Shows, W: Write>(
    options: Options,
    closing: &Closing<S, K>,
    output: &mut W,
) -> OutputEnd
    ensures end { HasFlushed closing.now.output result }
    ensures no_books { options.ledger ≡ false → options.trace ≡ false → Keeps (W.contents output.old) (W.contents output.new) }
{
    match flushed(output, closing.output) {
        OutputEnd::Whole => {}
        OutputEnd::WriteFault => return OutputEnd::WriteFault,
    }
    match write_books(options, closing, output) {
        Ok(()) => flushed(output, OutputEnd::Whole),
        Err(_) => OutputEnd::WriteFault,
    }
}

/// Writes the ledger and the trace, where they were asked for.
fn write_books<S, K: Shows, W: Write>(
    options: Options,
    closing: &Closing<S, K>,
    output: &mut W,
) -> Result<()>
    ensures no_books { options.ledger ≡ false → options.trace ≡ false → IsOk result × (output.new ≡ output.old) }
{
    if options.ledger {
        write_ledger(output, &closing.ledger)?;
    }
    if options.trace {
        write_trace(
            output,
            closing.bound.checked().structure(),
            closing.logs.as_slice(),
        )?;
    }
    Ok(())
}

/// Writes how a run ended, where it did not end quietly, and answers the exit status.
fn report_end<E: Write>(structure: &Structure, end: RunEnd, errors: &mut E) -> u8
    ensures status { result ≡ status_of_end end }
    ensures silent { result ≡ 0 → Keeps (E.contents errors.old) (E.contents errors.new) }
{
    match end {
        RunEnd::Quiet => return WHOLE,
        RunEnd::Spent(block) => {
            write_error(
                errors,
                format_args!("end spent {}", block_name(structure, block)),
            )
        }
        RunEnd::Memory(worker) => write_error(errors, format_args!("end memory worker {worker}")),
    }
    FAULTY
}
