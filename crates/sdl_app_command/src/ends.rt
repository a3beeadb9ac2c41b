//! How an input and an output ended, on standard error.
ghost use Rattle.std.specs.Prelude.{◌≡◌};
ghost use Rattle.std.specs.Io.KnownBytes.{Keeps};
ghost use Rattle.sdl_app_command.specs.Status.{HasFlushed, status_of, status_of_input, status_of_output};

use crate::errors::write_error;
use crate::status::{FAULTY, WHOLE};
use sdl_signal::{InputEnd, OutputEnd};
use std::io::Write;

/// The end of an output whose last bytes were flushed.
pub fn flushed<W: Write>(output: &mut W, end: OutputEnd) -> OutputEnd
    ensures end { HasFlushed end result }
    ensures contents { Keeps (W.contents output.old) (W.contents output.new) }
{
    match output.flush() {
        Ok(()) => end,
        Err(_) => OutputEnd::WriteFault,
    }
}

/// Writes a line for each end that is not whole, input first, and answers the exit status.
pub(crate) fn report<E: Write>(input: InputEnd, output: OutputEnd, errors: &mut E) -> u8
    ensures status { result ≡ status_of input output }
    ensures silent { result ≡ 0 → Keeps (E.contents errors.old) (E.contents errors.new) }
{
    let read = report_input(input, errors);
    let written = report_output(output, errors);
    read.max(written)
}

/// Writes that an input had a fault, where it had one, and answers the exit status.
pub fn report_input<E: Write>(end: InputEnd, errors: &mut E) -> u8
    ensures status { result ≡ status_of_input end }
    ensures silent { result ≡ 0 → Keeps (E.contents errors.old) (E.contents errors.new) }
{
    match end {
        InputEnd::Whole | InputEnd::Stopped(_) => return WHOLE,
        InputEnd::BadLine(line, fault) => {
            write_error(errors, format_args!("input line {line}: {fault}"))
        }
        InputEnd::ReadFault => write_error(errors, "input: read fault"),
        InputEnd::TooMuch => write_error(errors, "input: over 16384 lines"),
    }
    FAULTY
}

/// Writes that an output had a fault, where it had one, and answers the exit status.
pub fn report_output<E: Write>(end: OutputEnd, errors: &mut E) -> u8
    ensures status { result ≡ status_of_output end }
    ensures silent { result ≡ 0 → Keeps (E.contents errors.old) (E.contents errors.new) }
{
    match end {
        OutputEnd::Whole => WHOLE,
        OutputEnd::WriteFault => {
            write_error(errors, "output: write fault");
            FAULTY
        }
    }
}
