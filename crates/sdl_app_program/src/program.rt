//! What the program does, over any reader and writers, and its exit statuses.
ghost use Rattle.std.specs.Prelude.{◌≡◌, ◌≢◌, ◌⊎◌, List, ℕ, map, IfOk, IsErr};
ghost use Rattle.std.specs.Io.KnownBytes.{Keeps};
ghost use Rattle.sdl_app_command.specs.Arguments.{arguments_of};
ghost use Rattle.sdl_app_file_commands.specs.Commands.{IsDone};
ghost use Rattle.sdl_app_program.specs.Commands.{Answers, HasRunBuiltIn, IsAnswered, IsUntouched};

use crate::systems::run_file;
use sdl_app_command::arguments::{Arguments, Command, Options, read_arguments};
use sdl_app_command::errors::{without_memory, write_error};
pub use sdl_app_command::pipe::pipe_command;
pub use sdl_app_command::status::{FAULTY, REFUSED, WHOLE, WRONG_ARGUMENTS};
use sdl_app_file_commands::files::{FileRead, read_file};
use sdl_app_file_commands::words::{words_behind_the_name, words_of};
use sdl_structure::FileFault;
use std::alloc::{AllocError, Global};
use std::io::{Read, Write};
use std::rt::{Env, Files};
use std::sync::Wait;
use std::thread::Threads;

const USAGE: &str =
    "usage: sdlrun pipe | check FILE | routes FILE | run [--serial] [--ledger] [--trace] FILE";

/// Does what the program's arguments ask for, and answers the exit status. A line that standard error does not take
/// is dropped. May wait for other threads.
pub fn run<H: Env + Files + AllocGlobal + Threads + Wait + Sync, R: Read, W: Write, E: Write>(
    rt: &H,
    alloc: Global,
    input: &mut R,
    output: &mut W,
    errors: &mut E,
) -> u8
    ensures answered { IsAnswered (R.remaining input.old) (R.remaining input.new) (W.contents output.old) (W.contents output.new) result }
    ensures silent { result ≡ 0 → Keeps (E.contents errors.old) (E.contents errors.new) }
{
    match run_arguments(rt, alloc, input, output, errors) {
        Ok(status) => status,
        Err(_) => {
            without_memory(errors);
            REFUSED
        }
    }
}

/// The same, where the arguments find memory.
fn run_arguments<H: Env + Files + AllocGlobal + Threads + Wait + Sync, R: Read, W: Write, E: Write>(
    rt: &H,
    alloc: Global,
    input: &mut R,
    output: &mut W,
    errors: &mut E,
) -> Result<u8, AllocError>
    ensures ok { IfOk result (IsAnswered (R.remaining input.old) (R.remaining input.new) (W.contents output.old) (W.contents output.new)) }
    ensures err { IsErr result → (input.new ≡ input.old) × (output.new ≡ output.old) }
    ensures silent { IfOk result (λ status. status ≡ 0 → Keeps (E.contents errors.old) (E.contents errors.new)) }
{
    let Some(words) = words_of(rt, alloc)? else {
        return Ok(wrong_arguments(errors));
    };
    let shown = words_behind_the_name(alloc, words.as_slice())?;
    Ok(run_words(rt, alloc, shown.as_slice(), input, output, errors))
}

/// Does what the words after the program's name ask for.
fn run_words<H: Files + Threads + Wait + Sync, R: Read, W: Write, E: Write>(
    rt: &H,
    alloc: Global,
    words: &[&str],
    input: &mut R,
    output: &mut W,
    errors: &mut E,
) -> u8
    ensures answered { Answers (arguments_of (map (λ w. w.now) words.now)) (R.remaining input.old) (R.remaining input.new) (W.contents output.old) (W.contents output.new) result }
    ensures silent { result ≡ 0 → Keeps (E.contents errors.old) (E.contents errors.new) }
{
    match read_arguments(words) {
        Some(Arguments::Pipe) => pipe_command(alloc, input, output, errors),
        Some(Arguments::File(options, place)) => match words.get(place) {
            Some(path) => file_command(rt, alloc, path, options, input, output, errors),
            None => cannot_read(errors),
        },
        None => wrong_arguments(errors),
    }
}

fn wrong_arguments<E: Write>(errors: &mut E) -> u8
    ensures { result ≡ 2 }
{
    write_error(errors, USAGE);
    WRONG_ARGUMENTS
}

fn cannot_read<E: Write>(errors: &mut E) -> u8
    ensures { result ≡ 1 }
{
    write_error(errors, "file: cannot read");
    REFUSED
}

/// A command on a structure file.
fn file_command<H: Files + Threads + Wait + Sync, R: Read, W: Write, E: Write>(
    rt: &H,
    alloc: Global,
    path: &str,
    options: Options,
    input: &mut R,
    output: &mut W,
    errors: &mut E,
) -> u8
    ensures done { (file : List ℕ) × IsDone (HasRunBuiltIn options (R.remaining input.old) (R.remaining input.new) (W.contents output.old) (W.contents output.new))
        (W.contents output.old) (W.contents output.new) options.command file result }
    ensures unread { options.command ≢ Command.Run → input.new ≡ input.old }
    ensures refused { result ≡ 1 → (input.new ≡ input.old) × (output.new ≡ output.old) }
    ensures silent { result ≡ 0 → Keeps (E.contents errors.old) (E.contents errors.new) }
{
    match read_file(rt, alloc, path) {
        FileRead::Bytes(file) => run_file(
            rt,
            alloc,
            file.as_slice(),
            options,
            input,
            output,
            errors,
        ),
        FileRead::CannotRead => cannot_read(errors),
        FileRead::Memory => {
            write_error(errors, FileFault::Memory);
            REFUSED
        }
    }
}
