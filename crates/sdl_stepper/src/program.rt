//! What the program does, over any reader and writers, and its exit statuses.
ghost use Rattle.std.specs.Prelude.{IfSome};
ghost use Rattle.sdl_routes.specs.Routes.{AreRoutesOf};

use sdl_agents::echo::Echo;
use sdl_agents::system_named;
use sdl_app_command::ends::{flushed, report_input, report_output};
use sdl_app_command::errors::{without_memory, write_error};
use sdl_app_command::status::{REFUSED, WRONG_ARGUMENTS};
use sdl_app_file_commands::commands::{checked_file, routes_in};
use sdl_app_file_commands::faults::write_bind_fault;
use sdl_app_file_commands::files::{FileRead, read_file};
use sdl_app_file_commands::words::{words_behind_the_name, words_of};
use sdl_routes::Routes;
use sdl_signal::{OutputEnd, SignalId};
use sdl_stepper_block_calls::runner::{Ended, Trial, try_blocks};
use sdl_stepper_calls::naming::signal_of;
use sdl_structure::FileFault;
use sdl_structure_parts::{Checked, Structure};
use sdl_transition::BlockParts;
use std::alloc::{AllocError, Global};
use std::io::{Read, Write};
use std::rt::{Env, Files};
use std::sync::Wait;

const USAGE: &str = "usage: sdl_stepper FILE [SIGNAL ..]";

/// Does what the program's arguments ask for, and answers the exit status. A line that standard error does not take is
/// dropped.
pub fn run<H: Env + Files + AllocGlobal + Wait, R: Read, W: Write, E: Write>(
    rt: &H,
    alloc: Global,
    input: &mut R,
    output: &mut W,
    errors: &mut E,
) -> u8 {
    match run_arguments(rt, alloc, input, output, errors) {
        Ok(status) => status,
        Err(_) => {
            without_memory(errors);
            REFUSED
        }
    }
}

/// The same, where the arguments find memory.
fn run_arguments<H: Env + Files + AllocGlobal + Wait, R: Read, W: Write, E: Write>(
    rt: &H,
    alloc: Global,
    input: &mut R,
    output: &mut W,
    errors: &mut E,
) -> Result<u8, AllocError> {
    let Some(words) = words_of(rt, alloc)? else {
        return Ok(wrong_arguments(errors));
    };
    let shown = words_behind_the_name(alloc, words.as_slice())?;
    match shown.as_slice() {
        [path, signals @ ..] if !path.starts_with("--") => {
            try_path(rt, alloc, path, signals, input, output, errors)
        }
        _ => Ok(wrong_arguments(errors)),
    }
}

fn wrong_arguments<E: Write>(errors: &mut E) -> u8 {
    write_error(errors, USAGE);
    WRONG_ARGUMENTS
}

/// Tries the system of the structure file of this path.
fn try_path<H: Files + Wait, R: Read, W: Write, E: Write>(
    rt: &H,
    alloc: Global,
    path: &str,
    signals: &[&str],
    input: &mut R,
    output: &mut W,
    errors: &mut E,
) -> Result<u8, AllocError> {
    let Some(file) = bytes_of(rt, alloc, path, errors) else {
        return Ok(REFUSED);
    };
    try_file(rt, alloc, file.as_slice(), signals, input, output, errors)
}

/// The bytes of the file of this path. Where it is not read, the reason is written.
fn bytes_of<H: Files, E: Write>(
    rt: &H,
    alloc: Global,
    path: &str,
    errors: &mut E,
) -> Option<Vec<u8>> {
    match read_file(rt, alloc, path) {
        FileRead::Bytes(file) => return Some(file),
        FileRead::CannotRead => write_error(errors, "file: cannot read"),
        FileRead::Memory => write_error(errors, FileFault::Memory),
    }
    None
}

/// Tries the system of the bytes of a structure file.
fn try_file<T: Wait, R: Read, W: Write, E: Write>(
    rt: &T,
    alloc: Global,
    file: &[u8],
    signals: &[&str],
    input: &mut R,
    output: &mut W,
    errors: &mut E,
) -> Result<u8, AllocError> {
    let Some((checked, routes)) = system_of(alloc, file, errors) else {
        return Ok(REFUSED);
    };
    let Some(kept) = signals_of(alloc, checked.structure(), signals)? else {
        write_error(errors, "no such signal");
        return Ok(REFUSED);
    };
    let ended = try_system(Trial {
        rt,
        alloc,
        checked,
        routes,
        signals: kept.as_slice(),
        input,
        output: &mut *output,
    })?;
    Ok(status_of(ended, output, errors))
}

/// The structure of the file, and its routes. Where a rule is broken, that is written.
fn system_of<E: Write>(alloc: Global, file: &[u8], errors: &mut E) -> Option<(Checked, Routes)>
    ensures { IfSome result (λ system. AreRoutesOf system.0 system.1) }
{
    let checked = checked_file(alloc, file, errors)?;
    let routes = routes_in(alloc, &checked, errors)?;
    Some((checked, routes))
}

/// The signals of these words.
fn signals_of(
    alloc: Global,
    structure: &Structure,
    words: &[&str],
) -> Result<Option<Vec<SignalId>>, AllocError> {
    let mut signals = Vec::new(alloc);
    for word in words {
        match signal_of(structure, word) {
            Some(signal) => signals.push(signal)?,
            None => return Ok(None),
        }
    }
    Ok(Some(signals))
}

/// Tries the built-in system that has the structure's name.
fn try_system<T: Wait, R: Read, W: Write>(trial: Trial<T, R, W>) -> Result<Ended, AllocError>
    requires { AreRoutesOf trial.checked trial.routes }
{
    let structure = trial.checked.structure();
    let sets = structure.sets().len() as u32;
    match system_named(structure.system()) {
        Some(system) => sdl_agents::run(system, trial.alloc, sets, trial),
        None => Ok(without_agents(trial)),
    }
}

/// Answers the calls on a system of which no block has agents.
fn without_agents<T: Wait, R: Read, W: Write>(trial: Trial<T, R, W>) -> Ended {
    let Trial {
        rt,
        alloc,
        checked,
        routes,
        signals: _,
        input,
        output,
    } = trial;
    let blocks: Vec<BlockParts<Echo>> = Vec::new(alloc);
    try_blocks(rt, alloc, &checked, &routes, blocks, input, output)
}

/// Writes how the calls ended, and answers the exit status.
fn status_of<W: Write, E: Write>(ended: Ended, output: &mut W, errors: &mut E) -> u8 {
    match ended {
        Ended::Input(end) => {
            let read = report_input(end, errors);
            read.max(report_output(flushed(output, OutputEnd::Whole), errors))
        }
        Ended::Output => report_output(OutputEnd::WriteFault, errors),
        Ended::Memory => {
            let _ = flushed(output, OutputEnd::Whole);
            without_memory(errors);
            REFUSED
        }
        Ended::Unbound(fault) => {
            write_bind_fault(errors, fault);
            REFUSED
        }
    }
}
