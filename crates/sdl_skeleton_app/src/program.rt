//! What the program does, over any writers, and its exit statuses.
use sdl_app_command::errors::{without_memory, write_error};
use sdl_app_command::status::{REFUSED, WRONG_ARGUMENTS};
use sdl_app_file_commands::commands::{checked_file, written};
use sdl_app_file_commands::files::{FileRead, read_file};
use sdl_app_file_commands::words::{words_behind_the_name, words_of};
use sdl_skeleton::{
    Names, RUNNING, write_agents, write_lines, write_main, write_numbers, write_set, write_texts,
};
use sdl_structure::FileFault;
use sdl_structure_parts::Structure;
use std::alloc::{AllocError, Global};
use std::io::{Result as Written, Write};
use std::rt::{Env, Files};

const USAGE: &str =
    "usage: main FILE | running FILE | numbers FILE | agents FILE | sets FILE | all FILE";

/// A file of the skeleton, or all of them.
#[derive(Clone, Copy, Debug, PartialEq, Eq)]
enum Wanted {
    Main,
    Running,
    Numbers,
    Agents,
    Sets,
    All,
}

/// Does what the program's arguments ask for, and answers the exit status. A line that standard error does not take is
/// dropped.
pub fn run<H: Env + Files + AllocGlobal, W: Write, E: Write>(
    rt: &H,
    alloc: Global,
    output: &mut W,
    errors: &mut E,
) -> u8 {
    match run_arguments(rt, alloc, output, errors) {
        Ok(status) => status,
        Err(_) => {
            without_memory(errors);
            REFUSED
        }
    }
}

/// The same, where the arguments find memory.
fn run_arguments<H: Env + Files + AllocGlobal, W: Write, E: Write>(
    rt: &H,
    alloc: Global,
    output: &mut W,
    errors: &mut E,
) -> Result<u8, AllocError> {
    let Some(words) = words_of(rt, alloc)? else {
        return Ok(wrong_arguments(errors));
    };
    let shown = words_behind_the_name(alloc, words.as_slice())?;
    Ok(run_words(rt, alloc, shown.as_slice(), output, errors))
}

/// The same for the words after the program's name.
fn run_words<H: Files, W: Write, E: Write>(
    rt: &H,
    alloc: Global,
    words: &[&str],
    output: &mut W,
    errors: &mut E,
) -> u8 {
    let [word, path] = words else {
        return wrong_arguments(errors);
    };
    match wanted_of(word) {
        Some(wanted) if !path.starts_with("--") => {
            write_path(rt, alloc, path, wanted, output, errors)
        }
        _ => wrong_arguments(errors),
    }
}

/// The file that a word asks for.
fn wanted_of(word: &str) -> Option<Wanted> {
    if word == "main" {
        Some(Wanted::Main)
    } else if word == "running" {
        Some(Wanted::Running)
    } else if word == "numbers" {
        Some(Wanted::Numbers)
    } else if word == "agents" {
        Some(Wanted::Agents)
    } else if word == "sets" {
        Some(Wanted::Sets)
    } else if word == "all" {
        Some(Wanted::All)
    } else {
        None
    }
}

/// Writes what is wanted for the structure file of this path, and answers the exit status.
fn write_path<H: Files, W: Write, E: Write>(
    rt: &H,
    alloc: Global,
    path: &str,
    wanted: Wanted,
    output: &mut W,
    errors: &mut E,
) -> u8 {
    match read_file(rt, alloc, path) {
        FileRead::Bytes(file) => write_file(alloc, file.as_slice(), wanted, output, errors),
        FileRead::CannotRead => {
            write_error(errors, "file: cannot read");
            REFUSED
        }
        FileRead::Memory => {
            write_error(errors, FileFault::Memory);
            REFUSED
        }
    }
}

/// Writes what is wanted for the bytes of a structure file.
fn write_file<W: Write, E: Write>(
    alloc: Global,
    file: &[u8],
    wanted: Wanted,
    output: &mut W,
    errors: &mut E,
) -> u8 {
    let Some(checked) = checked_file(alloc, file, errors) else {
        return REFUSED;
    };
    let structure = checked.structure();
    let Ok(names) = Names::of(alloc, structure) else {
        without_memory(errors);
        return REFUSED;
    };
    let text = write_wanted(output, wanted, structure, &names);
    written(text, output, errors)
}

/// Writes what is wanted.
fn write_wanted<W: Write>(
    output: &mut W,
    wanted: Wanted,
    structure: &Structure,
    names: &Names,
) -> Written<()> {
    match wanted {
        Wanted::Main => write_main(output, names),
        Wanted::Running => write_lines(output, RUNNING),
        Wanted::Numbers => write_numbers(output, structure, names),
        Wanted::Agents => write_agents(output, structure, names),
        Wanted::Sets => write_sets(output, structure, names),
        Wanted::All => write_all(output, structure, names),
    }
}

/// Writes the files of the sets, each below a line with its name.
fn write_sets<W: Write>(output: &mut W, structure: &Structure, names: &Names) -> Written<()> {
    for (number, file) in names.files().iter().enumerate() {
        write_texts(output, &["==> ", file.as_str(), ".rt\n"])?;
        write_set(output, structure, names, number)?;
    }
    Ok(())
}

/// Writes all files, each below a line with its name.
fn write_all<W: Write>(output: &mut W, structure: &Structure, names: &Names) -> Written<()> {
    write_lines(output, &["==> main.rt"])?;
    write_main(output, names)?;
    write_lines(output, &["==> running.rt"])?;
    write_lines(output, RUNNING)?;
    write_lines(output, &["==> numbers.rt"])?;
    write_numbers(output, structure, names)?;
    write_lines(output, &["==> agents.rt"])?;
    write_agents(output, structure, names)?;
    write_sets(output, structure, names)
}

fn wrong_arguments<E: Write>(errors: &mut E) -> u8 {
    write_error(errors, USAGE);
    WRONG_ARGUMENTS
}
