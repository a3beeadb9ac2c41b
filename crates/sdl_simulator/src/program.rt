//! What the program does, over any reader and writers, and its exit statuses.
ghost use Rattle.std.specs.Prelude.{◌≡◌, ℕ, List, map, IfOk, IfErr, IfSome, IsErr};
ghost use Rattle.std.specs.Io.KnownBytes.{Keeps};
ghost use Rattle.sdl_app_file_commands.specs.Commands.{HasPrinted};
ghost use Rattle.sdl_app_file_commands.specs.Files.{Declares};
ghost use Rattle.sdl_app_file_commands.specs.Running.{CanRun};
ghost use Rattle.sdl_app_file_commands.specs.Texts.{check_text};
ghost use Rattle.sdl_graph_program.specs.Outcomes.{IsToldOf};
ghost use Rattle.sdl_simulator.specs.Words as rule;
ghost use Rattle.sdl_simulator.specs.Files.{Describes};
ghost use Rattle.sdl_simulator.specs.Answers.{Answers, HasRunAsked, IsAnswered, IsChartAsked, IsDoneOf};

use crate::agents::listing_of;
use crate::words::{Asked, asked_of};
use sdl_app_command::arguments::{Command, Options};
use sdl_app_command::errors::{without_memory, write_error};
use sdl_app_command::status::{REFUSED, WRONG_ARGUMENTS};
use sdl_app_file_commands::commands::check_command;
use sdl_app_file_commands::files::{FileRead, read_file};
use sdl_app_file_commands::words::{words_behind_the_name, words_of};
use sdl_chart_words::{Charting, Request, charting_of};
use sdl_drawing_text::structure_at;
use sdl_graph_program::{Prepared, prepare_file};
use sdl_listing_binding::{ListedSet, are_sound};
use sdl_listing_runs::run_listing;
use sdl_structure::FileFault;
use sdl_structure_parts::Structure;
use std::alloc::{AllocError, Global};
use std::io::{Read, Write};
use std::rt::{Env, Files};
use std::sync::Wait;
use std::thread::Threads;

const USAGE: &str =
    "usage: check FILE [AGENTS] | routes FILE | structure [--dot] FILE | run [--serial] [--ledger] [--trace] [--audit] FILE AGENTS | chart [--serial] [--text | --svg | --msc] [--from N] [--to N] [--only SET].. [--by-set] FILE AGENTS";

/// The paths of a structure file and of an agents file.
#[derive(Clone, Copy)]
struct Paths<'a> {
    file: &'a str,
    agents: &'a str,
}

/// What is asked for of a run.
#[derive(Clone, Copy)]
struct Chosen<'a> {
    options: Options,
    audit: bool,
    /// What is asked for of the chart of the run, where one is written.
    chart: Option<Request>,
    words: &'a [&'a str],
}

/// A structure that is prepared for a run, and what an agents file says of its sets.
#[derive(Drop)]
struct Simulation {
    prepared: Prepared,
    listing: Vec<ListedSet>,
}

/// Does what the program's arguments ask for, and answers the exit status. A line that standard error does not take is dropped.
/// May wait for other threads.
pub fn run<H: Env + Files + AllocGlobal + Threads + Wait + Sync, R: Read, W: Write, E: Write>(
    rt: &H,
    alloc: Global,
    input: &mut R,
    output: &mut W,
    errors: &mut E,
) -> u8
    ensures answered { IsAnswered (R.remaining input.old) (R.remaining input.new) (W.contents output.old) (W.contents output.new) result }
    ensures silent { result ≡ 0 → Keeps (E.contents errors.old) (E.contents errors.new) }
{
    match run_arguments(rt, alloc, input, output, &mut *errors) {
        Ok(status) => status,
        Err(_) => {
            without_memory(errors);
            REFUSED
        }
    }
}

/// The same, where the arguments find memory.
fn run_arguments<H: Env + Files + AllocGlobal + Threads + Wait + Sync, R: Read, W: Write, E: Write>(
    rt: &H,
    alloc: Global,
    input: &mut R,
    output: &mut W,
    errors: &mut E,
) -> Result<u8, AllocError>
    ensures ok { IfOk result (IsAnswered (R.remaining input.old) (R.remaining input.new) (W.contents output.old) (W.contents output.new)) }
    ensures err { IsErr result → (input.new ≡ input.old) × (output.new ≡ output.old) }
    ensures silent { IfOk result (λ status. status ≡ 0 → Keeps (E.contents errors.old) (E.contents errors.new)) }
{
    let Some(words) = words_of(rt, alloc)? else {
        return Ok(wrong_arguments(errors));
    };
    let shown = words_behind_the_name(alloc, words.as_slice())?;
    Ok(run_words(rt, alloc, shown.as_slice(), input, output, errors))
}

/// Does what the words after the program's name ask for.
fn run_words<H: Files + Threads + Wait + Sync, R: Read, W: Write, E: Write>(
    rt: &H,
    alloc: Global,
    words: &[&str],
    input: &mut R,
    output: &mut W,
    errors: &mut E,
) -> u8
    ensures answered { Answers (map (λ w. w.now) words.now) (rule.asked_of (map (λ w. w.now) words.now)) (R.remaining input.old) (R.remaining input.new) (W.contents output.old) (W.contents output.new) result }
    ensures silent { result ≡ 0 → Keeps (E.contents errors.old) (E.contents errors.new) }
{
    let Some(asked) = asked_of(words) else {
        return wrong_arguments(errors);
    };
    let paths = paths_in(words);
    match asked {
        Asked::File(command) => do_alone(rt, alloc, paths.agents, command, output, errors),
        Asked::Structure(form) => structure_at(rt, alloc, paths.agents, form, output, errors),
        Asked::Check => check_both(rt, alloc, paths, output, errors),
        Asked::Run(options, audit) => {
            let chosen = Chosen {
                options,
                audit,
                chart: None,
                words,
            };
            run_both(rt, alloc, paths, chosen, input, output, errors)
        }
        Asked::Chart(request) => {
            let options = Options {
                command: Command::Run,
                serial: request.serial,
                ledger: false,
                trace: false,
            };
            let chosen = Chosen {
                options,
                audit: false,
                chart: Some(request),
                words,
            };
            run_both(rt, alloc, paths, chosen, input, output, errors)
        }
    }
}

/// The last two words. Where there is one alone, it is the last.
fn paths_in<'a>(words: &[&'a str]) -> Paths<'a> {
    match words.split_last() {
        Some((agents, front)) => match front.split_last() {
            Some((file, _)) => Paths { file, agents },
            None => Paths { file: "", agents },
        },
        None => Paths {
            file: "",
            agents: "",
        },
    }
}

fn wrong_arguments<E: Write>(errors: &mut E) -> u8
    ensures { result ≡ 2 }
{
    write_error(errors, USAGE);
    WRONG_ARGUMENTS
}

/// A command on the structure file of this path alone.
fn do_alone<H: Files, W: Write, E: Write>(
    rt: &H,
    alloc: Global,
    path: &str,
    command: Command,
    output: &mut W,
    errors: &mut E,
) -> u8
    ensures told { (file : List ℕ) × IsToldOf (W.contents output.old) (W.contents output.new) file result }
    ensures refused { result ≡ 1 → output.new ≡ output.old }
    ensures silent { result ≡ 0 → Keeps (E.contents errors.old) (E.contents errors.new) }
{
    let options = Options {
        command,
        serial: false,
        ledger: false,
        trace: false,
    };
    let Err(status) = prepare_path(rt, alloc, path, options, output, errors) else {
        return REFUSED;
    };
    status
}

/// The run that is asked for of the structure file of this path, or the exit status of what was done at once.
fn prepare_path<H: Files, W: Write, E: Write>(
    rt: &H,
    alloc: Global,
    path: &str,
    options: Options,
    output: &mut W,
    errors: &mut E,
) -> Result<Prepared, u8>
    ensures ready { IfOk result (λ p. CanRun p.checked p.routes) }
    ensures declared { IfOk result (λ p. (file : List ℕ) × Declares file p.checked) }
    ensures asked { IfOk result (λ p. p.options ≡ options) }
    ensures told { IfErr result (λ status. (file : List ℕ) × IsToldOf (W.contents output.old) (W.contents output.new) file status) }
    ensures run { options.command ≡ Command.Run → IfErr result (λ status. status ≡ 1) }
    ensures unwritten { IfOk result (λ p. output.new ≡ output.old) }
    ensures quiet { IfOk result (λ p. errors.new ≡ errors.old) }
    ensures refused { IfErr result (λ status. status ≡ 1 → output.new ≡ output.old) }
    ensures silent { IfErr result (λ status. status ≡ 0 → Keeps (E.contents errors.old) (E.contents errors.new)) }
{
    match read_file(rt, alloc, path) {
        FileRead::Bytes(file) => prepare_file(alloc, file.as_slice(), options, output, errors),
        FileRead::CannotRead => {
            write_error(errors, "file: cannot read");
            Err(REFUSED)
        }
        FileRead::Memory => {
            write_error(errors, FileFault::Memory);
            Err(REFUSED)
        }
    }
}

/// The structure of the first file, prepared for a run, and what the second says of its sets; where a rule is broken, the first that
/// is was written.
fn simulation_of<H: Files, W: Write, E: Write>(
    rt: &H,
    alloc: Global,
    paths: Paths,
    chosen: Chosen,
    output: &mut W,
    errors: &mut E,
) -> Option<Simulation>
    requires { chosen.options.command ≡ Command.Run }
    ensures ready { IfSome result (λ x. CanRun x.prepared.checked x.prepared.routes) }
    ensures declared { IfSome result (λ x. (file : List ℕ) × Declares file x.prepared.checked) }
    ensures described { IfSome result (λ x. (agents : List ℕ) × Describes agents x.prepared.checked x.listing.items) }
    ensures asked { IfSome result (λ x. (x.prepared.options ≡ chosen.entry.options) × (x.prepared.audit ≡ chosen.entry.audit)) }
    ensures chart { IfSome result (λ x. IsChartAsked (map (λ w. w.now) chosen.entry.words.now) chosen.entry.chart x.prepared.checked x.prepared.chart) }
    ensures unwritten { output.new ≡ output.old }
    ensures quiet { IfSome result (λ x. errors.new ≡ errors.old) }
{
    let Ok(prepared) = prepare_path(rt, alloc, paths.file, chosen.options, output, errors) else {
        return None;
    };
    let mut prepared = prepared;
    prepared.audit = chosen.audit;
    let structure = prepared.checked.structure();
    let chart = chart_of(alloc, structure, chosen, &mut *errors)?;
    prepared.chart = chart;
    let structure = prepared.checked.structure();
    let listing = listing_of(rt, alloc, paths.agents, structure, errors)?;
    Some(Simulation { prepared, listing })
}

/// What is asked for of the chart of the run, where one is; where a name is no set's, that was written.
fn chart_of<E: Write>(
    alloc: Global,
    structure: &Structure,
    chosen: Chosen,
    errors: &mut E,
) -> Option<Option<Charting>>
    ensures chart { IfSome result (IsChartAsked (map (λ w. w.now) chosen.entry.words.now) chosen.entry.chart structure.now) }
    ensures quiet { IfSome result (λ c. errors.new ≡ errors.old) }
{
    match chosen.chart {
        Some(request) => match charting_of(alloc, structure, request, chosen.words, errors) {
            Some(charting) => Some(Some(charting)),
            None => None,
        },
        None => Some(None),
    }
}

/// Says whether both files keep all rules, so that a run of them can be made: the structure has a table of routes too.
fn check_both<H: Files, W: Write, E: Write>(
    rt: &H,
    alloc: Global,
    paths: Paths,
    output: &mut W,
    errors: &mut E,
) -> u8
    ensures done { IsDoneOf (λ s listing told. HasPrinted (W.contents output.old) (W.contents output.new) (check_text s) told) result }
    ensures refused { result ≡ 1 → output.new ≡ output.old }
    ensures silent { result ≡ 0 → Keeps (E.contents errors.old) (E.contents errors.new) }
{
    let options = Options {
        command: Command::Run,
        serial: false,
        ledger: false,
        trace: false,
    };
    let chosen = Chosen {
        options,
        audit: false,
        chart: None,
        words: &[],
    };
    let Some(simulation) = simulation_of(rt, alloc, paths, chosen, output, errors) else {
        return REFUSED;
    };
    check_command(&simulation.prepared.checked, output, errors)
}

/// Runs the agents of the second file in the structure of the first.
fn run_both<H: Files + Threads + Wait + Sync, R: Read, W: Write, E: Write>(
    rt: &H,
    alloc: Global,
    paths: Paths,
    chosen: Chosen,
    input: &mut R,
    output: &mut W,
    errors: &mut E,
) -> u8
    requires { chosen.options.command ≡ Command.Run }
    ensures done { IsDoneOf (HasRunAsked (map (λ w. w.now) chosen.entry.words.now) chosen.entry.chart chosen.entry.options chosen.entry.audit (R.remaining input.old) (R.remaining input.new) (W.contents output.old) (W.contents output.new)) result }
    ensures refused { result ≡ 1 → (input.new ≡ input.old) × (output.new ≡ output.old) }
    ensures silent { result ≡ 0 → Keeps (E.contents errors.old) (E.contents errors.new) }
{
    let Some(simulation) = simulation_of(rt, alloc, paths, chosen, output, errors) else {
        return REFUSED;
    };
    let Simulation { prepared, listing } = simulation;
    if !are_sound(listing.as_slice()) {
        write_error(errors, "agents: not sound");
        return REFUSED;
    }
    run_listing(rt, prepared, listing, input, output, errors)
}
