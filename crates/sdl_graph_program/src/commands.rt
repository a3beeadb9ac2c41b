//! The commands of a graph's program up to a run.
ghost use Rattle.std.specs.Prelude.{◌≡◌, ◌≢◌, ℕ, List, false, None, IfOk, IfErr, IsErr};
ghost use Rattle.std.specs.Io.KnownBytes.{Keeps};
ghost use Rattle.sdl_app_file_commands.specs.Commands.{IsDone};
ghost use Rattle.sdl_app_file_commands.specs.Files.{Declares};
ghost use Rattle.sdl_app_file_runs.specs.Outcomes.{HasRun};
ghost use Rattle.sdl_app_file_commands.specs.Running.{CanRun};
ghost use Rattle.sdl_graph_program.specs.Outcomes.{IsDoneAtOnce, IsToldOf};

use crate::words::{PlainWords, plain_words};
use sdl_app_command::arguments::{Arguments, Command, Options, read_arguments};
use sdl_app_command::errors::{without_memory, write_error};
use sdl_app_command::status::{REFUSED, WRONG_ARGUMENTS};
use sdl_app_file_commands::commands::{check_command, checked_file, routes_command, routes_in};
use sdl_app_file_commands::files::{FileRead, read_file};
use sdl_app_file_commands::words::{words_behind_the_name, words_of};
use sdl_chart_words::{Charting, Request, charting_of, request_of};
use sdl_drawing_text::{form_of, structure_at};
use sdl_explaining::explain;
use sdl_routes::Routes;
use sdl_structure::FileFault;
use sdl_structure_parts::Checked;
use std::alloc::{AllocError, Global};
use std::io::Write;
use std::rt::{Env, Files};

const USAGE: &str =
    "usage: check FILE | routes FILE | structure [--dot] FILE | run [--serial] [--ledger] [--trace] [--audit] FILE | chart [--serial] [--text | --svg | --msc] [--from N] [--to N] [--only SET].. [--by-set] FILE";

/// A run that is asked for: the structure of a file, with its routes, what is to be told of the run, and where it takes its memory.
#[derive(Drop)]
pub struct Prepared {
    pub alloc: Global,
    pub options: Options,
    /// Whether what the run leaves is audited.
    pub audit: bool,
    /// What is to be written of the run as its chart, where one is asked for in place of the environment's lines.
    pub chart: Option<Charting>,
    pub checked: Checked,
    pub routes: Routes,
}

/// What the words after the program's name ask for: a command on the file of this path, with an audit or a chart where that is asked for.
#[derive(Clone, Copy)]
struct Wish<'a> {
    path: &'a str,
    options: Options,
    audit: bool,
    chart: Option<Request>,
    /// The options of the chart.
    chosen: &'a [&'a str],
}

/// Carries out `check` or `routes` on the bytes of a structure file, and answers the exit status; for `run` the run that
/// is asked for, where the file and its structure keep all rules, and else the status of a refusal. What the run leaves is not
/// audited, and no chart of it is written, unless the caller asks for that.
pub fn prepare_file<W: Write, E: Write>(
    alloc: Global,
    file: &[u8],
    options: Options,
    output: &mut W,
    errors: &mut E,
) -> Result<Prepared, u8>
    ensures ready { IfOk result (λ p. CanRun p.checked p.routes) }
    ensures declared { IfOk result (λ p. Declares file.now p.checked) }
    ensures asked { IfOk result (λ p. (p.options ≡ options) × (p.audit ≡ false) × (p.chart ≡ None)) }
    // Only a run is prepared, and a run that is not is refused.
    ensures done { options.command ≢ Command.Run → IfErr result (IsDone HasRun (W.contents output.old) (W.contents output.new) options.command file.now) }
    ensures run { options.command ≡ Command.Run → IfErr result (λ status. status ≡ 1) }
    ensures others { options.command ≢ Command.Run → IsErr result }
    ensures prepared { IfOk result (λ p. p.options.command ≡ Command.Run) }
    ensures told { IfErr result (IsToldOf (W.contents output.old) (W.contents output.new) file.now) }
    ensures unwritten { IfOk result (λ p. output.new ≡ output.old) }
    ensures quiet { IfOk result (λ p. errors.new ≡ errors.old) }
    ensures refused { IfErr result (λ status. status ≡ 1 → output.new ≡ output.old) }
    ensures silent { IfErr result (λ status. status ≡ 0 → Keeps (E.contents errors.old) (E.contents errors.new)) }
{
    prepare_asked(alloc, file, options, false, output, errors)
}

/// The same, with an audit of what the run leaves where that is asked for.
#[tactic(auto, unfolding(sdl_app_file_commands::specs::Running::CanRun))]
fn prepare_asked<W: Write, E: Write>(
    alloc: Global,
    file: &[u8],
    options: Options,
    audit: bool,
    output: &mut W,
    errors: &mut E,
) -> Result<Prepared, u8>
    ensures ready { IfOk result (λ p. CanRun p.checked p.routes) }
    ensures declared { IfOk result (λ p. Declares file.now p.checked) }
    ensures asked { IfOk result (λ p. (p.options ≡ options) × (p.audit ≡ audit) × (p.chart ≡ None)) }
    ensures done { options.command ≢ Command.Run → IfErr result (IsDone HasRun (W.contents output.old) (W.contents output.new) options.command file.now) }
    ensures run { options.command ≡ Command.Run → IfErr result (λ status. status ≡ 1) }
    ensures others { options.command ≢ Command.Run → IsErr result }
    ensures prepared { IfOk result (λ p. p.options.command ≡ Command.Run) }
    ensures told { IfErr result (IsToldOf (W.contents output.old) (W.contents output.new) file.now) }
    ensures unwritten { IfOk result (λ p. output.new ≡ output.old) }
    ensures quiet { IfOk result (λ p. errors.new ≡ errors.old) }
    ensures refused { IfErr result (λ status. status ≡ 1 → output.new ≡ output.old) }
    ensures silent { IfErr result (λ status. status ≡ 0 → Keeps (E.contents errors.old) (E.contents errors.new)) }
{
    let Some(checked) = checked_file(alloc, file, &mut *errors) else {
        explain(alloc, file, errors);
        return Err(REFUSED);
    };
    match options.command {
        Command::Check => Err(check_command(&checked, output, errors)),
        Command::Routes => Err(routes_command(alloc, &checked, output, errors)),
        Command::Run => match routes_in(alloc, &checked, errors) {
            Some(routes) => Ok(Prepared {
                alloc,
                options,
                audit,
                chart: None,
                checked,
                routes,
            }),
            None => Err(REFUSED),
        },
    }
}

/// The same for the arguments of the program: a run that is asked for of the structure of a file, or the exit status of what
/// was done at once. A line that standard error does not take is dropped.
pub fn prepare<H: Env + Files + AllocGlobal, W: Write, E: Write>(
    rt: &H,
    alloc: Global,
    output: &mut W,
    errors: &mut E,
) -> Result<Prepared, u8>
    ensures ready { IfOk result (λ p. CanRun p.checked p.routes) }
    ensures declared { IfOk result (λ p. (file : List ℕ) × Declares file p.checked) }
    ensures run { IfOk result (λ p. p.options.command ≡ Command.Run) }
    ensures done { IfErr result (IsDoneAtOnce (W.contents output.old) (W.contents output.new)) }
    ensures unwritten { IfOk result (λ p. output.new ≡ output.old) }
    ensures quiet { IfOk result (λ p. errors.new ≡ errors.old) }
    ensures refused { IfErr result (λ status. status ≡ 1 → output.new ≡ output.old) }
    ensures silent { IfErr result (λ status. status ≡ 0 → Keeps (E.contents errors.old) (E.contents errors.new)) }
{
    match prepare_words(rt, alloc, output, errors) {
        Ok(prepared) => prepared,
        Err(_) => {
            without_memory(errors);
            Err(REFUSED)
        }
    }
}

/// The same, where the arguments find memory.
fn prepare_words<H: Env + Files + AllocGlobal, W: Write, E: Write>(
    rt: &H,
    alloc: Global,
    output: &mut W,
    errors: &mut E,
) -> Result<Result<Prepared, u8>, AllocError>
    ensures ready { IfOk result (λ r. IfOk r (λ p. CanRun p.checked p.routes)) }
    ensures declared { IfOk result (λ r. IfOk r (λ p. (file : List ℕ) × Declares file p.checked)) }
    ensures run { IfOk result (λ r. IfOk r (λ p. p.options.command ≡ Command.Run)) }
    ensures done { IfOk result (λ r. IfErr r (IsDoneAtOnce (W.contents output.old) (W.contents output.new))) }
    ensures unwritten { IfOk result (λ r. IfOk r (λ p. output.new ≡ output.old)) }
    ensures quiet { IfOk result (λ r. IfOk r (λ p. errors.new ≡ errors.old)) }
    ensures refused { IfOk result (λ r. IfErr r (λ status. status ≡ 1 → output.new ≡ output.old)) }
    ensures memory { IsErr result → output.new ≡ output.old }
    ensures silent { IfOk result (λ r. IfErr r (λ status. status ≡ 0 → Keeps (E.contents errors.old) (E.contents errors.new))) }
{
    let Some(words) = words_of(rt, alloc)? else {
        return Ok(Err(wrong_arguments(errors)));
    };
    let shown = words_behind_the_name(alloc, words.as_slice())?;
    match shown.as_slice() {
        [command, rest @ ..] if *command == "structure" => {
            Ok(Err(show_structure(rt, alloc, rest, output, errors)))
        }
        [command, rest @ ..] if *command == "chart" => {
            Ok(prepare_wish(rt, alloc, chart_wish(rest), output, errors))
        }
        words => {
            let PlainWords { words, audit } = plain_words(alloc, words)?;
            let wish = plain_wish(words.as_slice(), audit);
            Ok(prepare_wish(rt, alloc, wish, output, errors))
        }
    }
}

/// Carries out `structure` with the words behind it, and answers the exit status.
fn show_structure<H: Files, W: Write, E: Write>(
    rt: &H,
    alloc: Global,
    words: &[&str],
    output: &mut W,
    errors: &mut E,
) -> u8
    ensures done { IsDoneAtOnce (W.contents output.old) (W.contents output.new) result }
    ensures refused { result ≡ 1 → output.new ≡ output.old }
    ensures silent { result ≡ 0 → Keeps (E.contents errors.old) (E.contents errors.new) }
{
    let Some(form) = form_of(words) else {
        return wrong_arguments(errors);
    };
    let Some(path) = words.last() else {
        return wrong_arguments(errors);
    };
    structure_at(rt, alloc, path, form, output, errors)
}

/// What the words behind `chart` ask for: its options, and last the file.
fn chart_wish<'a>(words: &'a [&'a str]) -> Option<Wish<'a>> {
    let (path, chosen) = words.split_last()?;
    if path.starts_with("--") {
        return None;
    }
    let request = request_of(chosen)?;
    let options = Options {
        command: Command::Run,
        serial: request.serial,
        ledger: false,
        trace: false,
    };
    Some(Wish {
        path,
        options,
        audit: false,
        chart: Some(request),
        chosen,
    })
}

/// What the words of another command ask for, without `--audit`, which `run` alone may have.
fn plain_wish<'a>(words: &'a [&'a str], audit: bool) -> Option<Wish<'a>> {
    match read_arguments(words) {
        Some(Arguments::File(options, place)) if options.command == Command::Run || !audit => {
            Some(Wish {
                path: words.get(place)?,
                options,
                audit,
                chart: None,
                chosen: &[],
            })
        }
        _ => None,
    }
}

/// The same for what is asked for.
fn prepare_wish<H: Files, W: Write, E: Write>(
    rt: &H,
    alloc: Global,
    wish: Option<Wish>,
    output: &mut W,
    errors: &mut E,
) -> Result<Prepared, u8>
    ensures ready { IfOk result (λ p. CanRun p.checked p.routes) }
    ensures declared { IfOk result (λ p. (file : List ℕ) × Declares file p.checked) }
    ensures run { IfOk result (λ p. p.options.command ≡ Command.Run) }
    ensures done { IfErr result (IsDoneAtOnce (W.contents output.old) (W.contents output.new)) }
    ensures unwritten { IfOk result (λ p. output.new ≡ output.old) }
    ensures quiet { IfOk result (λ p. errors.new ≡ errors.old) }
    ensures refused { IfErr result (λ status. status ≡ 1 → output.new ≡ output.old) }
    ensures silent { IfErr result (λ status. status ≡ 0 → Keeps (E.contents errors.old) (E.contents errors.new)) }
{
    let Some(wish) = wish else {
        return Err(wrong_arguments(errors));
    };
    let (path, options, audit) = (wish.path, wish.options, wish.audit);
    let prepared = prepare_path(rt, alloc, path, options, audit, output, &mut *errors)?;
    let Some(request) = wish.chart else {
        return Ok(prepared);
    };
    let structure = prepared.checked.structure();
    match charting_of(alloc, structure, request, wish.chosen, errors) {
        Some(charting) => {
            let mut charted = prepared;
            charted.chart = Some(charting);
            Ok(charted)
        }
        None => Err(REFUSED),
    }
}

/// The same for a command on the file of this path.
fn prepare_path<H: Files, W: Write, E: Write>(
    rt: &H,
    alloc: Global,
    path: &str,
    options: Options,
    audit: bool,
    output: &mut W,
    errors: &mut E,
) -> Result<Prepared, u8>
    ensures ready { IfOk result (λ p. CanRun p.checked p.routes) }
    ensures declared { IfOk result (λ p. (file : List ℕ) × Declares file p.checked) }
    ensures run { IfOk result (λ p. p.options.command ≡ Command.Run) }
    ensures done { IfErr result (IsDoneAtOnce (W.contents output.old) (W.contents output.new)) }
    ensures unwritten { IfOk result (λ p. output.new ≡ output.old) }
    ensures quiet { IfOk result (λ p. errors.new ≡ errors.old) }
    ensures refused { IfErr result (λ status. status ≡ 1 → output.new ≡ output.old) }
    ensures silent { IfErr result (λ status. status ≡ 0 → Keeps (E.contents errors.old) (E.contents errors.new)) }
{
    match read_file(rt, alloc, path) {
        FileRead::Bytes(file) => {
            prepare_asked(alloc, file.as_slice(), options, audit, output, errors)
        }
        FileRead::CannotRead => {
            write_error(errors, "file: cannot read");
            Err(REFUSED)
        }
        FileRead::Memory => {
            write_error(errors, FileFault::Memory);
            Err(REFUSED)
        }
    }
}

fn wrong_arguments<E: Write>(errors: &mut E) -> u8
    ensures { result ≡ 2 }
{
    write_error(errors, USAGE);
    WRONG_ARGUMENTS
}
