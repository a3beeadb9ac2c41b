//! The commands on a structure file.
ghost use Rattle.std.specs.Prelude.{◌≡◌, ◌≢◌, ◌⊎◌};
ghost use Rattle.std.specs.Io.KnownBytes.{Keeps};
ghost use Rattle.sdl_app_file_commands.specs.Running.{HasBudget};
ghost use Rattle.sdl_app_file_commands.specs.Files.{Declares};
ghost use Rattle.sdl_app_file_commands.specs.Commands.{IsDone, ComesTo};
ghost use Rattle.sdl_app_program.specs.Commands.{HasRunBuiltIn};

use crate::running::run_command;
use sdl_app_command::arguments::{Command, Options};
use sdl_app_command::status::REFUSED;
use sdl_app_file_commands::commands::{check_command, checked_file, routes_command, routes_in};
use sdl_app_file_runs::running::Settings;
use sdl_structure_parts::{Checked, Structure};
use std::alloc::Global;
use std::io::{Read, Write};
use std::sync::Wait;
use std::thread::Threads;

/// Carries out the command on the bytes of a structure file, and answers the exit status: the first refusal of the
/// file, of its structure, of the table of its routes or of its agents; and else what the command prints, or how the run
/// ended.
pub fn run_file<H: Threads + Wait + Sync, R: Read, W: Write, E: Write>(
    rt: &H,
    alloc: Global,
    file: &[u8],
    options: Options,
    input: &mut R,
    output: &mut W,
    errors: &mut E,
) -> u8
    ensures done { IsDone (HasRunBuiltIn options (R.remaining input.old) (R.remaining input.new) (W.contents output.old) (W.contents output.new))
        (W.contents output.old) (W.contents output.new) options.command file.now result }
    ensures undeclared { ((s : Structure) → Declares file.now s → ⊥) → (result ≡ 1) × (input.new ≡ input.old) × (output.new ≡ output.old) }
    ensures unread { options.command ≢ Command.Run → input.new ≡ input.old }
    ensures refused { result ≡ 1 → (input.new ≡ input.old) × (output.new ≡ output.old) }
    ensures silent { result ≡ 0 → Keeps (E.contents errors.old) (E.contents errors.new) }
{
    let settings = Settings {
        alloc,
        options,
        schedule: &[],
    };
    carry_out(rt, settings, file, input, output, errors)
}

/// Carries out a command on the bytes of a structure file; a run on one thread by the schedule of the settings.
pub fn carry_out<H: Threads + Wait + Sync, R: Read, W: Write, E: Write>(
    rt: &H,
    settings: Settings,
    file: &[u8],
    input: &mut R,
    output: &mut W,
    errors: &mut E,
) -> u8
    ensures done { IsDone (HasRunBuiltIn settings.entry.options (R.remaining input.old) (R.remaining input.new) (W.contents output.old) (W.contents output.new))
        (W.contents output.old) (W.contents output.new) settings.entry.options.command file.now result }
    // A file that declares no structure is refused, and nothing is read or written.
    ensures undeclared { ((s : Structure) → Declares file.now s → ⊥) → (result ≡ 1) × (input.new ≡ input.old) × (output.new ≡ output.old) }
    ensures unread { settings.entry.options.command ≢ Command.Run → input.new ≡ input.old }
    ensures refused { result ≡ 1 → (input.new ≡ input.old) × (output.new ≡ output.old) }
    ensures silent { result ≡ 0 → Keeps (E.contents errors.old) (E.contents errors.new) }
{
    let Some(checked) = checked_file(settings.alloc, file, errors) else {
        return REFUSED;
    };
    match settings.options.command {
        Command::Check => check_command(&checked, output, errors),
        Command::Routes => routes_command(settings.alloc, &checked, output, errors),
        Command::Run => start_command(rt, settings, checked, input, output, errors),
    }
}

#[tactic(auto, unfolding(sdl_app_file_commands::specs::Running::CanRun))]
/// The command `run`.
fn start_command<H: Threads + Wait + Sync, R: Read, W: Write, E: Write>(
    rt: &H,
    settings: Settings,
    checked: Checked,
    input: &mut R,
    output: &mut W,
    errors: &mut E,
) -> u8
    requires { HasBudget checked }
    ensures done { (result ≡ 1) ⊎ ComesTo (HasRunBuiltIn settings.entry.options (R.remaining input.old) (R.remaining input.new) (W.contents output.old) (W.contents output.new))
        (W.contents output.old) (W.contents output.new) Command.Run checked result }
    ensures refused { result ≡ 1 → (input.new ≡ input.old) × (output.new ≡ output.old) }
    ensures silent { result ≡ 0 → Keeps (E.contents errors.old) (E.contents errors.new) }
{
    match routes_in(settings.alloc, &checked, errors) {
        Some(routes) => run_command(rt, settings, checked, routes, input, output, errors),
        None => REFUSED,
    }
}
