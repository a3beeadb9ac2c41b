//! The command `run`: the built-in system that has the structure's name.
ghost use Rattle.std.specs.Prelude.{◌≡◌, ◌⊎◌, None};
ghost use Rattle.std.specs.Io.KnownBytes.{Keeps};
ghost use Rattle.sdl_agents.specs.Systems.{system_of};
ghost use Rattle.sdl_app_file_commands.specs.Running.{CanRun};
ghost use Rattle.sdl_app_program.specs.Commands.{HasRunBuiltIn};

use crate::built_in::run_system;
use sdl_agents::system_named;
use sdl_app_command::errors::{without_memory, write_error};
use sdl_app_command::status::REFUSED;
use sdl_app_file_runs::running::Settings;
use sdl_routes::Routes;
use sdl_structure_parts::Checked;
use std::io::{Read, Write};
use std::sync::Wait;
use std::thread::Threads;

/// A run that is to be made: the structure of a file with its routes, and how it is run.
#[derive(Drop)]
pub struct Job<'a> {
    pub settings: Settings<'a>,
    pub checked: Checked,
    pub routes: Routes,
}

/// Runs the built-in system that has the structure's name, in threads unless one was asked for, and answers the exit status:
/// the first refusal, or how the run ended. May wait for other threads.
pub fn run_command<T: Threads + Wait + Sync, R: Read, W: Write, E: Write>(
    rt: &T,
    settings: Settings,
    checked: Checked,
    routes: Routes,
    input: &mut R,
    output: &mut W,
    errors: &mut E,
) -> u8
    requires { CanRun checked routes }
    ensures run { (result ≡ 1) ⊎ HasRunBuiltIn settings.entry.options (R.remaining input.old) (R.remaining input.new) (W.contents output.old) (W.contents output.new) checked routes result }
    ensures refused { result ≡ 1 → (input.new ≡ input.old) × (output.new ≡ output.old) }
    ensures silent { result ≡ 0 → Keeps (E.contents errors.old) (E.contents errors.new) }
    ensures unnamed { system_of checked.system ≡ None → (result ≡ 1) × (input.new ≡ input.old) × (output.new ≡ output.old) }
{
    let name = checked.structure().system();
    let Some(system) = system_named(name) else {
        write_error(errors, format_args!("no agents for {name}"));
        return REFUSED;
    };
    let job = Job {
        settings,
        checked,
        routes,
    };
    match run_system(rt, system, job, input, output, &mut *errors) {
        Ok(status) => status,
        Err(_) => {
            without_memory(errors);
            REFUSED
        }
    }
}
