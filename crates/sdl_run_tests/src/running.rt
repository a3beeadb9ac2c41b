//! A run of a graph as a designer's program makes it, over a structure text.
ghost use Rattle.std.specs.Prelude.{IfOk};
ghost use Rattle.sdl_app_file_commands.specs.Running.{CanRun};

use super::graphs::Graphs;
use sdl_app_command::arguments::{Command, Options};
use sdl_graph_program::{Design, Frame, Prepared, Run, Stored, prepare_file, run_prepared};
use std::alloc::Global;
use std::sync::Wait;
use std::thread::Threads;

/// How a run is made: on one thread or in threads, and what is printed after it.
#[derive(Clone, Copy)]
pub struct How {
    pub serial: bool,
    pub ledger: bool,
    pub trace: bool,
}

/// What a run of the structure text prepares.
pub fn prepare_text(alloc: Global, text: &str, how: How) -> Result<Prepared, u8>
    ensures { IfOk result (λ p. CanRun p.checked p.routes) }
{
    let options = Options {
        command: Command::Run,
        serial: how.serial,
        ledger: how.ledger,
        trace: how.trace,
    };
    let mut output: Vec<u8> = Vec::new(alloc);
    let mut errors: Vec<u8> = Vec::new(alloc);
    prepare_file(alloc, text.as_bytes(), options, &mut output, &mut errors)
}

/// What a run wrote and answered.
#[derive(Drop)]
pub struct Ran {
    pub status: u8,
    pub output: Vec<u8>,
    pub errors: Vec<u8>,
}

/// Runs so many of the graphs' transitions, from the start of this number on, by the design.
pub fn run_design<T: Threads + Wait + Sync>(
    rt: &T,
    prepared: Prepared,
    design: &Design,
    start: u32,
    count: u32,
    lines: &[u8],
) -> Ran
    requires { CanRun prepared.checked prepared.routes }
{
    let alloc = prepared.alloc;
    let mut stored: Stored<Graphs> = Stored::new(alloc);
    for place in 0..count {
        let number = start.saturating_add(place);
        let Some(own) = stored.answering(number) else {
            break;
        };
        let offer = own.offer();
        let run: Run = match Box::new(alloc, move |frame: &Frame| own.answer(frame)) {
            Ok(run) => run,
            Err(_) => break,
        };
        stored.keep(number, offer, run);
    }
    let mut input = lines;
    let mut output = Vec::new(alloc);
    let mut errors = Vec::new(alloc);
    let status = run_prepared(
        rt,
        prepared,
        design,
        stored,
        &mut input,
        &mut output,
        &mut errors,
    );
    Ran {
        status,
        output,
        errors,
    }
}
