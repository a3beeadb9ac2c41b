//! `sdl_simulator`: any system, by its structure file and its agents file. It takes the words `check FILE [AGENTS]`, `routes FILE`,
//! `structure [--dot] FILE`, `run [--serial] [--ledger] [--trace] [--audit] FILE AGENTS`, and `chart` with the options of a run's chart.
#![tactic(auto)]

mod agents;
mod program;
mod words;

use sdl_app_command::status::REFUSED;
use sdl_app_file_commands::streams::{Input, Output, shared_buffer};
use std::process::ExitCode;

fn main(rt: HostRuntime) -> ExitCode {
    let mut errors = rt.stderr();
    let Some(buffer) = shared_buffer(rt.alloc(), rt.stdout(), &mut errors) else {
        return ExitCode::from(REFUSED);
    };
    let mut input = Input {
        reader: rt.stdin(),
        buffer: &buffer,
    };
    let mut output = Output { buffer: &buffer };
    let status = program::run(&rt, rt.alloc(), &mut input, &mut output, &mut errors);
    ExitCode::from(status)
}
