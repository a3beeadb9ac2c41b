//! `sdl_stepper`: tries a system step by step, by calls that are lines of text. It takes a structure file, and
//! uses the built-in agents of its system. Where signals are named after the file, they have the rows for these alone.
#![tactic(auto)]

mod program;

use sdl_app_command::status::REFUSED;
use sdl_app_file_commands::streams::{Input, Output, shared_buffer};
use std::process::ExitCode;

fn main(rt: HostRuntime) -> ExitCode {
    let mut errors = rt.stderr();
    let Some(buffer) = shared_buffer(rt.alloc(), rt.stdout(), &mut errors) else {
        return ExitCode::from(REFUSED);
    };
    let mut input = Input {
        reader: rt.stdin(),
        buffer: &buffer,
    };
    let mut output = Output { buffer: &buffer };
    let status = program::run(&rt, rt.alloc(), &mut input, &mut output, &mut errors);
    ExitCode::from(status)
}
