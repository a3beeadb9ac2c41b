//! `sdlrun`: systems of communicating agents with the structure and signalling of SDL-2010.
#![tactic(auto)]

use sdl_app_program::program;
use sdl_app_program::streams::{Input, Output, shared_buffer};
use std::process::ExitCode;

fn main(rt: HostRuntime) -> ExitCode {
    let mut errors = rt.stderr();
    let Some(buffer) = shared_buffer(rt.alloc(), rt.stdout(), &mut errors) else {
        return ExitCode::from(program::REFUSED);
    };
    let mut input = Input {
        reader: rt.stdin(),
        buffer: &buffer,
    };
    let mut output = Output { buffer: &buffer };
    let status = program::run(&rt, rt.alloc(), &mut input, &mut output, &mut errors);
    ExitCode::from(status)
}
