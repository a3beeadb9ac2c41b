//! `sdl_skeleton_app`: the skeleton of a designer's own crate, written from a structure file to standard output. It takes a word
//! for the file that is wanted, and the structure file: `main FILE`, `running FILE`, `numbers FILE`, `agents FILE`; or
//! `all FILE`, which writes them one after the other, each below a line with its name.
#![tactic(auto)]

mod program;

use sdl_app_command::status::REFUSED;
use sdl_app_file_commands::streams::{Output, shared_buffer};
use std::process::ExitCode;

fn main(rt: HostRuntime) -> ExitCode {
    let mut errors = rt.stderr();
    let Some(buffer) = shared_buffer(rt.alloc(), rt.stdout(), &mut errors) else {
        return ExitCode::from(REFUSED);
    };
    let mut output = Output { buffer: &buffer };
    let status = program::run(&rt, rt.alloc(), &mut output, &mut errors);
    ExitCode::from(status)
}
