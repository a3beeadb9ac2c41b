//! A telephone exchange: two subscribers lift their receivers, dial, are rung, talk and hang up. It takes the words
//! `check FILE`, `routes FILE` and `run [--serial] [--ledger] [--trace] FILE`.
#![tactic(auto)]

mod control;
mod exchange;
mod line;
mod numbers;
mod running;

use sdl_graph_program::{Input, Output, REFUSED, prepare, shared_buffer};
use std::process::ExitCode;

fn main(rt: HostRuntime) -> ExitCode {
    let mut errors = rt.stderr();
    let Some(buffer) = shared_buffer(rt.alloc(), rt.stdout(), &mut errors) else {
        return ExitCode::from(REFUSED);
    };
    let mut input = Input {
        reader: rt.stdin(),
        buffer: &buffer,
    };
    let mut output = Output { buffer: &buffer };
    let status = match prepare(&rt, rt.alloc(), &mut output, &mut errors) {
        Ok(prepared) => running::run(&rt, prepared, &mut input, &mut output, &mut errors),
        Err(status) => status,
    };
    ExitCode::from(status)
}
