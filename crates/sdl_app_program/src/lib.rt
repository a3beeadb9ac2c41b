//! The program `sdlrun` over any reader and writers: its commands, the run of a built-in system, and its texts. The commands
//! on a structure file, what the program is asked for, and the command `pipe` are passed on.
#![tactic(auto)]

mod built_in;
pub mod program;
mod running;
pub mod systems;

pub use sdl_app_command::arguments::{Arguments, Command, Options, read_arguments};
pub use sdl_app_command::pipe::pipe;
pub use sdl_app_file_commands::streams;
pub use systems::{carry_out, run_file};
