//! The agents file: its bytes, and what it says of the sets of a structure.
ghost use Rattle.std.specs.Prelude.{◌≡◌, ℕ, List, IfOk, IfSome};
ghost use Rattle.sdl_simulator.specs.Files.{Describes};

use sdl_app_command::errors::write_error;
use sdl_app_command::stack::takes_stack;
use sdl_app_file_commands::files::{FileRead, read_file};
use sdl_listing_faults::write_agents_fault;
use sdl_listing_file::{AgentsFault, ListedSet, read_agents};
use sdl_structure_parts::Structure;
use std::alloc::Global;
use std::io::Write;
use std::rt::Files;

/// The most bytes of an agents file. (This project's own, as for a structure file.)
const LONGEST_AGENTS: usize = 1_048_576;

/// What the agents file of this path says of each set, where it keeps all rules; else the first that it breaks was written.
pub fn listing_of<H: Files, E: Write>(
    rt: &H,
    alloc: Global,
    path: &str,
    structure: &Structure,
    errors: &mut E,
) -> Option<Vec<ListedSet>>
    ensures described { IfSome result (λ listing. (file : List ℕ) × Describes file structure.now listing.items) }
    ensures quiet { IfSome result (λ listing. errors.new ≡ errors.old) }
{
    match read_file(rt, alloc, path) {
        FileRead::Bytes(file) => listing_in(alloc, file.as_slice(), structure, errors),
        FileRead::CannotRead => {
            write_error(errors, "agents: cannot read");
            None
        }
        FileRead::Memory => {
            write_error(errors, AgentsFault::Memory);
            None
        }
    }
}

/// The same for the file's bytes.
fn listing_in<E: Write>(
    alloc: Global,
    file: &[u8],
    structure: &Structure,
    errors: &mut E,
) -> Option<Vec<ListedSet>>
    ensures described { IfSome result (λ listing. Describes file.now structure.now listing.items) }
    ensures quiet { IfSome result (λ listing. errors.new ≡ errors.old) }
{
    if file.len() > LONGEST_AGENTS {
        write_error(errors, "agents: too long");
        return None;
    }
    // from here on the stack of this thread need not grow, whatever the heap takes
    if !takes_stack(alloc, file) {
        write_error(errors, AgentsFault::Memory);
        return None;
    }
    let Ok(text) = str::from_utf8(file) else {
        write_error(errors, AgentsFault::NotToml);
        return None;
    };
    match read_agents(alloc, text, structure) {
        Ok(listing) => Some(listing),
        Err(fault) => {
            write_agents_fault(alloc, errors, text, structure, fault);
            None
        }
    }
}
