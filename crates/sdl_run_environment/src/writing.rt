//! How the environment writes what it receives.
ghost use Rattle.std.specs.Prelude.{◌≡◌, ℕ, List, Option, [], ◌∷◌, ◌++◌};
ghost use Rattle.sdl_block_hand.specs.Puts.{IsRouted};
ghost use Rattle.sdl_run_outcome.specs.EnvironmentWork.{HasWritten, end_gate_of, received_text};
ghost use Rattle.sdl_run_environment.specs.EnvPhases.{IsWritable};

use sdl_routes::Routes;
use sdl_signal::{GateId, Item, LineSink, Names, OutputEnd, Written, line_of};
use std::io::Write;

/// Writes the line of an item at the gate where its route ends, unless a write failed before, and says how the writing then
/// stands.
pub fn write<W: Write>(
    sink: &mut LineSink,
    end: OutputEnd,
    names: &Names,
    routes: &Routes,
    item: &Item,
    output: &mut W,
) -> OutputEnd
    requires { IsWritable names.now routes.now item.now }
    ensures { (start : Option (List ℕ)) (text : List ℕ) → HasWritten start (W.contents output.old) text end
        → HasWritten start (W.contents output.new) (text ++ received_text names.now routes.now (item.now ∷ [])) result }
{
    match end {
        OutputEnd::WriteFault => return OutputEnd::WriteFault,
        OutputEnd::Whole => {}
    }
    let line = line_of(names, end_gate(routes, item), &item.signal);
    match sink.write(output, line.as_slice()) {
        Written::Whole => OutputEnd::Whole,
        Written::Fault(_) => OutputEnd::WriteFault,
    }
}

/// The gate at which the item's route ends.
fn end_gate(routes: &Routes, item: &Item) -> GateId
    requires { IsRouted routes.now item.now }
    ensures { result ≡ end_gate_of routes.now item.now }
{
    match routes.get(item.route) {
        Some(route) => route.end_gate,
        None => unreachable!(),
    }
}
