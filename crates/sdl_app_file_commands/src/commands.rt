//! The commands `check` and `routes`, and what a run needs of a structure file.
ghost use Rattle.std.specs.Prelude.{◌≡◌, ◌<◌, ◌⊎◌, length, IfSome, IfOk, OnOk, IsErr, IsSomeAnd, IsUtf8, flat_map};
ghost use Rattle.std.specs.Io.KnownBytes.{Appends, Keeps};
ghost use Rattle.toml.specs.Parse.{parse_document};
ghost use Rattle.sdl_structure.specs.File.{IsFileOf};
ghost use Rattle.sdl_routes.specs.Routes.{AreRoutesOf};
ghost use Rattle.sdl_app_file_commands.specs.Running.{HasBudget};
ghost use Rattle.sdl_app_file_commands.specs.Files.{Declares};
ghost use Rattle.sdl_app_file_commands.specs.Texts.{check_text, routes_text, line_at, route_line, signal_field, gate_field, hop_field};
ghost use Rattle.sdl_app_file_commands.specs.Commands.{HasListed, HasPrinted};

use crate::faults::write_check_fault;
use crate::files::LONGEST_FILE;
use crate::names::{agent_name, channel_name, gate_name, signal_name};
use sdl_app_command::ends::{flushed, report_output};
use sdl_app_command::errors::write_error;
use sdl_app_command::stack::takes_stack;
use sdl_app_command::status::REFUSED;
use sdl_routes::{Hop, Route, Routes};
use sdl_signal::{GateId, OutputEnd, RouteId, SignalId};
use sdl_structure::{FileFault, read_structure};
use sdl_structure_parts::{Checked, Structure, check};
use std::alloc::Global;
use std::io;
use std::io::Write;

/// The command `check`, of a structure that keeps all rules.
pub fn check_command<W: Write, E: Write>(checked: &Checked, output: &mut W, errors: &mut E) -> u8
    ensures done { HasPrinted (W.contents output.old) (W.contents output.new) (check_text checked.now) result }
    ensures silent { result ≡ 0 → Keeps (E.contents errors.old) (E.contents errors.new) }
{
    let text = write_check(output, checked.structure());
    written(text, output, errors)
}

/// The command `routes`.
pub fn routes_command<W: Write, E: Write>(
    alloc: Global,
    checked: &Checked,
    output: &mut W,
    errors: &mut E,
) -> u8
    ensures done { (result ≡ 1) ⊎ HasListed checked.now (W.contents output.old) (W.contents output.new) result }
    ensures refused { result ≡ 1 → output.new ≡ output.old }
    ensures silent { result ≡ 0 → Keeps (E.contents errors.old) (E.contents errors.new) }
{
    let Some(routes) = routes_in(alloc, checked, errors) else {
        return REFUSED;
    };
    let text = write_routes(output, checked.structure(), &routes);
    written(text, output, errors)
}

/// The routes of the structure; where there is no table of them, why is written.
pub fn routes_in<E: Write>(alloc: Global, checked: &Checked, errors: &mut E) -> Option<Routes>
    ensures routes { IfSome result (AreRoutesOf checked.now) }
    ensures silent { IfSome result (λ routes. errors.new ≡ errors.old) }
{
    match Routes::build(alloc, checked) {
        Ok(routes) => Some(routes),
        Err(fault) => {
            write_error(errors, fault);
            None
        }
    }
}

/// The structure of the file, where the file keeps all rules; else the first that it breaks is written.
pub fn checked_file<E: Write>(alloc: Global, file: &[u8], errors: &mut E) -> Option<Checked>
    ensures budget { IfSome result (λ c. HasBudget c) }
    ensures declared { IfSome result (λ c. Declares file.now c) }
    ensures silent { IfSome result (λ c. errors.new ≡ errors.old) }
{
    if file.len() > LONGEST_FILE {
        write_error(errors, "file: too long");
        return None;
    }
    // from here on the stack of this thread need not grow, whatever the heap takes
    if !takes_stack(alloc, file) {
        write_error(errors, FileFault::Memory);
        return None;
    }
    match structure_of_file(alloc, file) {
        Ok(structure) => match check(structure) {
            Ok(checked) => Some(checked),
            Err((structure, fault)) => {
                write_check_fault(errors, &structure, fault);
                None
            }
        },
        Err(fault) => {
            write_error(errors, fault);
            None
        }
    }
}

/// The structure of the file, where the file keeps the rules of files.
fn structure_of_file(alloc: Global, file: &[u8]) -> Result<Structure, FileFault>
    ensures budget { IfOk result (λ s. HasBudget s) }
    ensures utf8 { IfOk result (λ s. IsUtf8 file.now) }
    ensures text { IfOk result (λ s. IsSomeAnd (parse_document file.now) (λ table. IsFileOf table s)) }
{
    match str::from_utf8(file) {
        Ok(text) => read_structure(alloc, text),
        Err(_) => Err(FileFault::NotToml),
    }
}

/// The status of a text that was written, or met a fault.
pub fn written<W: Write, E: Write>(text: io::Result<()>, output: &mut W, errors: &mut E) -> u8
    ensures status { (result ≡ 0) ⊎ (result ≡ 3) }
    ensures fault { IsErr text → result ≡ 3 }
    ensures kept { Keeps (W.contents output.old) (W.contents output.new) }
    ensures silent { result ≡ 0 → Keeps (E.contents errors.old) (E.contents errors.new) }
{
    let end = match text {
        Ok(()) => OutputEnd::Whole,
        Err(_) => OutputEnd::WriteFault,
    };
    report_output(flushed(output, end), errors)
}

/// Writes what a structure has.
fn write_check<W: Write>(output: &mut W, structure: &Structure) -> io::Result<()>
    ensures { OnOk result (Appends (W.contents output.old) (W.contents output.new) (check_text structure.now)) }
{
    writeln!(
        output,
        "ok {} blocks {} sets {} channels {} signals {}",
        structure.system(),
        structure.blocks().len(),
        structure.sets().len(),
        structure.channels().len(),
        structure.signals().len()
    )
}

/// Writes all routes, by number.
fn write_routes<W: Write>(output: &mut W, structure: &Structure, routes: &Routes) -> io::Result<()>
    ensures { OnOk result (Appends (W.contents output.old) (W.contents output.new) (routes_text structure.now routes.now)) }
{
    for number in 0..routes.len() {
        write_numbered(output, structure, routes, number as u32)?;
    }
    Ok(())
}

/// Writes the route of this number, where there is one.
fn write_numbered<W: Write>(
    output: &mut W,
    structure: &Structure,
    routes: &Routes,
    number: u32,
) -> io::Result<()>
    requires { number < length routes.now }
    ensures { OnOk result (Appends (W.contents output.old) (W.contents output.new) (line_at structure.now routes.now number)) }
{
    match routes.get(RouteId(number)) {
        Some(route) => write_route(output, structure, number, route),
        None => Ok(()),
    }
}

/// Writes a route: its number, its signal, the gate where it starts, its hops, and the gate where it ends.
fn write_route<W: Write>(
    output: &mut W,
    structure: &Structure,
    number: u32,
    route: &Route,
) -> io::Result<()>
    ensures { OnOk result (Appends (W.contents output.old) (W.contents output.new) (route_line structure.now number route.now)) }
{
    write_signal(output, structure, number, route.signal)?;
    write_gate(output, structure, route.start)?;
    write_hops(output, structure, route)?;
    write_gate(output, structure, route.end_gate)?;
    writeln!(output)
}

/// Writes the number of a route, and its signal.
fn write_signal<W: Write>(
    output: &mut W,
    structure: &Structure,
    number: u32,
    signal: SignalId,
) -> io::Result<()>
    ensures { OnOk result (Appends (W.contents output.old) (W.contents output.new) (signal_field structure.now number signal)) }
{
    let signal = signal_name(structure, signal);
    write!(output, "{number} {signal}")
}

/// Writes a gate as a field, with its agent.
fn write_gate<W: Write>(output: &mut W, structure: &Structure, gate: GateId) -> io::Result<()>
    ensures { OnOk result (Appends (W.contents output.old) (W.contents output.new) (gate_field structure.now gate)) }
{
    let agent = agent_name(structure, gate);
    let gate = gate_name(structure, gate);
    write!(output, " {agent}.{gate}")
}

/// Writes the hops of a route, each as a field.
fn write_hops<W: Write>(output: &mut W, structure: &Structure, route: &Route) -> io::Result<()>
    ensures { OnOk result (Appends (W.contents output.old) (W.contents output.new) (flat_map (hop_field structure.now) route.now.hops.items)) }
{
    for hop in route.hops.as_slice() {
        write_hop(output, structure, *hop)?;
    }
    Ok(())
}

/// Writes a hop as a field.
fn write_hop<W: Write>(output: &mut W, structure: &Structure, hop: Hop) -> io::Result<()>
    ensures { OnOk result (Appends (W.contents output.old) (W.contents output.new) (hop_field structure.now hop)) }
{
    let channel = channel_name(structure, hop.channel);
    let sign = if hop.back { "-" } else { "+" };
    write!(output, " {channel}{sign}")
}
