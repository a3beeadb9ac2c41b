//! The receipts and the outputs of the environment, as a chart writes them.
ghost use Rattle.std.specs.Prelude.{◌++◌, OnOk, codes};
ghost use Rattle.std.specs.Io.KnownBytes.{Appends};
ghost use Rattle.sdl_chart_page.specs.Entries.{AreStored};
ghost use Rattle.sdl_app_file_commands.specs.Texts.{gate_text};
ghost use Rattle.sdl_chart_text.specs.Legends.{legend_of, start_text, end_gate_text, left_text};
ghost use Rattle.sdl_chart_text.specs.Signals.{signal_with_values};
ghost use Rattle.sdl_chart_text.specs.Rows.{to_text, receipt_text, output_text};

use crate::chart::Chart;
use crate::items::{write_known, write_left_of, write_sender};
use crate::names::{end_name, start_name};
use crate::signals::{write_pid, write_signal};
use sdl_app_file_commands::names::gate_name;
use sdl_instances_packed_log::Shows;
use sdl_run_outcome::EnvOut;
use sdl_signal::{EnvLine, GateId, Item, Pid, RouteId};
use sdl_structure_parts::Structure;
use std::io::{Result, Write};

/// Writes that the environment received an item.
pub(crate) fn write_receipt<K: Shows, W: Write>(
    output: &mut W,
    chart: &Chart<K>,
    item: &Item,
) -> Result<()>
    requires { AreStored K.stores chart.now.lists.now.logs.now }
    ensures { OnOk result (Appends (W.contents output.old) (W.contents output.new) (receipt_text (legend_of K.events chart.now) item.now)) }
{
    write_end_gate(output, chart, item.route)?;
    write_known(output, chart, item)?;
    write_sender(output, chart, item)
}

/// Writes that the environment receives at the gate where the route ends.
fn write_end_gate<K: Shows, W: Write>(
    output: &mut W,
    chart: &Chart<K>,
    route: RouteId,
) -> Result<()>
    ensures { OnOk result (Appends (W.contents output.old) (W.contents output.new) (codes "env " ++ end_gate_text chart.now.structure.now chart.now.routes.now route ++ codes " receives ")) }
{
    let gate = end_name(chart.structure, chart.routes, route);
    write!(output, "env {gate} receives ")
}

/// Writes an output of the environment.
pub(crate) fn write_output<K: Shows, W: Write>(
    output: &mut W,
    chart: &Chart<K>,
    out: &EnvOut,
) -> Result<()>
    ensures { OnOk result (Appends (W.contents output.old) (W.contents output.new) (output_text (legend_of K.events chart.now) out.now)) }
{
    match out {
        EnvOut::Sent(item) => write_put_out(output, chart, item),
        EnvOut::NoRoute(_, line) => write_no_route(output, chart, line),
    }
}

/// Writes an output of the environment that has a route.
fn write_put_out<K: Shows, W: Write>(output: &mut W, chart: &Chart<K>, item: &Item) -> Result<()>
    ensures { OnOk result (Appends (W.contents output.old) (W.contents output.new) ((codes "env " ++ start_text chart.now.structure.now chart.now.routes.now item.now.route ++ codes " sends ") ++ signal_with_values chart.now.structure.now item.now.signal ++ to_text (legend_of K.events chart.now) item.now.to ++ left_text chart.now.structure.now ((legend_of K.events chart.now).left item.now.origin))) }
{
    write_start_gate(output, chart, item.route)?;
    write_signal(output, chart.structure, &item.signal)?;
    write_to(output, chart, item.to)?;
    write_left_of(output, chart, item.origin)
}

/// Writes that the environment sends at the gate where the route starts.
fn write_start_gate<K: Shows, W: Write>(
    output: &mut W,
    chart: &Chart<K>,
    route: RouteId,
) -> Result<()>
    ensures { OnOk result (Appends (W.contents output.old) (W.contents output.new) (codes "env " ++ start_text chart.now.structure.now chart.now.routes.now route ++ codes " sends ")) }
{
    let gate = start_name(chart.structure, chart.routes, route);
    write!(output, "env {gate} sends ")
}

/// Writes an output of the environment that has none.
fn write_no_route<K: Shows, W: Write>(
    output: &mut W,
    chart: &Chart<K>,
    line: &EnvLine,
) -> Result<()>
    ensures { OnOk result (Appends (W.contents output.old) (W.contents output.new) ((codes "env " ++ gate_text chart.now.structure.now line.now.gate ++ codes " sends ") ++ signal_with_values chart.now.structure.now line.now.signal ++ to_text (legend_of K.events chart.now) line.now.to ++ codes ", no route")) }
{
    write_gate(output, chart.structure, line.gate)?;
    write_signal(output, chart.structure, &line.signal)?;
    write_to(output, chart, line.to)?;
    write!(output, ", no route")
}

/// Writes that the environment sends at this gate.
fn write_gate<W: Write>(output: &mut W, structure: &Structure, gate: GateId) -> Result<()>
    ensures { OnOk result (Appends (W.contents output.old) (W.contents output.new) (codes "env " ++ gate_text structure.now gate ++ codes " sends ")) }
{
    let name = gate_name(structure, gate);
    write!(output, "env {name} sends ")
}

/// Writes the TO part of an output of the environment, where it has one.
fn write_to<K: Shows, W: Write>(output: &mut W, chart: &Chart<K>, to: Option<Pid>) -> Result<()>
    ensures { OnOk result (Appends (W.contents output.old) (W.contents output.new) (to_text (legend_of K.events chart.now) to)) }
{
    match to {
        Some(pid) => {
            write!(output, " to ")?;
            write_pid(output, chart.structure, pid)
        }
        None => Ok(()),
    }
}
