//! The boxes of gates, and their names.
ghost use Rattle.std.specs.Prelude.{◌≡◌, ◌++◌, OnOk, codes, flat_map};
ghost use Rattle.std.specs.Io.KnownBytes.{Appends};
ghost use Rattle.sdl_drawing_text.specs.Gates.{box_front, box_text, boxes_text, gate_name_style, gate_name_text, gate_names_text, gate_owner};

use crate::elements::write_rect;
use sdl_app_file_commands::names::{agent_name, gate_name};
use sdl_drawing::{Drawing, GateBox};
use sdl_signal::GateId;
use sdl_structure_parts::{Owner, Structure};
use sdl_svg::{write_label, write_text};
use std::io::{Result, Write};

/// Writes the boxes of all gates.
pub(crate) fn write_boxes<W: Write>(
    output: &mut W,
    structure: &Structure,
    drawing: &Drawing,
) -> Result<()>
    ensures { OnOk result (Appends (W.contents output.old) (W.contents output.new) (boxes_text structure.now drawing.now.gates.items)) }
{
    for gate in drawing.gates.as_slice() {
        write_box(output, structure, gate)?;
    }
    Ok(())
}

/// Writes the box of a gate.
fn write_box<W: Write>(output: &mut W, structure: &Structure, gate: &GateBox) -> Result<()>
    ensures { OnOk result (Appends (W.contents output.old) (W.contents output.new) (box_text structure.now gate.now)) }
{
    write_front(output, structure, gate.gate)?;
    write_rect(output, gate.rect)?;
    write_text(output, " fill=\"#cfdcf2\" stroke=\"#000\"/>\n")
}

/// Writes the front of a gate's box: the names of its agent and of the gate.
fn write_front<W: Write>(output: &mut W, structure: &Structure, id: GateId) -> Result<()>
    ensures { OnOk result (Appends (W.contents output.old) (W.contents output.new) (box_front structure.now id)) }
{
    let agent = agent_name(structure, id);
    let gate = gate_name(structure, id);
    write!(output, "<rect class=\"gate\" data-gate=\"{agent}.{gate}\"")
}

/// Writes the names of all gates.
pub(crate) fn write_gate_names<W: Write>(
    output: &mut W,
    structure: &Structure,
    drawing: &Drawing,
) -> Result<()>
    ensures { OnOk result (Appends (W.contents output.old) (W.contents output.new) (gate_names_text structure.now drawing.now.gates.items)) }
{
    for gate in drawing.gates.as_slice() {
        write_gate_name(output, structure, gate)?;
    }
    Ok(())
}

/// Writes the name of a gate.
fn write_gate_name<W: Write>(output: &mut W, structure: &Structure, gate: &GateBox) -> Result<()>
    ensures { OnOk result (Appends (W.contents output.old) (W.contents output.new) (gate_name_text structure.now gate.now)) }
{
    let id = gate.gate;
    let style = style_of(owner_of(structure, id));
    let name = gate_name(structure, id);
    write_label(output, gate.name.x, gate.name.y, style, name)
}

/// The agent of a gate.
fn owner_of(structure: &Structure, gate: GateId) -> Owner
    ensures { result ≡ gate_owner structure.now gate }
{
    match structure.gates().get(gate.0 as usize) {
        Some(gate) => gate.owner,
        None => Owner::System,
    }
}

/// How the name of an agent's gate looks.
fn style_of(owner: Owner) -> &'static str
    ensures { result.now ≡ gate_name_style owner }
{
    match owner {
        Owner::System => "text-anchor=\"end\" font-size=\"11\" font-weight=\"bold\"",
        Owner::Block(_) => "text-anchor=\"start\" font-size=\"9\" fill=\"#1b4b9b\"",
        Owner::Set(_) => "text-anchor=\"start\" font-size=\"9\" fill=\"#1b4b9b\"",
    }
}
