//! The text of `numbers.rt`: a constant for each signal, each set, each gate of a set and each channel, in a module for each kind; the
//! names that are meant; what each set may do.
use crate::lists::write_lists;
use crate::names::Names;
use crate::texts::{write_lines, write_texts};
use itoa::Buffer;
use sdl_signal::Sort;
use sdl_structure_parts::limits::MOST_USES;
use sdl_structure_parts::{Gate, Owner, Structure};
use std::io::{Result, Write};

/// Writes the text of `numbers.rt`.
pub fn write_numbers<W: Write>(output: &mut W, structure: &Structure, names: &Names) -> Result<()> {
    write_texts(
        output,
        &["//! The numbers of the parts of ", structure.system()],
    )?;
    write_lines(output, HEAD)?;
    write_signals(output, structure, names)?;
    write_sets(output, structure, names)?;
    write_gates(output, structure, names)?;
    write_channels(output, structure, names)?;
    write_lists(output, structure, names)?;
    write_uses(output, structure)
}

const HEAD: &[&str] = &[
    ", as its structure file has them, and what its sets may do. After a change of the",
    "//! structure file it is written anew.",
    "use sdl_graph_program::{Kind, Use};",
];

/// Writes the head of a module of constants of a type.
fn write_head<W: Write>(output: &mut W, what: &str, module: &str, kind: &str) -> Result<()> {
    write_texts(output, &["\n/// ", what, ".\npub mod ", module, " {\n"])?;
    write_texts(output, &["    use sdl_graph_program::", kind, ";\n\n"])
}

/// Writes a constant of such a module.
fn write_constant<W: Write>(output: &mut W, name: &str, kind: &str, number: usize) -> Result<()> {
    let mut digits = Buffer::new();
    let number = digits.format(number);
    write_texts(output, &["    pub const ", name, ": ", kind, " = "])?;
    write_texts(output, &[kind, "(", number, ");\n"])
}

/// Writes the number of each signal.
fn write_signals<W: Write>(output: &mut W, structure: &Structure, names: &Names) -> Result<()> {
    write_head(output, "The signals", "signals", "SignalId")?;
    for number in 0..structure.signals().len() {
        write_constant(output, names.signal(number), "SignalId", number)?;
    }
    write_lines(output, &["}"])
}

/// Writes the number of each set.
fn write_sets<W: Write>(output: &mut W, structure: &Structure, names: &Names) -> Result<()> {
    write_head(output, "The sets", "sets", "SetId")?;
    for number in 0..structure.sets().len() {
        write_constant(output, names.set(number), "SetId", number)?;
    }
    write_lines(output, &["}"])
}

/// Whether the gate is one of a set, as a VIA may name it.
fn is_gate_of_set(gate: &Gate) -> bool {
    matches!(gate.owner, Owner::Set(_))
}

/// Writes the number of each gate of a set.
fn write_gates<W: Write>(output: &mut W, structure: &Structure, names: &Names) -> Result<()> {
    let what = "The gates of the sets, as a VIA may name them";
    write_head(output, what, "gates", "GateId")?;
    for (number, gate) in structure.gates().iter().enumerate() {
        if is_gate_of_set(gate) {
            write_constant(output, names.gate(number), "GateId", number)?;
        }
    }
    write_lines(output, &["}"])
}

/// Writes the number of each channel.
fn write_channels<W: Write>(output: &mut W, structure: &Structure, names: &Names) -> Result<()> {
    let what = "The channels, as a VIA may name them";
    write_head(output, what, "channels", "ChannelId")?;
    for number in 0..structure.channels().len() {
        write_constant(output, names.channel(number), "ChannelId", number)?;
    }
    write_lines(output, &["}"])
}

/// Writes the sorts as the elements of a list.
pub fn write_sorts<W: Write>(output: &mut W, sorts: &[Sort]) -> Result<()> {
    for (place, sort) in sorts.iter().enumerate() {
        let comma = if place == 0 { "" } else { ", " };
        let name = match sort {
            Sort::Integer => "Sort::Integer",
            Sort::Boolean => "Sort::Boolean",
            Sort::Pid => "Sort::Pid",
        };
        write_texts(output, &[comma, name])?;
    }
    Ok(())
}

/// How many gates of sets there are.
fn gates_of_sets(gates: &[Gate]) -> usize {
    gates.iter().filter(|gate| is_gate_of_set(gate)).count()
}

/// How many names there is room for beside those of all sets and signals.
fn room_for_uses(structure: &Structure) -> usize {
    let signals = structure.signals().len();
    let others = structure.sets().len().saturating_add(signals);
    MOST_USES.saturating_sub(others)
}

/// Whether there is room for the names of all gates of sets.
pub fn has_room_for_gates(structure: &Structure) -> bool {
    gates_of_sets(structure.gates()) <= room_for_uses(structure)
}

/// Writes the names that are meant by the numbers: those of all sets and signals, and of as many gates of sets and then
/// channels as there is room for.
fn write_uses<W: Write>(output: &mut W, structure: &Structure) -> Result<()> {
    let signals = structure.signals().len();
    let others = structure.sets().len().saturating_add(signals);
    let room = room_for_uses(structure);
    let gates = gates_of_sets(structure.gates()).min(room);
    let channels = structure.channels().len().min(room.saturating_sub(gates));
    let uses = others.saturating_add(gates).saturating_add(channels);
    let mut digits = Buffer::new();
    let uses = digits.format(uses);
    write_lines(output, USES_HEAD)?;
    write_texts(output, &["pub const USES: [Use; ", uses, "] = [\n"])?;
    write_lines(output, USES_PARTS)?;
    for (number, set) in structure.sets().iter().enumerate() {
        write_use(output, "Set", number, set.name.as_str())?;
    }
    for (number, signal) in structure.signals().iter().enumerate() {
        write_use(output, "Signal", number, signal.name.as_str())?;
    }
    write_gate_uses(output, structure.gates(), gates)?;
    for (number, channel) in structure.channels().iter().enumerate().take(channels) {
        write_use(output, "Channel", number, channel.name.as_str())?;
    }
    write_lines(output, &["];"])
}

const USES_HEAD: &[&str] = &[
    "",
    "/// What the transitions mean by the numbers that they use.",
];

const USES_PARTS: &[&str] = &[
    "    // Each set and signal, the gates of the sets, and the channels.",
];

/// Writes the names of so many gates of sets.
fn write_gate_uses<W: Write>(output: &mut W, gates: &[Gate], most: usize) -> Result<()> {
    let mut room = most;
    for (number, gate) in gates.iter().enumerate() {
        if room > 0 && is_gate_of_set(gate) {
            write_use(output, "Gate", number, gate.name.as_str())?;
            room -= 1;
        }
    }
    Ok(())
}

fn write_use<W: Write>(output: &mut W, kind: &str, number: usize, name: &str) -> Result<()> {
    let mut digits = Buffer::new();
    let number = digits.format(number);
    write_texts(
        output,
        &["    (Kind::", kind, ", ", number, ", \"", name, "\"),\n"],
    )
}
