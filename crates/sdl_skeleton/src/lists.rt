//! The text of the module `lists` of `numbers.rt`: what each set may receive, send and create.
use crate::names::Names;
use crate::numbers::{has_room_for_gates, write_sorts};
use crate::texts::{write_lines, write_texts};
use itoa::Buffer;
use sdl_structure_parts::{Gate, Owner, Structure};
use std::io::{Result, Write};

/// How many outputs an offer has at most.
const MOST_OUTPUTS: usize = 16;

/// How many creates an offer has at most.
const MOST_CREATES: usize = 8;

/// Writes the module.
pub fn write_lists<W: Write>(output: &mut W, structure: &Structure, names: &Names) -> Result<()> {
    write_lines(output, HEAD)?;
    for number in 0..structure.sets().len() {
        write_head_of(output, structure, names, number)?;
        write_inward(output, structure, names, number)?;
        write_lines(output, OUTWARD)?;
        write_outward(output, structure, names, number)?;
        write_lines(output, CREATES)?;
        write_creates(output, structure, names, number)?;
        write_lines(output, END_OF_SET)?;
    }
    write_lines(output, &["}"])
}

const HEAD: &[&str] = &[
    "",
    "/// What each set may receive, send and create.",
    "pub mod lists {",
    "    use super::*;",
    "    use sdl_graph_program::{SetLists, Sort, Via};",
];

const OUTWARD: &[&str] = &["        ],", "        outward: &["];

const CREATES: &[&str] = &["        ],", "        creates: &["];

const END_OF_SET: &[&str] = &["        ],", "    };"];

/// Writes the head of the lists of a set.
fn write_head_of<W: Write>(
    output: &mut W,
    structure: &Structure,
    names: &Names,
    number: usize,
) -> Result<()> {
    let constant = names.set(number);
    let name = match structure.sets().get(number) {
        Some(set) => set.name.as_str(),
        None => "",
    };
    let mut digits = Buffer::new();
    let sets = digits.format(structure.sets().len());
    write_texts(
        output,
        &["\n    pub const ", constant, ": SetLists = SetLists {\n"],
    )?;
    write_texts(output, &["        set: sets::", constant, ",\n"])?;
    write_texts(output, &["        name: \"", name, "\",\n"])?;
    write_texts(output, &["        sets: ", sets, ",\n        inward: &[\n"])
}

/// Writes a signal with the sorts of its parameters, as the front of an element of a list.
fn write_signal<W: Write>(
    output: &mut W,
    structure: &Structure,
    names: &Names,
    number: usize,
) -> Result<()> {
    write_texts(
        output,
        &["            (signals::", names.signal(number), ", &["],
    )?;
    if let Some(signal) = structure.signals().get(number) {
        write_sorts(output, signal.sorts.as_slice())?;
    }
    write_texts(output, &["]"])
}

/// Writes each signal that a gate of the set lets in.
fn write_inward<W: Write>(
    output: &mut W,
    structure: &Structure,
    names: &Names,
    set: usize,
) -> Result<()> {
    for number in 0..structure.signals().len() {
        if is_received(structure, set, number) {
            write_signal(output, structure, names, number)?;
            write_texts(output, &["),\n"])?;
        }
    }
    Ok(())
}

/// Writes each signal that a gate of the set lets out, for any VIA, and with each gate that lets it out. Where that is more than an offer
/// has room for, a VIA of the only such gate is left out, since it says no more. All are left out where `USES` can't name all gates.
fn write_outward<W: Write>(
    output: &mut W,
    structure: &Structure,
    names: &Names,
    set: usize,
) -> Result<()> {
    let all = outputs_of(structure, set) <= MOST_OUTPUTS;
    let named = has_room_for_gates(structure);
    for number in 0..structure.signals().len() {
        let gates = gates_out(structure, set, number);
        if gates > 0 {
            write_signal(output, structure, names, number)?;
            write_texts(output, &[", Via::Any),\n"])?;
        }
        if named && (gates > 1 || all) {
            write_vias(output, structure, names, set, number)?;
        }
    }
    Ok(())
}

/// Writes a signal with each gate of the set that lets it out.
fn write_vias<W: Write>(
    output: &mut W,
    structure: &Structure,
    names: &Names,
    set: usize,
    signal: usize,
) -> Result<()> {
    for (number, gate) in structure.gates().iter().enumerate() {
        if lets_out(gate, set, signal) {
            write_signal(output, structure, names, signal)?;
            write_texts(
                output,
                &[", Via::Gate(gates::", names.gate(number), ")),\n"],
            )?;
        }
    }
    Ok(())
}

/// Writes each set of the block in which the set is.
fn write_creates<W: Write>(
    output: &mut W,
    structure: &Structure,
    names: &Names,
    set: usize,
) -> Result<()> {
    for number in 0..structure.sets().len() {
        if are_together(structure, set, number) {
            write_texts(output, &["            sets::", names.set(number), ",\n"])?;
        }
    }
    Ok(())
}

/// Whether the sets are in one block.
fn are_together(structure: &Structure, set: usize, other: usize) -> bool {
    match (structure.sets().get(set), structure.sets().get(other)) {
        (Some(set), Some(other)) => set.block == other.block,
        _ => false,
    }
}

/// Whether the block of the set has more sets than an offer has room for.
pub fn has_many_creates(structure: &Structure, set: usize) -> bool {
    let sets = 0..structure.sets().len();
    sets.filter(|other| are_together(structure, set, *other))
        .count()
        > MOST_CREATES
}

/// How many outputs there are with all gates.
fn outputs_of(structure: &Structure, set: usize) -> usize {
    let mut outputs = 0_usize;
    for signal in 0..structure.signals().len() {
        let gates = gates_out(structure, set, signal);
        let any = if gates > 0 { 1 } else { 0 };
        outputs = outputs.saturating_add(gates).saturating_add(any);
    }
    outputs
}

/// How many gates of the set let the signal out.
fn gates_out(structure: &Structure, set: usize, signal: usize) -> usize {
    let gates = structure.gates().iter();
    gates.filter(|gate| lets_out(gate, set, signal)).count()
}

/// Whether it is a gate of the set that lets the signal out.
fn lets_out(gate: &Gate, set: usize, signal: usize) -> bool {
    let outward = gate.outward.as_slice();
    is_owned_by(gate.owner, set) && outward.iter().any(|other| other.0 as usize == signal)
}

/// Whether a gate of the set lets the signal in.
pub fn is_received(structure: &Structure, set: usize, signal: usize) -> bool {
    structure.gates().iter().any(|gate| {
        let inward = gate.inward.as_slice();
        is_owned_by(gate.owner, set) && inward.iter().any(|other| other.0 as usize == signal)
    })
}

/// Whether the owner is the set of this number.
fn is_owned_by(owner: Owner, number: usize) -> bool {
    match owner {
        Owner::Set(set) => set.0 as usize == number,
        Owner::System | Owner::Block(_) => false,
    }
}
