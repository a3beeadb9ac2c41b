//! The parts of a structure that a set's texts may name, by number and name.
ghost use Rattle.std.specs.Prelude.{◌≡◌, ◌++◌, ◌<◌, ◌≤◌, length, flat_map, IfOk, OnOk};
ghost use Rattle.std.specs.List.{enumerate_from};
ghost use Rattle.sdl_listing_expression_text.specs.Meanings.{is_gate_of};
ghost use Rattle.sdl_listing_file.specs.Uses.{use_of_signal, use_of_set, use_of_gate, use_of_channel, uses_of, use_of};

use sdl_signal::{Name, SetId};
use sdl_structure_parts::{Channel, Gate, Owner, Set, SignalDecl, Structure};
use sdl_transition_behaviour::{Kind, Named};
use std::alloc::{AllocError, Global};

fn use_of(kind: Kind, number: usize, name: &Name) -> Named
    requires { number < 65536 }
    ensures { result ≡ use_of kind number name.now }
{
    Named {
        kind,
        number: number as u32,
        name: *name,
    }
}

fn add_signals(signals: &[SignalDecl], uses: &mut Vec<Named>) -> Result<(), AllocError>
    requires { length signals.now ≤ 65536 }
    ensures { OnOk result (uses.new.items ≡ uses.old.items ++ flat_map use_of_signal (enumerate_from 0 signals.now)) }
{
    for (number, x) in signals.iter().enumerate() {
        uses.push(use_of(Kind::Signal, number, &x.name))?;
    }
    Ok(())
}

fn add_sets(sets: &[Set], uses: &mut Vec<Named>) -> Result<(), AllocError>
    requires { length sets.now ≤ 65536 }
    ensures { OnOk result (uses.new.items ≡ uses.old.items ++ flat_map use_of_set (enumerate_from 0 sets.now)) }
{
    for (number, x) in sets.iter().enumerate() {
        uses.push(use_of(Kind::Set, number, &x.name))?;
    }
    Ok(())
}

/// Whether the gate is the set's.
fn is_gate_of(gate: &Gate, set: SetId) -> bool
    ensures { result ≡ is_gate_of set gate.now }
{
    match gate.owner {
        Owner::System => false,
        Owner::Block(_) => false,
        Owner::Set(owner) => owner.0 == set.0,
    }
}

/// Adds the gate, where it is one of the set.
fn add_gate(set: SetId, number: usize, gate: &Gate, uses: &mut Vec<Named>) -> Result<(), AllocError>
    requires { number < 65536 }
    ensures { OnOk result (uses.new.items ≡ uses.old.items ++ use_of_gate set (number, gate.now)) }
{
    if is_gate_of(gate, set) {
        uses.push(use_of(Kind::Gate, number, &gate.name))?;
    }
    Ok(())
}

fn add_gates(set: SetId, gates: &[Gate], uses: &mut Vec<Named>) -> Result<(), AllocError>
    requires { length gates.now ≤ 65536 }
    ensures { OnOk result (uses.new.items ≡ uses.old.items ++ flat_map (use_of_gate set) (enumerate_from 0 gates.now)) }
{
    for (number, x) in gates.iter().enumerate() {
        add_gate(set, number, x, uses)?;
    }
    Ok(())
}

fn add_channels(channels: &[Channel], uses: &mut Vec<Named>) -> Result<(), AllocError>
    requires { length channels.now ≤ 65536 }
    ensures { OnOk result (uses.new.items ≡ uses.old.items ++ flat_map use_of_channel (enumerate_from 0 channels.now)) }
{
    for (number, x) in channels.iter().enumerate() {
        uses.push(use_of(Kind::Channel, number, &x.name))?;
    }
    Ok(())
}

/// Each signal, each set, each gate of the set and each channel of the structure.
pub fn uses_of(alloc: Global, structure: &Structure, set: SetId) -> Result<Vec<Named>, AllocError>
    ensures { IfOk result (λ uses. uses.items ≡ uses_of structure.now set) }
{
    structure.parts_agree();
    let mut uses = Vec::new(alloc);
    add_signals(structure.signals(), &mut uses)?;
    add_sets(structure.sets(), &mut uses)?;
    add_gates(set, structure.gates(), &mut uses)?;
    add_channels(structure.channels(), &mut uses)?;
    Ok(uses)
}
