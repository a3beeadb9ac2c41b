//! Frames as clusters: a cluster has the gates of its agent, and the clusters of the agents that lie in it.
ghost use Rattle.std.specs.Prelude.{◌≡◌, OnOk};
ghost use Rattle.std.specs.Io.KnownBytes.{Appends};
ghost use Rattle.sdl_drawing.specs.Shown.{scope_agent};
ghost use Rattle.sdl_drawing_text.specs.Dot.{cluster_end, same_agent, node_front, gate_node, gate_line, gates_dot, cluster_front, set_front, set_dot, set_line, sets_dot, block_label, block_front, block_dot, block_line, blocks_dot, system_front, system_dot};

use crate::elements::write_set_words;
use sdl_signal::{BlockId, SetId};
use sdl_structure_parts::limits::MOST_DEPTH;
use sdl_structure_parts::{Block, Gate, Owner, Scope, Set, Structure};
use sdl_svg::write_text;
use std::io::{Result, Write};

/// Writes the cluster of the system.
pub(crate) fn write_system<W: Write>(output: &mut W, structure: &Structure) -> Result<()>
    ensures { OnOk result (Appends (W.contents output.old) (W.contents output.new) (system_dot structure.now)) }
{
    open_system(output, structure)?;
    write_blocks(output, structure, Owner::System, MOST_DEPTH)?;
    write_gates(output, structure, Owner::System)?;
    close_cluster(output)
}

/// Writes the front of the system's cluster.
fn open_system<W: Write>(output: &mut W, structure: &Structure) -> Result<()>
    ensures { OnOk result (Appends (W.contents output.old) (W.contents output.new) (system_front structure.now)) }
{
    let system = structure.system();
    writeln!(
        output,
        "  subgraph cluster_system {{\n    label=\"system {system}\"; penwidth=2;"
    )
}

/// Writes the clusters of the blocks that lie in an agent, with those in them on so many levels in all.
#[cycle(clusters)]
fn write_blocks<W: Write>(
    output: &mut W,
    structure: &Structure,
    around: Owner,
    levels: u32,
) -> Result<()>
    ensures { OnOk result (Appends (W.contents output.old) (W.contents output.new) (blocks_dot levels structure.now around)) }
{
    if levels == 0 {
        return Ok(());
    }
    structure.parts_agree();
    let blocks = structure.blocks();
    for (number, block) in blocks.iter().enumerate() {
        let id = BlockId(number as u32);
        write_block_in(output, structure, around, id, block, levels - 1)?;
    }
    Ok(())
}

/// Writes the cluster of a block, where it lies in the agent.
#[cycle(clusters)]
fn write_block_in<W: Write>(
    output: &mut W,
    structure: &Structure,
    around: Owner,
    id: BlockId,
    block: &Block,
    levels: u32,
) -> Result<()>
    ensures { OnOk result (Appends (W.contents output.old) (W.contents output.new) (block_line structure.now around (blocks_dot levels structure.now) (id.0, block.now))) }
{
    let scope = scope_of(block.scope);
    if is_same(scope, around) {
        write_block(output, structure, id, block, levels)
    } else {
        Ok(())
    }
}

/// Writes the cluster of a block, with blocks in it on so many levels.
#[cycle(clusters)]
fn write_block<W: Write>(
    output: &mut W,
    structure: &Structure,
    id: BlockId,
    block: &Block,
    levels: u32,
) -> Result<()>
    ensures { OnOk result (Appends (W.contents output.old) (W.contents output.new) (block_dot structure.now (blocks_dot levels structure.now) (id.0, block.now))) }
{
    open_block(output, id, block)?;
    write_gates(output, structure, Owner::Block(id))?;
    write_sets(output, structure, id)?;
    write_blocks(output, structure, Owner::Block(id), levels)?;
    close_cluster(output)
}

/// Writes the front of a block's cluster.
fn open_block<W: Write>(output: &mut W, id: BlockId, block: &Block) -> Result<()>
    ensures { OnOk result (Appends (W.contents output.old) (W.contents output.new) (block_front (id.0, block.now))) }
{
    open_cluster(output, "b", id.0)?;
    write_block_label(output, block)
}

fn write_block_label<W: Write>(output: &mut W, block: &Block) -> Result<()>
    ensures { OnOk result (Appends (W.contents output.old) (W.contents output.new) (block_label block.now)) }
{
    let name = block.name.as_str();
    writeln!(output, "block {name}\";")
}

/// Writes the front of a cluster up to its label. Blocks and sets have numbers of their own, so each kind has its letter.
fn open_cluster<W: Write>(output: &mut W, letter: &str, number: u32) -> Result<()>
    ensures { OnOk result (Appends (W.contents output.old) (W.contents output.new) (cluster_front letter.now number)) }
{
    write!(
        output,
        "  subgraph cluster_{letter}{number} {{\n    label=\""
    )
}

/// Writes the clusters of the sets of a block.
fn write_sets<W: Write>(output: &mut W, structure: &Structure, block: BlockId) -> Result<()>
    ensures { OnOk result (Appends (W.contents output.old) (W.contents output.new) (sets_dot structure.now block structure.now.sets)) }
{
    structure.parts_agree();
    let sets = structure.sets();
    for (number, set) in sets.iter().enumerate() {
        let id = SetId(number as u32);
        write_set_in(output, structure, block, id, set)?;
    }
    Ok(())
}

/// Writes the cluster of a set, where it lies in the block.
fn write_set_in<W: Write>(
    output: &mut W,
    structure: &Structure,
    block: BlockId,
    id: SetId,
    set: &Set,
) -> Result<()>
    ensures { OnOk result (Appends (W.contents output.old) (W.contents output.new) (set_line structure.now block (id.0, set.now))) }
{
    if set.block.0 == block.0 {
        write_set(output, structure, id, set)
    } else {
        Ok(())
    }
}

/// Writes the cluster of a set.
fn write_set<W: Write>(output: &mut W, structure: &Structure, id: SetId, set: &Set) -> Result<()>
    ensures { OnOk result (Appends (W.contents output.old) (W.contents output.new) (set_dot structure.now (id.0, set.now))) }
{
    open_set(output, id, set)?;
    write_gates(output, structure, Owner::Set(id))?;
    close_cluster(output)
}

/// Writes the front of a set's cluster.
fn open_set<W: Write>(output: &mut W, id: SetId, set: &Set) -> Result<()>
    ensures { OnOk result (Appends (W.contents output.old) (W.contents output.new) (set_front (id.0, set.now))) }
{
    open_cluster(output, "s", id.0)?;
    write_set_words(output, set)?;
    write_text(output, "\"; style=rounded; penwidth=1.4;\n")
}

/// Writes the gates of an agent.
fn write_gates<W: Write>(output: &mut W, structure: &Structure, agent: Owner) -> Result<()>
    ensures { OnOk result (Appends (W.contents output.old) (W.contents output.new) (gates_dot agent structure.now.gates)) }
{
    let gates = structure.gates();
    for (number, gate) in gates.iter().enumerate() {
        write_gate_in(output, agent, number, gate)?;
    }
    Ok(())
}

/// Writes a gate, where it is one of the agent.
fn write_gate_in<W: Write>(output: &mut W, agent: Owner, number: usize, gate: &Gate) -> Result<()>
    ensures { OnOk result (Appends (W.contents output.old) (W.contents output.new) (gate_line agent (number, gate.now))) }
{
    if is_same(gate.owner, agent) {
        write_node(output, number, gate)
    } else {
        Ok(())
    }
}

/// Writes a gate as a node.
fn write_node<W: Write>(output: &mut W, number: usize, gate: &Gate) -> Result<()>
    ensures { OnOk result (Appends (W.contents output.old) (W.contents output.new) (gate_node number gate.now)) }
{
    open_node(output, number, gate)?;
    write_text(
        output,
        "\", width=0.1, height=0.1, fontsize=8, margin=\"0.04,0.02\", style=filled, fillcolor=\"#eef3fb\"];\n",
    )
}

/// Writes the number and the name of a gate.
fn open_node<W: Write>(output: &mut W, number: usize, gate: &Gate) -> Result<()>
    ensures { OnOk result (Appends (W.contents output.old) (W.contents output.new) (node_front number gate.now)) }
{
    let name = gate.name.as_str();
    write!(output, "    g{number} [label=\"{name}")
}

/// Writes the end of a cluster.
fn close_cluster<W: Write>(output: &mut W) -> Result<()>
    ensures { OnOk result (Appends (W.contents output.old) (W.contents output.new) cluster_end) }
{
    write_text(output, "  }\n")
}

/// The agent that a scope is.
fn scope_of(scope: Scope) -> Owner
    ensures { result ≡ scope_agent scope }
{
    match scope {
        Scope::System => Owner::System,
        Scope::Block(block) => Owner::Block(block),
    }
}

/// Whether two agents are the same.
fn is_same(one: Owner, other: Owner) -> bool
    ensures { result ≡ same_agent one other }
{
    match one {
        Owner::System => is_system(other),
        Owner::Block(block) => is_block(other, block),
        Owner::Set(set) => is_set(other, set),
    }
}

fn is_system(agent: Owner) -> bool
    ensures { result ≡ same_agent Owner.System agent }
{
    match agent {
        Owner::System => true,
        Owner::Block(_) => false,
        Owner::Set(_) => false,
    }
}

fn is_block(agent: Owner, block: BlockId) -> bool
    ensures { result ≡ same_agent (Owner.Block block) agent }
{
    match agent {
        Owner::System => false,
        Owner::Block(other) => block.0 == other.0,
        Owner::Set(_) => false,
    }
}

fn is_set(agent: Owner, set: SetId) -> bool
    ensures { result ≡ same_agent (Owner.Set set) agent }
{
    match agent {
        Owner::System => false,
        Owner::Block(_) => false,
        Owner::Set(other) => set.0 == other.0,
    }
}
