//! The names that a structure file gives, by the places where it gives them.
use crate::spots::WrittenAt;
use sdl_structure::{Key, Part, Place};
use std::alloc::{AllocError, Global};

/// The names of all signals.
pub(crate) fn signal_names(
    alloc: Global,
    writings: &[WrittenAt],
) -> Result<Vec<String>, AllocError> {
    let mut names = Vec::new(alloc);
    for writing in writings {
        let place = writing.place();
        if place.part == Part::Signal
            && place.key == Key::Name
            && let Some(name) = writing.value()
        {
            names.push(String::from_str(alloc, name)?)?;
        }
    }
    Ok(names)
}

/// Whether an agent whose name stands at the writing may be named by a channel there: a set of the block in which the channel lies, or
/// a block directly in it.
fn is_named_in(channel: Place, writing: &WrittenAt) -> bool {
    let place = writing.place();
    match (channel.part, place.part) {
        (Part::Channel, Part::Block) => writing.spot.around.is_none(),
        (Part::BlockChannel, Part::Block) => writing.spot.around == Some(channel.block),
        (Part::BlockChannel, Part::Set) => place.block == channel.block,
        _ => false,
    }
}

/// Whether the gate at the place is one of the agent at the other, a set or a block.
fn is_gate_of(agent: Place, gate: Place) -> bool {
    match (agent.part, gate.part) {
        (Part::Set, Part::SetGate) => agent.block == gate.block && agent.set == gate.set,
        (Part::Block, Part::BlockGate) => agent.block == gate.block,
        _ => false,
    }
}

/// Whether the gate at the place is one of `env` for a channel there: of the system, or of the block in which the channel lies.
fn is_gate_of_env(channel: Place, gate: Place) -> bool {
    match (channel.part, gate.part) {
        (Part::Channel, Part::Gate) => true,
        (Part::BlockChannel, Part::BlockGate) => channel.block == gate.block,
        _ => false,
    }
}

/// The ends that a channel at this place may have, as the file writes them.
pub(crate) fn ends_of(
    alloc: Global,
    writings: &[WrittenAt],
    channel: Place,
) -> Result<Vec<String>, AllocError> {
    let mut ends = Vec::new(alloc);
    for gate in writings {
        if gate.place().key == Key::Name && is_gate_of_env(channel, gate.place()) {
            add_end(alloc, &mut ends, "env", gate)?;
        }
    }
    for agent in writings {
        if agent.place().key == Key::Name
            && is_named_in(channel, agent)
            && let Some(name) = agent.value()
        {
            add_ends(alloc, &mut ends, writings, name, agent.place())?;
        }
    }
    Ok(ends)
}

/// Adds those at the gates of an agent.
fn add_ends(
    alloc: Global,
    ends: &mut Vec<String>,
    writings: &[WrittenAt],
    name: &str,
    agent: Place,
) -> Result<(), AllocError> {
    for gate in writings {
        if gate.place().key == Key::Name && is_gate_of(agent, gate.place()) {
            add_end(alloc, ends, name, gate)?;
        }
    }
    Ok(())
}

/// Adds the one at a gate.
fn add_end(
    alloc: Global,
    ends: &mut Vec<String>,
    agent: &str,
    gate: &WrittenAt,
) -> Result<(), AllocError> {
    if let Some(name) = gate.value() {
        let mut end = String::from_str(alloc, agent)?;
        end.push('.')?;
        end.push_str(name)?;
        ends.push(end)?;
    }
    Ok(())
}

/// What has names of its own, so that one name is given once there.
#[derive(Clone, Copy, PartialEq, Eq)]
enum Space {
    Signals,
    /// Blocks and sets.
    Agents,
    Channels,
    /// The gates of the system.
    Gates,
    GatesOfBlock(u32),
    /// Those of the set at a place in a block.
    GatesOfSet(u32, u32),
    /// The name of the system.
    System,
}

fn space_of(place: Place) -> Space {
    match place.part {
        Part::System => Space::System,
        Part::Signal => Space::Signals,
        Part::Gate => Space::Gates,
        Part::Channel | Part::BlockChannel => Space::Channels,
        Part::Block | Part::Set => Space::Agents,
        Part::BlockGate => Space::GatesOfBlock(place.block),
        Part::SetGate => Space::GatesOfSet(place.block, place.set),
    }
}

/// Whether names at the two places have to differ.
pub(crate) fn share_names(one: Place, other: Place) -> bool {
    space_of(one) == space_of(other)
}
