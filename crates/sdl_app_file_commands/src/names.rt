//! The names of a structure's parts, as its file writes them.
ghost use Rattle.std.specs.Prelude.{◌≡◌};
ghost use Rattle.sdl_app_file_commands.specs.Texts.{signal_text, set_text, block_text, channel_text, gate_text, owner_text, agent_text};

use sdl_signal::{BlockId, ChannelId, GateId, SetId, SignalId};
use sdl_structure_parts::{Owner, Scope, Structure};

pub fn signal_name(structure: &Structure, signal: SignalId) -> &str
    ensures { result.now ≡ signal_text structure.now signal }
{
    match structure.signals().get(signal.0 as usize) {
        Some(signal) => signal.name.as_str(),
        None => "",
    }
}

pub fn set_name(structure: &Structure, set: SetId) -> &str
    ensures { result.now ≡ set_text structure.now set }
{
    match structure.sets().get(set.0 as usize) {
        Some(set) => set.name.as_str(),
        None => "",
    }
}

pub fn block_name(structure: &Structure, block: BlockId) -> &str
    ensures { result.now ≡ block_text structure.now block }
{
    match structure.blocks().get(block.0 as usize) {
        Some(block) => block.name.as_str(),
        None => "",
    }
}

pub fn channel_name(structure: &Structure, channel: ChannelId) -> &str
    ensures { result.now ≡ channel_text structure.now channel }
{
    match structure.channels().get(channel.0 as usize) {
        Some(channel) => channel.name.as_str(),
        None => "",
    }
}

pub fn gate_name(structure: &Structure, gate: GateId) -> &str
    ensures { result.now ≡ gate_text structure.now gate }
{
    match structure.gates().get(gate.0 as usize) {
        Some(gate) => gate.name.as_str(),
        None => "",
    }
}

/// The agent that the gate belongs to; the system is `env`.
pub fn agent_name(structure: &Structure, gate: GateId) -> &str
    ensures { result.now ≡ agent_text structure.now gate }
{
    match structure.gates().get(gate.0 as usize) {
        Some(gate) => owner_name(structure, gate.owner),
        None => "",
    }
}

fn owner_name(structure: &Structure, owner: Owner) -> &str
    ensures { result.now ≡ owner_text structure.now owner }
{
    match owner {
        Owner::System => "env",
        Owner::Set(set) => set_name(structure, set),
        Owner::Block(block) => block_name(structure, block),
    }
}

/// The agent of the gate as an end of the channel names it: a block's own gate is `env`'s in the block's channels.
pub fn end_agent_name(structure: &Structure, channel: ChannelId, gate: GateId) -> &str {
    match (
        structure.channels().get(channel.0 as usize),
        structure.gates().get(gate.0 as usize),
    ) {
        (Some(channel), Some(gate)) => match (channel.scope, gate.owner) {
            (Scope::Block(inner), Owner::Block(block)) if inner == block => "env",
            _ => owner_name(structure, gate.owner),
        },
        _ => "",
    }
}
