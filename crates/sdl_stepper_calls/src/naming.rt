//! The parts of a structure by the words of a call. A part is named as in the structure file, or given by its number, which
//! begins with a digit. So a number that no part has can be tried too.
use sdl_routes::{Goal, Hop, Source, Station, Via};
use sdl_signal::{BlockId, ChannelId, GateId, Name, Pid, SetId, SignalId};
use sdl_structure_parts::{Block, Channel, Set, SignalDecl, Structure};

/// A part of a structure that goes by its name.
trait Part {
    fn name(&self) -> &Name;
}

impl Part for SignalDecl {
    fn name(&self) -> &Name {
        &self.name
    }
}

impl Part for Set {
    fn name(&self) -> &Name {
        &self.name
    }
}

impl Part for Block {
    fn name(&self) -> &Name {
        &self.name
    }
}

impl Part for Channel {
    fn name(&self) -> &Name {
        &self.name
    }
}

/// The place of the part of this name.
fn place_of<P: Part>(parts: &[P], word: &str) -> Option<usize> {
    for (place, part) in parts.iter().enumerate() {
        if part.name().as_str() == word {
            return Some(place);
        }
    }
    None
}

/// The number that a word is, or else that of the part of this name, which is its place among its like.
fn part_of<P: Part>(parts: &[P], word: &str) -> Option<u32> {
    match word.parse::<u32>() {
        Ok(number) => Some(number),
        Err(_) => u32::try_from(place_of(parts, word)?).ok(),
    }
}

/// The name of the part of this number, and no text where there is none.
fn name_at<P: Part>(parts: &[P], number: u32) -> &str {
    match parts.get(number as usize) {
        Some(part) => part.name().as_str(),
        None => "",
    }
}

pub fn signal_of(structure: &Structure, word: &str) -> Option<SignalId> {
    Some(SignalId(part_of(structure.signals(), word)?))
}

pub fn set_of(structure: &Structure, word: &str) -> Option<SetId> {
    Some(SetId(part_of(structure.sets(), word)?))
}

pub fn block_of(structure: &Structure, word: &str) -> Option<BlockId> {
    Some(BlockId(part_of(structure.blocks(), word)?))
}

fn channel_of(structure: &Structure, word: &str) -> Option<ChannelId> {
    Some(ChannelId(part_of(structure.channels(), word)?))
}

/// A gate by its number. Gates of several agents may have one name.
fn gate_of(word: &str) -> Option<GateId> {
    Some(GateId(word.parse::<u32>().ok()?))
}

/// A Pid: `null`, `env`, or `SET:N`.
pub fn pid_of(structure: &Structure, word: &str) -> Option<Pid> {
    match word {
        "null" => Some(Pid::Null),
        "env" => Some(Pid::Env),
        _ => instance_of(structure, word),
    }
}

fn instance_of(structure: &Structure, word: &str) -> Option<Pid> {
    let (set, serial) = word.split_once(':')?;
    let set = set_of(structure, set)?;
    Some(Pid::Inst(set, serial.parse::<u32>().ok()?))
}

/// A path: its channel, with `+` for forth and `-` for back.
pub fn hop_of(structure: &Structure, word: &str) -> Option<Hop> {
    match word.strip_suffix('+') {
        Some(channel) => path_along(structure, channel, false),
        None => path_along(structure, word.strip_suffix('-')?, true),
    }
}

fn path_along(structure: &Structure, channel: &str, back: bool) -> Option<Hop> {
    let channel = channel_of(structure, channel)?;
    Some(Hop { channel, back })
}

/// A station: a path, `inlet:BLOCK`, or `outlet`.
pub fn station_of(structure: &Structure, word: &str) -> Option<Station> {
    match word {
        "outlet" => Some(Station::Outlet),
        _ => inlet_or_line_of(structure, word),
    }
}

fn inlet_or_line_of(structure: &Structure, word: &str) -> Option<Station> {
    match word.strip_prefix("inlet:") {
        Some(block) => Some(Station::Inlet(block_of(structure, block)?)),
        None => Some(Station::Line(hop_of(structure, word)?)),
    }
}

/// Where an output comes from: `gate:N`, or a set.
pub fn source_of(structure: &Structure, word: &str) -> Option<Source> {
    match word.strip_prefix("gate:") {
        Some(gate) => Some(Source::Gate(gate_of(gate)?)),
        None => Some(Source::Set(set_of(structure, word)?)),
    }
}

/// Where an output is to go: `anywhere`, `null`, `env`, or a set.
pub fn goal_of(structure: &Structure, word: &str) -> Option<Goal> {
    match word {
        "anywhere" => Some(Goal::Anywhere),
        "null" => Some(Goal::Null),
        "env" => Some(Goal::Environment),
        _ => Some(Goal::Set(set_of(structure, word)?)),
    }
}

/// What an output names by VIA: `any`, `gate:N`, or `channel:NAME`.
pub fn via_of(structure: &Structure, word: &str) -> Option<Via> {
    match word {
        "any" => Some(Via::Any),
        _ => named_via_of(structure, word),
    }
}

fn named_via_of(structure: &Structure, word: &str) -> Option<Via> {
    match word.strip_prefix("gate:") {
        Some(gate) => Some(Via::Gate(gate_of(gate)?)),
        None => {
            let channel = word.strip_prefix("channel:")?;
            Some(Via::Channel(channel_of(structure, channel)?))
        }
    }
}

pub fn signal_name(structure: &Structure, signal: SignalId) -> &str {
    name_at(structure.signals(), signal.0)
}

pub fn set_name(structure: &Structure, set: SetId) -> &str {
    name_at(structure.sets(), set.0)
}

pub fn block_name(structure: &Structure, block: BlockId) -> &str {
    name_at(structure.blocks(), block.0)
}

pub fn channel_name(structure: &Structure, channel: ChannelId) -> &str {
    name_at(structure.channels(), channel.0)
}

/// The gate with its agent's name before it; the system is `env`.
pub fn gate_name(structure: &Structure, gate: GateId) -> (&str, &str) {
    match structure.gates().get(gate.0 as usize) {
        Some(gate) => (owner_name(structure, gate.owner), gate.name.as_str()),
        None => ("", ""),
    }
}

fn owner_name(structure: &Structure, owner: sdl_structure_parts::Owner) -> &str {
    match owner {
        sdl_structure_parts::Owner::System => "env",
        sdl_structure_parts::Owner::Block(block) => block_name(structure, block),
        sdl_structure_parts::Owner::Set(set) => set_name(structure, set),
    }
}
