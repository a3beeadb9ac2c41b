//! Where a structure that its file declares is not well formed.
use crate::spots::{WrittenAt, line_at};
use sdl_app_file_commands::names::{
    agent_name, block_name, channel_name, gate_name, set_name, signal_name,
};
use sdl_signal::{ChannelId, GateId, SetId, SignalId};
use sdl_structure::{CheckFault, Direction, End, Key, Owner, Part, Place, Scope, Side, Structure};
use std::fmt;
use std::fmt::{Display, Formatter};

/// What is wrong in a line. Names are those of the structure.
#[derive(Clone, Copy)]
pub(crate) enum Defect<'a> {
    /// Both ends of a channel are at this gate of the agent.
    OneGate(&'a str, &'a str),
    BothEnv,
    NoSignal,
    /// The list of the gate in this line lacks the signal.
    Lacks(&'static str, usize, &'a str),
    /// No channel of the block, or of the system where there is none, ends at the gate.
    Unjoined(Option<&'a str>),
    /// No channel takes the signal on behind this gate of the agent, in this line.
    NotTakenOn(&'a str, &'a str, &'a str, usize),
    OverMaximum(u32, u32),
}

impl<'a> Display for Defect<'a> {
    fn fmt<W: fmt::Write>(&self, f: &mut Formatter<W>) -> fmt::Result {
        match *self {
            Defect::OneGate(agent, gate) => write!(f, "both ends are {agent}.{gate}"),
            Defect::BothEnv => f.write_str("both ends are gates of env"),
            Defect::NoSignal => f.write_str("neither forth nor back has a signal"),
            Defect::Lacks(list, line, signal) => {
                write!(f, "{list} of the gate in line {line} lacks {signal}")
            }
            Defect::Unjoined(Some(block)) => write!(f, "no channel of {block} ends at it"),
            Defect::Unjoined(None) => f.write_str("no channel of the system ends at it"),
            Defect::NotTakenOn(signal, agent, gate, line) => write!(
                f,
                "behind {agent}.{gate} in line {line} no channel takes {signal} on"
            ),
            Defect::OverMaximum(initial, maximum) => {
                write!(f, "initial {initial} is over maximum {maximum}")
            }
        }
    }
}

/// Finds where a structure has a fault in the writings of its file.
#[derive(Clone, Copy)]
pub(crate) struct Checker<'a> {
    pub file: &'a [u8],
    pub writings: &'a [WrittenAt<'a>],
    pub structure: &'a Structure,
}

impl<'a> Checker<'a> {
    /// Behind how many bytes of the file something is wrong, and what, where that is found.
    pub(crate) fn find(self, fault: CheckFault) -> Option<(usize, Defect<'a>)> {
        match fault {
            CheckFault::BadEnds(channel) => {
                let place = self.channel_place(channel)?;
                Some((self.key_at(place, Key::Ends)?, self.bad_ends(channel)?))
            }
            CheckFault::EmptyChannel(channel) => {
                let place = self.channel_place(channel)?;
                Some((self.key_at(place, Key::Name)?, Defect::NoSignal))
            }
            CheckFault::NotInGate(channel, direction, signal, gate) => {
                let at = self.signal_at(channel, direction, signal)?;
                let defect = self.not_in_gate(channel, direction, signal, gate)?;
                Some((at, defect))
            }
            CheckFault::Unjoined(gate, side) => {
                Some((self.gate_at(gate)?, self.unjoined(gate, side)?))
            }
            CheckFault::LeadsNowhere(channel, direction, signal) => {
                let at = self.signal_at(channel, direction, signal)?;
                let defect = self.leads_nowhere(channel, direction, signal)?;
                Some((at, defect))
            }
            CheckFault::InitialOverMax(set) => {
                let place = self.set_place(set)?;
                Some((self.key_at(place, Key::Initial)?, self.over_maximum(set)?))
            }
        }
    }

    /// The place of the name of a channel, which no other has.
    fn channel_place(self, channel: ChannelId) -> Option<Place> {
        let name = channel_name(self.structure, channel);
        for writing in self.writings {
            let place = writing.place();
            if place.key == Key::Name
                && matches!(place.part, Part::Channel | Part::BlockChannel)
                && writing.value() == Some(name)
            {
                return Some(place);
            }
        }
        None
    }

    /// The place of the name of a set, which no other has.
    fn set_place(self, set: SetId) -> Option<Place> {
        let name = set_name(self.structure, set);
        for writing in self.writings {
            let place = writing.place();
            if place.key == Key::Name && place.part == Part::Set && writing.value() == Some(name) {
                return Some(place);
            }
        }
        None
    }

    /// Where a key of a table stands.
    fn key_at(self, table: Place, key: Key) -> Option<usize> {
        let place = Place { key, ..table };
        for writing in self.writings {
            if writing.place() == place && writing.key().is_some() {
                return Some(writing.at);
            }
        }
        None
    }

    /// Where a signal stands in a list of a channel.
    fn signal_at(
        self,
        channel: ChannelId,
        direction: Direction,
        signal: SignalId,
    ) -> Option<usize> {
        let key = match direction {
            Direction::Forth => Key::Forth,
            Direction::Back => Key::Back,
        };
        let place = Place {
            key,
            ..self.channel_place(channel)?
        };
        let name = signal_name(self.structure, signal);
        for writing in self.writings {
            if writing.place() == place && writing.value() == Some(name) {
                return Some(writing.at);
            }
        }
        None
    }

    /// The line in which a gate has its name.
    fn gate_line(self, gate: GateId) -> Option<usize> {
        let at = self.gate_at(gate)?;
        Some(line_at(self.file, at))
    }

    /// Where a gate has its name.
    fn gate_at(self, gate: GateId) -> Option<usize> {
        let owner = self.structure.gates().get(gate.0 as usize)?.owner;
        let name = gate_name(self.structure, gate);
        for writing in self.writings {
            if writing.place().key == Key::Name
                && writing.value() == Some(name)
                && self.is_of(writing.place(), owner)
            {
                return Some(writing.at);
            }
        }
        None
    }

    /// Whether the gate at the place is one of the agent.
    fn is_of(self, gate: Place, owner: Owner) -> bool {
        match owner {
            Owner::System => gate.part == Part::Gate,
            Owner::Block(block) => gate.part == Part::BlockGate && gate.block == block.0,
            Owner::Set(set) => match self.set_place(set) {
                Some(place) => {
                    gate.part == Part::SetGate && gate.block == place.block && gate.set == place.set
                }
                None => false,
            },
        }
    }

    fn bad_ends(self, channel: ChannelId) -> Option<Defect<'a>> {
        let channel = self.structure.channels().get(channel.0 as usize)?;
        if channel.first.gate == channel.second.gate {
            let gate = channel.first.gate;
            let agent = agent_name(self.structure, gate);
            return Some(Defect::OneGate(agent, gate_name(self.structure, gate)));
        }
        Some(Defect::BothEnv)
    }

    fn not_in_gate(
        self,
        channel: ChannelId,
        direction: Direction,
        signal: SignalId,
        gate: GateId,
    ) -> Option<Defect<'a>> {
        let channel = self.structure.channels().get(channel.0 as usize)?;
        let (start, finish) = (channel.start(direction), channel.finish(direction));
        let list = if start.gate == gate {
            list_of(start.side.other())
        } else {
            list_of(finish.side)
        };
        let name = signal_name(self.structure, signal);
        Some(Defect::Lacks(list, self.gate_line(gate)?, name))
    }

    fn unjoined(self, gate: GateId, side: Side) -> Option<Defect<'a>> {
        let owner = self.structure.gates().get(gate.0 as usize)?.owner;
        let scope = match side {
            Side::Inner => scope_of(owner)?,
            Side::Outer => self.scope_around(owner)?,
        };
        Some(Defect::Unjoined(match scope {
            Scope::System => None,
            Scope::Block(block) => Some(block_name(self.structure, block)),
        }))
    }

    /// What lies around an agent.
    fn scope_around(self, owner: Owner) -> Option<Scope> {
        match owner {
            Owner::System => None,
            Owner::Block(block) => Some(self.structure.blocks().get(block.0 as usize)?.scope),
            Owner::Set(set) => {
                let set = self.structure.sets().get(set.0 as usize)?;
                Some(Scope::Block(set.block))
            }
        }
    }

    fn leads_nowhere(
        self,
        channel: ChannelId,
        direction: Direction,
        signal: SignalId,
    ) -> Option<Defect<'a>> {
        let channel = self.structure.channels().get(channel.0 as usize)?;
        let End { gate, side: _ } = channel.finish(direction);
        Some(Defect::NotTakenOn(
            signal_name(self.structure, signal),
            agent_name(self.structure, gate),
            gate_name(self.structure, gate),
            self.gate_line(gate)?,
        ))
    }

    fn over_maximum(self, set: SetId) -> Option<Defect<'a>> {
        let set = self.structure.sets().get(set.0 as usize)?;
        Some(Defect::OverMaximum(set.initial, set.maximum))
    }
}

/// What lies in an agent, where channels may.
fn scope_of(owner: Owner) -> Option<Scope> {
    match owner {
        Owner::System => Some(Scope::System),
        Owner::Block(block) => Some(Scope::Block(block)),
        Owner::Set(_) => None,
    }
}

/// The list of a gate that has the signals which come to this side of it.
fn list_of(side: Side) -> &'static str {
    match side {
        Side::Outer => "inward",
        Side::Inner => "outward",
    }
}
