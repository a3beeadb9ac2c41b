//! Routes, and what is wished of one.
use arrayvec::ArrayVec;
use sdl_signal::{BlockId, ChannelId, GateId, SetId, SignalId};

/// A channel with a direction: one of its two paths, from its first end to its second, or back.
#[derive(Clone, Copy, Debug, Default, PartialEq, Eq, PartialOrd, Ord)]
pub struct Hop {
    pub channel: ChannelId,
    pub back: bool,
}

/// Where a route ends: at a set, or in the environment at this gate of the system.
#[derive(Clone, Copy, Debug, PartialEq, Eq)]
pub enum EndPoint {
    Set(SetId),
    Environment(GateId),
}

/// Where an item of a route waits (this project's own): on a delaying path, in the inlet of a block, or in the outlet. Every
/// route to a block's sets enters its inlet last, and every route to the environment enters the outlet last.
#[derive(Clone, Copy, Debug, PartialEq, Eq, PartialOrd, Ord)]
pub enum Station {
    Line(Hop),
    Inlet(BlockId),
    Outlet,
}

impl Default for Station {
    fn default() -> Self {
        Station::Outlet
    }
}

/// A signal with the hops that carry it from a gate of a set or of the system to such a gate.
#[derive(Drop)]
pub struct Route {
    pub signal: SignalId,
    /// The gate at which the first hop starts.
    pub start: GateId,
    pub hops: ArrayVec<Hop, 9>,
    pub end: EndPoint,
    /// The gate at which the last hop ends.
    pub end_gate: GateId,
    /// The delaying hops in order, and then the inlet of the last set's block, or the outlet.
    pub stations: ArrayVec<Station, 10>,
}

/// Where an output comes from: an instance of a set, or the environment at this gate of the system.
#[derive(Clone, Copy, Debug, PartialEq, Eq)]
pub enum Source {
    Set(SetId),
    Gate(GateId),
}

/// Where an output is to go, as its TO says.
#[derive(Clone, Copy, Debug, PartialEq, Eq)]
pub enum Goal {
    /// There is no TO.
    Anywhere,
    /// TO the Pid Null: no route leads there.
    Null,
    Environment,
    Set(SetId),
}

/// What an output names by VIA: nothing, the gate at which its route starts, or a channel on its way.
#[derive(Clone, Copy, Debug, PartialEq, Eq)]
pub enum Via {
    Any,
    Gate(GateId),
    Channel(ChannelId),
}

/// What an output asks of its route.
#[derive(Clone, Copy, Debug, PartialEq, Eq)]
pub struct Wish {
    pub source: Source,
    pub signal: SignalId,
    pub goal: Goal,
    pub via: Via,
}

/// A route of a table, with the source whose gate it starts at. Contracts see a table as a list of these.
#[derive(Drop)]
pub struct TableRow {
    pub route: Route,
    pub source: Source,
}
