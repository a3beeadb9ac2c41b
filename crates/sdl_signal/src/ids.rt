//! The numbers of the parts of a system, each in a type of its own. They count from 0, in the order of the
//! structure file, over the whole file. (This project's own.)

/// A signal.
#[derive(Clone, Copy, Debug, Default, PartialEq, Eq)]
pub struct SignalId(pub u32);

/// A set of process instances.
#[derive(Clone, Copy, Debug, Default, PartialEq, Eq, Hash)]
pub struct SetId(pub u32);

/// A block.
#[derive(Clone, Copy, Debug, Default, PartialEq, Eq, PartialOrd, Ord)]
pub struct BlockId(pub u32);

/// A gate of the system, of a block or of a set.
#[derive(Clone, Copy, Debug, Default, PartialEq, Eq)]
pub struct GateId(pub u32);

/// A channel.
#[derive(Clone, Copy, Debug, Default, PartialEq, Eq, PartialOrd, Ord)]
pub struct ChannelId(pub u32);

/// A route of the route table.
#[derive(Clone, Copy, Debug, Default, PartialEq, Eq)]
pub struct RouteId(pub u32);

/// A control state of a behaviour.
#[derive(Clone, Copy, Debug, Default, PartialEq, Eq)]
pub struct StateId(pub u32);
