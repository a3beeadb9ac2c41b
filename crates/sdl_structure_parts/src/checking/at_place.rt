//! Whether a rule holds at one place.
ghost use Rattle.std.specs.Prelude.{◌≡◌, ℕ, ◌<◌, IsTrue, ◌↔◌, IfSome, MatchOption, MatchBool, ◌⊎◌};
ghost use Rattle.sdl_signal.specs.declared.ids.GateId.{GateId};
ghost use Rattle.sdl_structure_parts.specs.declared.parts.Direction.{Direction};
ghost use Rattle.sdl_structure_parts.specs.Structure.{path_of, gate_at, HasSide};
ghost use Rattle.sdl_structure_parts.specs.Rules.{HasDistinctEnds, CarriesSome, AdmitsStart, AdmitsFinish, IsAdmittedAt, IsJoined, CarriesFrom, StartsAt, LeadsOn, StartsWithin, end_rank};

use crate::parts::{Channel, Direction, End, Owner, Set, Side};
use crate::structure::Structure;
use sdl_signal::{GateId, SignalId};

pub fn has_distinct_ends(channel: &Channel) -> bool
    ensures { IsTrue result ↔ HasDistinctEnds channel.now }
{
    channel.first.gate != channel.second.gate
        && !(channel.first.side == Side::Inner && channel.second.side == Side::Inner)
}

pub fn carries_some(channel: &Channel) -> bool
    ensures { IsTrue result ↔ CarriesSome channel.now }
{
    !(channel.forth.is_empty() && channel.back.is_empty())
}

pub fn starts_within(set: &Set) -> bool
    ensures { IsTrue result ↔ StartsWithin set.now }
{
    set.initial <= set.maximum
}

fn has_side(owner: Owner, side: Side) -> bool
    ensures { IsTrue result ↔ HasSide owner side }
{
    match owner {
        Owner::System => side == Side::Inner,
        Owner::Block(_) => true,
        Owner::Set(_) => side == Side::Outer,
    }
}

/// Whether the gate lets a signal start from this side of it.
fn admits_start(structure: &Structure, start: End, signal: SignalId) -> bool
    ensures { IsTrue result ↔ IfSome (gate_at structure.now start.gate) (λ gate. AdmitsStart gate start.side signal) }
{
    match structure.gates().get(start.gate.0 as usize) {
        Some(gate) => match start.side {
            Side::Outer => gate.outward.as_slice().contains(&signal),
            Side::Inner => gate.inward.as_slice().contains(&signal),
        },
        None => true,
    }
}

/// Whether the gate lets a signal end at this side of it.
fn admits_finish(structure: &Structure, finish: End, signal: SignalId) -> bool
    ensures { IsTrue result ↔ IfSome (gate_at structure.now finish.gate) (λ gate. AdmitsFinish gate finish.side signal) }
{
    match structure.gates().get(finish.gate.0 as usize) {
        Some(gate) => match finish.side {
            Side::Outer => gate.inward.as_slice().contains(&signal),
            Side::Inner => gate.outward.as_slice().contains(&signal),
        },
        None => true,
    }
}

/// The first gate of a path, its start before its end, that does not admit the signal.
pub fn refusing_gate(
    structure: &Structure,
    channel: &Channel,
    direction: Direction,
    signal: SignalId,
) -> Option<GateId>
    ensures { MatchOption result
        ((gate : GateId) → IsAdmittedAt structure.now (path_of channel.now direction) signal gate)
        (λ refusing. (¬ IsAdmittedAt structure.now (path_of channel.now direction) signal refusing)
        × ((gate : GateId) → end_rank (path_of channel.now direction) gate < end_rank (path_of channel.now direction) refusing
        → IsAdmittedAt structure.now (path_of channel.now direction) signal gate)) }
{
    let start = channel.start(direction);
    if !admits_start(structure, start, signal) {
        return Some(start.gate);
    }
    let finish = channel.finish(direction);
    if !admits_finish(structure, finish, signal) {
        return Some(finish.gate);
    }
    None
}

/// Whether this channel ends here.
fn ends_at(channel: &Channel, end: End) -> bool
    ensures { IsTrue result ↔ ((channel.now.first ≡ end) ⊎ (channel.now.second ≡ end)) }
{
    channel.first == end || channel.second == end
}

/// Whether some channel ends here.
fn is_joined(structure: &Structure, end: End) -> bool
    ensures { IsTrue result ↔ IsJoined structure.now end }
{
    structure.channels().iter().any(|c| ends_at(c, end))
}

/// Whether a gate of this owner has the side, and no channel ends there.
pub fn is_unjoined(structure: &Structure, gate: GateId, owner: Owner, side: Side) -> bool
    ensures { MatchBool result
        (HasSide owner side × ¬ IsJoined structure.now (record { gate = gate; side = side }))
        (HasSide owner side → IsJoined structure.now (record { gate = gate; side = side })) }
{
    has_side(owner, side) && !is_joined(structure, End { gate, side })
}

/// Whether this path starts here and carries the signal.
fn carries_from(channel: &Channel, direction: Direction, start: End, signal: SignalId) -> bool
    ensures { IsTrue result ↔ CarriesFrom channel.now direction start signal }
{
    channel.start(direction) == start && channel.signals(direction).contains(&signal)
}

/// Whether a path of the channel starts here and carries the signal.
fn has_path_from(channel: &Channel, start: End, signal: SignalId) -> bool
    ensures { IsTrue result ↔ ((direction : Direction) × CarriesFrom channel.now direction start signal) }
{
    carries_from(channel, Direction::Forth, start, signal)
        || carries_from(channel, Direction::Back, start, signal)
}

/// Whether some path starts here and carries the signal.
fn starts_at(structure: &Structure, signal: SignalId, start: End) -> bool
    ensures { IsTrue result ↔ StartsAt structure.now signal start }
{
    structure
        .channels()
        .iter()
        .any(|c| has_path_from(c, start, signal))
}

/// Whether a signal that ends here is at its goal, or goes on.
pub fn leads_on(structure: &Structure, finish: End, signal: SignalId) -> bool
    ensures { IsTrue result ↔ LeadsOn structure.now finish signal }
{
    !structure.is_block_gate(finish.gate)
        || starts_at(
            structure,
            signal,
            End {
                gate: finish.gate,
                side: finish.side.other(),
            },
        )
}
