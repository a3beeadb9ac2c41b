//! One hop: its path, what it carries, and which hop it joins.
ghost use Rattle.std.specs.Prelude.{◌≡◌, IsTrue, ◌↔◌, option_map};
ghost use Rattle.sdl_structure_parts.specs.Structure.{other_side};
ghost use Rattle.sdl_routes.specs.Routes.{hop_path, last_of, Carries, Joins, JoinsLast, is_delaying as is_delaying_hop};

use crate::route::Hop;
use sdl_signal::SignalId;
use sdl_structure_parts::{End, Side, Structure};

/// Whether the path of the hop carries the signal.
pub fn carries(structure: &Structure, signal: SignalId, hop: Hop) -> bool
    ensures { IsTrue result ↔ Carries structure.now hop signal }
{
    match structure.channels().get(hop.channel.0 as usize) {
        Some(channel) => {
            let signals = if hop.back {
                channel.back.as_slice()
            } else {
                channel.forth.as_slice()
            };
            signals.contains(&signal)
        }
        None => false,
    }
}

/// The end at which the hop starts.
pub fn start_of(structure: &Structure, hop: Hop) -> Option<End>
    ensures { result ≡ option_map (λ path. path.start) (hop_path structure.now hop) }
{
    match structure.channels().get(hop.channel.0 as usize) {
        Some(channel) => Some(if hop.back {
            channel.second
        } else {
            channel.first
        }),
        None => None,
    }
}

/// The end at which the hop ends.
pub fn finish_of(structure: &Structure, hop: Hop) -> Option<End>
    ensures { result ≡ option_map (λ path. path.finish) (hop_path structure.now hop) }
{
    match structure.channels().get(hop.channel.0 as usize) {
        Some(channel) => Some(if hop.back {
            channel.first
        } else {
            channel.second
        }),
        None => None,
    }
}

/// Whether the channel of the hop delays its signals.
pub fn is_delaying(structure: &Structure, hop: Hop) -> bool
    ensures { result ≡ is_delaying_hop structure.now hop }
{
    match structure.channels().get(hop.channel.0 as usize) {
        Some(channel) => !channel.nodelay,
        None => false,
    }
}

/// The other side of the same gate.
fn beyond(end: End) -> End
    ensures { result ≡ record { gate = end.gate; side = other_side end.side } }
{
    let side = match end.side {
        Side::Outer => Side::Inner,
        Side::Inner => Side::Outer,
    };
    End {
        gate: end.gate,
        side,
    }
}

/// Whether the next hop starts where the hop ends, on the other side of a block's gate.
pub fn joins(structure: &Structure, hop: Hop, next: Hop) -> bool
    ensures { IsTrue result ↔ Joins structure.now hop next }
{
    match (finish_of(structure, hop), start_of(structure, next)) {
        (Some(finish), Some(start)) => start == beyond(finish)
            && structure.is_block_gate(finish.gate),
        _ => false,
    }
}

/// The last of the hops.
#[tactic(auto, using(crate::proofs::Last::last_at))]
pub fn last_hop(hops: &[Hop]) -> Option<Hop>
    ensures { result ≡ last_of hops.now }
{
    hops.last().copied()
}

/// Whether the last of the hops joins the next.
pub fn last_joins(structure: &Structure, hops: &[Hop], next: Hop) -> bool
    ensures { IsTrue result ↔ JoinsLast structure.now hops.now next }
{
    match last_hop(hops) {
        Some(last) => joins(structure, last, next),
        None => false,
    }
}
