//! The first fault of each rule.
ghost use Rattle.std.specs.Prelude.{◌≡◌, ℕ, suc, ◌<◌, [], ◌∷◌, length, MatchOption};
ghost use Rattle.sdl_structure_parts.specs.Structure.{IsStructure};
ghost use Rattle.sdl_structure_parts.specs.Rules.{direction_rank};
ghost use Rattle.sdl_structure_parts.specs.EachRule.{IsKept, IsKeptBefore, IsFirstOf};

use crate::checking::CheckFault;
use crate::checking::at_place::{
    carries_some, has_distinct_ends, is_unjoined, leads_on, refusing_gate, starts_within,
};
use crate::parts::{Direction, Side};
use crate::structure::Structure;
use sdl_signal::{ChannelId, GateId, SetId};

/// C1: the first channel with both ends at one gate or both at inner sides.
pub fn first_bad_ends(structure: &Structure) -> Option<CheckFault>
    requires { IsStructure structure.now }
    ensures { MatchOption result (IsKept structure.now 1) (IsFirstOf structure.now 1) }
{
    for (number, channel) in structure.channels().iter().enumerate() {
        if !has_distinct_ends(channel) {
            return Some(CheckFault::BadEnds(ChannelId(number as u32)));
        }
    }
    None
}

/// C2: the first channel that carries no signal.
pub fn first_empty_channel(structure: &Structure) -> Option<CheckFault>
    requires { IsStructure structure.now }
    ensures { MatchOption result (IsKept structure.now 2) (IsFirstOf structure.now 2) }
{
    for (number, channel) in structure.channels().iter().enumerate() {
        if !carries_some(channel) {
            return Some(CheckFault::EmptyChannel(ChannelId(number as u32)));
        }
    }
    None
}

/// The first signal of one path that a gate at its ends does not admit.
fn first_not_in_gate_of(
    structure: &Structure,
    number: usize,
    direction: Direction,
) -> Option<CheckFault>
    requires structure { IsStructure structure.now }
    requires number { number < length structure.now.channels }
    requires before { IsKeptBefore structure.now 3 (number ∷ direction_rank direction ∷ []) }
    ensures { MatchOption result (IsKeptBefore structure.now 3 (number ∷ suc (direction_rank direction) ∷ [])) (IsFirstOf structure.now 3) }
{
    let channel = &structure.channels()[number];
    for signal in channel.signals(direction) {
        if let Some(gate) = refusing_gate(structure, channel, direction, *signal) {
            return Some(CheckFault::NotInGate(ChannelId(number as u32), direction, *signal, gate));
        }
    }
    None
}

/// C3: the first signal that a gate does not admit, by channels, forth before back, in the order of the list, start before end.
pub fn first_not_in_gate(structure: &Structure) -> Option<CheckFault>
    requires { IsStructure structure.now }
    ensures { MatchOption result (IsKept structure.now 3) (IsFirstOf structure.now 3) }
{
    for number in 0..structure.channels().len() {
        if let Some(fault) = first_not_in_gate_of(structure, number, Direction::Forth) {
            return Some(fault);
        }
        if let Some(fault) = first_not_in_gate_of(structure, number, Direction::Back) {
            return Some(fault);
        }
    }
    None
}

/// C4: the first side of a gate at which no channel ends, by gates, outside before inside.
pub fn first_unjoined(structure: &Structure) -> Option<CheckFault>
    requires { IsStructure structure.now }
    ensures { MatchOption result (IsKept structure.now 4) (IsFirstOf structure.now 4) }
{
    for (number, gate) in structure.gates().iter().enumerate() {
        let id = GateId(number as u32);
        if is_unjoined(structure, id, gate.owner, Side::Outer) {
            return Some(CheckFault::Unjoined(id, Side::Outer));
        }
        if is_unjoined(structure, id, gate.owner, Side::Inner) {
            return Some(CheckFault::Unjoined(id, Side::Inner));
        }
    }
    None
}

/// The first signal of one path that goes no further.
fn first_leads_nowhere_of(
    structure: &Structure,
    number: usize,
    direction: Direction,
) -> Option<CheckFault>
    requires structure { IsStructure structure.now }
    requires number { number < length structure.now.channels }
    requires before { IsKeptBefore structure.now 5 (number ∷ direction_rank direction ∷ []) }
    ensures { MatchOption result (IsKeptBefore structure.now 5 (number ∷ suc (direction_rank direction) ∷ [])) (IsFirstOf structure.now 5) }
{
    let channel = &structure.channels()[number];
    let finish = channel.finish(direction);
    for signal in channel.signals(direction) {
        if !leads_on(structure, finish, *signal) {
            return Some(CheckFault::LeadsNowhere(ChannelId(number as u32), direction, *signal));
        }
    }
    None
}

/// C5: the first signal that ends at a block gate and goes no further, by channels, forth before back, in the order of the list.
pub fn first_leads_nowhere(structure: &Structure) -> Option<CheckFault>
    requires { IsStructure structure.now }
    ensures { MatchOption result (IsKept structure.now 5) (IsFirstOf structure.now 5) }
{
    for number in 0..structure.channels().len() {
        if let Some(fault) = first_leads_nowhere_of(structure, number, Direction::Forth) {
            return Some(fault);
        }
        if let Some(fault) = first_leads_nowhere_of(structure, number, Direction::Back) {
            return Some(fault);
        }
    }
    None
}

/// C6: the first set with an initial number over its maximum.
pub fn first_initial_over_max(structure: &Structure) -> Option<CheckFault>
    requires { IsStructure structure.now }
    ensures { MatchOption result (IsKept structure.now 6) (IsFirstOf structure.now 6) }
{
    for (number, set) in structure.sets().iter().enumerate() {
        if !starts_within(set) {
            return Some(CheckFault::InitialOverMax(SetId(number as u32)));
        }
    }
    None
}
