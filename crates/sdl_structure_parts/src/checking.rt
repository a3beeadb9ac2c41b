//! The rules of a well formed structure.
ghost use Rattle.std.specs.Prelude.{◌≡◌, IfOk, IfErr, IfSome, IfNone, IsOk};
ghost use Rattle.sdl_structure_parts.specs.declared.checking.CheckFault.{CheckFault};
ghost use Rattle.sdl_structure_parts.specs.Structure.{IsStructure};
ghost use Rattle.sdl_structure_parts.specs.Rules.{IsWellFormed, IsFirstFault};

mod at_place;
mod each_rule;

use crate::parts::{Direction, Side};
use crate::structure::Structure;
use each_rule::{
    first_bad_ends, first_empty_channel, first_initial_over_max, first_leads_nowhere,
    first_not_in_gate, first_unjoined,
};
use sdl_signal::{ChannelId, GateId, SetId, SignalId};
use std::marker::Model;
use thiserror::Error;

/// Why a structure is not well formed, and where: the first rule that fails, at its first place. All are this project's
/// own form of what Basic SDL-2010 asks of channels, gates and instance numbers.
#[derive(Clone, Copy, Debug, PartialEq, Eq, Error)]
pub enum CheckFault {
    /// C1: both ends of the channel are at one gate, or both are at inner sides.
    #[error("C1 BadEnds channel {}: its ends are not at two gates that a channel may join", .0.0)]
    BadEnds(ChannelId),
    /// C2: both lists of the channel are empty.
    #[error("C2 EmptyChannel channel {}: it carries no signal", .0.0)]
    EmptyChannel(ChannelId),
    /// C3: a signal of the path is not in the list that the gate at its start or its end needs.
    #[error("C3 NotInGate channel {}: signal {} is not in the list of gate {}", .0.0, .2.0, .3.0)]
    NotInGate(ChannelId, Direction, SignalId, GateId),
    /// C4: no channel ends at this side of the gate.
    #[error("C4 Unjoined gate {}: no channel ends at one of its sides", .0.0)]
    Unjoined(GateId, Side),
    /// C5: the path ends at a block gate, and no path that starts on the gate's other side carries the signal.
    #[error("C5 LeadsNowhere channel {}: signal {} goes no further", .0.0, .2.0)]
    LeadsNowhere(ChannelId, Direction, SignalId),
    /// C6: the set's initial number of instances is over its maximum.
    #[error("C6 InitialOverMax set {}: its initial number is over its maximum", .0.0)]
    InitialOverMax(SetId),
}

/// A structure that is well formed.
#[derive(Drop)]
pub struct Checked {
    structure: Structure,
}

impl Model for Checked {
    ghost use Rattle.sdl_structure_parts.specs.Structure.{Structure as Parts, IsStructure};
    ghost use Rattle.sdl_structure_parts.specs.Rules.{IsWellFormed};

    ghost Value = { Parts };

    ghost view = { λ c. c.structure };

    ghost invariant = { λ c. IsStructure c.structure × IsWellFormed c.structure };
}

impl Checked {
    /// The structure that was checked.
    pub fn structure(&self) -> &Structure
        ensures structure { result.now ≡ self.now }
        ensures is_structure { IsStructure self.now }
        ensures well_formed { IsWellFormed self.now }
    {
        &self.structure
    }
}

/// The first fault by number, and within one number by place.
fn first_fault(structure: &Structure) -> Option<CheckFault>
    requires { IsStructure structure.now }
    ensures some { IfSome result (λ fault. IsFirstFault structure.now fault) }
    ensures none { IfNone result (IsWellFormed structure.now) }
{
    if let Some(fault) = first_bad_ends(structure) {
        return Some(fault);
    }
    if let Some(fault) = first_empty_channel(structure) {
        return Some(fault);
    }
    if let Some(fault) = first_not_in_gate(structure) {
        return Some(fault);
    }
    if let Some(fault) = first_unjoined(structure) {
        return Some(fault);
    }
    if let Some(fault) = first_leads_nowhere(structure) {
        return Some(fault);
    }
    first_initial_over_max(structure)
}

/// The structure where it is well formed, and else the same structure with its first fault. Takes no memory.
pub fn check(structure: Structure) -> Result<Checked, (Structure, CheckFault)>
    ensures ok { IfOk result (λ checked. (checked ≡ structure) × IsWellFormed structure) }
    ensures err { IfErr result (λ refused. (refused.0 ≡ structure) × IsFirstFault structure refused.1) }
    ensures only { IfErr result (λ refused. (other : CheckFault) → IsFirstFault structure other → other ≡ refused.1) }
    ensures total { IsWellFormed structure → IsOk result }
{
    structure.parts_agree();
    match first_fault(&structure) {
        Some(fault) => Err((structure, fault)),
        None => Ok(Checked { structure }),
    }
}
