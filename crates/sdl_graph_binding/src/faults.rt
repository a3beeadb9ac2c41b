//! Why a graph does not fit a structure.
use crate::misfits::Misfit;
use sdl_signal::SetId;
use sdl_transition::BindFault;
use std::alloc::{AllocError, AllocFailed};

/// The first fault of a graph and its design against a structure. (This project's own.)
#[derive(Clone, Copy, Debug, PartialEq, Eq)]
pub enum GraphFault {
    /// The graph has no offer for the number.
    NoOffer(u32),
    /// The offer of the number can neither stop nor go on: it has no next state, and may not stop.
    NoEnd(u32),
    /// The transition of the number stands at the place of a row, and its offer is for no state or for no signal.
    NoTrigger(u32),
    /// The structure has no set of the name that stands at this place of the design.
    NoSet(usize),
    /// A state of the set at this place of the design has a text that is no name, or there are over 16.
    BadStates(usize),
    /// The set at this place of the design has over 8 variables.
    ManyVariables(usize),
    /// A use of the design has a text that is no name, or there are over 256.
    BadUses,
    /// The design says that the set has no transition, or more than the graph has left.
    FewTransitions(SetId),
    /// The design says that the set has over 256 rows.
    ManyRows(SetId),
    /// The design says that the set has over 256 saves.
    ManySaves(SetId),
    /// The graph has more transitions than the sets of the design.
    ManyTransitions,
    /// A fault of binding, and the first part that has it.
    Bind(BindFault, Option<Misfit>),
    /// Memory was refused.
    Memory,
}

impl From<AllocError> for GraphFault {
    ghost use Rattle.std.specs.Prelude.{◌≡◌};
    ghost use Rattle.sdl_graph_binding.specs.declared.faults.GraphFault.TheVariants.{Memory};

    ghost from_gives = { λ _ e. e ≡ Memory };

    fn from(_error: AllocError) -> GraphFault {
        GraphFault::Memory
    }
}

impl<T: Drop> From<AllocFailed<T>> for GraphFault {
    ghost use Rattle.std.specs.Prelude.{◌≡◌};
    ghost use Rattle.sdl_graph_binding.specs.declared.faults.GraphFault.TheVariants.{Memory};

    ghost from_gives = { λ _ e. e ≡ Memory };

    fn from(_failed: AllocFailed<T>) -> GraphFault {
        GraphFault::Memory
    }
}
