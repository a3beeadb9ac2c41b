//! Why a listing is not run.
use sdl_transition::BindFault;
use std::alloc::{AllocError, AllocFailed};

/// The first fault of a listing against a structure. (This project's own.)
#[derive(Clone, Copy, Debug, PartialEq, Eq)]
pub enum ListingFault {
    /// There are 2 ^ 32 transitions or more.
    ManyTransitions,
    /// The transition of the number stands at the place of a row, and is for no state or for no signal.
    NoTrigger(u32),
    /// A fault of binding.
    Bind(BindFault),
    /// Memory was refused.
    Memory,
}

impl From<AllocError> for ListingFault {
    ghost use Rattle.std.specs.Prelude.{◌≡◌};
    ghost use Rattle.sdl_listing_binding.specs.declared.faults.ListingFault.TheVariants.{Memory};

    ghost from_gives = { λ _ e. e ≡ Memory };

    fn from(_error: AllocError) -> ListingFault {
        ListingFault::Memory
    }
}

impl<T: Drop> From<AllocFailed<T>> for ListingFault {
    ghost use Rattle.std.specs.Prelude.{◌≡◌};
    ghost use Rattle.sdl_listing_binding.specs.declared.faults.ListingFault.TheVariants.{Memory};

    ghost from_gives = { λ _ e. e ≡ Memory };

    fn from(_failed: AllocFailed<T>) -> ListingFault {
        ListingFault::Memory
    }
}
