//! Why a test could not go on.
use sdl_routes::RouteFault;
use sdl_structure::FileFault;
use sdl_transition::BindFault;
use std::alloc::{AllocError, AllocFailed};

/// Memory was refused, or something is not as the test expects.
#[derive(Debug, Drop)]
pub enum Stop {
    Memory,
    Wrong(&'static str),
}

impl From<AllocError> for Stop {
    fn from(_error: AllocError) -> Stop {
        Stop::Memory
    }
}

impl<T: Drop> From<AllocFailed<T>> for Stop {
    fn from(_failed: AllocFailed<T>) -> Stop {
        Stop::Memory
    }
}

impl From<&'static str> for Stop {
    fn from(what: &'static str) -> Stop {
        Stop::Wrong(what)
    }
}

impl From<FileFault> for Stop {
    fn from(fault: FileFault) -> Stop {
        match fault {
            FileFault::Memory => Stop::Memory,
            _ => Stop::Wrong("not a structure file"),
        }
    }
}

impl From<RouteFault> for Stop {
    fn from(fault: RouteFault) -> Stop {
        match fault {
            RouteFault::Memory => Stop::Memory,
            RouteFault::TooMany => Stop::Wrong("too many routes"),
        }
    }
}

impl From<BindFault> for Stop {
    fn from(fault: BindFault) -> Stop {
        match fault {
            BindFault::Memory => Stop::Memory,
            _ => Stop::Wrong("not bound"),
        }
    }
}
