//! What is left of a queue, of any kind.
ghost use Rattle.std.specs.Prelude.{◌≡◌, length};
ghost use Rattle.sdl_queue.specs.Rest.{left_in};

use crate::{Rejoined, RingRejoined, SerialQueue};

/// A queue at rest.
#[derive(Drop)]
pub enum Rest {
    /// A queue of one thread.
    Serial(SerialQueue),
    /// A queue whose ends have all come back.
    Ruled(Rejoined),
    /// A ring both of whose ends have come back.
    Ring(RingRejoined),
}

impl Rest {
    /// How many items are left.
    pub fn len(&self) -> usize
        ensures { result ≡ length (left_in self.now) }
    {
        match self {
            Rest::Serial(queue) => queue.len(),
            Rest::Ruled(rejoined) => rejoined.len(),
            Rest::Ring(rejoined) => rejoined.len(),
        }
    }
}
