//! What a worker has in hand, and what its step answers.
ghost use Rattle.std.specs.Prelude.{◌≡◌};
ghost use Rattle.sdl_block_hand.specs.Puts as puts;

use arrayvec::ArrayVec;
use sdl_signal::Item;

/// What a block has in hand between two steps.
#[derive(Debug, Drop)]
pub struct Hand {
    /// The item that was taken from the inlet and could not arrive: memory was refused, or it may not arrive here.
    pub kept: Option<Item>,
    /// Those of the last turn's items that are yet to be put at the first stations of their routes, in order.
    pub outgoing: ArrayVec<Item, 8>,
}

/// What a step of a block did.
#[derive(Clone, Copy, Debug, PartialEq, Eq)]
pub enum Stepped {
    /// It put an item, or an event happened.
    Did,
    /// Nothing could be done: nothing is in hand, and the budget is used, or the inlet is empty and no instance is ready.
    Idle,
    /// Memory was refused, or an item may not arrive. What was not carried out is in hand, and the next step goes on there.
    Memory,
}

/// The end of a step: memory was refused, or an item may not arrive.
#[derive(Clone, Copy, Debug, PartialEq, Eq)]
pub struct Refused;

/// What a step answers that did something or not, or was refused.
pub fn answer_of(tried: Result<bool, Refused>) -> Stepped
    ensures { result ≡ puts.answer_of tried }
{
    match tried {
        Ok(true) => Stepped::Did,
        Ok(false) => Stepped::Idle,
        Err(Refused) => Stepped::Memory,
    }
}
