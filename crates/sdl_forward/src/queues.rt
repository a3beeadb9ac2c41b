//! The queues that a worker works at: a board, or ends of its own.
ghost use Rattle.std.specs.Prelude.{◌≡◌, ◌≢◌, [], ◌∷◌, Some, None, MatchOption, IfSome};
ghost use Rattle.sdl_forward.specs.Queues.{Relations, Fills, nothing, one_at};
ghost use Rattle.sdl_forward.specs.OnBoard.{on_board};
ghost use Rattle.sdl_forward.specs.ByEnds.{by_ends};

use crate::Board;
use sdl_forward_ends::Ends;
use sdl_routes::Station;
use sdl_signal::Item;
use std::sync::Wait;

/// The queues that a worker works at. `H` is what each call is passed beside: nothing at a board, which is of one thread, and a
/// handle that may wait at a worker's own ends.
pub trait Queues<H> {
    ghost use Rattle.sdl_forward.specs.Queues.{Relations};

    /// What puts and takes do to these queues.
    ghost relations: { Relations Self };

    /// Puts the item of the slot at the station, and leaves the slot empty. Where memory is refused, the item stays there.
    fn put_from(&mut self, rt: &H, station: Station, slot: &mut Option<Item>)
        requires can { relations.CanPut self.old station }
        requires some { slot.old ≢ None }
        ensures { MatchOption slot.new
            (IfSome slot.old (λ item. relations.Puts (one_at station item) self.old self.new))
            (λ back. (slot.old ≡ Some back) × relations.Puts nothing self.old self.new) };

    /// Takes an item of the station, which is the worker's own, into the slot, which is empty. It stays empty where none is found.
    fn take_into(&mut self, rt: &H, own: Station, slot: &mut Option<Item>)
        requires { slot.old ≡ None }
        ensures { MatchOption slot.new
            (relations.Still self.old self.new × relations.Empty self.old own)
            (λ item. relations.Moves own nothing (item ∷ []) self.old self.new) };
}

/// Takes an item of the station, which is the worker's own, into the slot, where that is empty.
#[inline(always)]
pub fn fill<H, Q: Queues<H>>(rt: &H, queues: &mut Q, own: Station, slot: &mut Option<Item>)
    ensures { MatchOption slot.new
        ((slot.old ≡ None) × Q.relations.Still queues.old queues.new × Q.relations.Empty queues.old own)
        (λ item. Fills Q.relations own slot.old queues.old item queues.new) }
{
    if slot.is_none() {
        queues.take_into(rt, own, slot);
    }
}

impl Queues<()> for Board {
    ghost relations = { on_board };

    #[inline(always)]
    fn put_from(&mut self, _rt: &(), station: Station, slot: &mut Option<Item>) {
        Board::put_from(self, station, slot)
    }

    #[inline(always)]
    fn take_into(&mut self, _rt: &(), own: Station, slot: &mut Option<Item>) {
        *slot = self.take(own);
    }
}

impl<R: Wait> Queues<R> for Ends {
    ghost relations = { by_ends };

    #[inline(always)]
    fn put_from(&mut self, rt: &R, station: Station, slot: &mut Option<Item>) {
        Ends::put_from(self, rt, station, slot)
    }

    #[inline(always)]
    fn take_into(&mut self, rt: &R, _own: Station, slot: &mut Option<Item>) {
        Ends::take_into(self, rt, slot)
    }
}
