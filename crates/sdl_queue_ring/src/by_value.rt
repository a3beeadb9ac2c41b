//! Items put and taken by value, for callers that have no slot.
ghost use Rattle.std.specs.Prelude.{◌≡◌, [], ◌∷◌, ◌++◌, MatchResult, MatchOption};
ghost use Rattle.sdl_queue_ring.specs.RingEnds.{WaitsForRoom, IsNextBacklog};

use crate::{RingFeed, RingTap};
use sdl_signal::Item;
use std::alloc::AllocError;

impl RingFeed {
    /// `put_from`, of this item. Where memory is refused, it comes back.
    #[inline(always)]
    pub fn put(&mut self, item: Item) -> Result<(), (Item, AllocError)>
        ensures same { self.new.opening ≡ self.old.opening }
        ensures put { MatchResult result (λ _. self.new.put ≡ self.old.put ++ item ∷ []) (λ back. (back.0 ≡ item) × (self.new.put ≡ self.old.put)) }
        ensures backlog { MatchResult result (λ _. IsNextBacklog self.old.backlog item self.new.backlog) (λ _. self.new.backlog ≡ self.old.backlog) }
        ensures full { WaitsForRoom self.new.backlog self.new.room }
    {
        let mut slot = Some(item);
        self.put_from(&mut slot);
        match slot {
            None => Ok(()),
            Some(back) => Err((back, AllocError)),
        }
    }
}

impl RingTap {
    /// `take_into`, whose answer is the item.
    #[inline(always)]
    pub fn take(&mut self) -> Option<Item>
        ensures same { self.new.opening ≡ self.old.opening }
        ensures taken { MatchOption result ((self.new.taken ≡ self.old.taken) × (self.new.seen ≡ [])) (λ item. self.new.taken ≡ self.old.taken ++ item ∷ []) }
    {
        let mut slot = None;
        self.take_into(&mut slot);
        slot
    }
}
