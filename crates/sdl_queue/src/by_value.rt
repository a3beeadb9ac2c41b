//! Items put and taken by value, for callers that have no slot.
ghost use Rattle.std.specs.Prelude.{◌≡◌, [], ◌∷◌, ◌++◌, MatchResult, MatchOption};
ghost use Rattle.sdl_queue.specs.declared.rule.Tagged.{Tagged};
ghost use Rattle.sdl_queue.specs.Ends.{IsSameFeed, IsSameTap};

use crate::{Feed, Tap};
use sdl_signal::Item;
use std::sync::Wait;

impl Feed {
    /// `put_from`, of this item. Where memory is refused, it comes back. May wait for other threads.
    pub fn put<R: Wait>(&mut self, rt: &R, item: Item) -> Result<(), Item>
        ensures same { IsSameFeed self.old self.new }
        ensures put { MatchResult result (λ _. self.new.put ≡ self.old.put ++ item ∷ []) (λ back. (back ≡ item) × (self.new.put ≡ self.old.put)) }
    {
        let mut slot = Some(item);
        self.put_from(rt, &mut slot);
        match slot {
            None => Ok(()),
            Some(back) => Err(back),
        }
    }
}

impl Tap {
    /// `take_into`, whose answer is the item. May wait for other threads.
    pub fn take<R: Wait>(&mut self, rt: &R) -> Option<Item>
        ensures same { IsSameTap self.old self.new }
        ensures taken { MatchOption result (self.new.taken ≡ self.old.taken) (λ x. (t : Tagged) × (t.item ≡ x) × (self.new.taken ≡ self.old.taken ++ t ∷ [])) }
    {
        let mut slot = None;
        self.take_into(rt, &mut slot);
        slot
    }
}
