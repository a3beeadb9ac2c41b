//! An item put by value, for callers that have no slot.
ghost use Rattle.std.specs.Prelude.{◌≡◌, [], ◌∷◌, ◌++◌, Contains, MatchResult};
ghost use Rattle.sdl_forward.specs.Boards.{stations_of, waiting, ChangesOnly};

use crate::Board;
use sdl_routes::Station;
use sdl_signal::Item;
use std::alloc::AllocError;

impl Board {
    /// `put_from`, of this item. Where memory is refused, it comes back.
    pub fn put(&mut self, station: Station, item: Item) -> Result<(), (Item, AllocError)>
        requires { Contains (stations_of self.old) station }
        ensures put { MatchResult result
            (λ _. waiting self.new station ≡ waiting self.old station ++ item ∷ [])
            (λ back. (back.0 ≡ item) × (self.new ≡ self.old)) }
        ensures others { ChangesOnly self.old self.new station }
    {
        let mut slot = Some(item);
        self.put_from(station, &mut slot);
        match slot {
            None => Ok(()),
            Some(back) => Err((back, AllocError)),
        }
    }
}
