//! Items put and taken by value, for callers that have no slot.
ghost use Rattle.std.specs.Prelude.{◌≡◌, ◌≢◌, [], ◌∷◌, ◌++◌, None, MatchOption, MatchResult};
ghost use Rattle.sdl_routes.specs.declared.route.Station.{Station};
ghost use Rattle.sdl_forward_ends.specs.Ends.{put_at, taken_by, HasFeed, IsSameEnds};

use crate::Ends;
use sdl_routes::Station;
use sdl_signal::Item;
use std::sync::Wait;

impl Ends {
    /// `take_into`, whose answer is the item. May wait for other threads.
    #[inline(always)]
    pub fn take<R: Wait>(&mut self, rt: &R) -> Option<Item>
        ensures taken { MatchOption result (taken_by self.new ≡ taken_by self.old) (λ item. taken_by self.new ≡ taken_by self.old ++ item ∷ []) }
        ensures feeds { self.new.feeds ≡ self.old.feeds }
        ensures none { self.old.tap ≡ None → result ≡ None }
        ensures same { IsSameEnds self.old self.new }
    {
        let mut slot = None;
        self.take_into(rt, &mut slot);
        slot
    }

    /// `put_from`, of this item. Where memory is refused, it comes back. May wait for other threads.
    #[inline(always)]
    pub fn put<R: Wait>(&mut self, rt: &R, station: Station, item: Item) -> Result<(), Item>
        requires { HasFeed self.old station }
        ensures put { MatchResult result
            (λ _. put_at self.new station ≡ put_at self.old station ++ item ∷ [])
            (λ back. (back ≡ item) × (put_at self.new station ≡ put_at self.old station)) }
        ensures others { (s : Station) → s ≢ station → put_at self.new s ≡ put_at self.old s }
        ensures tap { self.new.tap ≡ self.old.tap }
        ensures same { IsSameEnds self.old self.new }
    {
        let mut slot = Some(item);
        self.put_from(rt, station, &mut slot);
        match slot {
            None => Ok(()),
            Some(back) => Err(back),
        }
    }
}
