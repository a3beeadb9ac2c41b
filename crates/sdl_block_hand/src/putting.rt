//! Putting out what is in hand.
ghost use Rattle.std.specs.Prelude.{◌≡◌, ◌≢◌, ◌<◌, ◌≤◌, ◌∷◌, [], Some, length, IfErr, MatchResult};
ghost use Rattle.sdl_signal.specs.declared.values.Item.{Item};
ghost use Rattle.sdl_routes.specs.declared.route.Station.{Station};
ghost use Rattle.sdl_forward.specs.Queues.{nothing, one_at};
ghost use Rattle.sdl_block_hand.specs.Work.{first_station};
ghost use Rattle.sdl_block_hand.specs.Puts.{AreRouted};
ghost use Rattle.sdl_block_hand.specs.PutsBy.{CanPutOut, PutsOutBy};

use crate::hand::{Hand, Refused};
use sdl_forward::queues::Queues;
use sdl_routes::Routes;

impl Hand {
    /// Puts the outgoing items, from the front, each at the first station of its route, and says whether there was one.
    /// A refusal leaves that item and those behind it in hand.
    #[inline(always)]
    pub fn put_out<H, Q: Queues<H>>(
        &mut self,
        rt: &H,
        routes: &Routes,
        queues: &mut Q,
    ) -> Result<bool, Refused>
        requires routed { AreRouted routes.now self.old.outgoing.items }
        requires ways { CanPutOut Q.relations routes.now queues.old self.old.outgoing.items }
        ensures put { PutsOutBy Q.relations routes.now self.old.outgoing.items queues.old result self.new.outgoing.items queues.new }
        ensures refused { IfErr result (λ _. self.new.outgoing.items ≢ []) }
        ensures kept { self.new.kept ≡ self.old.kept }
        ensures routed { AreRouted routes.now self.new.outgoing.items }
    {
        let some = !self.outgoing.as_slice().is_empty();
        while !self.outgoing.as_slice().is_empty() {
            self.put_front(rt, routes, queues)?;
        }
        Ok(some)
    }

    /// Puts the front one of the outgoing items at the first station of its route. A refusal puts nothing.
    #[inline(always)]
    fn put_front<H, Q: Queues<H>>(
        &mut self,
        rt: &H,
        routes: &Routes,
        queues: &mut Q,
    ) -> Result<(), Refused>
        requires some { 0 < length self.old.outgoing.items }
        requires few { length self.old.outgoing.items ≤ 8 }
        requires routed { AreRouted routes.now self.old.outgoing.items }
        requires ways { CanPutOut Q.relations routes.now queues.old self.old.outgoing.items }
        ensures put { MatchResult result
            (λ _. (i : Item) × (s : Station) × (self.old.outgoing.items ≡ i ∷ self.new.outgoing.items) × (first_station routes.now i ≡ Some s) × Q.relations.Puts (one_at s i) queues.old queues.new)
            (λ _. (self.new.outgoing.items ≡ self.old.outgoing.items) × Q.relations.Puts nothing queues.old queues.new) }
        ensures kept { self.new.kept ≡ self.old.kept }
    {
        let item = self.outgoing.remove(0);
        let Some(station) = routes.next(item.route, None) else {
            unreachable!()
        };
        let mut slot = Some(item);
        queues.put_from(rt, station, &mut slot);
        match slot {
            None => Ok(()),
            Some(item) => {
                self.outgoing.insert(0, item);
                Err(Refused)
            }
        }
    }
}
