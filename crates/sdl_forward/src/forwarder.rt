//! Forwarders: each takes the items of one delaying path and puts each at the next station of its route.
ghost use Rattle.std.specs.Prelude.{◌≡◌, None, MatchOption, option_copied};
ghost use Rattle.sdl_routes.specs.declared.route.Station.TheVariants.{Line};
ghost use Rattle.sdl_routes.specs.Table.{IsTable};
ghost use Rattle.sdl_forward_ends.specs.Ends.{IsSameEnds};
ghost use Rattle.sdl_forward.specs.Boards.{IsBoardOf};
ghost use Rattle.sdl_forward.specs.Carries.{Carries, HasWaysOn};
ghost use Rattle.sdl_forward.specs.Forwards.{Forwards, next_station};
ghost use Rattle.sdl_forward.specs.Queues.{Fills};
ghost use Rattle.sdl_forward.specs.StepsBy.{StepsBy, CanPutOn};

use crate::Board;
use crate::queues::Queues;
use sdl_forward_ends::Ends;
use sdl_routes::{Hop, Routes, Station};
use sdl_signal::Item;
use std::marker::Model;
use std::sync::Wait;

/// What a step of a forwarder did.
#[derive(Clone, Copy, Debug, PartialEq, Eq)]
pub enum Forwarded {
    /// An item was put at its next station.
    Moved,
    /// There was no item.
    Idle,
    /// An item could not be put and is held: memory was refused, or the item has no next station.
    Held,
}

/// The forwarder of a delaying path, with the item that it took and could not put.
#[derive(Drop)]
pub struct Forwarder {
    hop: Hop,
    held: Option<Item>,
}

impl Model for Forwarder {
    ghost use Rattle.sdl_forward.specs.Forwards.{Forwarding};

    ghost Value = { Forwarding };

    ghost view = { λ f. record { hop = f.hop; held = f.held } };
}

impl Forwarder {
    /// The forwarder of this path. It holds nothing.
    pub fn new(hop: Hop) -> Forwarder
        ensures { result ≡ record { hop = hop; held = None } }
    {
        Forwarder { hop, held: None }
    }

    /// The delaying path that it takes items from.
    pub fn hop(&self) -> Hop
        ensures { result ≡ self.now.hop }
    {
        self.hop
    }

    /// The item that it holds.
    pub fn held(&self) -> Option<&Item>
        ensures { option_copied result ≡ self.now.held }
    {
        self.held.as_ref()
    }

    /// The station after its path on the item's route.
    #[inline(always)]
    fn next(&self, routes: &Routes, item: &Item) -> Option<Station>
        ensures next { next_station routes.now (Line self.now.hop) item.now ≡ result }
        ensures table { IsTable routes.now }
    {
        routes.next(item.route, Some(Station::Line(self.hop)))
    }

    /// The item that it holds. No memory is taken.
    pub fn into_held(self) -> Option<Item>
        ensures { result ≡ self.held }
    {
        self.held
    }

    /// Puts the item that it holds, or else the front of its path, at the next station of the item's route. It is `Held` where
    /// memory was refused for that, and where there is no next station; then the item stays held.
    #[inline(always)]
    pub fn step_serial(&mut self, routes: &Routes, board: &mut Board) -> Forwarded
        requires { IsBoardOf routes.now board.old }
        ensures step { Forwards routes.now self.old board.old result self.new board.new }
        ensures board { IsBoardOf routes.now board.new }
    {
        self.step_over(&(), routes, board)
    }

    /// The same step through the forwarder's own ends. May wait for other threads.
    pub fn step<R: Wait>(&mut self, rt: &R, routes: &Routes, ends: &mut Ends) -> Forwarded
        requires { HasWaysOn routes.now self.old.hop ends.old }
        ensures step { Carries routes.now self.old ends.old result self.new ends.new }
        ensures ends { IsSameEnds ends.old ends.new }
    {
        self.step_over(rt, routes, ends)
    }

    /// A step, over any queues.
    #[inline(always)]
    fn step_over<H, Q: Queues<H>>(&mut self, rt: &H, routes: &Routes, queues: &mut Q) -> Forwarded
        requires { CanPutOn Q.relations routes.now self.old.hop queues.old }
        ensures { StepsBy Q.relations routes.now self.old queues.old result self.new queues.new }
    {
        let mut slot = None;
        self.take_into(rt, queues, &mut slot);
        let Some(item) = &slot else {
            return Forwarded::Idle;
        };
        let Some(next) = self.next(routes, item) else {
            self.held = slot;
            return Forwarded::Held;
        };
        queues.put_from(rt, next, &mut slot);
        if slot.is_some() {
            self.held = slot;
            return Forwarded::Held;
        }
        Forwarded::Moved
    }

    /// Takes the item that it holds, or else one of its path, into the slot, which is empty. So an item that can be put at once is not
    /// copied into the forwarder and out again.
    #[inline(always)]
    fn take_into<H, Q: Queues<H>>(&mut self, rt: &H, queues: &mut Q, slot: &mut Option<Item>)
        requires { slot.old ≡ None }
        ensures taken { MatchOption slot.new
            ((self.old.held ≡ None) × Q.relations.Still queues.old queues.new × Q.relations.Empty queues.old (Line self.old.hop))
            (λ item. Fills Q.relations (Line self.old.hop) self.old.held queues.old item queues.new) }
        ensures emptied { self.new ≡ record { hop = self.old.hop; held = None } }
    {
        if self.held.is_some() {
            *slot = self.held.take();
            return;
        }
        queues.take_into(rt, Station::Line(self.hop), slot);
    }
}
