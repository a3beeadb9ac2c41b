//! The workers of a system, each with its ends, and all of them at once.
ghost use Rattle.std.specs.Prelude.{◌≡◌, ◌≤◌, ◌<◌, ◌^◌, [], ◌∷◌, map, vec_len, vec_capacity};
ghost use Rattle.std.specs.List.{All, AllZip};
ghost use Rattle.sdl_routes.specs.Routes.{EachOnce};
ghost use Rattle.sdl_forward_ends.specs.Marks.{mark};
ghost use Rattle.sdl_run_threads.specs.Back.{ComesFrom, HandStaysEmpty};

use crate::driving::Gate;
use crate::kinds::Kind;
use crate::scope::{Team, run_all};
use crate::work::{Returned, Stepped, Work};
use sdl_block::BlockWorker;
use sdl_forward::{Forwarded, Forwarder};
use sdl_forward_ends::{Ends, Marks, mark_of};
use sdl_instances_log::{Event, LogStore};
use sdl_routes::{Routes, Station};
use sdl_structure_parts::Structure;
use sdl_transition::Agents;
use std::sync::Wait;
use std::thread::Threads;

/// A forwarder with its ends.
#[derive(Drop)]
pub struct ForwarderThread {
    pub forwarder: Forwarder,
    pub ends: Ends,
}

impl Work for ForwarderThread {
    ghost use Rattle.std.specs.Prelude.{◌≡◌, None};
    ghost use Rattle.sdl_forward.specs.HandsOn.{IsHandingOn};
    ghost use Rattle.sdl_routes.specs.declared.route.Station.TheVariants.{Line};
    ghost use Rattle.sdl_run_threads.specs.Workers.{IsSameForwarder, IsSameForwarder-refl, IsSameForwarder-trans};

    ghost keeps = { λ s rows w. IsHandingOn rows w.forwarder w.ends };

    ghost same = { IsSameForwarder };

    ghost station = { λ w. Line w.forwarder.hop };

    ghost empty_handed = { λ w. w.forwarder.held ≡ None };

    ghost itself = { IsSameForwarder-refl };

    ghost and_then = { IsSameForwarder-trans };

    fn flush(&mut self) -> bool {
        self.ends.flush()
    }

    fn step<R: Wait>(
        &mut self,
        rt: &R,
        _structure: &Structure,
        routes: &Routes,
        _pick: u32,
        _may_ask: bool,
    ) -> Stepped {
        match self.forwarder.step(rt, routes, &mut self.ends) {
            Forwarded::Moved => Stepped::Did,
            Forwarded::Idle => Stepped::Idle,
            Forwarded::Held => Stepped::Memory,
        }
    }

    fn asks_outside(&self) -> bool {
        false
    }

    fn mark(&self) -> u32 {
        mark_of(Station::Line(self.forwarder.hop()))
    }

    fn touched(&mut self) -> Marks {
        self.ends.touched()
    }

    fn puts(&self) -> u64 {
        self.ends.puts()
    }

    fn is_spent(&self) -> bool {
        false
    }
}

/// A block with its ends, and the number of turns that it may make.
#[derive(Drop)]
pub struct BlockThread<S, K: LogStore = Vec<Event>> {
    pub block: BlockWorker<S, K>,
    pub ends: Ends,
    pub budget: u32,
}

impl<S: Agents, K: LogStore> Work for BlockThread<S, K> {
    ghost use Rattle.std.specs.Prelude.{◌≡◌, None, []};
    ghost use Rattle.sdl_instances.specs.CoreOf.{CanFire};
    ghost use Rattle.sdl_block.specs.Workers.{behaviours_of, worker_of, system_around};
    ghost use Rattle.sdl_block_hand.specs.Apart.{IsPuttingOut};
    ghost use Rattle.sdl_routes.specs.declared.route.Station.TheVariants.{Inlet};
    ghost use Rattle.sdl_run_threads.specs.Workers.{IsSameBlock, IsSameBlock-refl, IsSameBlock-trans};

    ghost keeps = { λ s rows w. CanFire S.may (behaviours_of w.block) × IsPuttingOut S.may (system_around w.block rows) (worker_of w.block) w.ends };

    ghost same = { λ u v. IsSameBlock u v };

    ghost station = { λ w. Inlet (worker_of w.block).core.block };

    ghost empty_handed = { λ w. ((worker_of w.block).kept ≡ None) × ((worker_of w.block).outgoing ≡ []) };

    ghost itself = { λ w. IsSameBlock-refl w };

    ghost and_then = { λ u v w p q. IsSameBlock-trans u v w p q };

    fn flush(&mut self) -> bool {
        self.ends.flush()
    }

    fn step<R: Wait>(
        &mut self,
        rt: &R,
        _structure: &Structure,
        routes: &Routes,
        pick: u32,
        _may_ask: bool,
    ) -> Stepped {
        self.block.step(rt, routes, &mut self.ends, pick)
    }

    fn asks_outside(&self) -> bool {
        false
    }

    fn mark(&self) -> u32 {
        mark_of(Station::Inlet(self.block.block()))
    }

    fn touched(&mut self) -> Marks {
        self.ends.touched()
    }

    fn puts(&self) -> u64 {
        self.ends.puts()
    }

    fn is_spent(&self) -> bool {
        self.block.made() >= self.budget
    }
}

/// A block or a forwarder, with its ends.
pub type AtWork<S, K> = Kind<BlockThread<S, K>, ForwarderThread>;

/// Lets each block and each forwarder of a system make its steps in a thread of its own. The environment makes its own in this
/// one. All go on until they are told to stop. `run_all` of these workers. No two workers have one mark, so that each is woken by
/// its own, and all come to rest.
pub fn run_workers<
    S: Agents + Send,
    K: LogStore + Send,
    E: Work + Drop,
    G: Gate,
    R: Threads + Wait + Sync,
>(
    rt: &R,
    team: Team<AtWork<S, K>, E>,
    structure: &Structure,
    routes: &Routes,
    gate: &G,
) -> (Vec<Returned<AtWork<S, K>>>, Returned<E>)
    requires few { vec_len team.workers < 2 ^ 31 }
    requires sound { All (⟦<AtWork<S, K> as Work>⟧.keeps structure.now routes.now) team.workers.items }
    requires sound_environment { E.keeps structure.now routes.now team.environment }
    requires empty { team.done.items ≡ [] }
    requires room { vec_len team.workers ≤ vec_capacity team.done }
    requires marks { EachOnce (map mark (E.station team.environment ∷ map (⟦<AtWork<S, K> as Work>⟧.station) team.workers.items)) }
    ensures workers { AllZip (ComesFrom (⟦<AtWork<S, K> as Work>⟧.keeps structure.now routes.now) ⟦<AtWork<S, K> as Work>⟧.same) team.workers.items result.0.items }
    ensures environment { ComesFrom (E.keeps structure.now routes.now) E.same team.environment result.1 }
    ensures hands { AllZip (HandStaysEmpty ⟦<AtWork<S, K> as Work>⟧.empty_handed) team.workers.items result.0.items }
    ensures environment_hand { HandStaysEmpty E.empty_handed team.environment result.1 }
{
    run_all(rt, team, structure, routes, gate)
}
