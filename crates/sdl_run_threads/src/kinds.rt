//! Workers of two kinds in one list.
use crate::work::{Stepped, Work};
use sdl_forward_ends::Marks;
use sdl_routes::Routes;
use sdl_structure_parts::Structure;
use std::sync::Wait;

/// A worker of one kind or the other.
#[derive(Drop)]
pub enum Kind<B, F> {
    /// A block.
    Block(B),
    /// A forwarder.
    Forwarder(F),
}

impl<B: Work, F: Work> Work for Kind<B, F> {
    ghost use Rattle.sdl_run_threads.specs.Kinds.{KeepsOneOf, SameOneOf, SameOneOf-refl, SameOneOf-trans, station_of_one};

    ghost keeps = { λ s r. KeepsOneOf (B.keeps s r) (F.keeps s r) };

    ghost same = { SameOneOf B.same F.same };

    ghost station = { station_of_one B.station F.station };

    ghost empty_handed = { KeepsOneOf B.empty_handed F.empty_handed };

    ghost itself = { SameOneOf-refl B.same F.same B.itself F.itself };

    ghost and_then = { SameOneOf-trans B.same F.same B.and_then F.and_then };

    fn flush(&mut self) -> bool {
        match self {
            Kind::Block(block) => block.flush(),
            Kind::Forwarder(forwarder) => forwarder.flush(),
        }
    }

    fn step<R: Wait>(
        &mut self,
        rt: &R,
        structure: &Structure,
        routes: &Routes,
        pick: u32,
        may_ask: bool,
    ) -> Stepped {
        match self {
            Kind::Block(block) => block.step(rt, structure, routes, pick, may_ask),
            Kind::Forwarder(forwarder) => forwarder.step(rt, structure, routes, pick, may_ask),
        }
    }

    fn asks_outside(&self) -> bool {
        match self {
            Kind::Block(block) => block.asks_outside(),
            Kind::Forwarder(forwarder) => forwarder.asks_outside(),
        }
    }

    fn mark(&self) -> u32 {
        match self {
            Kind::Block(block) => block.mark(),
            Kind::Forwarder(forwarder) => forwarder.mark(),
        }
    }

    fn touched(&mut self) -> Marks {
        match self {
            Kind::Block(block) => block.touched(),
            Kind::Forwarder(forwarder) => forwarder.touched(),
        }
    }

    fn puts(&self) -> u64 {
        match self {
            Kind::Block(block) => block.puts(),
            Kind::Forwarder(forwarder) => forwarder.puts(),
        }
    }

    fn is_spent(&self) -> bool {
        match self {
            Kind::Block(block) => block.is_spent(),
            Kind::Forwarder(forwarder) => forwarder.is_spent(),
        }
    }
}
