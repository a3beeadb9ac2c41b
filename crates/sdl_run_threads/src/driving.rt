//! One worker's loop.
ghost use Rattle.std.specs.Prelude.{◌≡◌, false};

use crate::pace::Pace;
use crate::told::Told;
use crate::work::{Stepped, Work};
use sdl_routes::Routes;
use sdl_structure_parts::Structure;
use std::sync::Wait;

/// Called once before each step of each worker in a thread. Steps are counted from 0, and the count stays at `u64::MAX` once it is
/// there. Where the environment waits for the others before it reads, its next step was announced before: the step is made when
/// something comes to it, or when it reads. It is for tests, which hold a step back until another was made.
pub trait Gate: Sync {
    /// The worker of this number is about to make the step of this number.
    fn before(&self, worker: u32, step: u64);
}

/// The gate that lets each step through at once.
#[derive(Clone, Copy)]
pub struct OpenGate;

impl Gate for OpenGate {
    fn before(&self, _worker: u32, _step: u64) {}
}

/// Lets the worker of this number make steps until all are told to stop, and at least one. It says whether memory was refused to
/// the last. All are told to stop where it is, and where the worker has made as many turns as it may. It is never put inline: the
/// recursion that starts the threads would take its stack for each of them.
#[inline(never)]
pub(crate) fn drive<W: Work, G: Gate, R: Wait>(
    rt: &R,
    worker: &mut W,
    number: u32,
    structure: &Structure,
    routes: &Routes,
    gate: &G,
    told: &Told,
) -> bool
    requires { W.keeps structure.now routes.now worker.old }
    ensures keeps { W.keeps structure.now routes.now worker.new }
    ensures same { W.same worker.old worker.new }
    ensures hand { result ≡ false → W.empty_handed worker.old → W.empty_handed worker.new }
{
    let mut pace = Pace::new(worker.mark());
    let mut step = 0u64;
    let mut is_announced = false;
    for _ in rt.forever() {
        let flushed = worker.flush();
        let asks = worker.asks_outside();
        if asks {
            pace.puts(worker.touched(), worker.puts());
        }
        let may_ask = !asks || (flushed && pace.may_ask(told));
        if !is_announced {
            gate.before(number, step);
            is_announced = true;
        }
        // (after the greatest pick the least one comes again: which picks there are is open)
        let pick = (step % 4_294_967_296) as u32;
        let stepped = worker.step(rt, structure, routes, pick, may_ask);
        if may_ask || !flushed || stepped != Stepped::Idle {
            step = step.saturating_add(1);
            is_announced = false;
        }
        match stepped {
            Stepped::Did => if pace.stirs(told) {
                pace.puts(worker.touched(), worker.puts());
                pace.looks_round(rt, told);
            }
            Stepped::Idle => {
                pace.puts(worker.touched(), worker.puts());
                pace.pauses(rt, told, flushed, asks);
            }
            Stepped::Memory => {
                told.words.stop();
                return true;
            }
        }
        if worker.is_spent() {
            told.words.stop();
        }
        if told.words.is_stopped() {
            return false;
        }
    }
    false
}
