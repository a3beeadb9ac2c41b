//! The environment at work on the thread that starts the others.
ghost use Rattle.std.specs.Prelude.{◌≡◌};
ghost use Rattle.std.specs.Io.KnownBytes.{Keeps};

use sdl_block_hand::Stepped;
use sdl_forward_ends::{Ends, Marks, mark_of};
use sdl_routes::{Routes, Station};
use sdl_run_environment::{EnvApart, RoutedStructure};
use sdl_run_threads::Work;
use sdl_structure_parts::Structure;
use std::io::{Read, Write};
use std::snapshot::Snapshot;
use std::sync::Wait;

/// The environment with its ends, what it reads from, and what it writes to.
#[derive(Drop)]
pub struct EnvironmentThread<'e, 'i, 'o, I, O> {
    /// Lent, since the recursion over the workers hands this on for each of them.
    pub environment: &'e mut EnvApart,
    pub ends: Ends,
    pub input: &'i mut I,
    pub output: &'o mut O,
    /// The input as it was when the run started, for contracts alone.
    pub started_input: Snapshot<I>,
    /// The output as it was when the run started, for contracts alone.
    pub started_output: Snapshot<O>,
    /// How many steps in a row found nothing to take, as the reader might not be asked yet.
    pub idle_steps: u32,
}

/// At which of such steps the output is flushed: what came before goes out while the others are at work, and not once for each
/// signal where the next one comes at once.
const FLUSHED_AT: u32 = 4;

impl<'e, 'i, 'o, I: Read, O: Write> EnvironmentThread<'e, 'i, 'o, I, O> {
    /// A step that asks no reader took an item or found none. Where several in a row found none, the output is flushed. A fault of
    /// the writer is told by whoever writes next.
    fn lets_out(&mut self, received: Stepped)
        ensures environment { self.new.environment ≡ self.old.environment }
        ensures ends { self.new.ends ≡ self.old.ends }
        ensures input { self.new.input ≡ self.old.input }
        ensures started { (self.new.started_input ≡ self.old.started_input) × (self.new.started_output ≡ self.old.started_output) }
        ensures name { self.new.output.ghost_name ≡ self.old.output.ghost_name }
        ensures output { Keeps (O.contents self.old.output.now) (O.contents self.new.output.now) }
    {
        if received != Stepped::Idle {
            self.idle_steps = 0;
            return;
        }
        self.idle_steps = self.idle_steps.saturating_add(1);
        if self.idle_steps == FLUSHED_AT {
            let _ = self.output.flush();
        }
    }
}

impl<'e, 'i, 'o, I: Read, O: Write> Work for EnvironmentThread<'e, 'i, 'o, I, O> {
    ghost use Rattle.std.specs.Prelude.{◌≡◌, [], None, refl};
    ghost use Rattle.std.proofs.Common.{◌∙◌};
    ghost use Rattle.sdl_run.specs.Environment.{KeepsEnvironment};
    ghost use Rattle.sdl_forward_ends.specs.Ends.{IsSameEnds};
    ghost use Rattle.sdl_routes.specs.declared.route.Station.TheVariants.{Outlet};

    ghost keeps = { λ s rows w. KeepsEnvironment s rows w.environment.now.worker w.environment.now.astray w.ends (I.remaining w.started_input.value) (I.remaining w.input.now) (O.contents w.started_output.value) (O.contents w.output.now) };

    // the references are the ones given, and the ends are the same
    ghost same = { λ u v. (v.environment.ghost_name ≡ u.environment.ghost_name) × (v.input.ghost_name ≡ u.input.ghost_name) × (v.output.ghost_name ≡ u.output.ghost_name) × (v.started_input ≡ u.started_input) × (v.started_output ≡ u.started_output) × IsSameEnds u.ends v.ends };

    ghost station = { λ w. Outlet };

    ghost empty_handed = { λ w. (w.environment.now.worker.outgoing ≡ []) × (w.environment.now.astray ≡ None) };

    ghost itself = { λ w. (refl, refl, refl, refl, refl, record { feeds = refl; tap = refl }) };

    ghost and_then = { λ u v w p q. (q.0 ∙ p.0, q.1 ∙ p.1, q.2 ∙ p.2, q.3 ∙ p.3, q.4 ∙ p.4, record { feeds = q.5.feeds ∙ p.5.feeds; tap = q.5.tap ∙ p.5.tap }) };

    fn flush(&mut self) -> bool {
        self.ends.flush()
    }

    fn step<R: Wait>(
        &mut self,
        rt: &R,
        structure: &Structure,
        routes: &Routes,
        pick: u32,
        may_ask: bool,
    ) -> Stepped {
        let routed = RoutedStructure { structure, routes };
        if self.environment.is_ready() {
            self.idle_steps = 0;
            return self
                .environment
                .step(rt, routed, &mut self.ends, pick, self.input, self.output);
        }
        let received = self
            .environment
            .receive(rt, structure, routes, &mut self.ends, self.output);
        if !may_ask || received != Stepped::Idle {
            self.lets_out(received);
            return received;
        }
        self.idle_steps = 0;
        self.environment
            .step(rt, routed, &mut self.ends, pick, self.input, self.output)
    }

    fn asks_outside(&self) -> bool {
        !self.environment.is_ready()
    }

    fn mark(&self) -> u32 {
        mark_of(Station::Outlet)
    }

    fn touched(&mut self) -> Marks {
        self.ends.touched()
    }

    fn puts(&self) -> u64 {
        self.ends.puts()
    }

    fn is_spent(&self) -> bool {
        false
    }
}
