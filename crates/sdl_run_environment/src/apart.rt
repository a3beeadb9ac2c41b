//! The environment's step where each queue has ends of its own.
ghost use Rattle.std.specs.Prelude.{◌≡◌, ◌≢◌, ◌≤◌, ℕ, List, length, [], true, false, Option, Some, None, IfOk};
ghost use Rattle.sdl_signal.specs.declared.values.Item.{Item};
ghost use Rattle.sdl_signal_lines.specs.Bytes.{HasNoNewline};
ghost use Rattle.sdl_signal_lines.specs.Source.{HoldsLine};
ghost use Rattle.sdl_signal_lines.specs.declared.sources.Ended.{Ended};
ghost use Rattle.sdl_signal.specs.declared.ends.InputEnd.{InputEnd};
ghost use Rattle.sdl_structure_parts.specs.Structure.{IsStructure};
ghost use Rattle.sdl_routes.specs.Routes.{AreRoutesOf};
ghost use Rattle.sdl_forward_ends.specs.Ends.{IsSameEnds};
ghost use Rattle.sdl_block_hand.specs.declared.hand.Stepped.TheVariants.{Memory};
ghost use Rattle.sdl_run_outcome.specs.EnvironmentWork.{IsEnvSound, HasReadSoFar, HasWrittenSoFar};
ghost use Rattle.sdl_run_environment.specs.EnvSteps.{ReadsNext};
ghost use Rattle.sdl_run_environment.specs.EnvPicks.{ReadsAt};
ghost use Rattle.sdl_run_environment.specs.EnvApart.{EnvStepsApart, IsEnvPuttingOut, HasGateWays, FoundRoom, TakesNextApart};
ghost use Rattle.sdl_run_environment.specs.EnvSends.{SentOn};
ghost use Rattle.sdl_run_environment.specs.EnvPhasesApart.{ReceivesApart, TakesOne, EnvStepsToApart};

use crate::environment::EnvWorker;
use crate::leaving::may_leave;
use crate::routed::RoutedStructure;
use crate::writing::write;
use sdl_block_hand::{Refused, Stepped, answer_of};
use sdl_forward_ends::Ends;
use sdl_routes::Routes;
use sdl_signal::Item;
use sdl_structure_parts::Structure;
use std::io::{Read, Write};
use std::snapshot::Snapshot;
use std::sync::Wait;

/// The environment's worker where each queue has ends of its own, and the item that is astray: it was taken, and may not leave
/// through the outlet.
#[derive(Drop)]
pub struct EnvApart {
    pub worker: EnvWorker,
    pub astray: Option<Item>,
    /// What was received, as it stood when there was room for one item more last; for contracts alone.
    pub room: Snapshot<Vec<Item>>,
}

impl EnvApart {
    /// The worker, with nothing astray.
    pub fn new(worker: EnvWorker) -> EnvApart
        ensures worker { result.worker ≡ worker }
        ensures astray { result.astray ≡ None }
    {
        let room = Snapshot::of(&worker.received);
        EnvApart {
            worker,
            astray: None,
            room,
        }
    }

    /// The worker, and what is astray.
    pub fn into_parts(self) -> (EnvWorker, Option<Item>)
        ensures worker { result.0 ≡ self.worker }
        ensures astray { result.1 ≡ self.astray }
    {
        (self.worker, self.astray)
    }

    /// A step through the environment's own ends. It puts out what is in hand. Unless its reading has ended, it reads one line
    /// and outputs its signal, with the line's gate as the source. It then takes one item and writes its line, unless a write
    /// failed before. An item that may not leave is astray, and from then on nothing is done. A refusal ends the step, and the
    /// next one goes on there. `pick` chooses among the routes. May wait for other threads.
    pub fn step<T: Wait, R: Read, W: Write>(
        &mut self,
        rt: &T,
        routed: RoutedStructure<'_>,
        ends: &mut Ends,
        pick: u32,
        input: &mut R,
        output: &mut W,
    ) -> Stepped
        requires structure { IsStructure routed.structure.now }
        requires routes { AreRoutesOf routed.structure.now routed.routes.now }
        requires keeps { IsEnvPuttingOut routed.structure.now routed.routes.now self.old.worker.number self.old.worker self.old.astray ends.old }
        ensures step { EnvStepsApart routed.entry.structure.now routed.entry.routes.now self.old.worker.number self.old.worker self.old.astray ends.old result self.new.worker self.new.astray ends.new }
        ensures pick { ReadsAt routed.entry.routes.now pick self.old.worker self.new.worker }
        // What it does where nothing is astray and no refusal ends it, and where an item is astray.
        ensures hand { result ≢ Memory → self.new.worker.outgoing ≡ [] }
        ensures read { result ≢ Memory → ReadsNext self.old.worker self.new.worker }
        ensures none { result ≢ Memory → self.new.astray ≡ None }
        ensures taken { result ≢ Memory → TakesNextApart self.old.worker ends.old self.new.room.value self.new.worker ends.new }
        ensures astray { (i : Item) → self.old.astray ≡ Some i → (result ≡ Memory) × (self.new ≡ self.old) × (ends.new ≡ ends.old) }
        ensures reading { (start : Option (List ℕ)) → HasReadSoFar routed.entry.structure.now routed.entry.routes.now self.old.worker.number start (R.remaining input.old) self.old.worker
            → HasReadSoFar routed.entry.structure.now routed.entry.routes.now self.old.worker.number start (R.remaining input.new) self.new.worker }
        ensures writing { (start : Option (List ℕ)) → HasWrittenSoFar routed.entry.structure.now routed.entry.routes.now self.old.worker.number start (W.contents output.old) self.old.worker
            → HasWrittenSoFar routed.entry.structure.now routed.entry.routes.now self.old.worker.number start (W.contents output.new) self.new.worker }
        ensures keeps { IsEnvPuttingOut routed.entry.structure.now routed.entry.routes.now self.new.worker.number self.new.worker self.new.astray ends.new }
        ensures number { self.new.worker.number ≡ self.old.worker.number }
        // Where the reading has ended, where its next answer is told already, and where an item is astray, the reader is not asked.
        ensures ended { (e : InputEnd) → self.old.worker.ended ≡ Some e → input.new ≡ input.old }
        ensures past { (e : Ended) → self.old.worker.reading.source.ended ≡ Some e → input.new ≡ input.old }
        ensures unread { self.old.worker.reading.source.ended ≡ None → HoldsLine self.old.worker.reading.source.ahead → input.new ≡ input.old }
        ensures untouched { (i : Item) → self.old.astray ≡ Some i → (input.new ≡ input.old) × (output.new ≡ output.old) }
        ensures ends { IsSameEnds ends.old ends.new }
    {
        if self.astray.is_some() {
            return Stepped::Memory;
        }
        answer_of(self.try_step(rt, routed, ends, pick, input, output))
    }

    /// Whether a step waits for no reader: the reading has ended, or a whole line or 321 bytes of one were read ahead.
    pub fn is_ready(&self) -> bool
        ensures ready { result ≡ true → self.now.worker.ended ≡ None → self.now.worker.reading.source.ended ≡ None → HoldsLine self.now.worker.reading.source.ahead }
        ensures asks { result ≡ false → (self.now.worker.ended ≡ None) × (self.now.worker.reading.source.ended ≡ None) × HasNoNewline self.now.worker.reading.source.ahead × (length self.now.worker.reading.source.ahead ≤ 320) }
    {
        self.worker.is_ready()
    }

    /// The part of a step that reads nothing: it takes one item and writes its line. With it, who would wait for the reader can
    /// first let out what came. Where an item is astray it does nothing. May wait for other threads.
    pub fn receive<T: Wait, W: Write>(
        &mut self,
        rt: &T,
        structure: &Structure,
        routes: &Routes,
        ends: &mut Ends,
        output: &mut W,
    ) -> Stepped
        requires structure { IsStructure structure.now }
        requires routes { AreRoutesOf structure.now routes.now }
        requires keeps { IsEnvPuttingOut structure.now routes.now self.old.worker.number self.old.worker self.old.astray ends.old }
        ensures received { self.old.astray ≡ None → TakesOne structure.now routes.now self.old.worker.number self.old.worker ends.old result self.new.worker self.new.astray ends.new }
        ensures taken { result ≢ Memory → TakesNextApart self.old.worker ends.old self.new.room.value self.new.worker ends.new }
        ensures hand { self.new.worker.outgoing ≡ self.old.worker.outgoing }
        ensures astray { (i : Item) → self.old.astray ≡ Some i → (result ≡ Memory) × (self.new ≡ self.old) × (ends.new ≡ ends.old) }
        ensures reading { (start now : Option (List ℕ)) → HasReadSoFar structure.now routes.now self.old.worker.number start now self.old.worker
            → HasReadSoFar structure.now routes.now self.old.worker.number start now self.new.worker }
        ensures writing { (start : Option (List ℕ)) → HasWrittenSoFar structure.now routes.now self.old.worker.number start (W.contents output.old) self.old.worker
            → HasWrittenSoFar structure.now routes.now self.old.worker.number start (W.contents output.new) self.new.worker }
        ensures keeps { IsEnvPuttingOut structure.now routes.now self.new.worker.number self.new.worker self.new.astray ends.new }
        ensures number { self.new.worker.number ≡ self.old.worker.number }
        ensures ends { IsSameEnds ends.old ends.new }
    {
        if self.astray.is_none() {
            let received = self.worker.receive_one_apart(
                rt,
                structure,
                routes,
                ends,
                output,
                &mut self.astray,
                &mut self.room,
            );
            return answer_of(received);
        }
        Stepped::Memory
    }

    /// A step with nothing astray, which says whether it did anything.
    fn try_step<T: Wait, R: Read, W: Write>(
        &mut self,
        rt: &T,
        routed: RoutedStructure<'_>,
        ends: &mut Ends,
        pick: u32,
        input: &mut R,
        output: &mut W,
    ) -> Result<bool, Refused>
        requires structure { IsStructure routed.structure.now }
        requires routes { AreRoutesOf routed.structure.now routed.routes.now }
        requires none { self.old.astray ≡ None }
        requires sound { IsEnvSound routed.structure.now routed.routes.now self.old.worker.number self.old.worker }
        requires ways { HasGateWays routed.routes.now ends.old }
        ensures step { EnvStepsToApart routed.entry.structure.now routed.entry.routes.now self.old.worker.number self.old.worker None ends.old result self.new.worker self.new.astray ends.new }
        ensures pick { ReadsAt routed.entry.routes.now pick self.old.worker self.new.worker }
        ensures on { IfOk result (λ did. SentOn self.old.worker self.new.worker × (self.new.astray ≡ None)) }
        ensures taken { IfOk result (λ did. TakesNextApart self.old.worker ends.old self.new.room.value self.new.worker ends.new) }
        ensures reading { (start : Option (List ℕ)) → HasReadSoFar routed.entry.structure.now routed.entry.routes.now self.old.worker.number start (R.remaining input.old) self.old.worker
            → HasReadSoFar routed.entry.structure.now routed.entry.routes.now self.old.worker.number start (R.remaining input.new) self.new.worker }
        ensures writing { (start : Option (List ℕ)) → HasWrittenSoFar routed.entry.structure.now routed.entry.routes.now self.old.worker.number start (W.contents output.old) self.old.worker
            → HasWrittenSoFar routed.entry.structure.now routed.entry.routes.now self.old.worker.number start (W.contents output.new) self.new.worker }
        ensures ended { (e : InputEnd) → self.old.worker.ended ≡ Some e → input.new ≡ input.old }
        ensures past { (e : Ended) → self.old.worker.reading.source.ended ≡ Some e → input.new ≡ input.old }
        ensures unread { self.old.worker.reading.source.ended ≡ None → HoldsLine self.old.worker.reading.source.ahead → input.new ≡ input.old }
        ensures ends { IsSameEnds ends.old ends.new }
    {
        let RoutedStructure { structure, routes } = routed;
        let sent = self
            .worker
            .send_over(rt, structure, routes, ends, pick, input)?;
        let received = self.worker.receive_one_apart(
            rt,
            structure,
            routes,
            ends,
            output,
            &mut self.astray,
            &mut self.room,
        )?;
        Ok(sent | received)
    }
}

impl EnvWorker {
    /// Takes an item, and writes its line. It says whether there was one. An item that may not leave is astray. Nothing is taken
    /// before there is room for it in what was received.
    fn receive_one_apart<T: Wait, W: Write>(
        &mut self,
        rt: &T,
        structure: &Structure,
        routes: &Routes,
        ends: &mut Ends,
        output: &mut W,
        astray: &mut Option<Item>,
        room: &mut Snapshot<Vec<Item>>,
    ) -> Result<bool, Refused>
        requires structure { IsStructure structure.now }
        requires routes { AreRoutesOf structure.now routes.now }
        requires none { astray.old ≡ None }
        ensures received { ReceivesApart structure.now routes.now self.old.number self.old ends.old result self.new astray.new ends.new }
        ensures room { IfOk result (λ did. FoundRoom self.old.received room.new.value) }
        ensures writing { (start : Option (List ℕ)) → HasWrittenSoFar structure.now routes.now self.old.number start (W.contents output.old) self.old
            → HasWrittenSoFar structure.now routes.now self.old.number start (W.contents output.new) self.new }
        ensures ends { IsSameEnds ends.old ends.new }
    {
        if self.received.reserve(1).is_err() {
            return Err(Refused);
        }
        *room = Snapshot::of(&self.received);
        ends.take_into(rt, astray);
        let Some(item) = astray else {
            return Ok(false);
        };
        if !may_leave(structure, routes, item) {
            return Err(Refused);
        }
        let names = structure.names();
        self.output = write(&mut self.sink, self.output, names, routes, item, output);
        let Some(item) = astray.take() else {
            unreachable!()
        };
        self.received.push_reserved(item);
        Ok(true)
    }
}
