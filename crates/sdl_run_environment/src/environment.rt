//! The environment at work: it reads lines and outputs their signals, and writes what it receives as lines.
ghost use Rattle.std.specs.Prelude.{◌≡◌, ◌≢◌, ◌≤◌, ℕ, List, length, [], true, false, Option, Some, None, All, IfOk};
ghost use Rattle.sdl_signal_lines.specs.Bytes.{HasNoNewline};
ghost use Rattle.sdl_signal_lines.specs.Source.{HoldsLine};
ghost use Rattle.sdl_signal_lines.specs.declared.sources.Ended.{Ended};
ghost use Rattle.sdl_signal.specs.declared.ends.InputEnd.{InputEnd};
ghost use Rattle.sdl_signal.specs.declared.values.Item.{Item};
ghost use Rattle.sdl_structure_parts.specs.Structure.{IsStructure};
ghost use Rattle.sdl_routes.specs.declared.route.Station.{Station};
ghost use Rattle.sdl_routes.specs.Routes.{AreRoutesOf};
ghost use Rattle.sdl_routes.specs.declared.route.Station.TheVariants.{Outlet};
ghost use Rattle.sdl_forward.specs.Boards.{waiting, IsBoardOf};
ghost use Rattle.sdl_block_hand.specs.declared.hand.Stepped.TheVariants.{Memory};
ghost use Rattle.sdl_block_hand.specs.Puts.{AreRouted};
ghost use Rattle.sdl_block_hand.specs.PutsBy.{CanPutOut, PutsOutBy};
ghost use Rattle.sdl_run_outcome.specs.EnvironmentWork.{IsEnvFresh, IsEnvSound, IsLegalItem, GoesOut, EnvStepsAs, HasReadSoFar, HasWrittenSoFar};
ghost use Rattle.sdl_run_environment.specs.EnvPhases.{IsWritable, HasReadBy, HasWrittenBy, Reads, Receives, EnvStepsTo};
ghost use Rattle.sdl_run_environment.specs.EnvPicks.{ReadsAt};
ghost use Rattle.sdl_run_environment.specs.EnvSends.{HasWaysIn, SendsTo, SentOn};
ghost use Rattle.sdl_run_environment.specs.EnvSteps.{ReadsNext, TakesNext, StepsOn};

use crate::outputs::{output_of, send};
use crate::writing::write;
use arrayvec::ArrayVec;
use sdl_block_hand::{Hand, Refused, Stepped, answer_of};
use sdl_forward::Board;
use sdl_forward::queues::Queues;
use sdl_routes::{Routes, Station};
use sdl_run_outcome::EnvOut;
use sdl_signal::{EnvRead, EnvReader, InputEnd, Item, LineSink, Names, Origin, OutputEnd};
use sdl_structure_parts::Structure;
use std::alloc::{AllocError, Global};
use std::io::{Read, Write};
use std::marker::Model;

/// The environment's worker: its reading, its outputs, what it has in hand, what it received, and its writing.
#[derive(Drop)]
pub struct EnvWorker {
    number: u32,
    /// In a box, since it has a buffer of 128 KB: so the worker is handed on without that.
    reader: Box<EnvReader>,
    pub(crate) ended: Option<InputEnd>,
    pub(crate) put: Vec<EnvOut>,
    pub(crate) hand: Hand,
    pub(crate) received: Vec<Item>,
    pub(crate) sink: LineSink,
    pub(crate) output: OutputEnd,
}

impl Model for EnvWorker {
    ghost use Rattle.std.specs.Prelude.{◌≡◌, ◌≤◌, length, None};
    ghost use Rattle.sdl_run_outcome.specs.EnvironmentWork.{EnvWorking, OwnEnd};

    ghost Value = { EnvWorking };

    ghost view = { λ w. record { number = w.number; reading = w.reader.value; ended = w.ended; put = w.put.items; outgoing = w.hand.outgoing.items; received = w.received.items; output = w.output } };

    ghost invariant = { λ w. (length w.put.items ≡ w.reader.value.carried) × (w.reader.value.carried ≤ 16384) × (w.hand.kept ≡ None) × OwnEnd w.ended };
}

impl EnvWorker {
    /// The environment's worker of this number, before anything was read.
    pub fn new(alloc: Global, number: u32) -> Result<EnvWorker, AllocError>
        ensures { IfOk result (IsEnvFresh number) }
    {
        let Ok(reader) = Box::new(alloc, EnvReader::new()) else {
            return Err(AllocError);
        };
        Ok(EnvWorker {
            number,
            reader,
            ended: None,
            put: Vec::new(alloc),
            hand: Hand {
                kept: None,
                outgoing: ArrayVec::new(),
            },
            received: Vec::new(alloc),
            sink: LineSink::new(),
            output: OutputEnd::Whole,
        })
    }

    /// Whether a step waits for no reader.
    pub(crate) fn is_ready(&self) -> bool
        ensures ready { result ≡ true → self.now.ended ≡ None → self.now.reading.source.ended ≡ None → HoldsLine self.now.reading.source.ahead }
        ensures asks { result ≡ false → (self.now.ended ≡ None) × (self.now.reading.source.ended ≡ None) × HasNoNewline self.now.reading.source.ahead × (length self.now.reading.source.ahead ≤ 320) }
    {
        self.ended.is_some() || self.reader.is_ready()
    }

    /// A step. It puts out what is in hand. Unless its reading has ended, it reads one line and outputs its signal, with the
    /// line's gate as the source. It then takes one item from the outlet and writes its line, unless a write failed before.
    /// A refusal ends the step, and the next one goes on there. `pick` chooses among the routes.
    #[inline(always)]
    pub fn step_serial<R: Read, W: Write>(
        &mut self,
        structure: &Structure,
        routes: &Routes,
        board: &mut Board,
        pick: u32,
        input: &mut R,
        output: &mut W,
    ) -> Stepped
        requires structure { IsStructure structure.now }
        requires routes { AreRoutesOf structure.now routes.now }
        requires sound { IsEnvSound structure.now routes.now self.old.number self.old }
        requires board { IsBoardOf routes.now board.old }
        requires outlet { All (λ i. IsLegalItem structure.now routes.now self.old.number i × GoesOut routes.now i) (waiting board.old Outlet) }
        ensures step { EnvStepsAs structure.now routes.now self.old.number self.old board.old result self.new board.new }
        ensures pick { ReadsAt routes.now pick self.old self.new }
        // What it does where no refusal ends it.
        ensures hand { result ≢ Memory → self.new.outgoing ≡ [] }
        ensures read { result ≢ Memory → ReadsNext self.old self.new }
        ensures taken { result ≢ Memory → TakesNext self.old self.new board.new }
        ensures reading { (start : Option (List ℕ)) → HasReadSoFar structure.now routes.now self.old.number start (R.remaining input.old) self.old
            → HasReadSoFar structure.now routes.now self.old.number start (R.remaining input.new) self.new }
        ensures writing { (start : Option (List ℕ)) → HasWrittenSoFar structure.now routes.now self.old.number start (W.contents output.old) self.old
            → HasWrittenSoFar structure.now routes.now self.old.number start (W.contents output.new) self.new }
        // Where the reading has ended, and where its next answer is told already, the reader is not asked.
        ensures ended { (e : InputEnd) → self.old.ended ≡ Some e → input.new ≡ input.old }
        ensures past { (e : Ended) → self.old.reading.source.ended ≡ Some e → input.new ≡ input.old }
        ensures unread { self.old.reading.source.ended ≡ None → HoldsLine self.old.reading.source.ahead → input.new ≡ input.old }
        ensures board { IsBoardOf routes.now board.new }
    {
        answer_of(self.try_step(structure, routes, board, pick, input, output))
    }

    /// A step, which says whether it did anything.
    fn try_step<R: Read, W: Write>(
        &mut self,
        structure: &Structure,
        routes: &Routes,
        board: &mut Board,
        pick: u32,
        input: &mut R,
        output: &mut W,
    ) -> Result<bool, Refused>
        requires structure { IsStructure structure.now }
        requires routes { AreRoutesOf structure.now routes.now }
        requires sound { IsEnvSound structure.now routes.now self.old.number self.old }
        requires board { IsBoardOf routes.now board.old }
        requires outlet { All (λ i. IsLegalItem structure.now routes.now self.old.number i × GoesOut routes.now i) (waiting board.old Outlet) }
        ensures step { EnvStepsTo structure.now routes.now self.old.number self.old board.old result self.new board.new }
        ensures pick { ReadsAt routes.now pick self.old self.new }
        ensures on { IfOk result (λ did. StepsOn self.old self.new board.new) }
        ensures reading { (start : Option (List ℕ)) → HasReadSoFar structure.now routes.now self.old.number start (R.remaining input.old) self.old
            → HasReadSoFar structure.now routes.now self.old.number start (R.remaining input.new) self.new }
        ensures writing { (start : Option (List ℕ)) → HasWrittenSoFar structure.now routes.now self.old.number start (W.contents output.old) self.old
            → HasWrittenSoFar structure.now routes.now self.old.number start (W.contents output.new) self.new }
        ensures ended { (e : InputEnd) → self.old.ended ≡ Some e → input.new ≡ input.old }
        ensures past { (e : Ended) → self.old.reading.source.ended ≡ Some e → input.new ≡ input.old }
        ensures unread { self.old.reading.source.ended ≡ None → HoldsLine self.old.reading.source.ahead → input.new ≡ input.old }
        ensures board { IsBoardOf routes.now board.new }
    {
        let sent = self.send_over(&(), structure, routes, board, pick, input)?;
        let received = self.receive_one(structure.names(), routes, board, output)?;
        Ok(sent | received)
    }

    /// Over any queues: puts out what is in hand, reads a line, unless the reading has ended, and puts out what its output sends.
    /// It says whether anything was done.
    pub(crate) fn send_over<H, Q: Queues<H>, R: Read>(
        &mut self,
        rt: &H,
        structure: &Structure,
        routes: &Routes,
        queues: &mut Q,
        pick: u32,
        input: &mut R,
    ) -> Result<bool, Refused>
        requires sound { IsEnvSound structure.now routes.now self.old.number self.old }
        requires ways { HasWaysIn Q.relations routes.now queues.old }
        ensures sends { SendsTo Q.relations structure.now routes.now self.old.number self.old queues.old result self.new queues.new }
        ensures pick { ReadsAt routes.now pick self.old self.new }
        ensures on { IfOk result (λ did. SentOn self.old self.new) }
        ensures reading { (start : Option (List ℕ)) → HasReadSoFar structure.now routes.now self.old.number start (R.remaining input.old) self.old
            → HasReadSoFar structure.now routes.now self.old.number start (R.remaining input.new) self.new }
        ensures ended { (e : InputEnd) → self.old.ended ≡ Some e → input.new ≡ input.old }
        ensures past { (e : Ended) → self.old.reading.source.ended ≡ Some e → input.new ≡ input.old }
        ensures unread { self.old.reading.source.ended ≡ None → HoldsLine self.old.reading.source.ahead → input.new ≡ input.old }
    {
        let names = structure.names();
        let put = self.put_out(rt, routes, queues)?;
        let read = self.read_one(names, routes, pick, input)?;
        self.put_out(rt, routes, queues)?;
        Ok(put | read)
    }

    /// Puts out what is in hand, and says whether there was anything.
    #[inline(always)]
    fn put_out<H, Q: Queues<H>>(
        &mut self,
        rt: &H,
        routes: &Routes,
        queues: &mut Q,
    ) -> Result<bool, Refused>
        requires routed { AreRouted routes.now self.old.outgoing }
        requires ways { CanPutOut Q.relations routes.now queues.old self.old.outgoing }
        ensures put { PutsOutBy Q.relations routes.now self.old.outgoing queues.old result self.new.outgoing queues.new }
        ensures rest { self.new ≡ record self.old { outgoing = self.new.outgoing } }
    {
        self.hand.put_out(rt, routes, queues)
    }

    /// Reads a line, unless the reading has ended, and outputs its signal. It says whether the reading went on.
    #[inline(always)]
    fn read_one<R: Read>(
        &mut self,
        names: &Names,
        routes: &Routes,
        pick: u32,
        input: &mut R,
    ) -> Result<bool, Refused>
        requires hand { self.old.outgoing ≡ [] }
        ensures read { Reads names.now routes.now self.old result self.new }
        ensures pick { ReadsAt routes.now pick self.old self.new }
        ensures reading { (start : Option (List ℕ)) → HasReadBy names.now routes.now self.old.number start (R.remaining input.old) self.old
            → HasReadBy names.now routes.now self.old.number start (R.remaining input.new) self.new }
        // Where the reading has ended, and where its next answer is told already, the reader is not asked.
        ensures ended { (e : InputEnd) → self.old.ended ≡ Some e → input.new ≡ input.old }
        ensures past { (e : Ended) → self.old.reading.source.ended ≡ Some e → input.new ≡ input.old }
        ensures unread { self.old.reading.source.ended ≡ None → HoldsLine self.old.reading.source.ahead → input.new ≡ input.old }
    {
        if self.ended.is_some() {
            return Ok(false);
        }
        if self.put.reserve(1).is_err() {
            return Err(Refused);
        }
        match self.reader.next(names, input) {
            EnvRead::Line(line) => {
                let origin = Origin {
                    worker: self.number,
                    number: self.put.len() as u64,
                };
                let out = output_of(routes, pick, origin, line);
                send(&mut self.hand, &out);
                self.put.push_reserved(out);
                Ok(true)
            }
            EnvRead::Ended(end) => {
                self.ended = Some(end);
                Ok(true)
            }
        }
    }

    /// Takes an item from the outlet, and writes its line. It says whether there was one.
    #[inline(always)]
    fn receive_one<W: Write>(
        &mut self,
        names: &Names,
        routes: &Routes,
        board: &mut Board,
        output: &mut W,
    ) -> Result<bool, Refused>
        requires outlet { All (IsWritable names.now routes.now) (waiting board.old Outlet) }
        ensures received { Receives self.old board.old result self.new board.new }
        ensures writing { (start : Option (List ℕ)) → HasWrittenBy names.now routes.now start (W.contents output.old) self.old
            → HasWrittenBy names.now routes.now start (W.contents output.new) self.new }
    {
        if self.received.reserve(1).is_err() {
            return Err(Refused);
        }
        let Some(item) = board.take(Station::Outlet) else {
            return Ok(false);
        };
        self.output = write(&mut self.sink, self.output, names, routes, &item, output);
        self.received.push_reserved(item);
        Ok(true)
    }
}
