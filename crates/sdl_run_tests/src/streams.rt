//! Runs of Echo, on one thread and in threads, whose reader or writer fails after so many bytes or is interrupted so often. What
//! each leaves is audited.
ghost use Rattle.std.specs.Prelude.{◌≤◌, length, IfOk, IfErr};
ghost use Rattle.sdl_routes.specs.Routes.{AreRoutesOf};
ghost use Rattle.sdl_transition.specs.Bound.{IsBound, structure_of, routes_of};
ghost use Rattle.sdl_run_outcome.specs.Lists.{items_in};
ghost use Rattle.sdl_run_outcome.specs.Outcome.{IsComplete};
ghost use Rattle.sdl_run_driver.specs.Closings.{outcome_in, plan_of_bound};
ghost use Rattle.sdl_run_serial.specs.Serial.{IsBackIn};

use crate::changes::{Change, changed};
use sdl_agents::echo_behaviours;
use sdl_examples::ECHO;
use sdl_run::{
    AuditFault, Closing, Ledger, OpenGate, RunEnd, StartFault, audit, run_serial, run_threads,
};
use sdl_signal::{InputEnd, OutputEnd};
use sdl_test_systems::{Stop, bind_to};
use sdl_transition::{Agents, Bound};
use std::alloc::Global;
use std::io;
use std::io::{ErrorKind, Read, Write};
use std::process::Abort;
use std::sync::Wait;
use std::test::Fail;
use std::thread::Threads;

#[derive(Clone, Copy)]
pub enum Form {
    OneThread,
    Threads,
}

/// What a run is given: a reader that gives these bytes and then ends or fails, and a writer that takes so many bytes and then
/// fails. So many of their first calls are interrupted.
#[derive(Clone, Copy)]
pub struct Streams<'a> {
    bytes: &'a [u8],
    breaks: bool,
    room: usize,
    interrupted_reads: u32,
    interrupted_writes: u32,
}

#[derive(Drop)]
struct Reader<'a> {
    left: &'a [u8],
    breaks: bool,
    interruptions: u32,
}

impl Read for Reader<'_> {
    fn read(&mut self, buffer: &mut [u8]) -> io::Result<usize> {
        if self.interruptions > 0 {
            self.interruptions -= 1;
            return Err(io::Error::from(ErrorKind::Interrupted));
        }
        if self.left.is_empty() && self.breaks {
            return Err(io::Error::from(ErrorKind::Other));
        }
        let count = self.left.len().min(buffer.len());
        buffer[..count].copy_from_slice(&self.left[..count]);
        self.left = &self.left[count..];
        Ok(count)
    }
}

#[derive(Drop)]
struct Writer {
    taken: Vec<u8>,
    room: usize,
    interruptions: u32,
}

impl Write for Writer {
    fn write(&mut self, bytes: &[u8]) -> io::Result<usize> {
        if self.interruptions > 0 {
            self.interruptions -= 1;
            return Err(io::Error::from(ErrorKind::Interrupted));
        }
        if self.room == 0 {
            return Err(io::Error::from(ErrorKind::Other));
        }
        let count = self.room.min(bytes.len());
        self.taken.extend_from_slice(&bytes[..count])?;
        self.room -= count;
        Ok(count)
    }

    fn flush(&mut self) -> io::Result<()> {
        Ok(())
    }
}

/// What a run left that these tests look at.
#[derive(Drop)]
pub struct Left {
    written: Vec<u8>,
    ledger: Ledger,
    ends: (InputEnd, OutputEnd, RunEnd),
    /// Whether the first start was refused memory, and the run was started again.
    again: bool,
    /// What an audit says of it.
    pub audited: Result<(), AuditFault>,
}

/// More turns than these runs make.
const BUDGET: u32 = 100;

/// Runs the system. What it leaves can be audited.
fn run_form<S: Agents + Send, T: Threads + Wait + Sync>(
    rt: &T,
    alloc: Global,
    bound: Bound<S>,
    form: Form,
    input: &mut Reader,
    output: &mut Writer,
) -> Result<Closing<S>, StartFault<S>>
    requires { IsBound S.may bound }
    ensures routes { IfOk result (λ c. AreRoutesOf (structure_of c.bound) (routes_of c.bound)) }
    ensures complete { IfOk result (λ c. IsComplete (plan_of_bound c.bound 0) (outcome_in items_in c)) }
    ensures back { IfErr result (IsBackIn S.may bound) }
{
    match form {
        Form::OneThread => run_serial(alloc, bound, BUDGET, &[], input, output),
        Form::Threads => run_threads(rt, alloc, bound, BUDGET, &OpenGate, input, output),
    }
}

/// What a run left, which is audited with this change, and what it wrote.
fn left_by<S: Drop, T: Wait>(
    rt: &T,
    closing: Closing<S>,
    change: Change,
    written: Vec<u8>,
    again: bool,
) -> Left
    requires routes { AreRoutesOf (structure_of closing.bound) (routes_of closing.bound) }
    requires complete { IsComplete (plan_of_bound closing.bound 0) (outcome_in items_in closing) }
{
    let (closing, audited) = audit(rt, changed(closing, change));
    Left {
        written,
        ledger: closing.ledger,
        ends: (closing.input, closing.output, closing.end),
        again,
        audited,
    }
}

/// Runs the system, and audits what it left with this change. Where memory is refused before the first step, the system that comes back is
/// run on the same streams.
fn run_bound<S: Agents + Send + Drop, T: Threads + Wait + Sync>(
    rt: &T,
    alloc: Global,
    bound: Bound<S>,
    form: Form,
    streams: &Streams,
    change: Change,
) -> Result<Left, Stop>
    requires { IsBound S.may bound }
{
    let mut input = Reader {
        left: streams.bytes,
        breaks: streams.breaks,
        interruptions: streams.interrupted_reads,
    };
    let mut output = Writer {
        taken: Vec::new(alloc),
        room: streams.room,
        interruptions: streams.interrupted_writes,
    };
    match run_form(rt, alloc, bound, form, &mut input, &mut output) {
        Ok(closing) => Ok(left_by(rt, closing, change, output.taken, false)),
        Err(StartFault::Memory(bound)) => {
            match run_form(rt, alloc, bound, form, &mut input, &mut output) {
                Ok(closing) => Ok(left_by(rt, closing, change, output.taken, true)),
                Err(_) => Err(Stop::Wrong("two starts were refused")),
            }
        }
    }
}

/// Makes the agents of Echo, runs it, and audits what it left with this change.
pub fn run<T: Threads + Wait + Sync>(
    rt: &T,
    alloc: Global,
    form: Form,
    streams: &Streams,
    change: Change,
) -> Result<Left, Stop> {
    let behaviours = echo_behaviours!(alloc, 1);
    let bound = bind_to(alloc, ECHO, behaviours)?;
    run_bound(rt, alloc, bound, form, streams, change)
}

static FORMS: [Form; 2] = [Form::OneThread, Form::Threads];

const LINES: &[u8] = b"line ping 7\nline ping 8\n";

const ONE_ANSWER: &[u8] = b"line pong 7\n";

const ANSWERS: &[u8] = b"line pong 7\nline pong 8\n";

/// How many lines stand whole in so many bytes of the two, and the answers to them.
fn whole_lines(count: usize) -> (u64, &'static [u8]) {
    if count < 12 {
        (0, &[])
    } else if count < 24 {
        (1, ONE_ANSWER)
    } else {
        (2, ANSWERS)
    }
}

pub const WELL: Streams = Streams {
    bytes: LINES,
    breaks: false,
    room: 100,
    interrupted_reads: 0,
    interrupted_writes: 0,
};

/// The ledger of a run that read so many lines, and received an answer to each.
fn ledger_of(lines: u64) -> Ledger {
    let both = lines.saturating_mul(2);
    Ledger {
        output: both,
        entered: both,
        fired: lines,
        environment: lines,
        ..Ledger::default()
    }
}

/// What a run is to leave: what it wrote, how many lines it read, and how it ended.
#[derive(Clone, Copy)]
struct Wanted<'a> {
    written: &'a [u8],
    lines: u64,
    ends: (InputEnd, OutputEnd, RunEnd),
}

/// The run left what is wanted, and the audit finds nothing wrong.
fn look(rt: &impl Abort, left: &Left, wanted: &Wanted) {
    assert!(rt; left.written.as_slice() == wanted.written);
    assert!(rt; left.ledger == ledger_of(wanted.lines));
    assert!(rt; left.ends == wanted.ends);
    assert!(rt; left.audited == Ok(()));
}

/// A run on these streams leaves what is wanted.
fn leaves<T: Threads + Wait + Sync + Abort>(
    rt: &T,
    alloc: Global,
    form: Form,
    streams: &Streams,
    wanted: &Wanted,
) -> Result<(), Stop> {
    let left = run(rt, alloc, form, streams, Change::Nothing)?;
    look(rt, &left, wanted);
    Ok(())
}

/// Wherever the reader fails, what came whole before is carried out and answered.
#[test]
fn whole_lines_are_answered_where_the_reader_fails(rt: HostRuntime) -> Result<(), Fail> {
    for form in FORMS.iter() {
        for count in 0..LINES.len() + 1 {
            let streams = Streams {
                bytes: &LINES[..count],
                breaks: true,
                ..WELL
            };
            let (lines, written) = whole_lines(count);
            let wanted = Wanted {
                written,
                lines,
                ends: (InputEnd::ReadFault, OutputEnd::Whole, RunEnd::Quiet),
            };
            leaves(&rt, rt.alloc(), *form, &streams, &wanted)?;
        }
    }
    Ok(())
}

/// Wherever the writer fails, it has taken all before that, and the run goes on: its ledger is that of a whole one.
#[test]
fn a_writer_that_fails_anywhere_changes_no_count(rt: HostRuntime) -> Result<(), Fail> {
    for form in FORMS.iter() {
        for count in 0..ANSWERS.len() {
            let streams = Streams {
                room: count,
                ..WELL
            };
            let wanted = Wanted {
                written: &ANSWERS[..count],
                lines: 2,
                ends: (InputEnd::Whole, OutputEnd::WriteFault, RunEnd::Quiet),
            };
            leaves(&rt, rt.alloc(), *form, &streams, &wanted)?;
        }
    }
    Ok(())
}

/// Interruptions of the reads and of the writes of one run, how both end, how many lines are read, and what is written.
static INTERRUPTIONS: [(u32, u32, InputEnd, OutputEnd, u64, &[u8]); 3] = [
    (1_000, 1_000, InputEnd::Whole, OutputEnd::Whole, 2, ANSWERS),
    (1_001, 1_000, InputEnd::ReadFault, OutputEnd::Whole, 0, b""),
    (1_000, 1_001, InputEnd::Whole, OutputEnd::WriteFault, 2, b""),
];

#[test]
fn a_thousand_interrupted_reads_and_writes_change_nothing(rt: HostRuntime) -> Result<(), Fail> {
    for form in FORMS.iter() {
        for (reads, writes, input, output, lines, written) in INTERRUPTIONS.iter() {
            let streams = Streams {
                interrupted_reads: *reads,
                interrupted_writes: *writes,
                ..WELL
            };
            let wanted = Wanted {
                written,
                lines: *lines,
                ends: (*input, *output, RunEnd::Quiet),
            };
            leaves(&rt, rt.alloc(), *form, &streams, &wanted)?;
        }
    }
    Ok(())
}

/// Whether a run read and answered both lines, and its audit found nothing wrong.
fn is_whole(left: &Left) -> bool {
    left.written.as_slice() == ANSWERS
        && left.ledger == ledger_of(2)
        && left.ends == (InputEnd::Whole, OutputEnd::Whole, RunEnd::Quiet)
        && left.audited == Ok(())
}

// Run it with each allocation refused in turn: a run that is started again is whole, and what any leaves is right, unless its audit
// is refused.
#[test]
fn a_refused_start_is_made_again(rt: HostRuntime) -> Result<(), Fail> {
    for form in FORMS.iter() {
        match run(&rt, rt.alloc(), *form, &WELL, Change::Nothing) {
            Ok(left) => {
                assert!(rt; is_whole(&left) || !left.again);
                assert!(rt; ANSWERS.starts_with(left.written.as_slice()));
                assert!(rt; left.audited == Ok(()) || left.audited == Err(AuditFault::Memory));
            }
            Err(Stop::Memory) => {}
            Err(Stop::Wrong(_)) => assert!(rt; false),
        }
    }
    Ok(())
}
