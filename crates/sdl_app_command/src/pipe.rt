//! Lines through one queue: each line of the input is read as a signal, put into a queue, and written again.
ghost use Rattle.std.specs.Prelude.{◌≡◌, List, [], IfOk, OnErr};
ghost use Rattle.std.specs.List.{AllByRecursion};
ghost use Rattle.std.specs.Io.KnownBytes.{Keeps};
ghost use Rattle.sdl_signal.specs.Names.{Lexicon};
ghost use Rattle.sdl_signal.specs.declared.values.EnvLine.{EnvLine};
ghost use Rattle.sdl_signal.specs.declared.environment.EnvRead.TheVariants as env;
ghost use Rattle.sdl_signal.specs.Environment.{EndsItself, HasRead};
ghost use Rattle.sdl_app_command.specs.Pipe.{pipe_lexicon, IsPiped, IsPipedAs, HasQueued, IsWritable, text_of, HasWrittenText, queued_item};

use crate::ends::{flushed, report};
use crate::errors::without_memory;
use crate::status::FAULTY;
use arrayvec::ArrayVec;
use sdl_queue::SerialQueue;
use sdl_signal::{
    EnvRead, EnvReader, GateId, InputEnd, Item, LineSink, Names, Origin, OutputEnd, Pid, RouteId,
    Signal, Sort, Written, line_of, name,
};
use std::alloc::{AllocError, Global};
use std::io::{Read, Write};

/// `pipe`, with how it ended on standard error, and the exit status.
pub fn pipe_command<R: Read, W: Write, E: Write>(
    alloc: Global,
    input: &mut R,
    output: &mut W,
    errors: &mut E,
) -> u8
    ensures piped { IsPipedAs (R.remaining input.old) (R.remaining input.new) (W.contents output.old) (W.contents output.new) result }
    ensures silent { result ≡ 0 → Keeps (E.contents errors.old) (E.contents errors.new) }
{
    match pipe(alloc, input, output) {
        Ok((read, write)) => report(read, flushed(output, write), errors),
        Err(_) => {
            without_memory(errors);
            FAULTY
        }
    }
}

/// Reads the lines of the input, up to its end, its first fault or the limit. Then it writes each of them again,
/// without its TO part. The one gate is `line`, and the one signal is `ping` with a parameter of the sort Integer.
/// Where memory is refused, nothing was written. (This project's own.)
pub fn pipe<R: Read, W: Write>(
    alloc: Global,
    input: &mut R,
    output: &mut W,
) -> Result<(InputEnd, OutputEnd), AllocError>
    ensures piped { IfOk result (λ ends. IsPiped (R.remaining input.old) (R.remaining input.new) (W.contents output.old) (W.contents output.new) ends.0 ends.1) }
    ensures err { OnErr result (Keeps (W.contents output.old) (W.contents output.new)) }
{
    let names = pipe_names(alloc)?;
    let mut queue = SerialQueue::new(alloc);
    let read = read_all(&names, input, &mut queue)?;
    let written = write_all(&names, &mut queue, output);
    Ok((read, written))
}

/// The names of the pipe: the gate `line` and the signal `ping`.
fn pipe_names(alloc: Global) -> Result<Names, AllocError>
    ensures { IfOk result (λ names. names ≡ pipe_lexicon) }
{
    let mut names = Names::new(alloc);
    let (Some(line), Some(ping)) = (name("line"), name("ping")) else {
        unreachable!()
    };
    names.add_gate(line)?;
    let mut sorts = ArrayVec::new();
    sorts.push(Sort::Integer);
    names.add_signal(ping, sorts)?;
    Ok(names)
}

/// Reads all lines and puts their signals into the queue.
fn read_all<R: Read>(
    names: &Names,
    input: &mut R,
    queue: &mut SerialQueue,
) -> Result<InputEnd, AllocError>
    requires { queue.old ≡ [] }
    ensures read { IfOk result (λ end. (carried : List EnvLine) × HasRead names.now (R.remaining input.old) (R.remaining input.new) carried end
        × HasQueued names.now carried queue.new) }
    ensures end { IfOk result (λ end. EndsItself (env.Ended end)) }
{
    let mut reader = EnvReader::new();
    let mut number: u64 = 0;
    loop {
        match reader.next(names, input) {
            EnvRead::Ended(end) => return Ok(end),
            EnvRead::Line(line) => {
                let item = item_of(number, line.signal);
                match queue.put(item) {
                    Ok(()) => {}
                    Err((_, refused)) => return Err(refused),
                }
                number += 1;
            }
        }
    }
}

/// The item of a line's signal, by the position of the line from 0.
fn item_of(number: u64, signal: Signal) -> Item
    ensures { result ≡ queued_item number signal }
{
    Item {
        origin: Origin { worker: 0, number },
        stamp: 0,
        signal,
        sender: Pid::Env,
        to: None,
        route: RouteId(0),
    }
}

/// Takes all items from the queue and writes each as a line.
fn write_all<W: Write>(names: &Names, queue: &mut SerialQueue, output: &mut W) -> OutputEnd
    requires { AllByRecursion (IsWritable names.now) queue.old }
    ensures { HasWrittenText (W.contents output.old) (W.contents output.new) (text_of names.now queue.old) result }
{
    let mut sink = LineSink::new();
    while let Some(item) = queue.take() {
        let line = line_of(names, GateId(0), &item.signal);
        match sink.write(output, line.as_slice()) {
            Written::Whole => {}
            Written::Fault(_) => return OutputEnd::WriteFault,
        }
    }
    OutputEnd::Whole
}
