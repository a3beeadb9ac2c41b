//! The text of a run's logs.
use crate::names::{set_name, signal_name};
use sdl_instances_log::{Cause, Done, Trigger};
use sdl_instances_packed_log::{Shown, Shows};
use sdl_signal::{Pid, SignalId};
use sdl_structure_parts::Structure;
use std::io::{Result, Write};

/// Writes the logs of all blocks as far as they are stored, blocks by number: a line for each event, and after the line of a turn one for each thing
/// that it did and one for a stop.
pub fn write_trace<K: Shows, W: Write>(
    output: &mut W,
    structure: &Structure,
    logs: &[K],
) -> Result<()> {
    for (block, events) in structure.blocks().iter().zip(logs) {
        let mut log = Log {
            output,
            structure,
            block: block.name.as_str(),
        };
        log.write_events(events)?;
    }
    Ok(())
}

/// The log of a block as it is written.
#[derive(Drop)]
struct Log<'a, W> {
    output: &'a mut W,
    structure: &'a Structure,
    block: &'a str,
}

impl<W: Write> Log<'_, W> {
    fn write_events<K: Shows>(&mut self, events: &K) -> Result<()> {
        for number in 0..usize::MAX {
            match events.event(number) {
                Some(event) => self.write_event(event)?,
                None => break,
            }
        }
        Ok(())
    }

    fn write_event(&mut self, event: Shown) -> Result<()> {
        match event {
            Shown::Entered(item, pid) => {
                self.begin_with("enter", item.signal.id)?;
                self.end_with(pid)
            }
            Shown::Discarded(item, cause) => {
                self.begin_with("discard", item.signal.id)?;
                writeln!(self.output, " {}", cause_text(cause))
            }
            Shown::Turn {
                pid,
                trigger,
                frame: _,
                step: _,
                done,
                stopped,
            } => {
                self.write_trigger(trigger)?;
                self.end_with(pid)?;
                self.write_all_done(done)?;
                self.write_stop(pid, stopped)
            }
        }
    }

    /// Writes what a turn begins with, as the front of a line.
    fn write_trigger(&mut self, trigger: &Trigger) -> Result<()> {
        match trigger {
            Trigger::Start => self.begin("start"),
            Trigger::Fire(item) => self.begin_with("fire", item.signal.id),
            Trigger::Implicit(item) => self.begin_with("implicit", item.signal.id),
        }
    }

    fn write_all_done(&mut self, all: &[Done]) -> Result<()> {
        for done in all {
            self.write_done(done)?;
        }
        Ok(())
    }

    fn write_done(&mut self, done: &Done) -> Result<()> {
        match done {
            Done::Sent(item) => {
                self.begin_with("sent", item.signal.id)?;
                writeln!(self.output, " {}", item.route.0)
            }
            Done::NoRoute(_, signal) => {
                self.begin_with("noroute", *signal)?;
                writeln!(self.output)
            }
            Done::Made(pid) => {
                self.begin("made")?;
                self.end_with(*pid)
            }
        }
    }

    fn write_stop(&mut self, pid: Pid, stopped: Option<u64>) -> Result<()> {
        match stopped {
            Some(dropped) => {
                self.begin("stopped")?;
                self.write_pid(pid)?;
                writeln!(self.output, " {dropped}")
            }
            None => Ok(()),
        }
    }

    /// Writes the first fields of a line: the block, and what happened.
    fn begin(&mut self, what: &str) -> Result<()> {
        write!(self.output, "{} {what}", self.block)
    }

    /// Writes the first fields of a line: the block, what happened, and the signal.
    fn begin_with(&mut self, what: &str, signal: SignalId) -> Result<()> {
        let signal = signal_name(self.structure, signal);
        write!(self.output, "{} {what} {signal}", self.block)
    }

    /// Writes the last field of a line.
    fn end_with(&mut self, pid: Pid) -> Result<()> {
        self.write_pid(pid)?;
        writeln!(self.output)
    }

    /// Writes a Pid as a field.
    fn write_pid(&mut self, pid: Pid) -> Result<()> {
        match pid {
            Pid::Null => write!(self.output, " null"),
            Pid::Env => write!(self.output, " env"),
            Pid::Inst(set, serial) => write!(
                self.output,
                " {}:{serial}",
                set_name(self.structure, set)
            ),
        }
    }
}

fn cause_text(cause: Cause) -> &'static str {
    match cause {
        Cause::NoInstance => "noinstance",
        Cause::Gone => "gone",
    }
}
