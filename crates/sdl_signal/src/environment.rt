//! The environment's reading of an input: its lines, read as signals, up to the end, a fault or the limit.
ghost use Rattle.std.specs.Prelude.{◌≡◌, ◌≤◌, ℕ, true, false, List, length, [], Option, None, Some};
ghost use Rattle.sdl_signal_lines.specs.Bytes.{HasNoNewline};
ghost use Rattle.sdl_signal.specs.declared.values.EnvLine.{EnvLine};
ghost use Rattle.sdl_signal_lines.specs.declared.sources.Ended.{Ended};
ghost use Rattle.sdl_signal_lines.specs.Source.{HoldsLine};
ghost use Rattle.sdl_signal.specs.Environment.{Counts, EndsItself, GoesOn, HasCarried, IsEnvLine};

use crate::ends::InputEnd;
use crate::naming::Names;
use crate::reading::{LineFault, read_into};
use crate::values::EnvLine;
use sdl_signal_lines::{LineSource, Seen};
use std::io::Read;
use std::marker::Model;

/// How many lines of an input are carried out at most. (This project's own.)
const MOST_LINES: u32 = 16_384;

/// What the environment's reading answers.
#[derive(Debug, PartialEq, Eq, Drop)]
pub enum EnvRead {
    /// The next line, to be carried out.
    Line(EnvLine),
    /// The reading has ended.
    Ended(InputEnd),
}

/// Reads an input as the environment does, and counts the lines that were carried out.
#[derive(Drop)]
pub struct EnvReader {
    source: LineSource,
    carried: u32,
}

impl Model for EnvReader {
    ghost use Rattle.std.specs.Prelude.{◌≤◌};
    ghost use Rattle.sdl_signal.specs.Environment.{Reading};

    ghost Value = { Reading };

    ghost view = { λ r. record { source = r.source; carried = r.carried } };

    ghost invariant = { λ r. r.carried ≤ 16384 };
}

impl EnvReader {
    pub fn new() -> Self
        ensures begins { (names : _) (start : Option (List ℕ)) → HasCarried names start start result [] }
        ensures none { result.carried ≡ 0 }
    {
        EnvReader {
            source: LineSource::new(),
            carried: 0,
        }
    }

    /// Whether the next answer is told without asking the reader.
    pub fn is_ready(&self) -> bool
        ensures ready { result ≡ true → self.now.source.ended ≡ None → HoldsLine self.now.source.ahead }
        ensures asks { result ≡ false → (self.now.source.ended ≡ None) × HasNoNewline self.now.source.ahead × (length self.now.source.ahead ≤ 320) }
    {
        self.source.is_ready()
    }

    /// The next line, or how the reading ended. After an end it is called no more.
    pub fn next<R: Read>(&mut self, names: &Names, input: &mut R) -> EnvRead
        ensures line { IsEnvLine names.now result }
        ensures count { Counts self.old self.new result }
        ensures end { EndsItself result }
        // Whatever was carried out of an input so far, the answer goes on from it.
        ensures reading { (start : Option (List ℕ)) (carried : List EnvLine) → HasCarried names.now start (R.remaining input.old) self.old carried
            → GoesOn names.now start (R.remaining input.new) self.new carried result }
        // Where the next answer is told already, the reader is not asked.
        ensures unread { self.old.source.ended ≡ None → HoldsLine self.old.source.ahead → input.new ≡ input.old }
        ensures past { (e : Ended) → self.old.source.ended ≡ Some e → input.new ≡ input.old }
    {
        let full = self.carried == MOST_LINES;
        match self.source.see(input) {
            Seen::Done => EnvRead::Ended(InputEnd::Whole),
            Seen::Fault => EnvRead::Ended(InputEnd::ReadFault),
            Seen::Over => {
                if full {
                    return EnvRead::Ended(InputEnd::TooMuch);
                }
                EnvRead::Ended(InputEnd::BadLine(self.carried + 1, LineFault::TooLong))
            }
            Seen::Line(count, passed) => {
                let mut line = EnvLine::default();
                let read = read_into(names, self.source.line(count), &mut line);
                self.source.pass(passed);
                if full {
                    return EnvRead::Ended(InputEnd::TooMuch);
                }
                match read {
                    Ok(()) => {
                        self.carried += 1;
                        EnvRead::Line(line)
                    }
                    Err(fault) => EnvRead::Ended(InputEnd::BadLine(self.carried + 1, fault)),
                }
            }
        }
    }
}
