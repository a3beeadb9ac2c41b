//! Lines, written.
ghost use Rattle.std.specs.Prelude.{◌≡◌, ◌≤◌, take, length};
ghost use Rattle.std.specs.Io.KnownBytes.{Appends};
ghost use Rattle.sdl_signal_lines.specs.Bytes.{IsWritten};

use crate::ahead::RETRIES;
use arrayvec::ArrayVec;
use std::io::{ErrorKind, Write};
use std::marker::Model;

/// How many bytes, a line's newline among them, are handed to a writer at once.
const MOST_AT_ONCE: usize = 256;

/// What the writing of a line came to.
#[derive(Clone, Copy, Debug, PartialEq, Eq)]
pub enum Written {
    /// The line and a newline went out.
    Whole,
    /// Exactly this many of their first bytes went out: the writer failed, took no byte, or was interrupted
    /// more often than is tried again.
    Fault(usize),
}

/// Writes lines. Interrupted writes are tried again, 1,000 over the life of the sink. Contracts see how many were.
#[derive(Drop)]
pub struct LineSink {
    interrupted: u32,
}

impl Model for LineSink {
    ghost use Rattle.std.specs.Prelude.{◌≤◌};
    ghost use Rattle.sdl_signal_lines.specs.Sink.{Sink};

    ghost Value = { Sink };

    ghost view = { λ s. record { interrupted = s.interrupted } };

    ghost invariant = { λ s. s.interrupted ≤ 1000 };
}

impl LineSink {
    pub fn new() -> Self
        ensures { result ≡ record { interrupted = 0 } }
    {
        LineSink { interrupted: 0 }
    }

    /// Writes the line and a newline. A write that takes no byte is a fault. After a fault further lines may
    /// be written, each behind what went out.
    pub fn write<W: Write>(&mut self, output: &mut W, line: &[u8]) -> Written
        ensures retries { self.old.interrupted ≤ self.new.interrupted }
        ensures few { self.new.interrupted ≤ 1000 }
        ensures written { IsWritten (W.contents output.old) (W.contents output.new) line.now result }
    {
        if line.len() >= MOST_AT_ONCE {
            return self.write_apart(output, line);
        }
        let mut ended = ArrayVec::<u8, MOST_AT_ONCE>::new();
        let _fits = ended.try_extend_from_slice(line);
        ended.push(b'\n');
        let sent = self.write_bytes(output, &ended);
        if sent < ended.len() {
            return Written::Fault(sent);
        }
        Written::Whole
    }

    /// The same of a line of any length, whose newline is written by itself.
    fn write_apart<W: Write>(&mut self, output: &mut W, line: &[u8]) -> Written
        ensures retries { self.old.interrupted ≤ self.new.interrupted }
        ensures few { self.new.interrupted ≤ 1000 }
        ensures written { IsWritten (W.contents output.old) (W.contents output.new) line.now result }
    {
        let sent = self.write_bytes(output, line);
        if sent < line.len() {
            return Written::Fault(sent);
        }
        if self.write_bytes(output, b"\n") == 0 {
            return Written::Fault(sent);
        }
        Written::Whole
    }

    /// Writes the bytes, or as many of them as go out, and answers how many went.
    fn write_bytes<W: Write>(&mut self, output: &mut W, bytes: &[u8]) -> usize
        ensures retries { self.old.interrupted ≤ self.new.interrupted }
        ensures few { self.new.interrupted ≤ 1000 }
        ensures count { result ≤ length bytes.now }
        ensures bytes { Appends (W.contents output.old) (W.contents output.new) (take result bytes.now) }
    {
        let mut sent = 0;
        while sent < bytes.len() {
            match output.write(&bytes[sent..]) {
                Ok(0) => return sent,
                Ok(n) => sent += n,
                Err(e) if e.kind() == ErrorKind::Interrupted && self.interrupted < RETRIES => {
                    self.interrupted += 1;
                }
                Err(_) => return sent,
            }
        }
        sent
    }
}

/// Writes the line and a newline, as a sink of its own does: interrupted writes are counted for this call
/// alone.
pub fn write_line<W: Write>(output: &mut W, line: &[u8]) -> Written
    ensures { IsWritten (W.contents output.old) (W.contents output.new) line.now result }
{
    LineSink::new().write(output, line)
}
