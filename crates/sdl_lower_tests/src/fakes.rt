//! A reader and a writer that are interrupted, and that fail once.
ghost use Rattle.std.specs.Prelude.{◌≤◌, length};

use std::alloc::Global;
use std::io;
use std::io::{ErrorKind, Read, Write};

/// Gives the bytes before, fails or ends once where it is to, and then gives the bytes after.
#[derive(Drop)]
pub struct Reading<'a> {
    pub before: &'a [u8],
    pub failure: Option<ErrorKind>,
    pub ends: bool,
    pub after: &'a [u8],
    /// How many bytes it gives at once.
    pub most: usize,
    /// How many interruptions come first, and how many between one read and the next.
    pub waits: u32,
    pub each: u32,
    /// How often it was asked.
    pub asked: u32,
}

/// Gives the text whole, and then ends.
pub fn reader_of(text: &[u8]) -> Reading<'_> {
    Reading {
        before: text,
        failure: None,
        ends: false,
        after: b"",
        most: usize::MAX,
        waits: 0,
        each: 0,
        asked: 0,
    }
}

/// Gives as many of the bytes as the buffer takes, and no more than so many.
fn give(left: &mut &[u8], buffer: &mut [u8], most: usize) -> usize
    ensures { result ≤ length buffer.old }
{
    let bytes = *left;
    let count = bytes.len().min(buffer.len()).min(most);
    buffer[..count].copy_from_slice(&bytes[..count]);
    *left = &bytes[count..];
    count
}

impl Read for Reading<'_> {
    fn read(&mut self, buffer: &mut [u8]) -> io::Result<usize> {
        self.asked = self.asked.saturating_add(1);
        if self.waits > 0 {
            self.waits -= 1;
            return Err(io::Error::from(ErrorKind::Interrupted));
        }
        self.waits = self.each;
        let most = self.most;
        if !self.before.is_empty() {
            return Ok(give(&mut self.before, buffer, most));
        }
        if let Some(kind) = self.failure.take() {
            return Err(io::Error::from(kind));
        }
        if self.ends {
            self.ends = false;
            return Ok(0);
        }
        Ok(give(&mut self.after, buffer, most))
    }
}

/// Takes bytes up to a place, fails there once, and then takes all.
#[derive(Drop)]
pub struct Writing {
    pub taken: Vec<u8>,
    pub place: usize,
    /// What it answers there: an error, or, where none is given, that it took nothing.
    pub failure: Option<ErrorKind>,
    /// How many bytes it takes at once.
    pub most: usize,
    /// How many interruptions come first, and how many between one write and the next.
    pub waits: u32,
    pub each: u32,
    /// How often it was called.
    pub calls: u32,
}

/// Takes all that it is given.
pub fn writer_of(alloc: Global) -> Writing {
    Writing {
        taken: Vec::new(alloc),
        place: usize::MAX,
        failure: None,
        most: usize::MAX,
        waits: 0,
        each: 0,
        calls: 0,
    }
}

impl Write for Writing {
    fn write(&mut self, buffer: &[u8]) -> io::Result<usize> {
        self.calls = self.calls.saturating_add(1);
        if self.waits > 0 {
            self.waits -= 1;
            return Err(io::Error::from(ErrorKind::Interrupted));
        }
        self.waits = self.each;
        let count = self.place.min(buffer.len()).min(self.most);
        if count == 0 {
            self.place = usize::MAX;
            return match self.failure {
                Some(kind) => Err(io::Error::from(kind)),
                None => Ok(0),
            };
        }
        self.taken.extend_from_slice(&buffer[..count])?;
        self.place -= count;
        Ok(count)
    }

    fn flush(&mut self) -> io::Result<()> {
        Ok(())
    }
}
