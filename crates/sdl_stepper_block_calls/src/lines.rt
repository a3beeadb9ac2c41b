//! The lines of calls.
use arrayvec::ArrayVec;
use sdl_signal::{InputEnd, LineFault, LineRead, LineSource};
use std::io::Read;

/// Where the reading is, and the number of the latest line, from 1.
#[derive(Drop)]
pub struct Lines {
    source: LineSource,
    pub number: u32,
}

impl Lines {
    pub fn new() -> Lines {
        Lines {
            source: LineSource::new(),
            number: 0,
        }
    }

    /// The next line, or how the input ended.
    pub fn next<R: Read>(&mut self, input: &mut R) -> Result<ArrayVec<u8, 320>, InputEnd> {
        self.number = self.number.saturating_add(1);
        match self.source.next(input) {
            LineRead::Line(line) => Ok(line),
            LineRead::Over => Err(InputEnd::BadLine(self.number, LineFault::TooLong)),
            LineRead::Done => Err(InputEnd::Whole),
            LineRead::Fault => Err(InputEnd::ReadFault),
        }
    }
}

/// The line as a text; one that is none has no word that a call has.
pub fn text_of(line: &ArrayVec<u8, 320>) -> &str {
    match str::from_utf8(line.as_slice()) {
        Ok(text) => text,
        Err(_) => "",
    }
}
