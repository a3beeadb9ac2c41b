//! A call as it was read.
use crate::answers::Answers;
use std::alloc::{AllocError, Global};
use std::io::Write;

/// A call: the words of a line, and the line's number from 1.
#[derive(Clone, Copy)]
pub struct Call<'a> {
    pub words: &'a [&'a str],
    pub line: u32,
}

/// The words of a line, cut at each space.
pub fn words_of(alloc: Global, line: &str) -> Result<Vec<&str>, AllocError> {
    let mut words = Vec::new(alloc);
    for word in line.split(' ') {
        words.push(word)?;
    }
    Ok(words)
}

/// Answers a call that was not understood with what was meant.
pub fn write_meant<W: Write>(answers: &mut Answers<W>, line: u32, meant: &str) {
    answers.text("line ");
    answers.number(line as u64);
    answers.text(": ");
    answers.line(meant);
}
