//! Lines on standard error.
use arrayvec::ArrayString;
use std::fmt::{Display, Write};
use std::io;

/// The most bytes of a line with its newline. The longest of `sdlrun` has some 30 bytes of words and four names of 32 bytes each;
/// the names in a design's own faults are as long as its author likes.
const LONGEST_ERROR: usize = 256;

/// The most bytes of a line before two dots and a newline.
const LONGEST_TEXT: usize = 253;

/// Writes the text as one line. It is composed first and then handed to the writer whole, so that the lines of two programs on
/// one standard error do not mix. Where a part of the text, as a name, has no room in it, two dots stand in its place and in
/// that of all that follows. A line that the writer does not take is dropped.
pub fn write_error<E: io::Write, D: Display + Drop>(errors: &mut E, text: D) {
    let mut front = ArrayString::<LONGEST_TEXT>::new();
    let rest = match write!(front, "{text}") {
        Ok(()) => "",
        Err(_) => "..",
    };
    let mut line = ArrayString::<LONGEST_ERROR>::new();
    if writeln!(line, "{front}{rest}").is_ok() {
        let _ = errors.write_all(line.as_str().as_bytes());
    }
}

/// Says that memory was refused.
pub fn without_memory<E: io::Write>(errors: &mut E) {
    write_error(errors, "memory");
}
