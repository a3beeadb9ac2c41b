//! Where the answers of calls are written.
use std::io::Write;

/// Where answers are written. Once a write failed, nothing more is written, and whoever reads the calls stops.
#[derive(Drop)]
pub struct Answers<'a, W> {
    output: &'a mut W,
    has_failed: bool,
}

impl<'a, W: Write> Answers<'a, W> {
    pub fn new(output: &'a mut W) -> Answers<'a, W> {
        Answers {
            output,
            has_failed: false,
        }
    }

    /// Whether a write failed.
    pub fn have_failed(&self) -> bool {
        self.has_failed
    }

    /// Writes a text.
    pub fn text(&mut self, text: &str) {
        if !self.has_failed {
            self.has_failed = self.output.write_all(text.as_bytes()).is_err();
        }
    }

    /// Writes a text, and ends the line.
    pub fn line(&mut self, text: &str) {
        self.text(text);
        self.text("\n");
    }

    /// Writes a number.
    pub fn number(&mut self, number: u64) {
        if !self.has_failed {
            self.has_failed = write!(self.output, "{number}").is_err();
        }
    }

    /// Writes a number, and ends the line.
    pub fn number_line(&mut self, number: u64) {
        self.number(number);
        self.text("\n");
    }

    /// Writes an Integer.
    pub fn integer(&mut self, integer: i64) {
        if !self.has_failed {
            self.has_failed = write!(self.output, "{integer}").is_err();
        }
    }
}
