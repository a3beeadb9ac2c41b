//! The lines of an input.
ghost use Rattle.std.specs.Prelude.{◌≡◌, ◌≢◌, ◌≤◌, ◌<◌, ◌+◌, ℕ, true, false, [], ◌∷◌, ◌++◌, length, take, drop, Some, None, IfSome, IfNone, slice_index};
ghost use Rattle.sdl_signal_lines.specs.Bytes.{newline, HasNoNewline};
ghost use Rattle.sdl_signal_lines.specs.Source.{HoldsLine, CanPass, IsNextLine, IsWaitingLine, IsLastLine, last_answer, line_read, passed_over, to_come};

use crate::ahead::{Ahead, BlockRead};
use arrayvec::ArrayVec;
use std::io::Read;
use std::marker::Model;

/// The bytes of the longest line, without its newline.
pub const LONGEST_LINE: usize = 320;

/// What a source of lines answers.
#[derive(Debug, PartialEq, Eq, Drop)]
pub enum LineRead {
    /// The next line, without its newline.
    Line(ArrayVec<u8, 320>),
    /// The next line is over 320 bytes. This is told as soon as 321 of its bytes were read.
    Over,
    /// The input has ended.
    Done,
    /// The reader failed, or more than 1,000 reads were interrupted over the life of the source.
    Fault,
}

/// What comes next in a source, where a line still stands in it.
#[derive(Clone, Copy)]
pub enum Seen {
    /// A line of this many bytes, and how many are to be passed with it: its newline too, where it has one.
    Line(usize, usize),
    Over,
    Done,
    Fault,
}

/// What the bytes that wait in a source come to.
#[derive(Clone, Copy)]
enum Waiting {
    /// A line of this many bytes, which a newline ends.
    Line(usize),
    /// A line that is too long.
    Over,
    /// No whole line.
    Part,
}

/// How a source of lines ended.
#[derive(Clone, Copy, Debug, PartialEq, Eq)]
pub enum Ended {
    Over,
    Done,
    Fault,
}

/// Reads an input line by line. It asks the reader for blocks, so how many bytes past the last line were
/// taken from the reader is left open.
#[derive(Drop)]
pub struct LineSource {
    ahead: Ahead,
    ended: Option<Ended>,
}

impl Model for LineSource {
    ghost use Rattle.sdl_signal_lines.specs.Source.{Source};

    ghost Value = { Source };

    ghost view = { λ s. record { ahead = s.ahead; ended = s.ended } };
}

impl LineSource {
    pub fn new() -> Self
        ensures { result ≡ record { ahead = []; ended = None } }
    {
        LineSource {
            ahead: Ahead::new(),
            ended: None,
        }
    }

    /// The next line. After any other answer it is the same for ever. Where the input has ended, and where a whole line or
    /// 321 bytes of one wait, nothing more is read.
    pub fn next<R: Read>(&mut self, input: &mut R) -> LineRead
        ensures next { self.old.ended ≡ None
            → IsNextLine (to_come self.old (R.remaining input.old)) (to_come self.new (R.remaining input.new)) self.new result }
        ensures unread { self.old.ended ≡ None → HoldsLine self.old.ahead → input.new ≡ input.old }
        ensures ended { (e : _) → self.old.ended ≡ Some e
            → (result ≡ last_answer e) × (self.new ≡ self.old) × (input.new ≡ input.old) }
    {
        match self.see(input) {
            Seen::Line(count, passed) => {
                let line = line_copy(self.line(count));
                self.pass(passed);
                LineRead::Line(line)
            }
            Seen::Over => LineRead::Over,
            Seen::Done => LineRead::Done,
            Seen::Fault => LineRead::Fault,
        }
    }

    /// The same, but that a line is not yet passed.
    #[inline(always)]
    pub fn see<R: Read>(&mut self, input: &mut R) -> Seen
        ensures within { CanPass self.new result }
        ensures next { self.old.ended ≡ None
            → IsNextLine (to_come self.old (R.remaining input.old)) (to_come (passed_over self.new result) (R.remaining input.new)) (passed_over self.new result) (line_read self.new result) }
        ensures unread { self.old.ended ≡ None → HoldsLine self.old.ahead → input.new ≡ input.old }
        ensures ended { (e : _) → self.old.ended ≡ Some e
            → (line_read self.new result ≡ last_answer e) × (self.new ≡ self.old) × (input.new ≡ input.old) }
    {
        match self.ended {
            Some(Ended::Over) => Seen::Over,
            Some(Ended::Done) => Seen::Done,
            Some(Ended::Fault) => Seen::Fault,
            None => self.see_open(input),
        }
    }

    /// The first bytes that wait.
    #[inline(always)]
    pub fn line(&self, count: usize) -> &[u8]
        requires { count ≤ length self.now.ahead }
        ensures { result.now ≡ take count self.now.ahead }
    {
        &self.ahead.as_slice()[..count]
    }

    /// Passes over the first bytes that wait.
    #[inline(always)]
    pub fn pass(&mut self, count: usize)
        requires { count ≤ length self.old.ahead }
        ensures { self.new ≡ record self.old { ahead = drop count self.old.ahead } }
    {
        self.ahead.consume(count);
    }

    /// Whether the next line is told without asking the reader: the input has ended, or a whole line or 321 bytes of one wait.
    pub fn is_ready(&self) -> bool
        ensures ready { result ≡ true → self.now.ended ≡ None → HoldsLine self.now.ahead }
        ensures asks { result ≡ false → (self.now.ended ≡ None) × HasNoNewline self.now.ahead × (length self.now.ahead ≤ 320) }
    {
        let waiting = self.ahead.as_slice();
        let shown = waiting.len().min(LONGEST_LINE + 1);
        self.ended.is_some() || shown > LONGEST_LINE || newline_place(&waiting[..shown]).is_some()
    }

    #[inline(always)]
    fn see_open<R: Read>(&mut self, input: &mut R) -> Seen
        requires { self.old.ended ≡ None }
        ensures within { CanPass self.new result }
        ensures unread { HoldsLine self.old.ahead → input.new ≡ input.old }
        ensures next { IsNextLine (to_come self.old (R.remaining input.old)) (to_come (passed_over self.new result) (R.remaining input.new)) (passed_over self.new result) (line_read self.new result) }
    {
        loop {
            match self.waiting() {
                Waiting::Line(count) => return Seen::Line(count, count + 1),
                Waiting::Over => {
                    self.ended = Some(Ended::Over);
                    return Seen::Over;
                }
                Waiting::Part => {}
            }
            match self.ahead.fill(input) {
                BlockRead::Bytes(_) => {}
                BlockRead::End => return self.last_line(),
                BlockRead::Fault => {
                    self.ended = Some(Ended::Fault);
                    return Seen::Fault;
                }
            }
        }
    }

    /// The first line of the bytes that wait, where they have a whole one, or that it is too long.
    #[inline(always)]
    fn waiting(&self) -> Waiting
        ensures { IsWaitingLine self.now.ahead result }
    {
        let waiting = self.ahead.as_slice();
        let shown = waiting.len().min(LONGEST_LINE + 1);
        match newline_place(&waiting[..shown]) {
            Some(place) => Waiting::Line(place),
            None if shown > LONGEST_LINE => Waiting::Over,
            None => Waiting::Part,
        }
    }

    /// What the bytes that wait come to where the input has ended: a last line, or nothing.
    fn last_line(&mut self) -> Seen
        requires open { self.old.ended ≡ None }
        ensures { IsLastLine self.old self.new result }
    {
        self.ended = Some(Ended::Done);
        let count = self.ahead.as_slice().len();
        if count == 0 {
            return Seen::Done;
        }
        Seen::Line(count, count)
    }
}

/// The place of the first newline.
fn newline_place(bytes: &[u8]) -> Option<usize>
    ensures found { IfSome result (λ k. k < length bytes.now) }
    ensures newline { IfSome result (λ k. slice_index bytes.now k ≡ newline) }
    ensures before { IfSome result (λ k. (j : ℕ) → j < k → slice_index bytes.now j ≢ newline) }
    ensures none { IfNone result ((j : ℕ) → j < length bytes.now → slice_index bytes.now j ≢ newline) }
{
    bytes.iter().position(|b| *b == b'\n')
}

/// A line's bytes, copied.
fn line_copy(bytes: &[u8]) -> ArrayVec<u8, 320>
    requires { length bytes.now ≤ 320 }
    ensures { result.items ≡ bytes.now }
{
    let mut line = ArrayVec::new();
    let _fits = line.try_extend_from_slice(bytes);
    line
}
