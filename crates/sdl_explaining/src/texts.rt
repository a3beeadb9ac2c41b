//! What a second line says.
use crate::keys::Takes;
use sdl_structure::Key;
use std::fmt;
use std::fmt::{Display, Formatter};

/// The most characters of a text of the file that are printed.
const MOST_SHOWN: usize = 40;

/// A text of the file as it is printed: two dots stand for what is behind the first characters, and `?` for what is no visible ASCII.
#[derive(Clone, Copy)]
pub(crate) struct Shown<'a>(pub &'a str);

impl<'a> Display for Shown<'a> {
    fn fmt<W: fmt::Write>(&self, f: &mut Formatter<W>) -> fmt::Result {
        let mut room = MOST_SHOWN;
        for c in self.0.chars() {
            if room == 0 {
                return f.write_str("..");
            }
            room -= 1;
            f.write_char(visible(c))?;
        }
        Ok(())
    }
}

/// The character where it is visible.
fn visible(c: char) -> char {
    match c {
        '!'..='~' => c,
        _ => '?',
    }
}

/// Where in the file something is wrong.
#[derive(Clone, Copy)]
pub(crate) enum Site {
    /// In the table whose head stands behind so many bytes.
    Table(usize),
    /// Behind so many bytes.
    At(usize),
}

/// What is wrong there, and what would be right.
#[derive(Clone, Copy)]
pub(crate) enum Why<'a> {
    /// The table lacks a key, and has one near to it that it may not have.
    Lacks(Key, Option<&'a str>),
    /// The key takes values of another kind.
    Takes(Key),
    /// The table may not have the key, and may have one that is near.
    NoKey(&'a str, Option<&'a str>),
    NoName(&'a str),
    NoEnd(&'a str),
    /// The same stands in another line too.
    There(&'a str, usize),
    /// Nothing that the key names has the name, and something has one that is near.
    Unknown(Key, &'a str, Option<&'a str>),
    /// The list may have no more.
    AtMost(usize),
    /// There may be no more of them in the whole file.
    AtMostInAll(usize),
    TooDeep,
    /// The number is not in the range of its key.
    OutOfRange(i64, i64, i64),
    Empty,
    /// A block has neither sets nor blocks.
    Childless,
    TwoEnds,
}

/// The right word that is near, where there is one.
#[derive(Clone, Copy)]
struct Near<'a>(Option<&'a str>);

impl<'a> Display for Near<'a> {
    fn fmt<W: fmt::Write>(&self, f: &mut Formatter<W>) -> fmt::Result {
        match self.0 {
            Some(text) => {
                let shown = Shown(text);
                write!(f, "; {shown} is near")
            }
            None => Ok(()),
        }
    }
}

impl<'a> Display for Why<'a> {
    fn fmt<W: fmt::Write>(&self, f: &mut Formatter<W>) -> fmt::Result {
        match *self {
            Why::Lacks(key, near) => {
                let (key, near) = (key.text(), Near(near));
                write!(f, "{key} is expected{near}")
            }
            Why::Takes(key) => {
                let kind = Takes::of(key).text();
                write!(f, "{kind} is expected")
            }
            Why::NoKey(text, near) => {
                let (shown, near) = (Shown(text), Near(near));
                write!(f, "no key {shown}{near}")
            }
            Why::NoName(text) => {
                let shown = Shown(text);
                write!(f, "{shown} is no name")
            }
            Why::NoEnd(text) => {
                let shown = Shown(text);
                write!(f, "{shown} is no AGENT.GATE")
            }
            Why::There(text, line) => {
                let shown = Shown(text);
                write!(f, "{shown} is there already, in line {line}")
            }
            Why::Unknown(key, text, near) => {
                let (word, shown, near) = (word_of(key), Shown(text), Near(near));
                write!(f, "no {word} {shown}{near}")
            }
            other => write_limit(f, other),
        }
    }
}

/// What the key names.
fn word_of(key: Key) -> &'static str {
    match key {
        Key::Sorts => "sort",
        Key::Ends => "end",
        _ => "signal",
    }
}

/// Writes what is beyond a limit.
fn write_limit<'a, W: fmt::Write>(f: &mut Formatter<W>, why: Why<'a>) -> fmt::Result {
    match why {
        Why::AtMost(most) => write!(f, "at most {most} here"),
        Why::AtMostInAll(most) => write!(f, "at most {most} in all"),
        Why::TooDeep => f.write_str("a block lies at most four deep"),
        Why::OutOfRange(number, least, greatest) => {
            write!(f, "{number} is not from {least} to {greatest}")
        }
        Why::Empty => f.write_str("one at least is expected"),
        Why::Childless => f.write_str("a set or a block is expected"),
        Why::TwoEnds => f.write_str("two ends are expected"),
        _ => Ok(()),
    }
}
