//! Where in the file a fault is, and the line that tells it.
use crate::details::Detail;
use crate::sections::{key_in_file, section_around, word_in_file};
use sdl_listing_body_text::position_of;
use sdl_listing_file::AgentsPlace;
use std::fmt;
use std::fmt::{Display, Formatter};

/// A place of the file, as it is told.
#[derive(Clone, Copy)]
pub enum Spot {
    File,
    /// In the table whose head stands at this line.
    Table(usize),
    /// At this line and column.
    At(usize, usize),
}

impl Display for Spot {
    fn fmt<W: fmt::Write>(&self, f: &mut Formatter<W>) -> fmt::Result {
        match *self {
            Spot::File => write!(f, "in the file"),
            Spot::Table(line) => write!(f, "in the table at line {line} of the file"),
            Spot::At(line, column) => write!(f, "line {line} column {column} of the file"),
        }
    }
}

/// The second line of a fault.
#[derive(Clone, Copy)]
pub struct Told<'a> {
    pub spot: Spot,
    pub detail: Detail<'a>,
}

impl Display for Told<'_> {
    fn fmt<W: fmt::Write>(&self, f: &mut Formatter<W>) -> fmt::Result {
        self.spot.fmt(f)?;
        self.detail.fmt(f)
    }
}

/// The line and the column of the byte behind so many of the file.
pub fn spot_at(file: &str, before: usize) -> Spot {
    let position = position_of(file.as_bytes(), before.min(file.len()));
    Spot::At(position.line, position.column)
}

/// In which table of the file a fault is.
pub fn spot_of_table(file: &str, place: AgentsPlace) -> Spot {
    match section_around(file, place) {
        Some(section) => {
            let line = position_of(file.as_bytes(), section.start.min(file.len())).line;
            Spot::Table(line)
        }
        None => Spot::File,
    }
}

/// Where the key stands in the table of the place.
pub fn spot_of_key(file: &str, place: AgentsPlace, key: &str) -> Spot {
    match key_in_file(file, place, key) {
        Some(before) => spot_at(file, before),
        None => spot_of_table(file, place),
    }
}

/// Where the word stands in quotes at the key of the place, behind so many of the same.
pub fn spot_of_word(file: &str, place: AgentsPlace, word: &str, passed: usize) -> Spot {
    match word_in_file(file, place, word, passed) {
        Some(before) => spot_at(file, before),
        None => spot_of_key(file, place, place.key.text()),
    }
}
