//! How wide texts are, and how a list of signals is cut into rows. (Widths are those of a common sans-serif letter, on average.)
ghost use Rattle.std.specs.Prelude.{◌≤◌, ◌<◌, length};

use sdl_signal::SignalId;
use sdl_structure_parts::{Channel, End, Side, Structure};

/// The most characters of a row, unless one signal alone has more.
pub(crate) const ROW_LETTERS: usize = 30;

/// The width of ten letters of a title.
const TEN_TITLE_LETTERS: usize = 70;

/// The width of ten letters of a gate's name.
const TEN_NAME_LETTERS: usize = 57;

/// From a gate's box to the texts of an end, where the gate's name does not reach further.
pub(crate) const TEXT_GAP: usize = 36;

/// What the name of a gate has around it, from the gate's box to the texts of an end.
const NAME_GAP: usize = 9;

/// How many rows a list has, and how many characters the longest of them.
#[derive(Clone, Copy)]
pub(crate) struct ListSize {
    pub rows: usize,
    pub letters: usize,
}

/// How many letters the name of a signal has.
fn letters_of(structure: &Structure, signal: SignalId) -> usize {
    match structure.signals().get(signal.0 as usize) {
        Some(signal) => signal.name.as_str().len(),
        None => 0,
    }
}

/// The place behind the row of a list that begins at this place. A row holds as many signals as so many characters take, and at
/// least one. It begins with a bracket or a space, each name has a comma or a bracket behind it, and a space stands between two.
pub fn row_end(structure: &Structure, signals: &[SignalId], from: usize, most: usize) -> usize
    ensures whole { result ≤ length signals.now }
    ensures some { from < length signals.now → from < result }
{
    let mut letters: usize = 1;
    for place in from..signals.len() {
        let with_this = letters.saturating_add(letters_of(structure, signals[place]));
        if place > from && with_this >= most {
            return place;
        }
        letters = with_this.saturating_add(2);
    }
    signals.len()
}

/// How many characters a row has. A space ends each row but the last, and counts.
fn row_letters(structure: &Structure, signals: &[SignalId], from: usize, end: usize) -> usize {
    let mut letters: usize = if end < signals.len() { 1 } else { 0 };
    for signal in signals.iter().take(end).skip(from) {
        letters = letters
            .saturating_add(letters_of(structure, *signal))
            .saturating_add(2);
    }
    letters
}

/// The size of a list.
pub(crate) fn list_size(structure: &Structure, signals: &[SignalId]) -> ListSize {
    let mut size = ListSize {
        rows: 0,
        letters: 0,
    };
    let mut from = 0;
    while from < signals.len() {
        let end = row_end(structure, signals, from, ROW_LETTERS);
        size.rows = size.rows.saturating_add(1);
        size.letters = size.letters.max(row_letters(structure, signals, from, end));
        from = end;
    }
    size
}

/// The size of the list that arrives at the first end of a channel.
pub(crate) fn first_list(structure: &Structure, channel: &Channel) -> ListSize {
    list_size(structure, channel.back.as_slice())
}

/// The size of the list that arrives at the second end of a channel.
pub(crate) fn second_list(structure: &Structure, channel: &Channel) -> ListSize {
    list_size(structure, channel.forth.as_slice())
}

/// The width of a title of so many letters.
pub(crate) fn title_width(letters: usize) -> usize {
    letters.saturating_mul(TEN_TITLE_LETTERS) / 10
}

/// The width of a gate's name of so many letters, rounded to the nearest pixel.
pub(crate) fn name_width(letters: usize) -> usize {
    letters.saturating_mul(TEN_NAME_LETTERS).saturating_add(5) / 10
}

/// How far from the box of its gate the texts of an end stand. At an inner side the gate's name stands before them.
pub(crate) fn text_gap(structure: &Structure, end: End) -> usize {
    match (end.side, structure.gates().get(end.gate.0 as usize)) {
        (Side::Inner, Some(gate)) => name_width(gate.name.as_str().len())
            .saturating_add(NAME_GAP)
            .max(TEXT_GAP),
        _ => TEXT_GAP,
    }
}

/// How many digits a number of at most four has.
pub(crate) fn digits(number: u32) -> usize {
    if number < 10 {
        1
    } else if number < 100 {
        2
    } else if number < 1000 {
        3
    } else {
        4
    }
}
