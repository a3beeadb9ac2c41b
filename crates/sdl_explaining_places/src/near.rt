//! The right word that is nearest to a wrong one.
use std::alloc::Global;
use strsim::osa_distance;

/// A longer word is near to none, and none to it: two names with a dot between them have 65 bytes.
const LONGEST: usize = 80;

/// In a longer word two changes may lead to a near one, in others one.
const SHORT: usize = 5;

/// A begin of a word with fewer bytes is not short for it.
const SHORTEST: usize = 3;

/// The nearest of the words that were seen: the one to which the fewest changes lead, and of several such the first. A change puts a
/// character in, leaves one out, replaces one, or exchanges two that stand side by side. From a word to another it is one at most where
/// one of them is the other's begin, whether in small letters or in capitals.
#[derive(Clone, Copy)]
pub struct Nearest<'a> {
    alloc: Global,
    word: &'a str,
    found: Option<&'a str>,
    /// A word is nearer to which fewer changes lead.
    below: usize,
}

/// Whether one of the two is the other's begin, and has some letters.
fn begin_alike(word: &str, other: &str) -> bool {
    let size = word.len().min(other.len());
    match (word.as_bytes().get(..size), other.as_bytes().get(..size)) {
        (Some(word), Some(other)) => size >= SHORTEST && word.eq_ignore_ascii_case(other),
        _ => false,
    }
}

/// How many changes at most lead from the word to a near one.
fn changes_in(word: &str) -> usize {
    match word.len() {
        0 => 0,
        1..=SHORT => 1,
        _ => 2,
    }
}

impl<'a> Nearest<'a> {
    /// No word is near yet.
    pub fn to(alloc: Global, word: &'a str) -> Nearest<'a> {
        Nearest {
            alloc,
            word,
            found: None,
            below: changes_in(word).saturating_add(1),
        }
    }

    /// Takes the other word, where it is nearer than those before it. The word itself is not near. Where memory is refused, none is.
    pub fn see(&mut self, other: &'a str) {
        if self.word.len() > LONGEST || other.len() > LONGEST {
            return;
        }
        if let Ok(changes) = osa_distance(self.alloc, self.word, other) {
            let changes = if begin_alike(self.word, other) {
                changes.min(1)
            } else {
                changes
            };
            if changes > 0 && changes < self.below {
                self.below = changes;
                self.found = Some(other);
            }
        }
    }

    pub fn found(&self) -> Option<&'a str> {
        self.found
    }
}

/// The nearest of the texts.
pub fn nearest_of<'a>(alloc: Global, word: &'a str, texts: &'a [String]) -> Option<&'a str> {
    let mut nearest = Nearest::to(alloc, word);
    for text in texts {
        nearest.see(text.as_str());
    }
    nearest.found()
}
