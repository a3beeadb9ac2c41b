//! Where the tables, the keys and the texts of an agents file stand in it.
use sdl_listing_file::{AgentsPart, AgentsPlace};

/// How many heads of tables stand before or at a line: of behaviours, and of groups of states behind the last of these.
#[derive(Clone, Copy, PartialEq, Eq)]
struct Heads {
    behaviours: u32,
    states: u32,
}

impl Heads {
    /// The heads up to the table of the place.
    fn of(place: AgentsPlace) -> Heads {
        match place.part {
            AgentsPart::Agents => Heads {
                behaviours: 0,
                states: 0,
            },
            AgentsPart::Behaviour => Heads {
                behaviours: place.behaviour.saturating_add(1),
                states: 0,
            },
            AgentsPart::State => Heads {
                behaviours: place.behaviour.saturating_add(1),
                states: place.state.saturating_add(1),
            },
        }
    }

    /// The heads up to the next line.
    fn and(self, line: &[u8]) -> Heads {
        let line = line.trim_ascii();
        if line.starts_with(b"[[behaviour]]") {
            Heads {
                behaviours: self.behaviours.saturating_add(1),
                states: 0,
            }
        } else if line.starts_with(b"[[behaviour.state]]") {
            Heads {
                behaviours: self.behaviours,
                states: self.states.saturating_add(1),
            }
        } else {
            self
        }
    }
}

/// The bytes of the file between two places.
#[derive(Clone, Copy)]
pub struct Section {
    pub start: usize,
    pub end: usize,
}

/// From the head of the place's table up to the next one. None where no line has that head.
fn section_of(file: &str, place: AgentsPlace) -> Option<Section> {
    let wanted = Heads::of(place);
    let mut heads = Heads {
        behaviours: 0,
        states: 0,
    };
    let mut start = None;
    let mut next: usize = 0;
    for line in file.as_bytes().split(|byte| *byte == b'\n') {
        heads = heads.and(line);
        match start {
            None if heads == wanted => start = Some(next),
            Some(start) if heads != wanted => return Some(Section { start, end: next }),
            _ => {}
        }
        next = next.saturating_add(line.len()).saturating_add(1);
    }
    Some(Section {
        start: start?,
        end: file.len(),
    })
}

/// The same, and for a group of states without a head the section of its behaviour.
pub fn section_around(file: &str, place: AgentsPlace) -> Option<Section> {
    let own = section_of(file, place);
    let behaviour = AgentsPlace {
        part: AgentsPart::Behaviour,
        ..place
    };
    match place.part {
        AgentsPart::State => own.or(section_of(file, behaviour)),
        _ => own,
    }
}

/// The same, or else the whole file.
fn bounds_of(file: &str, place: AgentsPlace) -> Section {
    match section_around(file, place) {
        Some(section) => section,
        None => Section {
            start: 0,
            end: file.len(),
        },
    }
}

/// How many bytes of the file stand before the text, where it stands in the table of the place as it is, and once.
pub fn place_in_file(file: &str, place: AgentsPlace, text: &str) -> Option<usize> {
    let Section { start, end } = bounds_of(file, place);
    let part = file.get(start..end)?;
    let first = part.find(text)?;
    let behind = first.saturating_add(text.len());
    if text.is_empty() || part.get(behind..)?.find(text).is_some() {
        return None;
    }
    Some(start.saturating_add(first))
}

/// Whether a key ends where this stands behind it.
fn closes_key(behind: &[u8]) -> bool {
    let behind = behind.trim_ascii_start();
    behind.starts_with(b"=") || behind.starts_with(b".") || behind.starts_with(b"]")
}

/// How many bytes of a line stand before its key, where the rest of the line begins with that.
fn before_key(line: &[u8], rest: &[u8], key: &[u8]) -> Option<usize> {
    let behind = rest.strip_prefix(key)?;
    if closes_key(behind) {
        Some(line.len().saturating_sub(rest.len()))
    } else {
        None
    }
}

/// The same for a line that begins with the key, or for a pair in braces.
fn key_in_line(line: &[u8], key: &[u8]) -> Option<usize> {
    before_key(line, line.trim_ascii_start(), key)
}

/// How the head of a table begins that is the value of a key of this part.
fn head_of(part: AgentsPart) -> &'static [u8] {
    match part {
        AgentsPart::Agents => b"",
        AgentsPart::Behaviour => b"behaviour.",
        AgentsPart::State => b"behaviour.state.",
    }
}

/// The same for a line that is such a head.
fn key_in_head(line: &[u8], part: AgentsPart, key: &[u8]) -> Option<usize> {
    let inner = line.trim_ascii_start().strip_prefix(b"[")?;
    let inner = match inner.strip_prefix(b"[") {
        Some(inner) => inner,
        None => inner,
    };
    before_key(line, inner.strip_prefix(head_of(part))?, key)
}

/// How many bytes of the file stand before the key of the table with this part and this section: at the begin of a line there, or in a
/// head there or behind it.
fn key_in_lines(file: &str, section: Section, part: AgentsPart, key: &[u8]) -> Option<usize> {
    let mut next: usize = 0;
    for line in file.as_bytes().split(|byte| *byte == b'\n') {
        let found = if next < section.start {
            None
        } else if next < section.end {
            key_in_line(line, key).or(key_in_head(line, part, key))
        } else {
            key_in_head(line, part, key)
        };
        if let Some(before) = found {
            return Some(next.saturating_add(before));
        }
        next = next.saturating_add(line.len()).saturating_add(1);
    }
    None
}

/// The same for a table in braces, where no other table in this section has the key.
fn key_in_braces(file: &str, section: Section, key: &[u8]) -> Option<usize> {
    let mut found = None;
    let mut next = section.start;
    let part = file.get(section.start..section.end)?;
    for piece in part.as_bytes().split(|byte| begins_pair(*byte)) {
        if let Some(before) = key_in_line(piece, key) {
            if found.is_some() {
                return None;
            }
            found = Some(next.saturating_add(before));
        }
        next = next.saturating_add(piece.len()).saturating_add(1);
    }
    found
}

/// Whether a key may stand behind the byte.
fn begins_pair(byte: u8) -> bool {
    byte == b'{' || byte == b',' || byte == b'\n'
}

/// How many bytes of the file stand before the key of the table of the place.
pub fn key_in_file(file: &str, place: AgentsPlace, key: &str) -> Option<usize> {
    match section_of(file, place) {
        Some(section) => key_in_lines(file, section, place.part, key.as_bytes()),
        None => key_in_braces(file, bounds_of(file, place), key.as_bytes()),
    }
}

/// How many bytes of the file stand before the word, where it stands in quotes in the table of the place, at its key or behind it. So
/// many of the same are passed over.
pub fn word_in_file(file: &str, place: AgentsPlace, word: &str, passed: usize) -> Option<usize> {
    let Section { start, end } = bounds_of(file, place);
    let mut next = match key_in_file(file, place, place.key.text()) {
        Some(before) => before,
        None => start,
    };
    let mut left = passed;
    let part = file.get(next..end)?;
    for piece in part.as_bytes().split(|byte| is_quote(*byte)) {
        if piece == word.as_bytes() {
            if left == 0 {
                return Some(next);
            }
            left -= 1;
        }
        next = next.saturating_add(piece.len()).saturating_add(1);
    }
    None
}

fn is_quote(byte: u8) -> bool {
    byte == b'"' || byte == b'\''
}
