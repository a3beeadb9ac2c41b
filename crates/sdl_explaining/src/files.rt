//! Where a file breaks one of the rules of structure files.
use crate::keys::{Takes, key_named, keys_of};
use crate::names::{ends_of, share_names, signal_names};
use crate::spots::{Head, WrittenAt, line_at};
use crate::texts::{Site, Why};
use sdl_explaining_places::{Said, nearest_of};
use sdl_structure::{FileFault, Key, Part, Place};
use sdl_structure_parts::limits::{
    MOST_BLOCKS, MOST_BLOCKS_OF_VERSION_1, MOST_BUDGET, MOST_CHANNELS, MOST_DEPTH, MOST_GATES,
    MOST_INSTANCES, MOST_PARAMETERS, MOST_SETS, MOST_SIGNALS,
};
use std::alloc::{AllocError, Global};

/// How many wrong keys of a table are compared with one that it lacks.
const MOST_COMPARED: usize = 64;

/// Where in a file something is wrong, and what.
#[derive(Clone, Copy)]
pub(crate) struct Finding<'a> {
    pub site: Site,
    pub why: Why<'a>,
}

/// Finds what is wrong in a file at the place of a fault. `right` are right names, of which one that is near to the wrong one is told.
#[derive(Clone, Copy)]
pub(crate) struct Finder<'a> {
    pub alloc: Global,
    pub file: &'a [u8],
    pub heads: &'a [Head],
    pub writings: &'a [WrittenAt<'a>],
    pub right: &'a [String],
}

/// The names that are right at the place of a fault; where a key is missing, the keys that its table has and may not have.
pub(crate) fn right_names(
    alloc: Global,
    writings: &[WrittenAt],
    fault: FileFault,
) -> Result<Vec<String>, AllocError> {
    match fault {
        FileFault::MissingKey(place) => wrong_keys(alloc, writings, place),
        FileFault::UnknownKey(place) => key_texts(alloc, keys_of(place.part, nests(writings))),
        FileFault::UnknownName(place) => match place.key {
            Key::Sorts => sort_texts(alloc),
            Key::Ends => ends_of(alloc, writings, place),
            _ => signal_names(alloc, writings),
        },
        _ => Ok(Vec::new(alloc)),
    }
}

/// Whether both places are in one table.
fn are_together(one: Place, other: Place) -> bool {
    let other = Place {
        key: one.key,
        ..other
    };
    one == other
}

/// Whether blocks may have blocks in them.
fn nests(writings: &[WrittenAt]) -> bool {
    for writing in writings {
        let place = writing.place();
        if place.part == Part::System
            && place.key == Key::Version
            && let Said::Number(number) = writing.said
        {
            return *number == 2;
        }
    }
    false
}

/// The keys of the table at a place that it may not have.
fn wrong_keys(
    alloc: Global,
    writings: &[WrittenAt],
    place: Place,
) -> Result<Vec<String>, AllocError> {
    let may = keys_of(place.part, nests(writings));
    let mut texts = Vec::new(alloc);
    for writing in writings {
        if texts.len() < MOST_COMPARED
            && are_together(writing.place(), place)
            && let Some(text) = writing.key()
            && !may.contains(&key_named(text))
        {
            texts.push(String::from_str(alloc, text)?)?;
        }
    }
    Ok(texts)
}

fn key_texts(alloc: Global, keys: &[Key]) -> Result<Vec<String>, AllocError> {
    let mut texts = Vec::new(alloc);
    for key in keys {
        texts.push(String::from_str(alloc, key.text())?)?;
    }
    Ok(texts)
}

fn sort_texts(alloc: Global) -> Result<Vec<String>, AllocError> {
    let mut texts = Vec::new(alloc);
    for text in ["Integer", "Boolean", "Pid"] {
        texts.push(String::from_str(alloc, text)?)?;
    }
    Ok(texts)
}

/// Whether a key that takes this may not have what is said.
fn is_of_another_kind(said: &Said, takes: Takes) -> bool {
    match said {
        Said::Key(_) => false,
        Said::Table => takes != Takes::Tables,
        Said::Text(_) => takes != Takes::Text && takes != Takes::Texts,
        Said::Number(_) => takes != Takes::Number,
        Said::Flag(_) => takes != Takes::Flag,
        Said::List => takes != Takes::Texts && takes != Takes::Tables,
        Said::Else => true,
    }
}

fn dots_of(text: &str) -> usize {
    text.as_bytes().iter().filter(|b| **b == b'.').count()
}

impl<'a> Finder<'a> {
    /// What is wrong at the place of the fault, where it is found.
    pub(crate) fn find(self, fault: FileFault) -> Option<Finding<'a>> {
        match fault {
            FileFault::NotToml | FileFault::Memory => None,
            FileFault::MissingKey(place) => self.missing_key(place),
            FileFault::WrongType(place) => self.wrong_type(place),
            FileFault::UnknownKey(place) => self.unknown_key(place),
            FileFault::BadName(place) => self.bad_name(place),
            FileFault::Duplicate(place) => self.duplicate(place),
            FileFault::UnknownName(place) => self.unknown_name(place),
            FileFault::TooMany(place) => self.too_many(place),
            FileFault::OutOfRange(place) => self.out_of_range(place),
        }
    }

    /// The head of the table at a place.
    fn head(self, place: Place) -> Option<Head> {
        for head in self.heads {
            if are_together(head.spot.place, place) {
                return Some(*head);
            }
        }
        None
    }

    fn table_site(self, place: Place) -> Option<Site> {
        let Head { spot: _, at } = self.head(place)?;
        Some(Site::Table(at))
    }

    /// Where a key of a table stands, and else the table.
    fn key_site(self, place: Place) -> Option<Site> {
        for writing in self.writings {
            if writing.place() == place && writing.key().is_some() {
                return Some(Site::At(writing.at));
            }
        }
        self.table_site(place)
    }

    fn missing_key(self, place: Place) -> Option<Finding<'a>> {
        let site = self.table_site(place)?;
        let near = nearest_of(self.alloc, place.key.text(), self.right);
        let why = Why::Lacks(place.key, near);
        Some(Finding { site, why })
    }

    /// The first value of another kind, and else the key, where a value stands alone that belongs in a list.
    fn wrong_type(self, place: Place) -> Option<Finding<'a>> {
        let why = Why::Takes(place.key);
        for writing in self.writings {
            if writing.place() == place && is_of_another_kind(writing.said, Takes::of(place.key)) {
                let site = Site::At(writing.at);
                return Some(Finding { site, why });
            }
        }
        let site = self.key_site(place)?;
        Some(Finding { site, why })
    }

    fn unknown_key(self, place: Place) -> Option<Finding<'a>> {
        let may = keys_of(place.part, nests(self.writings));
        for writing in self.writings {
            if are_together(writing.place(), place)
                && let Some(text) = writing.key()
                && !may.contains(&key_named(text))
            {
                let near = nearest_of(self.alloc, text, self.right);
                let (site, why) = (Site::At(writing.at), Why::NoKey(text, near));
                return Some(Finding { site, why });
            }
        }
        None
    }

    /// The name that is none, or the first end without exactly one dot.
    fn bad_name(self, place: Place) -> Option<Finding<'a>> {
        for writing in self.writings {
            if writing.place() == place
                && let Some(text) = writing.value()
            {
                let site = Site::At(writing.at);
                if place.key != Key::Ends {
                    let why = Why::NoName(text);
                    return Some(Finding { site, why });
                }
                if dots_of(text) != 1 {
                    let why = Why::NoEnd(text);
                    return Some(Finding { site, why });
                }
            }
        }
        None
    }

    /// The name that is taken, or the signal that stands twice in a list.
    fn duplicate(self, place: Place) -> Option<Finding<'a>> {
        for (index, writing) in self.writings.iter().enumerate() {
            if writing.place() == place
                && let Some(text) = writing.value()
                && let Some(other) = self.same(index, place, text)
            {
                let why = Why::There(text, line_at(self.file, other));
                let site = Site::At(writing.at);
                return Some(Finding { site, why });
            }
        }
        None
    }

    /// Where the text of the writing of this number stands too.
    fn same(self, index: usize, place: Place, text: &str) -> Option<usize> {
        match place.key {
            Key::Name => self.same_name(place, text),
            _ => self.same_before(index, place, text),
        }
    }

    /// Where another table has the name that may not have it too.
    fn same_name(self, place: Place, text: &str) -> Option<usize> {
        for writing in self.writings {
            let other = writing.place();
            if other.key == Key::Name
                && other != place
                && share_names(place, other)
                && writing.value() == Some(text)
            {
                return Some(writing.at);
            }
        }
        None
    }

    /// Where the text stands at the place, among the first so many writings.
    fn same_before(self, before: usize, place: Place, text: &str) -> Option<usize> {
        for (index, writing) in self.writings.iter().enumerate() {
            if index < before && writing.place() == place && writing.value() == Some(text) {
                return Some(writing.at);
            }
        }
        None
    }

    /// The first text at the place that is none of the right names.
    fn unknown_name(self, place: Place) -> Option<Finding<'a>> {
        for writing in self.writings {
            if writing.place() == place
                && let Some(text) = writing.value()
                && !self.is_right(text)
            {
                let near = nearest_of(self.alloc, text, self.right);
                let why = Why::Unknown(place.key, text, near);
                let site = Site::At(writing.at);
                return Some(Finding { site, why });
            }
        }
        None
    }

    fn is_right(self, text: &str) -> bool {
        self.right.iter().any(|name| name.as_str() == text)
    }

    fn too_many(self, place: Place) -> Option<Finding<'a>> {
        let site = self.key_site(place)?;
        let why = match place.key {
            Key::Signal => Why::AtMost(MOST_SIGNALS),
            Key::Gate => Why::AtMost(MOST_GATES),
            Key::Sorts => Why::AtMost(MOST_PARAMETERS),
            Key::Set => Why::AtMostInAll(MOST_SETS),
            Key::Channel => Why::AtMostInAll(MOST_CHANNELS),
            _ => self.too_many_blocks(place),
        };
        Some(Finding { site, why })
    }

    /// There are too many blocks in all, unless a block that lies as deep as one may has some.
    fn too_many_blocks(self, place: Place) -> Why<'a> {
        if !nests(self.writings) {
            return Why::AtMostInAll(MOST_BLOCKS_OF_VERSION_1);
        }
        match self.head(place) {
            Some(head) if head.spot.depth >= MOST_DEPTH => Why::TooDeep,
            _ => Why::AtMostInAll(MOST_BLOCKS),
        }
    }

    /// The number that is out of its range, the list that needs an element, or ends that are not two.
    fn out_of_range(self, place: Place) -> Option<Finding<'a>> {
        for writing in self.writings {
            if writing.place() == place
                && let Said::Number(number) = writing.said
            {
                let (site, why) = (Site::At(writing.at), out_of(place.key, *number));
                return Some(Finding { site, why });
            }
        }
        let site = self.key_site(place)?;
        let why = match (place.part, place.key) {
            (_, Key::Ends) => Why::TwoEnds,
            (Part::Block, Key::Block) => Why::Childless,
            _ => Why::Empty,
        };
        Some(Finding { site, why })
    }
}

/// The number is not in the range of the key.
fn out_of<'a>(key: Key, number: i64) -> Why<'a> {
    match key {
        Key::Version => Why::OutOfRange(number, 1, 2),
        Key::Budget => Why::OutOfRange(number, 1, MOST_BUDGET),
        Key::Initial => Why::OutOfRange(number, 0, MOST_INSTANCES),
        _ => Why::OutOfRange(number, 1, MOST_INSTANCES),
    }
}
