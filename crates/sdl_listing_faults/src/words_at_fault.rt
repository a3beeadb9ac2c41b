//! Finds the words at fault in the lists of an agents file.
use crate::details::{Detail, Kind};
use crate::known::{Source, see_sets, see_signals};
use crate::places::{list_at, table_of, text_at};
use crate::spots::{Told, spot_of_key, spot_of_word};
use sdl_explaining_places::Nearest;
use sdl_listing_body_text::Named;
use sdl_listing_file::{AgentsKey, AgentsPart, AgentsPlace};
use sdl_listing_tokens::is_reserved;
use sdl_signal::name;
use sdl_structure_parts::Structure;
use toml::Value;

/// The texts of the list at the place.
fn values_at<'a>(source: &Source<'a>, place: AgentsPlace) -> &'a [Value] {
    match table_of(source.table, place) {
        Some(table) => list_at(table, place.key.text()),
        None => &[],
    }
}

/// The first text of the list that is no name.
pub fn bad_name<'a>(source: &Source<'a>, place: AgentsPlace) -> Option<Told<'a>> {
    for value in values_at(source, place) {
        if let Some(text) = value.as_str() {
            if name(text).is_none() || is_reserved(text.as_bytes()) {
                return Some(Told {
                    spot: spot_of_word(source.file, place, text, 0),
                    detail: Detail::NoName(text),
                });
            }
        }
    }
    None
}

/// The name of another system, or the first text of the list that is no set or no signal.
pub fn unknown_name<'a>(source: &Source<'a>, place: AgentsPlace) -> Option<Told<'a>> {
    if let AgentsPart::Agents = place.part {
        let word = text_at(source.table, place, 0)?;
        return Some(Told {
            spot: spot_of_word(source.file, place, word, 0),
            detail: Detail::System(source.structure.system()),
        });
    }
    let word = unknown_in(source, place)?;
    let detail = match place.key {
        AgentsKey::Sets => unknown_set(source, word),
        _ => unknown_signal(source, word),
    };
    let spot = spot_of_word(source.file, place, word, 0);
    Some(Told { spot, detail })
}

/// The first text of the list that is no set or no signal.
fn unknown_in<'a>(source: &Source<'a>, place: AgentsPlace) -> Option<&'a str> {
    let is_set = matches!(place.key, AgentsKey::Sets);
    for value in values_at(source, place) {
        if let Some(word) = value.as_str() {
            let is_known = if is_set {
                is_set_of(source.structure, word)
            } else {
                is_signal_of(source.structure, word)
            };
            if !is_known {
                return Some(word);
            }
        }
    }
    None
}

/// The first text of the list that stands in the list already, or in that of a behaviour before.
pub fn second_name<'a>(source: &Source<'a>, place: AgentsPlace) -> Option<Told<'a>> {
    let values = values_at(source, place);
    for (number, value) in values.iter().enumerate() {
        if let Some(word) = value.as_str() {
            let is_here = has_text(values.get(..number)?, word);
            if is_here || is_before(source, place, word) {
                let passed = if is_here { 1 } else { 0 };
                return Some(Told {
                    spot: spot_of_word(source.file, place, word, passed),
                    detail: Detail::There(word),
                });
            }
        }
    }
    Some(Told {
        spot: spot_of_key(source.file, place, place.key.text()),
        detail: Detail::Reason("a state has one of the signals already"),
    })
}

/// Whether a behaviour before has the text at the key.
fn is_before(source: &Source, place: AgentsPlace, word: &str) -> bool {
    let behaviours = list_at(source.table, "behaviour");
    for value in behaviours.iter().take(place.behaviour as usize) {
        if let Some(table) = value.as_table() {
            if has_text(list_at(table, place.key.text()), word) {
                return true;
            }
        }
    }
    false
}

fn has_text(values: &[Value], word: &str) -> bool {
    values.iter().any(|value| is_text(value, word))
}

fn is_text(value: &Value, word: &str) -> bool {
    match value.as_str() {
        Some(text) => text == word,
        None => false,
    }
}

fn is_set_of(structure: &Structure, word: &str) -> bool {
    structure.sets().iter().any(|set| set.name.as_str() == word)
}

fn is_signal_of(structure: &Structure, word: &str) -> bool {
    structure
        .signals()
        .iter()
        .any(|signal| signal.name.as_str() == word)
}

fn unknown_set<'a>(source: &Source<'a>, word: &'a str) -> Detail<'a> {
    let mut nearest = Nearest::to(source.alloc, word);
    see_sets(source.structure, &mut nearest);
    Detail::Unknown(Kind::Named(Named::Set), word, nearest.found())
}

fn unknown_signal<'a>(source: &Source<'a>, word: &'a str) -> Detail<'a> {
    let mut nearest = Nearest::to(source.alloc, word);
    see_signals(source.structure, &mut nearest);
    Detail::Unknown(Kind::Named(Named::Signal), word, nearest.found())
}
