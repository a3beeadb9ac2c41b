//! The keys of an agents file that its tables may not have.
use crate::places::list_at;
use sdl_explaining_places::Nearest;
use sdl_listing_file::{AgentsKey, AgentsPart, AgentsPlace};
use std::alloc::Global;
use toml::{Table, Value};

/// A key that its table may not have, and where that table is.
#[derive(Clone, Copy)]
pub struct Stray<'a> {
    pub place: AgentsPlace,
    pub word: &'a str,
}

/// The first of these keys: those of the top table, then those of each behaviour, and of each of its groups of states behind it.
pub fn stray_key(file: &Table) -> Option<Stray<'_>> {
    let place = AgentsPlace {
        part: AgentsPart::Agents,
        behaviour: 0,
        state: 0,
        key: AgentsKey::Other,
    };
    if let Some(stray) = stray_of(file, place) {
        return Some(stray);
    }
    let mut behaviour: u32 = 0;
    for value in list_at(file, "behaviour") {
        let place = AgentsPlace {
            part: AgentsPart::Behaviour,
            behaviour,
            ..place
        };
        if let Some(stray) = stray_in(value, place) {
            return Some(stray);
        }
        behaviour = behaviour.saturating_add(1);
    }
    None
}

/// The first of a behaviour and its groups of states.
fn stray_in(value: &Value, place: AgentsPlace) -> Option<Stray<'_>> {
    let table = value.as_table()?;
    if let Some(stray) = stray_of(table, place) {
        return Some(stray);
    }
    let mut state: u32 = 0;
    for value in list_at(table, "state") {
        let place = AgentsPlace {
            part: AgentsPart::State,
            state,
            ..place
        };
        if let Some(table) = value.as_table() {
            if let Some(stray) = stray_of(table, place) {
                return Some(stray);
            }
        }
        state = state.saturating_add(1);
    }
    None
}

/// The first of one table, by the alphabet.
fn stray_of(table: &Table, place: AgentsPlace) -> Option<Stray<'_>> {
    let keys = place.part.keys();
    for key in table.keys() {
        let word = key.as_str();
        if !is_among(keys, word) {
            return Some(Stray { place, word });
        }
    }
    None
}

fn is_among(keys: &[AgentsKey], word: &str) -> bool {
    keys.iter().any(|key| key.text() == word)
}

/// The key of the part that is nearest to the word.
pub fn nearest_key<'a>(alloc: Global, part: AgentsPart, word: &'a str) -> Option<&'a str> {
    let mut nearest = Nearest::to(alloc, word);
    for key in part.keys() {
        nearest.see(key.text());
    }
    nearest.found()
}
