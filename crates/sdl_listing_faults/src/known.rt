//! The names that a word of an agents file may mean.
use crate::places::{behaviour_of, list_at, text_at};
use sdl_explaining_places::Nearest;
use sdl_listing_body_text::Named;
use sdl_listing_file::AgentsPlace;
use sdl_listing_tokens::{Kind, Sign, cut};
use sdl_signal::name;
use sdl_structure_parts::{Owner, Structure};
use std::alloc::Global;
use toml::{Table, Value};

/// An agents file, with the structure that it is for.
#[derive(Clone, Copy)]
pub struct Source<'a> {
    pub alloc: Global,
    pub file: &'a str,
    pub table: &'a Table,
    pub structure: &'a Structure,
}

/// Words that begin a statement.
const STATEMENTS: [&str; 5] = ["output", "create", "next", "stop", "if"];

/// Words that are values.
const VALUES: [&str; 8] = [
    "true",
    "false",
    "null",
    "env",
    "self",
    "parent",
    "offspring",
    "sender",
];

const SORTS: [&str; 3] = ["Integer", "Boolean", "Pid"];

impl<'a> Source<'a> {
    /// The name that is nearest to the word among those of this kind that a text at the place may name.
    pub fn nearest(
        &self,
        place: AgentsPlace,
        item: usize,
        kind: Named,
        word: &'a str,
    ) -> Option<&'a str> {
        let mut nearest = Nearest::to(self.alloc, word);
        match kind {
            Named::Signal => see_signals(self.structure, &mut nearest),
            Named::Set => see_sets(self.structure, &mut nearest),
            Named::Gate => see_gates(self.structure, &mut nearest),
            Named::Channel => see_channels(self.structure, &mut nearest),
            Named::State => self.see_states(place, &mut nearest),
            Named::Sort => see_texts(&SORTS, &mut nearest),
            Named::Constant => self.see_constants(&mut nearest),
            Named::Variable => {
                self.see_variables(place, &mut nearest);
                see_texts(&STATEMENTS, &mut nearest);
            }
            Named::Value => {
                self.see_parameters(place, item, &mut nearest);
                self.see_variables(place, &mut nearest);
                self.see_constants(&mut nearest);
                see_texts(&VALUES, &mut nearest);
                see_sets(self.structure, &mut nearest);
            }
        }
        nearest.found()
    }

    fn see_constants(&self, nearest: &mut Nearest<'a>) {
        self.see_first_words(list_at(self.table, "constants"), nearest);
    }

    fn see_variables(&self, place: AgentsPlace, nearest: &mut Nearest<'a>) {
        if let Some(behaviour) = behaviour_of(self.table, place) {
            self.see_first_words(list_at(behaviour, "variables"), nearest);
        }
    }

    /// Sees the name that each of the texts begins with.
    fn see_first_words(&self, values: &'a [Value], nearest: &mut Nearest<'a>) {
        for value in values {
            if let Some(text) = value.as_str() {
                see_first_word(self.alloc, text, nearest);
            }
        }
    }

    /// Sees the names of the signal's parameters, which stand in brackets behind it.
    fn see_parameters(&self, place: AgentsPlace, item: usize, nearest: &mut Nearest<'a>) {
        if let Some(text) = text_at(self.table, place, item) {
            see_head(self.alloc, text, nearest);
        }
    }

    fn see_states(&self, place: AgentsPlace, nearest: &mut Nearest<'a>) {
        if let Some(behaviour) = behaviour_of(self.table, place) {
            for group in list_at(behaviour, "state") {
                if let Some(group) = group.as_table() {
                    see_values(list_at(group, "names"), nearest);
                }
            }
        }
    }
}

pub fn see_signals<'a>(structure: &'a Structure, nearest: &mut Nearest<'a>) {
    for signal in structure.signals() {
        nearest.see(signal.name.as_str());
    }
}

pub fn see_sets<'a>(structure: &'a Structure, nearest: &mut Nearest<'a>) {
    for set in structure.sets() {
        nearest.see(set.name.as_str());
    }
}

/// The gates of sets.
fn see_gates<'a>(structure: &'a Structure, nearest: &mut Nearest<'a>) {
    for gate in structure.gates() {
        if let Owner::Set(_) = gate.owner {
            nearest.see(gate.name.as_str());
        }
    }
}

fn see_channels<'a>(structure: &'a Structure, nearest: &mut Nearest<'a>) {
    for channel in structure.channels() {
        nearest.see(channel.name.as_str());
    }
}

fn see_texts<'a>(texts: &[&'a str], nearest: &mut Nearest<'a>) {
    for text in texts {
        nearest.see(*text);
    }
}

/// Sees the text, where it is a name.
fn see_name<'a>(text: &'a str, nearest: &mut Nearest<'a>) {
    if name(text).is_some() {
        nearest.see(text);
    }
}

fn see_values<'a>(values: &'a [Value], nearest: &mut Nearest<'a>) {
    for value in values {
        if let Some(text) = value.as_str() {
            see_name(text, nearest);
        }
    }
}

fn see_bytes<'a>(bytes: &'a [u8], nearest: &mut Nearest<'a>) {
    if let Ok(text) = str::from_utf8(bytes) {
        see_name(text, nearest);
    }
}

fn see_first_word<'a>(alloc: Global, text: &'a str, nearest: &mut Nearest<'a>) {
    if let Ok(tokens) = cut(alloc, text.as_bytes()) {
        if let Some(token) = tokens.as_slice().first() {
            see_bytes(token.text, nearest);
        }
    }
}

/// Sees the names behind the first, up to a colon.
fn see_head<'a>(alloc: Global, text: &'a str, nearest: &mut Nearest<'a>) {
    if let Ok(tokens) = cut(alloc, text.as_bytes()) {
        for token in tokens.as_slice().iter().skip(1) {
            match token.kind {
                Kind::Sign(Sign::Colon) => return,
                Kind::Name => see_bytes(token.text, nearest),
                _ => {}
            }
        }
    }
}
