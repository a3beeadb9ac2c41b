//! The faults of an agents file, as they are told.
use crate::details::{Detail, Expected, Kind, detail_of};
use crate::keys::{Stray, nearest_key, stray_key};
use crate::known::Source;
use crate::places::text_at;
use crate::sections::place_in_file;
use crate::spots::{Spot, Told, spot_at, spot_of_key, spot_of_table};
use crate::words_at_fault::{bad_name, second_name, unknown_name};
use sdl_app_command::errors::write_error;
use sdl_listing_body_text::{TextFault, position_of};
use sdl_listing_file::fault::AgentsText;
use sdl_listing_file::{AgentsFault, AgentsPlace};
use sdl_signal::SetId;
use sdl_structure_parts::Structure;
use std::alloc::Global;
use std::io::Write;
use toml::de::Error;

/// Writes why an agents file is refused, as one line, and a second one that helps. A line that is not taken is dropped. Where memory
/// is refused meanwhile, the first line comes alone.
pub fn write_agents_fault<E: Write>(
    alloc: Global,
    errors: &mut E,
    file: &str,
    structure: &Structure,
    fault: AgentsFault,
) {
    match toml::table_from_str(alloc, file) {
        Ok(table) => {
            let source = Source {
                alloc,
                file,
                table: &table,
                structure,
            };
            write_fault(errors, &source, fault);
        }
        Err(error) => {
            write_error(errors, fault);
            write_no_table(errors, file, &error);
        }
    }
}

/// Writes where the file is no TOML, and why.
fn write_no_table<E: Write>(errors: &mut E, file: &str, error: &Error) {
    if let Some(span) = error.span() {
        let place = position_of(file.as_bytes(), span.start.min(file.len()));
        let line = place.line;
        let column = place.column;
        let message = error.message();
        write_error(
            errors,
            format_args!("line {line} column {column} of the file: {message}"),
        );
    }
}

/// Writes a fault of a file that is TOML. A key that a table may not have comes first, since it may be another one that is misspelt.
fn write_fault<E: Write>(errors: &mut E, source: &Source, fault: AgentsFault) {
    match fault {
        AgentsFault::Memory => write_error(errors, fault),
        _ => match stray_key(source.table) {
            Some(stray) => write_stray_key(errors, source, stray),
            None => write_first(errors, source, fault),
        },
    }
}

/// Writes that the table may not have the key.
fn write_stray_key<E: Write>(errors: &mut E, source: &Source, stray: Stray) {
    let Stray { place, word } = stray;
    let near = nearest_key(source.alloc, place.part, word);
    write_error(errors, AgentsFault::UnknownKey(place));
    let spot = spot_of_key(source.file, place, word);
    let detail = Detail::Unknown(Kind::Key, word, near);
    write_error(errors, Told { spot, detail });
}

/// Writes the first fault of a file whose tables have no other keys than theirs.
fn write_first<E: Write>(errors: &mut E, source: &Source, fault: AgentsFault) {
    match fault {
        AgentsFault::Text(place, fault, at) => write_text_fault(errors, source, place, fault, at),
        AgentsFault::NoBehaviour(set) => write_no_behaviour(errors, source.structure, set),
        _ => {
            write_error(errors, fault);
            if let Some(told) = told_of(source, fault) {
                write_error(errors, told);
            }
        }
    }
}

/// Writes that no behaviour is of the set.
fn write_no_behaviour<E: Write>(errors: &mut E, structure: &Structure, set: SetId) {
    write_error(errors, AgentsFault::NoBehaviour(set));
    if let Some(set) = structure.sets().get(set.0 as usize) {
        let name = set.name.as_str();
        write_error(errors, format_args!("no behaviour is of the set {name}"));
    }
}

/// Where a fault of a table is, and what is said of it.
fn told_of<'a>(source: &Source<'a>, fault: AgentsFault) -> Option<Told<'a>> {
    match fault {
        AgentsFault::MissingKey(place) => Some(Told {
            spot: spot_of_table(source.file, place),
            detail: Detail::Expected(Expected::Key(place.key)),
        }),
        AgentsFault::WrongType(place) => Some(Told {
            spot: spot_of_key(source.file, place, place.key.text()),
            detail: Detail::Expected(Expected::Value(place.key)),
        }),
        AgentsFault::OutOfRange(place) => Some(Told {
            spot: spot_of_key(source.file, place, place.key.text()),
            detail: Detail::Expected(Expected::Range(place.key)),
        }),
        AgentsFault::TooMany(place) => Some(Told {
            spot: spot_of_key(source.file, place, place.key.text()),
            detail: Detail::Expected(Expected::Most(place.key)),
        }),
        AgentsFault::BadName(place) => bad_name(source, place),
        AgentsFault::UnknownName(place) => unknown_name(source, place),
        AgentsFault::Duplicate(place) => second_name(source, place),
        _ => None,
    }
}

/// Writes a fault in a text: its place, its line and column there, and the word; and where it stands in the file.
fn write_text_fault<E: Write>(
    errors: &mut E,
    source: &Source,
    place: AgentsPlace,
    fault: TextFault,
    at: AgentsText,
) {
    match text_at(source.table, place, at.item) {
        Some(text) => {
            let word = word_at(text, at);
            write_text(errors, place, fault, at, text);
            let near = match fault {
                TextFault::UnknownName(kind) => source.nearest(place, at.item, kind, word),
                _ => None,
            };
            let spot = spot_of_text(source.file, place, text, at);
            let detail = detail_of(fault, word, near);
            write_error(errors, Told { spot, detail });
        }
        None => write_error(errors, AgentsFault::Text(place, fault, at)),
    }
}

/// The word that a fault in a text is at, and `end` at the end of the text.
fn word_at<'a>(text: &'a str, at: AgentsText) -> &'a str {
    match text.get(at.start..at.end) {
        Some(word) if !word.is_empty() => word,
        _ => "end",
    }
}

fn write_text<E: Write>(
    errors: &mut E,
    place: AgentsPlace,
    fault: TextFault,
    at: AgentsText,
    text: &str,
) {
    let position = position_of(text.as_bytes(), at.start.min(text.len()));
    write_error(
        errors,
        format_args!(
            "{fault} {} {} {} {} {} {}:{} {}",
            place.part.text(),
            place.behaviour,
            place.state,
            at.item,
            place.key.text(),
            position.line,
            position.column,
            word_at(text, at)
        ),
    );
}

/// Where in the file a fault in a text is. Where the text does not stand there as it is, and once, its key is told.
fn spot_of_text(file: &str, place: AgentsPlace, text: &str, at: AgentsText) -> Spot {
    match place_in_file(file, place, text) {
        Some(start) => spot_at(file, start.saturating_add(at.start)),
        None => spot_of_key(file, place, place.key.text()),
    }
}
