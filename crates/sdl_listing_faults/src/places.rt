//! The tables and the texts of an agents file by their places.
use sdl_listing_file::{AgentsPart, AgentsPlace};
use toml::{Table, Value};

/// The texts or the tables of the list at a key of a table.
pub fn list_at<'a>(table: &'a Table, key: &str) -> &'a [Value] {
    match table.get(key) {
        Some(value) => match value.as_array() {
            Some(values) => values.as_slice(),
            None => &[],
        },
        None => &[],
    }
}

/// The table at a position of a list of tables.
fn table_at<'a>(table: &'a Table, key: &str, number: u32) -> Option<&'a Table> {
    match list_at(table, key).get(number as usize) {
        Some(value) => value.as_table(),
        None => None,
    }
}

/// The table of the behaviour of the place.
pub fn behaviour_of<'a>(file: &'a Table, place: AgentsPlace) -> Option<&'a Table> {
    table_at(file, "behaviour", place.behaviour)
}

/// The table of the place.
pub fn table_of<'a>(file: &'a Table, place: AgentsPlace) -> Option<&'a Table> {
    match place.part {
        AgentsPart::Agents => Some(file),
        AgentsPart::Behaviour => behaviour_of(file, place),
        AgentsPart::State => table_at(behaviour_of(file, place)?, "state", place.state),
    }
}

/// The text at the key of the place: alone, or by its position in the list there.
pub fn text_at<'a>(file: &'a Table, place: AgentsPlace, item: usize) -> Option<&'a str> {
    let table = table_of(file, place)?;
    let key = place.key.text();
    match table.get(key) {
        Some(value) => match value.as_str() {
            Some(text) => Some(text),
            None => list_at(table, key).get(item)?.as_str(),
        },
        None => None,
    }
}
