//! Tests of the elements of an array, and of the keys of a table.
ghost use Rattle.std.specs.Prelude.{◌≡◌, ◌↔◌, All, IsTrue, true, string_bytes};
ghost use Rattle.std.specs.List.{list_all};
ghost use Rattle.std.specs.Map.{keys_of};
ghost use Rattle.toml.specs.View.{view, table_view};
ghost use Rattle.sdl_listing_file.specs.Keys.{is_key_of};
ghost use Rattle.sdl_listing_file.specs.Tables.{is_text, is_table, has_only, text_of};

use crate::place::AgentsKey;
use toml::{Table, Value};

pub fn all_texts(values: &[Value]) -> bool
    ensures { IsTrue result ↔ All (λ v. is_text (view v) ≡ true) values.now }
{
    values.iter().all(|v| v.is_str())
}

pub fn all_tables(values: &[Value]) -> bool
    ensures { IsTrue result ↔ All (λ v. is_table (view v) ≡ true) values.now }
{
    values.iter().all(|v| v.is_table())
}

fn is_key_of(keys: &[AgentsKey], text: &str) -> bool
    ensures { result ≡ is_key_of keys.now text.now }
{
    keys.iter().any(|key| key.text() == text)
}

fn all_keys(keys: &[AgentsKey], table: &Table) -> bool
    ensures { result ≡ list_all (λ k. is_key_of keys.now (string_bytes k)) (keys_of table.now.entries) }
{
    table.keys().all(|text| is_key_of(keys, text.as_str()))
}

/// Whether the table has no key but these.
pub fn has_only(keys: &[AgentsKey], table: &Table) -> bool
    ensures { result ≡ has_only keys.now (table_view table.now) }
{
    all_keys(keys, table)
}

/// The text that an element of a list of texts is.
pub fn text_of(value: &Value) -> &str
    ensures { result.now ≡ text_of value.now }
{
    match value.as_str() {
        Some(text) => text,
        None => "",
    }
}
