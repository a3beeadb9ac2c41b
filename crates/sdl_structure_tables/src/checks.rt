//! Tests of the elements of an array, of the keys of a table, and of the dots of an end.
ghost use Rattle.std.specs.Prelude.{◌≡◌, ◌↔◌, All, IsTrue, true, count_by, string_bytes};
ghost use Rattle.std.specs.List.{list_all};
ghost use Rattle.std.specs.Map.{keys_of};
ghost use Rattle.toml.specs.View.{view, table_view};
ghost use Rattle.sdl_structure_tables.specs.Keys.{is_key_of};
ghost use Rattle.sdl_structure_tables.specs.Tables.{is_text, is_table, has_only};
ghost use Rattle.sdl_structure_tables.specs.Names.{is_dot};

use crate::place::Key;
use toml::{Table, Value};

pub fn all_texts(values: &[Value]) -> bool
    ensures value { result ≡ list_all (λ v. is_text (view v)) values.now }
    ensures each { IsTrue result ↔ All (λ v. is_text (view v) ≡ true) values.now }
{
    values.iter().all(|v| v.is_str())
}

pub fn all_tables(values: &[Value]) -> bool
    ensures value { result ≡ list_all (λ v. is_table (view v)) values.now }
    ensures each { IsTrue result ↔ All (λ v. is_table (view v) ≡ true) values.now }
{
    values.iter().all(|v| v.is_table())
}

fn is_key_of(keys: &[Key], text: &str) -> bool
    ensures { result ≡ is_key_of keys.now text.now }
{
    keys.iter().any(|key| key.text() == text)
}

fn all_keys(keys: &[Key], table: &Table) -> bool
    ensures { result ≡ list_all (λ k. is_key_of keys.now (string_bytes k)) (keys_of table.now.entries) }
{
    table.keys().all(|text| is_key_of(keys, text.as_str()))
}

/// Tells whether the table has no key but these.
pub fn has_only(keys: &[Key], table: &Table) -> bool
    ensures { result ≡ has_only keys.now (table_view table.now) }
{
    all_keys(keys, table)
}

/// How many dots the text has.
pub fn count_dots(text: &[u8]) -> usize
    ensures { result ≡ count_by is_dot text.now }
{
    let mut dots: usize = 0;
    for byte in text {
        if *byte == 46 {
            dots += 1;
        }
    }
    dots
}
