//! The lists of a table: their texts, their tables, and the walk over one of those.
use super::Walk;
use crate::checks::{all_tables, all_texts};
use crate::fault::FileFault;
use crate::place::{Key, Place};
use toml::Value;

impl<'a> Walk<'a> {
    ghost use Rattle.std.specs.Prelude.{◌≡◌, ◌≢◌, ◌++◌, [], ◌∷◌, ◌<◌, ◌≤◌, ◌≤ℤ◌, length, map, All, AllPairs, option_map, IfOk, IfErr, OnOk, true, false, Some};
    ghost use Rattle.toml.specs.Data.{as_integer};
    ghost use Rattle.toml.specs.View.{view, table_view};
    ghost use Rattle.sdl_signal.specs.Names.{IsName};
    ghost use Rattle.sdl_structure_tables.specs.Keys.{is_key, is_required, needs_some, is_list, is_texts, is_over, kind_of, whole_number, text, flag, tables, least_of, greatest_of, keys_of};
    ghost use Rattle.sdl_structure_tables.specs.Tables.{data_at, integer_at, text_at, integer_or, flag_or, elements_at, tables_at, the_table, table_in, is_of_kind, is_text, is_table, has_only, HasKindAt, IsArrayAt};
    ghost use Rattle.sdl_structure_tables.specs.Places.{inside, block_place, names_before, IsPlace};
    ghost use Rattle.sdl_structure_tables.specs.Blocks.{IsBlockAt};
    ghost use Rattle.sdl_structure_tables.specs.Faults.{IsBroken, IsOfFile};
    ghost use Rattle.sdl_structure_tables.specs.Walks.{file_of, own, IsHere, name_texts};

    /// The elements of the array at a key, of any type.
    fn list(&self, key: Key) -> Result<&'a [Value], FileFault>
        requires here { IsHere self.now }
        requires listed { is_key self.now.version self.now.place.part key ≡ true }
        requires list { is_list (kind_of key) ≡ true }
        ensures held { IfOk result (λ vs. elements_at key (own self.now) ≡ map view vs.now) }
        ensures there { IfOk result (λ _. IsArrayAt (own self.now) key) }
        ensures fault { IfErr result (IsBroken (file_of self.now)) }
        ensures of_file { IfErr result IsOfFile }
    {
        match self.value(key) {
            None => {
                if key.is_required() {
                    Err(FileFault::MissingKey(self.at(key)))
                } else {
                    Ok(&[])
                }
            }
            Some(value) => match value.as_array() {
                None => Err(self.wrong_type(key, value)),
                Some(values) => Ok(values.as_slice()),
            },
        }
    }

    /// The texts of the list at a key.
    pub fn texts(&self, key: Key) -> Result<&'a [Value], FileFault>
        requires here { IsHere self.now }
        requires listed { is_key self.now.version self.now.place.part key ≡ true }
        requires texts { is_texts (kind_of key) ≡ true }
        ensures kind { IfOk result (λ _. HasKindAt (own self.now) key) }
        ensures held { IfOk result (λ vs. elements_at key (own self.now) ≡ map view vs.now) }
        ensures each { IfOk result (λ vs. All (λ v. is_text (view v) ≡ true) vs.now) }
        ensures few { IfOk result (λ vs. is_over key (length vs.now) ≡ false) }
        ensures fault { IfErr result (IsBroken (file_of self.now)) }
        ensures of_file { IfErr result IsOfFile }
    {
        let values = self.list(key)?;
        if !all_texts(values) {
            return Err(FileFault::WrongType(self.at(key)));
        }
        if key.is_over(values.len()) {
            return Err(FileFault::TooMany(self.at(key)));
        }
        Ok(values)
    }

    /// The tables of the list at a key.
    pub fn tables(&self, key: Key) -> Result<&'a [Value], FileFault>
        requires here { IsHere self.now }
        requires listed { is_key self.now.version self.now.place.part key ≡ true }
        requires kind { kind_of key ≡ tables }
        ensures kind { IfOk result (λ _. HasKindAt (own self.now) key) }
        ensures held { IfOk result (λ vs. elements_at key (own self.now) ≡ map view vs.now) }
        ensures tables { IfOk result (λ vs. tables_at key (own self.now) ≡ map table_in vs.now) }
        ensures each { IfOk result (λ vs. All (λ v. is_table (view v) ≡ true) vs.now) }
        ensures few { IfOk result (λ vs. is_over key (length vs.now) ≡ false) }
        ensures fault { IfErr result (IsBroken (file_of self.now)) }
        ensures of_file { IfErr result IsOfFile }
    {
        let values = self.list(key)?;
        if !all_tables(values) {
            return Err(FileFault::WrongType(self.at(key)));
        }
        if key.is_over(values.len()) {
            return Err(FileFault::TooMany(self.at(key)));
        }
        Ok(values)
    }

    /// The tables of a list that may not be empty.
    pub fn some_tables(&self, key: Key) -> Result<&'a [Value], FileFault>
        requires here { IsHere self.now }
        requires listed { is_key self.now.version self.now.place.part key ≡ true }
        requires kind { kind_of key ≡ tables }
        requires some { needs_some self.now.version self.now.place.part key ≡ true }
        ensures kind { IfOk result (λ _. HasKindAt (own self.now) key) }
        ensures tables { IfOk result (λ vs. tables_at key (own self.now) ≡ map table_in vs.now) }
        ensures each { IfOk result (λ vs. All (λ v. is_table (view v) ≡ true) vs.now) }
        ensures few { IfOk result (λ vs. is_over key (length vs.now) ≡ false) }
        ensures some { IfOk result (λ vs. 0 < length vs.now) }
        ensures fault { IfErr result (IsBroken (file_of self.now)) }
        ensures of_file { IfErr result IsOfFile }
    {
        if self.value(key).is_none() {
            return Err(FileFault::MissingKey(self.at(key)));
        }
        let values = self.tables(key)?;
        if values.is_empty() {
            return Err(FileFault::OutOfRange(self.at(key)));
        }
        Ok(values)
    }

    /// The walk over the table that an element of the list at a key is, other than that of a block.
    pub fn inner(&self, key: Key, value: &'a Value, index: usize) -> Walk<'a>
        requires here { IsHere self.now }
        requires listed { is_key self.now.version self.now.place.part key ≡ true }
        requires kind { kind_of key ≡ tables }
        requires table { is_table (view value.now) ≡ true }
        requires there { the_table key index (own self.now) ≡ table_in value.now }
        requires within { index < length (tables_at key (own self.now)) }
        requires few { index < 65536 }
        requires no_block { key ≢ Key.Block }
        ensures here { IsHere result }
        ensures file { file_of result ≡ file_of self.now }
        ensures version { result.version ≡ self.now.version }
        ensures table { own result ≡ table_in value.now }
        ensures place { result.place ≡ inside self.now.place key index }
    {
        match value.as_table() {
            Some(table) => Walk {
                file: self.file,
                table,
                version: self.version,
                place: self.place.inside(key, index as u32),
            },
            None => unreachable!(),
        }
    }

    /// The walk over the table of the block of this number, which is an element of the list at the key `block`.
    pub fn inner_block(&self, value: &'a Value, number: usize) -> Walk<'a>
        requires here { IsHere self.now }
        requires table { is_table (view value.now) ≡ true }
        requires there { IsBlockAt (file_of self.now) number (table_in value.now) }
        requires few { number < 64 }
        ensures here { IsHere result }
        ensures file { file_of result ≡ file_of self.now }
        ensures version { result.version ≡ self.now.version }
        ensures table { own result ≡ table_in value.now }
        ensures place { result.place ≡ block_place number }
    {
        match value.as_table() {
            Some(table) => Walk {
                file: self.file,
                table,
                version: self.version,
                place: Place::of_block(number as u32),
            },
            None => unreachable!(),
        }
    }
}
