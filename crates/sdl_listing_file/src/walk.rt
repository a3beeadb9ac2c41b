//! The walk over one table of the file: each call reads one key, by the rules that need nothing but the table.
ghost use Rattle.std.specs.Prelude.{◌≡◌};
ghost use Rattle.toml.specs.View.{table_view};

use crate::checks::{all_tables, all_texts, has_only};
use crate::fault::AgentsFault;
use crate::place::{AgentsKey, AgentsPart, AgentsPlace};
use toml::{Table, Value};

/// A table of the file, and the place where it lies.
#[derive(Clone, Copy)]
pub struct Walk<'a> {
    /// The top table of the file, of which each clause on a fault speaks.
    file: &'a Table,
    table: &'a Table,
    /// Where the table lies. The key means nothing here.
    place: AgentsPlace,
}

impl<'a> Walk<'a> {
    ghost use Rattle.std.specs.Prelude.{◌≡◌, ◌<◌, ◌≤◌, length, map, true, All, IfOk, IfErr, Some, option_map};
    ghost use Rattle.toml.specs.View.{view, table_view};
    ghost use Rattle.sdl_listing_file.specs.Keys.{keys_of};
    ghost use Rattle.sdl_listing_file.specs.Tables.{data_at, integer_at, text_at, elements_at, texts_at, tables_at, is_table, table_in, text_of, has_only, the_table, IsPlace};
    ghost use Rattle.sdl_listing_file.specs.File.{IsPlaced};
    ghost use Rattle.sdl_listing_file.specs.Walks.{file_of, own, IsHere};

    /// The walk over the top table.
    pub fn top(file: &'a Table) -> Walk<'a>
        ensures here { IsHere result }
        ensures file { file_of result ≡ table_view file.now }
        ensures table { own result ≡ table_view file.now }
        ensures part { result.place.part ≡ AgentsPart.Agents }
    {
        Walk {
            file,
            table: file,
            place: AgentsPlace {
                part: AgentsPart::Agents,
                behaviour: 0,
                state: 0,
                key: AgentsKey::Other,
            },
        }
    }

    /// The walk over the table of the behaviour at the position.
    pub fn behaviour(&self, value: &'a Value, behaviour: usize) -> Walk<'a>
        requires here { IsHere self.now }
        requires part { self.now.place.part ≡ AgentsPart.Agents }
        requires table { is_table (view value.now) ≡ true }
        requires there { the_table AgentsKey.Behaviour behaviour (own self.now) ≡ table_in value.now }
        requires within { behaviour < length (tables_at AgentsKey.Behaviour (own self.now)) }
        requires few { behaviour < 65536 }
        ensures here { IsHere result }
        ensures file { file_of result ≡ file_of self.now }
        ensures table { own result ≡ table_in value.now }
        ensures part { result.place.part ≡ AgentsPart.Behaviour }
    {
        match value.as_table() {
            Some(table) => Walk {
                file: self.file,
                table,
                place: AgentsPlace {
                    part: AgentsPart::Behaviour,
                    behaviour: behaviour as u32,
                    state: 0,
                    key: AgentsKey::Other,
                },
            },
            None => unreachable!(),
        }
    }

    /// The walk over the table of the group of states at the position in this behaviour.
    pub fn group(&self, value: &'a Value, state: usize) -> Walk<'a>
        requires here { IsHere self.now }
        requires part { self.now.place.part ≡ AgentsPart.Behaviour }
        requires table { is_table (view value.now) ≡ true }
        requires there { the_table AgentsKey.State state (own self.now) ≡ table_in value.now }
        requires within { state < length (tables_at AgentsKey.State (own self.now)) }
        requires few { state < 65536 }
        ensures here { IsHere result }
        ensures file { file_of result ≡ file_of self.now }
        ensures table { own result ≡ table_in value.now }
        ensures part { result.place.part ≡ AgentsPart.State }
    {
        match value.as_table() {
            Some(table) => Walk {
                file: self.file,
                table,
                place: AgentsPlace {
                    part: AgentsPart::State,
                    behaviour: self.place.behaviour,
                    state: state as u32,
                    key: AgentsKey::Other,
                },
            },
            None => unreachable!(),
        }
    }

    /// The place of a key of the table.
    pub fn at(&self, key: AgentsKey) -> AgentsPlace
        requires { IsHere self.now }
        ensures value { result ≡ record self.now.place { key = key } }
        ensures place { IsPlace (file_of self.now) result }
    {
        AgentsPlace { key, ..self.place }
    }

    fn value(&self, key: AgentsKey) -> Option<&'a Value>
        ensures { option_map (λ v. view v.now) result ≡ data_at key (own self.now) }
    {
        self.table.get(key.text())
    }

    /// The number at a key that the table must have.
    pub fn number(&self, key: AgentsKey) -> Result<i64, AgentsFault>
        requires { IsHere self.now }
        ensures held { IfOk result (λ z. integer_at key (own self.now) ≡ Some z) }
        ensures fault { IfErr result (IsPlaced (file_of self.now)) }
    {
        match self.value(key) {
            None => Err(AgentsFault::MissingKey(self.at(key))),
            Some(value) => match value.as_integer() {
                None => Err(AgentsFault::WrongType(self.at(key))),
                Some(number) => Ok(number),
            },
        }
    }

    /// The text at a key that the table must have.
    pub fn text(&self, key: AgentsKey) -> Result<&'a str, AgentsFault>
        requires { IsHere self.now }
        ensures held { IfOk result (λ text. text_at key (own self.now) ≡ Some text.now) }
        ensures fault { IfErr result (IsPlaced (file_of self.now)) }
    {
        match self.value(key) {
            None => Err(AgentsFault::MissingKey(self.at(key))),
            Some(value) => match value.as_str() {
                None => Err(AgentsFault::WrongType(self.at(key))),
                Some(text) => Ok(text),
            },
        }
    }

    fn list(&self, key: AgentsKey) -> Result<&'a [Value], AgentsFault>
        requires { IsHere self.now }
        ensures held { IfOk result (λ vs. elements_at key (own self.now) ≡ map view vs.now) }
        ensures fault { IfErr result (IsPlaced (file_of self.now)) }
    {
        match self.value(key) {
            None => Ok(&[]),
            Some(value) => match value.as_array() {
                None => Err(AgentsFault::WrongType(self.at(key))),
                Some(values) => Ok(values.as_slice()),
            },
        }
    }

    /// The texts of the list at a key, at most so many.
    pub fn texts(&self, key: AgentsKey, most: usize) -> Result<&'a [Value], AgentsFault>
        requires { IsHere self.now }
        ensures texts { IfOk result (λ vs. texts_at key (own self.now) ≡ map text_of vs.now) }
        ensures few { IfOk result (λ vs. length vs.now ≤ most) }
        ensures fault { IfErr result (IsPlaced (file_of self.now)) }
    {
        let values = self.list(key)?;
        if !all_texts(values) {
            return Err(AgentsFault::WrongType(self.at(key)));
        }
        if values.len() > most {
            return Err(AgentsFault::TooMany(self.at(key)));
        }
        Ok(values)
    }

    /// The tables of the list at a key, at most so many.
    fn tables(&self, key: AgentsKey, most: usize) -> Result<&'a [Value], AgentsFault>
        requires { IsHere self.now }
        ensures tables { IfOk result (λ vs. tables_at key (own self.now) ≡ map table_in vs.now) }
        ensures each { IfOk result (λ vs. All (λ v. is_table (view v) ≡ true) vs.now) }
        ensures few { IfOk result (λ vs. length vs.now ≤ most) }
        ensures fault { IfErr result (IsPlaced (file_of self.now)) }
    {
        let values = self.list(key)?;
        if !all_tables(values) {
            return Err(AgentsFault::WrongType(self.at(key)));
        }
        if values.len() > most {
            return Err(AgentsFault::TooMany(self.at(key)));
        }
        Ok(values)
    }

    /// Sees that a list that was read is not empty.
    fn some(&self, key: AgentsKey, values: &[Value]) -> Result<(), AgentsFault>
        requires { IsHere self.now }
        ensures some { IfOk result (λ _. 0 < length values.now) }
        ensures fault { IfErr result (IsPlaced (file_of self.now)) }
    {
        if values.is_empty() {
            return Err(AgentsFault::OutOfRange(self.at(key)));
        }
        Ok(())
    }

    fn required(&self, key: AgentsKey) -> Result<(), AgentsFault>
        requires { IsHere self.now }
        ensures { IfErr result (IsPlaced (file_of self.now)) }
    {
        match self.value(key) {
            None => Err(AgentsFault::MissingKey(self.at(key))),
            Some(_) => Ok(()),
        }
    }

    /// The texts of a list that must be there and not be empty.
    pub fn some_texts(&self, key: AgentsKey, most: usize) -> Result<&'a [Value], AgentsFault>
        requires { IsHere self.now }
        ensures texts { IfOk result (λ vs. texts_at key (own self.now) ≡ map text_of vs.now) }
        ensures few { IfOk result (λ vs. length vs.now ≤ most) }
        ensures fault { IfErr result (IsPlaced (file_of self.now)) }
    {
        self.required(key)?;
        let values = self.texts(key, most)?;
        self.some(key, values)?;
        Ok(values)
    }

    /// The tables of a list that must be there and not be empty.
    pub fn some_tables(&self, key: AgentsKey, most: usize) -> Result<&'a [Value], AgentsFault>
        requires { IsHere self.now }
        ensures tables { IfOk result (λ vs. tables_at key (own self.now) ≡ map table_in vs.now) }
        ensures each { IfOk result (λ vs. All (λ v. is_table (view v) ≡ true) vs.now) }
        ensures few { IfOk result (λ vs. length vs.now ≤ most) }
        ensures fault { IfErr result (IsPlaced (file_of self.now)) }
    {
        self.required(key)?;
        let values = self.tables(key, most)?;
        self.some(key, values)?;
        Ok(values)
    }

    /// Refuses a table with a key that it may not have.
    pub fn only_known_keys(&self) -> Result<(), AgentsFault>
        requires { IsHere self.now }
        ensures keys { IfOk result (λ _. has_only (keys_of self.now.place.part) (own self.now) ≡ true) }
        ensures fault { IfErr result (IsPlaced (file_of self.now)) }
    {
        if has_only(self.place.part.keys(), self.table) {
            Ok(())
        } else {
            Err(AgentsFault::UnknownKey(self.at(AgentsKey::Other)))
        }
    }
}
