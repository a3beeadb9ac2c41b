//! The walk over one table: each call reads one key, by the rules that need nothing but the table.
ghost use Rattle.std.specs.Prelude.{◌≡◌, ◌≢◌, ◌<◌, length, All, IfSome, IfNone};
ghost use Rattle.std.specs.List.{HoldsAt};

mod lists;

use crate::checks::has_only;
use crate::fault::FileFault;
use crate::place::{Key, Part, Place};
use crate::version::Version;
use sdl_signal::{Name, name};
use toml::{Table, Value};

/// A table of a file, and the place where it lies.
#[derive(Clone, Copy)]
pub struct Walk<'a> {
    /// The top table of the file, of which each clause on a fault speaks.
    file: &'a Table,
    table: &'a Table,
    /// The version that the file says.
    pub version: Version,
    /// Where the table lies. The key means nothing here.
    pub place: Place,
}

impl<'a> Walk<'a> {
    ghost use Rattle.std.specs.Prelude.{◌≡◌, ◌≢◌, ◌++◌, [], ◌∷◌, ◌<◌, ◌≤◌, ◌≤ℤ◌, length, map, All, AllPairs, option_map, IfOk, IfErr, OnOk, OnErr, true, false, Some};
    ghost use Rattle.toml.specs.Data.{as_integer};
    ghost use Rattle.toml.specs.View.{view, table_view};
    ghost use Rattle.sdl_signal.specs.Names.{IsName};
    ghost use Rattle.sdl_structure_tables.specs.Keys.{is_key, is_required, is_list, is_texts, is_over, kind_of, whole_number, text, flag, tables, least_of, greatest_of, keys_of};
    ghost use Rattle.sdl_structure_tables.specs.Tables.{data_at, integer_at, text_at, integer_or, flag_or, elements_at, tables_at, the_table, table_in, is_of_kind, is_text, is_table, has_only, own_version, HasKindAt, IsArrayAt};
    ghost use Rattle.sdl_structure_tables.specs.Places.{inside, names_before, IsPlace};
    ghost use Rattle.sdl_structure_tables.specs.Faults.{IsBroken, IsOfFile};
    ghost use Rattle.sdl_structure_tables.specs.Walks.{file_of, own, IsHere, name_texts};

    /// The walk over the top table.
    pub fn top(file: &'a Table) -> Walk<'a>
        ensures here { IsHere result }
        ensures file { file_of result ≡ table_view file.now }
        ensures part { result.place.part ≡ Part.System }
    {
        let place = Place {
            part: Part::System,
            block: 0,
            set: 0,
            item: 0,
            key: Key::Other,
        };
        let walk = Walk {
            file,
            table: file,
            version: Version::One,
            place,
        };
        Walk {
            version: walk.said_version(),
            ..walk
        }
    }

    /// The version that a top table says; the first where it says none.
    fn said_version(&self) -> Version
        ensures { result ≡ own_version (own self.now) }
    {
        match self.value(Key::Version) {
            None => Version::One,
            Some(value) => match value.as_integer() {
                None => Version::One,
                Some(number) => Version::said(number),
            },
        }
    }

    /// The place of a key of the table.
    pub fn at(&self, key: Key) -> Place
        ensures { result ≡ record self.now.place { key = key } }
    {
        Place { key, ..self.place }
    }

    fn value(&self, key: Key) -> Option<&'a Value>
        ensures { option_map (λ v. view v.now) result ≡ data_at key (own self.now) }
    {
        self.table.get(key.text())
    }

    fn wrong_type(&self, key: Key, value: &Value) -> FileFault
        requires here { IsHere self.now }
        requires listed { is_key self.now.version self.now.place.part key ≡ true }
        requires there { data_at key (own self.now) ≡ Some (view value.now) }
        requires wrong { is_of_kind (kind_of key) (view value.now) ≡ false }
        ensures fault { IsBroken (file_of self.now) result }
        ensures of_file { IsOfFile result }
    {
        FileFault::WrongType(self.at(key))
    }

    /// The number at a key that the table must have.
    pub fn required_integer(&self, key: Key) -> Result<i64, FileFault>
        requires here { IsHere self.now }
        requires listed { is_key self.now.version self.now.place.part key ≡ true }
        requires kind { kind_of key ≡ whole_number }
        requires required { is_required key ≡ true }
        ensures kind { IfOk result (λ _. HasKindAt (own self.now) key) }
        ensures held { IfOk result (λ z. integer_at key (own self.now) ≡ Some z) }
        ensures range { IfOk result (λ z. (least_of key ≤ℤ z) × (z ≤ℤ greatest_of key)) }
        ensures fault { IfErr result (IsBroken (file_of self.now)) }
        ensures of_file { IfErr result IsOfFile }
    {
        match self.value(key) {
            None => Err(FileFault::MissingKey(self.at(key))),
            Some(value) => self.in_range(key, value),
        }
    }

    /// The number at a key, or the default.
    pub fn integer_or(&self, key: Key, default: i64) -> Result<i64, FileFault>
        requires here { IsHere self.now }
        requires listed { is_key self.now.version self.now.place.part key ≡ true }
        requires kind { kind_of key ≡ whole_number }
        requires free { is_required key ≡ false }
        requires low { least_of key ≤ℤ default }
        requires high { default ≤ℤ greatest_of key }
        ensures kind { IfOk result (λ _. HasKindAt (own self.now) key) }
        ensures held { IfOk result (λ z. integer_or default key (own self.now) ≡ Some z) }
        ensures range { IfOk result (λ z. (least_of key ≤ℤ z) × (z ≤ℤ greatest_of key)) }
        ensures fault { IfErr result (IsBroken (file_of self.now)) }
        ensures of_file { IfErr result IsOfFile }
    {
        match self.value(key) {
            None => Ok(default),
            Some(value) => self.in_range(key, value),
        }
    }

    fn in_range(&self, key: Key, value: &Value) -> Result<i64, FileFault>
        requires here { IsHere self.now }
        requires listed { is_key self.now.version self.now.place.part key ≡ true }
        requires kind { kind_of key ≡ whole_number }
        requires there { data_at key (own self.now) ≡ Some (view value.now) }
        ensures kind { IfOk result (λ _. HasKindAt (own self.now) key) }
        ensures held { IfOk result (λ z. as_integer (view value.now) ≡ Some z) }
        ensures range { IfOk result (λ z. (least_of key ≤ℤ z) × (z ≤ℤ greatest_of key)) }
        ensures fault { IfErr result (IsBroken (file_of self.now)) }
        ensures of_file { IfErr result IsOfFile }
    {
        match value.as_integer() {
            None => Err(self.wrong_type(key, value)),
            Some(number) => {
                if key.allows(number) {
                    Ok(number)
                } else {
                    Err(FileFault::OutOfRange(self.at(key)))
                }
            }
        }
    }

    /// The flag at a key; an absent one is false.
    pub fn flag(&self, key: Key) -> Result<bool, FileFault>
        requires here { IsHere self.now }
        requires listed { is_key self.now.version self.now.place.part key ≡ true }
        requires kind { kind_of key ≡ flag }
        requires free { is_required key ≡ false }
        ensures kind { IfOk result (λ _. HasKindAt (own self.now) key) }
        ensures held { IfOk result (λ b. flag_or false key (own self.now) ≡ Some b) }
        ensures fault { IfErr result (IsBroken (file_of self.now)) }
        ensures of_file { IfErr result IsOfFile }
    {
        match self.value(key) {
            None => Ok(false),
            Some(value) => match value.as_bool() {
                None => Err(self.wrong_type(key, value)),
                Some(flag) => Ok(flag),
            },
        }
    }

    /// The name at a key that the table must have.
    pub fn name(&self, key: Key) -> Result<Name, FileFault>
        requires here { IsHere self.now }
        requires listed { is_key self.now.version self.now.place.part key ≡ true }
        requires kind { kind_of key ≡ text }
        requires required { is_required key ≡ true }
        ensures kind { IfOk result (λ _. HasKindAt (own self.now) key) }
        ensures held { IfOk result (λ n. text_at key (own self.now) ≡ Some n.bytes) }
        ensures legal { IfOk result (λ n. IsName n.bytes) }
        ensures fault { IfErr result (IsBroken (file_of self.now)) }
        ensures of_file { IfErr result IsOfFile }
    {
        match self.value(key) {
            None => Err(FileFault::MissingKey(self.at(key))),
            Some(value) => match value.as_str() {
                None => Err(self.wrong_type(key, value)),
                Some(text) => match name(text) {
                    None => Err(FileFault::BadName(self.at(key))),
                    Some(name) => Ok(name),
                },
            },
        }
    }

    /// The name of the table, which no table before it in its name space may have; it joins the names that are taken.
    pub fn new_name(&self, taken: &mut Vec<Name>) -> Result<Name, FileFault>
        requires here { IsHere self.now }
        requires listed { is_key self.now.version self.now.place.part Key.Name ≡ true }
        requires before { name_texts taken.old.items ≡ names_before (file_of self.now) self.now.place }
        ensures kind { IfOk result (λ _. HasKindAt (own self.now) Key.Name) }
        ensures held { IfOk result (λ n. text_at Key.Name (own self.now) ≡ Some n.bytes) }
        ensures legal { IfOk result (λ n. IsName n.bytes) }
        ensures joined { IfOk result (λ n. taken.new.items ≡ taken.old.items ++ n ∷ []) }
        ensures apart { IfOk result (λ n. All (λ m. m.bytes ≢ n.bytes) taken.old.items) }
        ensures fault { IfErr result (IsBroken (file_of self.now)) }
        ensures kept { OnErr result (taken.new.items ≡ taken.old.items) }
    {
        let name = self.name(Key::Name)?;
        if let Some(_) = name_number(taken.as_slice(), name.as_str()) {
            return Err(FileFault::Duplicate(self.at(Key::Name)));
        }
        taken.push(name)?;
        Ok(name)
    }

    /// Refuses a table with a key that it may not have.
    pub fn only_known_keys(&self) -> Result<(), FileFault>
        requires here { IsHere self.now }
        ensures ok { IfOk result (λ _. has_only (keys_of self.now.version self.now.place.part) (own self.now) ≡ true) }
        ensures fault { IfErr result (IsBroken (file_of self.now)) }
        ensures of_file { IfErr result IsOfFile }
    {
        if has_only(self.place.part.keys(self.version), self.table) {
            Ok(())
        } else {
            Err(FileFault::UnknownKey(self.at(Key::Other)))
        }
    }
}

/// The position of the first name with the text.
fn name_number(names: &[Name], text: &str) -> Option<usize>
    ensures found { IfSome result (λ i. (i < length names.now) × HoldsAt (λ n. n.bytes ≡ text.now) names.now i) }
    ensures none { IfNone result (All (λ n. n.bytes ≢ text.now) names.now) }
{
    names.iter().position(|name| name.as_str() == text)
}
