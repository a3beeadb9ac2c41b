//! Reading the signals, and the lists of signals of gates and channels.
ghost use Rattle.std.specs.Prelude.{◌≡◌, ◌≢◌, ◌<◌, ◌≤◌, ◌++◌, [], ◌∷◌, length, All, AllPairs, IfOk, IfErr, IfSome, IfNone, Some, true};
ghost use Rattle.std.specs.List.{HoldsAt, AllZip};
ghost use Rattle.toml.specs.Data.{as_str};
ghost use Rattle.toml.specs.View.{view};
ghost use Rattle.sdl_structure_tables.specs.Keys.{kind_of, signals as list_of_signals, is_key, keys_of};
ghost use Rattle.sdl_structure_tables.specs.Tables.{elements_at, tables_at, names_of, is_text, HasKindAt};
ghost use Rattle.sdl_structure_tables.specs.Places.{names_before};
ghost use Rattle.sdl_structure_tables.specs.Names.{IsSignalTable, ListsSignals, NamesSort, sort_text};
ghost use Rattle.sdl_structure_tables.specs.Faults.{IsBroken, IsOfFile};
ghost use Rattle.sdl_structure_tables.specs.Walks.{file_of, own, IsHere, name_texts};

use crate::fault::FileFault;
use crate::place::{Key, Part};
use crate::walk::Walk;
use arrayvec::ArrayVec;
use sdl_signal::{Name, SignalId, Sort};
use sdl_structure_parts::SignalDecl;
use std::alloc::Global;
use toml::Value;

/// The text that a value is.
pub fn text_of(value: &Value) -> &str
    requires { is_text (view value.now) ≡ true }
    ensures { as_str (view value.now) ≡ Some result.now }
{
    match value.as_str() {
        Some(text) => text,
        None => unreachable!(),
    }
}

/// The signals of the top table, by number.
pub fn read_signals(alloc: Global, top: &Walk) -> Result<Vec<SignalDecl>, FileFault>
    requires here { IsHere top.now }
    requires part { top.now.place.part ≡ Part.System }
    ensures kind { IfOk result (λ _. HasKindAt (own top.now) Key.Signal) }
    ensures read { IfOk result (λ signals. AllZip IsSignalTable (tables_at Key.Signal (own top.now)) signals.items) }
    ensures apart { IfOk result (λ _. AllPairs (λ a b. a ≢ b) (names_of (tables_at Key.Signal (own top.now)))) }
    ensures few { IfOk result (λ signals. length signals.items ≤ 64) }
    ensures fault { IfErr result (IsBroken (file_of top.now)) }
{
    let tables = top.tables(Key::Signal)?;
    let mut taken = Vec::new(alloc);
    let mut signals = Vec::new(alloc);
    for (index, value) in tables.iter().enumerate() {
        let signal = read_signal(&top.inner(Key::Signal, value, index), &mut taken)?;
        signals.push(signal)?;
    }
    Ok(signals)
}

fn read_signal(walk: &Walk, taken: &mut Vec<Name>) -> Result<SignalDecl, FileFault>
    requires here { IsHere walk.now }
    requires part { walk.now.place.part ≡ Part.Signal }
    requires before { name_texts taken.old.items ≡ names_before (file_of walk.now) walk.now.place }
    ensures read { IfOk result (IsSignalTable (own walk.now)) }
    ensures joined { IfOk result (λ x. taken.new.items ≡ taken.old.items ++ x.name ∷ []) }
    ensures apart { IfOk result (λ x. All (λ m. m.bytes ≢ x.name.bytes) taken.old.items) }
    ensures fault { IfErr result (IsBroken (file_of walk.now)) }
{
    let name = walk.new_name(taken)?;
    let sorts = read_sorts(walk)?;
    walk.only_known_keys()?;
    Ok(SignalDecl { name, sorts })
}

fn read_sorts(walk: &Walk) -> Result<ArrayVec<Sort, 4>, FileFault>
    requires here { IsHere walk.now }
    requires part { walk.now.place.part ≡ Part.Signal }
    ensures kind { IfOk result (λ _. HasKindAt (own walk.now) Key.Sorts) }
    ensures read { IfOk result (λ sorts. AllZip NamesSort (elements_at Key.Sorts (own walk.now)) sorts.items) }
    ensures few { IfOk result (λ sorts. length sorts.items ≤ 4) }
    ensures fault { IfErr result (IsBroken (file_of walk.now)) }
    ensures of_file { IfErr result IsOfFile }
{
    let texts = walk.texts(Key::Sorts)?;
    let mut sorts = ArrayVec::new();
    for value in texts {
        match sort_named(text_of(value)) {
            Some(sort) => sorts.push(sort),
            None => return Err(FileFault::UnknownName(walk.at(Key::Sorts))),
        }
    }
    Ok(sorts)
}

/// The sort that the text names.
fn sort_named(text: &str) -> Option<Sort>
    ensures found { IfSome result (λ s. sort_text s ≡ text.now) }
    ensures none { IfNone result ((s : Sort) → sort_text s ≢ text.now) }
{
    match text {
        "Integer" => Some(Sort::Integer),
        "Boolean" => Some(Sort::Boolean),
        "Pid" => Some(Sort::Pid),
        _ => None,
    }
}

/// The signals that the list at a key names, each once.
pub fn read_signal_list(
    walk: &Walk,
    key: Key,
    signals: &[SignalDecl],
) -> Result<ArrayVec<SignalId, 64>, FileFault>
    requires here { IsHere walk.now }
    requires listed { is_key walk.now.version walk.now.place.part key ≡ true }
    requires kind { kind_of key ≡ list_of_signals }
    requires signals { AllZip IsSignalTable (tables_at Key.Signal (file_of walk.now)) signals.now }
    requires few { length signals.now ≤ 64 }
    ensures kind { IfOk result (λ _. HasKindAt (own walk.now) key) }
    ensures read { IfOk result (λ ids. ListsSignals signals.now key (own walk.now) ids.items) }
    ensures fault { IfErr result (IsBroken (file_of walk.now)) }
    ensures of_file { IfErr result IsOfFile }
{
    let texts = walk.texts(key)?;
    let mut ids: ArrayVec<SignalId, 64> = ArrayVec::new();
    for value in texts {
        match signal_number(signals, text_of(value)) {
            Some(number) => {
                let id = SignalId(number as u32);
                if let Some(_) = id_number(ids.as_slice(), id.0) {
                    return Err(FileFault::Duplicate(walk.at(key)));
                }
                ids.push(id);
            }
            None => return Err(FileFault::UnknownName(walk.at(key))),
        }
    }
    Ok(ids)
}

fn signal_number(signals: &[SignalDecl], text: &str) -> Option<usize>
    ensures found { IfSome result (λ i. (i < length signals.now) × HoldsAt (λ x. x.name.bytes ≡ text.now) signals.now i) }
    ensures none { IfNone result (All (λ x. x.name.bytes ≢ text.now) signals.now) }
{
    signals
        .iter()
        .position(|signal| signal.name.as_str() == text)
}

fn id_number(ids: &[SignalId], number: u32) -> Option<usize>
    ensures found { IfSome result (λ i. (i < length ids.now) × HoldsAt (λ x. x.0 ≡ number) ids.now i) }
    ensures none { IfNone result (All (λ x. x.0 ≢ number) ids.now) }
{
    ids.iter().position(|id| id.0 == number)
}
