//! The groups of states of a behaviour: their names, what they save, and their inputs.
ghost use Rattle.std.specs.Prelude.{◌≡◌, ◌≤◌, ◌<◌, ◌+◌, ◌++◌, [], ◌∷◌, length, true, false, All, Some, None, IfSome, IfErr, OnOk, IfOk, bytes_eq};
ghost use Rattle.std.specs.List.{filter_map, list_any};
ghost use Rattle.arrayvec.specs.ArrayVec.{array_vec_len};
ghost use Rattle.sdl_listing_expression_text.specs.Meanings.{state_named};
ghost use Rattle.sdl_listing_file.specs.Keys.{keys_of};
ghost use Rattle.sdl_listing_file.specs.Tables.{texts_at, text_of, has_only};
ghost use Rattle.sdl_listing_file.specs.Heads.{AreOnce, is_save_for, is_state, is_signal, is_row_for, is_taken};
ghost use Rattle.sdl_listing_file.specs.File.{bytes_of, first_seen, with_name, states_of, in_each, for_states, IsInputOf, IsSaveOf, Appends, IsFaultIn, IsPlaced};
ghost use Rattle.sdl_listing_file.specs.Walks.{file_of, own, IsHere};

use crate::checks::text_of;
use crate::fault::{AgentsFault, AgentsText, text_fault};
use crate::place::{AgentsKey, AgentsPart, AgentsPlace};
use crate::walk::Walk;
use arrayvec::ArrayVec;
use sdl_listing_body::Row;
use sdl_listing_body_text::{Setting, TextFault, read_input};
use sdl_listing_tokens::{Token, cut, is_reserved};
use sdl_signal::{Name, SignalId, StateId, name};
use sdl_transition_behaviour::{Save, SignalSorts};
use std::alloc::Global;

/// How many states a behaviour and a group may have.
const MOST_STATES: usize = 16;

/// How many signals a group may save: as many as a structure may have.
const MOST_SIGNALS: usize = 64;

/// How many rows a set may have.
const MOST_ROWS: usize = 256;

/// What the groups of a behaviour say of a set so far.
#[derive(Drop)]
pub struct Transitions {
    pub saves: Vec<Save>,
    pub rows: Vec<Row>,
}

/// Whether a state has this name.
fn has_state(states: &[Name], text: &str) -> bool
    ensures { result ≡ list_any (λ n. bytes_eq n.bytes text.now) states.now }
{
    states.iter().any(|x| x.as_str() == text)
}

/// The name of a state, which is no reserved word.
fn state_name(text: &str) -> Option<Name>
    ensures { IfSome result (λ n. n.bytes ≡ text.now) }
{
    if is_reserved(text.as_bytes()) {
        return None;
    }
    name(text)
}

/// Adds the state of this name, where it is not there.
fn add_state(group: &Walk, text: &str, states: &mut ArrayVec<Name, 16>) -> Result<(), AgentsFault>
    requires { IsHere group.now }
    ensures names { OnOk result (bytes_of states.new.items ≡ with_name (bytes_of states.old.items) text.now) }
    ensures fault { IfErr result (IsPlaced (file_of group.now)) }
{
    let Some(name) = state_name(text) else {
        return Err(AgentsFault::BadName(group.at(AgentsKey::Names)));
    };
    if has_state(states.as_slice(), text) {
        return Ok(());
    }
    match states.try_push(name) {
        Ok(()) => Ok(()),
        Err(_) => Err(AgentsFault::TooMany(group.at(AgentsKey::Names))),
    }
}

/// Adds the states of a group, where they are not there.
pub fn add_states(group: &Walk, states: &mut ArrayVec<Name, 16>) -> Result<(), AgentsFault>
    requires { IsHere group.now }
    ensures names { OnOk result (bytes_of states.new.items ≡ first_seen (bytes_of states.old.items) (texts_at AgentsKey.Names (own group.now))) }
    ensures fault { IfErr result (IsPlaced (file_of group.now)) }
{
    let texts = group.some_texts(AgentsKey::Names, MOST_STATES)?;
    for value in texts {
        add_state(group, text_of(value), states)?;
    }
    Ok(())
}

/// Adds the state of this name, where there is one.
fn add_found(setting: &Setting, text: &str, found: &mut ArrayVec<StateId, 16>)
    requires { array_vec_len found.old < 16 }
    ensures found { found.new.items ≡ found.old.items ++ filter_map (λ t. state_named setting.now t) (text.now ∷ []) }
    ensures few { array_vec_len found.new ≤ array_vec_len found.old + 1 }
{
    let Some(state) = setting.state(text.as_bytes()) else {
        return;
    };
    found.push(state);
}

/// The states of a group, by the positions of their names.
fn states_of(setting: &Setting, group: &Walk) -> Result<ArrayVec<StateId, 16>, AgentsFault>
    requires { IsHere group.now }
    ensures states { IfOk result (λ found. found.items ≡ states_of setting.now (own group.now)) }
    ensures fault { IfErr result (IsPlaced (file_of group.now)) }
{
    let texts = group.some_texts(AgentsKey::Names, MOST_STATES)?;
    let mut found = ArrayVec::new();
    for value in texts {
        add_found(setting, text_of(value), &mut found);
    }
    Ok(found)
}

/// Whether the save is for the state and the signal.
fn is_save_for(save: &Save, state: StateId, signal: SignalId) -> bool
    ensures { result ≡ is_save_for state signal save.now }
{
    save.state.0 == state.0 && save.signal.0 == signal.0
}

fn is_state(own: Option<StateId>, state: StateId) -> bool
    ensures { result ≡ is_state state own }
{
    match own {
        Some(own) => own.0 == state.0,
        None => false,
    }
}

fn is_signal(sorts: &Option<SignalSorts>, signal: SignalId) -> bool
    ensures { result ≡ is_signal signal sorts.now }
{
    match sorts {
        Some(sorts) => sorts.id.0 == signal.0,
        None => false,
    }
}

/// Whether the row is for the state and the signal.
fn is_row_for(row: &Row, state: StateId, signal: SignalId) -> bool
    ensures { result ≡ is_row_for state signal row.now }
{
    is_state(row.state, state) && is_signal(&row.signal, signal)
}

fn has_save(saves: &[Save], state: StateId, signal: SignalId) -> bool
    ensures { result ≡ list_any (λ x. is_save_for state signal x) saves.now }
{
    saves.iter().any(|save| is_save_for(save, state, signal))
}

fn has_row(rows: &[Row], state: StateId, signal: SignalId) -> bool
    ensures { result ≡ list_any (λ x. is_row_for state signal x) rows.now }
{
    rows.iter().any(|row| is_row_for(row, state, signal))
}

/// Whether the state has a row or a save of the signal.
fn is_taken(all: &Transitions, state: StateId, signal: SignalId) -> bool
    ensures { result ≡ is_taken state signal all.now.saves.items all.now.rows.items }
{
    has_save(all.saves.as_slice(), state, signal) || has_row(all.rows.as_slice(), state, signal)
}

/// Adds that the states save the signal of the text.
fn add_save(
    setting: &Setting,
    group: &Walk,
    text: &str,
    states: &[StateId],
    all: &mut Transitions,
) -> Result<(), AgentsFault>
    requires here { IsHere group.now }
    requires once { AreOnce all.old.saves.items all.old.rows.items }
    ensures saves { OnOk result (Appends (IsSaveOf setting.now) (in_each states.now text.now) all.old.saves.items all.new.saves.items) }
    ensures rows { all.new.rows.items ≡ all.old.rows.items }
    ensures once { OnOk result (AreOnce all.new.saves.items all.new.rows.items) }
    ensures fault { IfErr result (IsPlaced (file_of group.now)) }
{
    let Some(signal) = setting.signal(text.as_bytes()) else {
        return Err(AgentsFault::UnknownName(group.at(AgentsKey::Save)));
    };
    for state in states {
        if is_taken(all, *state, signal) {
            return Err(AgentsFault::Duplicate(group.at(AgentsKey::Save)));
        }
        all.saves.push(Save {
            state: *state,
            signal,
        })?;
    }
    Ok(())
}

/// Adds the signals that the group saves.
fn add_saves(
    setting: &Setting,
    group: &Walk,
    states: &[StateId],
    all: &mut Transitions,
) -> Result<(), AgentsFault>
    requires here { IsHere group.now }
    requires states { states.now ≡ states_of setting.now (own group.now) }
    requires once { AreOnce all.old.saves.items all.old.rows.items }
    ensures saves { OnOk result (Appends (IsSaveOf setting.now) (for_states setting.now AgentsKey.Save (own group.now)) all.old.saves.items all.new.saves.items) }
    ensures rows { all.new.rows.items ≡ all.old.rows.items }
    ensures once { OnOk result (AreOnce all.new.saves.items all.new.rows.items) }
    ensures fault { IfErr result (IsPlaced (file_of group.now)) }
{
    let texts = group.texts(AgentsKey::Save, MOST_SIGNALS)?;
    for value in texts {
        add_save(setting, group, text_of(value), states, all)?;
    }
    Ok(())
}

/// Where a text stands in the file: in the list at the place, by its position there.
#[derive(Clone, Copy)]
struct Source<'a> {
    place: AgentsPlace,
    item: usize,
    text: &'a str,
}

/// Where the first token stands in the text.
fn first_place(text: &[u8], tokens: &[Token]) -> (usize, usize)
    requires { All (λ t. t.start + length t.text.now ≤ length text.now) tokens.now }
    ensures start { result.0 ≤ result.1 }
    ensures end { result.1 ≤ length text.now }
{
    let size = text.len();
    match tokens {
        [] => (size, size),
        [token, ..] => (token.start, token.start + token.text.len()),
    }
}

/// A fault at the signal of a text that was read, which stands at its begin.
fn at_signal(alloc: Global, source: &Source, fault: TextFault) -> AgentsFault
    ensures { IsFaultIn source.now.place source.now.item source.now.text.now result }
{
    let text = source.text.as_bytes();
    let Ok(tokens) = cut(alloc, text) else {
        return AgentsFault::Memory;
    };
    let (start, end) = first_place(text, tokens.as_slice());
    AgentsFault::Text(
        source.place,
        fault,
        AgentsText {
            item: source.item,
            start,
            end,
        },
    )
}

/// The row of a text for the state.
fn row_of(
    alloc: Global,
    setting: &Setting,
    source: &Source,
    state: StateId,
) -> Result<Row, AgentsFault>
    ensures row { IfOk result (IsInputOf setting.now (state, source.now.text.now)) }
    ensures fault { IfErr result (IsFaultIn source.now.place source.now.item source.now.text.now) }
{
    match read_input(alloc, setting, state, source.text.as_bytes()) {
        Ok(row) => Ok(row),
        Err(refusal) => Err(text_fault(source.place, source.item, refusal)),
    }
}

/// Whether the state has a row or a save of the row's signal.
fn is_second(all: &Transitions, state: StateId, row: &Row) -> bool
    ensures { result ≡ false → IfSome row.now.signal (λ x. is_taken state x.id all.now.saves.items all.now.rows.items ≡ false) }
{
    match &row.signal {
        Some(sorts) => is_taken(all, state, sorts.id),
        None => false,
    }
}

/// Adds the row of a text for the state.
fn add_row(
    alloc: Global,
    setting: &Setting,
    source: &Source,
    state: StateId,
    all: &mut Transitions,
) -> Result<(), AgentsFault>
    requires { AreOnce all.old.saves.items all.old.rows.items }
    ensures rows { OnOk result (Appends (IsInputOf setting.now) ((state, source.now.text.now) ∷ []) all.old.rows.items all.new.rows.items) }
    ensures saves { all.new.saves.items ≡ all.old.saves.items }
    ensures once { OnOk result (AreOnce all.new.saves.items all.new.rows.items) }
    ensures fault { IfErr result (IsFaultIn source.now.place source.now.item source.now.text.now) }
{
    let row = row_of(alloc, setting, source, state)?;
    if is_second(all, state, &row) {
        return Err(at_signal(alloc, source, TextFault::TwoRows));
    }
    if all.rows.len() >= MOST_ROWS {
        return Err(at_signal(alloc, source, TextFault::ManyRows));
    }
    all.rows.push(row)?;
    Ok(())
}

/// Adds the rows of a text, one for each of the states.
fn add_rows(
    alloc: Global,
    setting: &Setting,
    source: &Source,
    states: &[StateId],
    all: &mut Transitions,
) -> Result<(), AgentsFault>
    requires { AreOnce all.old.saves.items all.old.rows.items }
    ensures rows { OnOk result (Appends (IsInputOf setting.now) (in_each states.now source.now.text.now) all.old.rows.items all.new.rows.items) }
    ensures saves { all.new.saves.items ≡ all.old.saves.items }
    ensures once { OnOk result (AreOnce all.new.saves.items all.new.rows.items) }
    ensures fault { IfErr result (IsFaultIn source.now.place source.now.item source.now.text.now) }
{
    for state in states {
        add_row(alloc, setting, source, *state, all)?;
    }
    Ok(())
}

/// Adds the rows of the group's inputs.
fn add_inputs(
    alloc: Global,
    setting: &Setting,
    group: &Walk,
    states: &[StateId],
    all: &mut Transitions,
) -> Result<(), AgentsFault>
    requires here { IsHere group.now }
    requires states { states.now ≡ states_of setting.now (own group.now) }
    requires once { AreOnce all.old.saves.items all.old.rows.items }
    ensures rows { OnOk result (Appends (IsInputOf setting.now) (for_states setting.now AgentsKey.Input (own group.now)) all.old.rows.items all.new.rows.items) }
    ensures saves { all.new.saves.items ≡ all.old.saves.items }
    ensures once { OnOk result (AreOnce all.new.saves.items all.new.rows.items) }
    ensures fault { IfErr result (IsPlaced (file_of group.now)) }
{
    let place = group.at(AgentsKey::Input);
    let texts = group.texts(AgentsKey::Input, usize::MAX)?;
    for (item, value) in texts.iter().enumerate() {
        let source = Source {
            place,
            item,
            text: text_of(value),
        };
        add_rows(alloc, setting, &source, states, all)?;
    }
    Ok(())
}

/// Adds what the group's states save, and the rows of its inputs.
pub fn add_group(
    alloc: Global,
    setting: &Setting,
    group: &Walk,
    all: &mut Transitions,
) -> Result<(), AgentsFault>
    requires here { IsHere group.now }
    requires part { group.now.place.part ≡ AgentsPart.State }
    requires once { AreOnce all.old.saves.items all.old.rows.items }
    ensures saves { OnOk result (Appends (IsSaveOf setting.now) (for_states setting.now AgentsKey.Save (own group.now)) all.old.saves.items all.new.saves.items) }
    ensures rows { OnOk result (Appends (IsInputOf setting.now) (for_states setting.now AgentsKey.Input (own group.now)) all.old.rows.items all.new.rows.items) }
    ensures once { OnOk result (AreOnce all.new.saves.items all.new.rows.items) }
    ensures keys { OnOk result (has_only (keys_of AgentsPart.State) (own group.now) ≡ true) }
    ensures fault { IfErr result (IsPlaced (file_of group.now)) }
{
    let states = states_of(setting, group)?;
    add_saves(setting, group, states.as_slice(), all)?;
    add_inputs(alloc, setting, group, states.as_slice(), all)?;
    group.only_known_keys()?;
    Ok(())
}
