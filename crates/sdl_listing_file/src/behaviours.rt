//! A behaviour, read for each of its sets.
ghost use Rattle.std.specs.Prelude.{◌≡◌, ◌≢◌, ◌≤◌, ◌<◌, ◌+◌, [], map, length, true, Some, None, IfNone, IfOk, IfErr, OnOk, IsSomeAnd, All, Contains, slice_get, slice_set};
ghost use Rattle.std.specs.List.{AllZip, AllByRecursion};
ghost use Rattle.toml.specs.View.{view};
ghost use Rattle.sdl_listing_file.specs.Keys.{keys_of};
ghost use Rattle.sdl_listing_file.specs.Tables.{texts_at, text_at, tables_at, is_table, table_in, has_only};
ghost use Rattle.sdl_listing_file.specs.Heads.{AreOnce};
ghost use Rattle.sdl_listing_file.specs.File.{AreVariables, bytes_of, states_in, IsStartOf, IsSaveOf, IsInputOf, for_groups, IsListedBy, IsListed, AreSetsOf, AreSlots, taken, IsPlaced};
ghost use Rattle.sdl_listing_file.specs.Walks.{file_of, own, IsHere};

use crate::checks::text_of;
use crate::fault::{AgentsFault, text_fault};
use crate::groups::{Transitions, add_group, add_states};
use crate::place::{AgentsKey, AgentsPart};
use crate::uses::uses_of;
use crate::walk::Walk;
use arrayvec::ArrayVec;
use sdl_listing_body::{ListedSet, Row};
use sdl_listing_body_text::{Constant, Setting, Variable, read_start, read_variable, set_named};
use sdl_signal::{Name, SetId, Value as Initial};
use sdl_structure_parts::Structure;
use std::alloc::Global;
use toml::Value;

/// How many sets a behaviour may have: as many as a structure may have.
const MOST_SETS: usize = 64;

/// How many variables a behaviour may have.
const MOST_VARIABLES: usize = 8;

/// How many groups of states a behaviour may have.
const MOST_GROUPS: usize = 256;

/// What a file says of each set so far, by the numbers of the sets.
pub type Slots = Vec<Option<ListedSet>>;

/// Whether there is such a set, and no behaviour before is of it.
fn is_free(slots: &[Option<ListedSet>], set: SetId) -> bool
    ensures { result ≡ true → slice_get slots.now set.0 ≡ Some None }
{
    match slots.get(set.0 as usize) {
        Some(slot) => slot.is_none(),
        None => false,
    }
}

/// The position of the set among these.
fn place_of(sets: &[SetId], set: SetId) -> Option<usize>
    ensures { IfNone result (All (λ x. x.0 ≢ set.0) sets.now) }
{
    sets.iter().position(|x| x.0 == set.0)
}

/// The sets that behave so.
fn sets_of(
    structure: &Structure,
    walk: &Walk,
    slots: &[Option<ListedSet>],
) -> Result<ArrayVec<SetId, 64>, AgentsFault>
    requires { IsHere walk.now }
    ensures sets { IfOk result (λ sets. AreSetsOf structure.now slots.now (texts_at AgentsKey.Sets (own walk.now)) sets.items) }
    ensures fault { IfErr result (IsPlaced (file_of walk.now)) }
{
    let texts = walk.some_texts(AgentsKey::Sets, MOST_SETS)?;
    let mut sets: ArrayVec<SetId, 64> = ArrayVec::new();
    for value in texts {
        let Some(set) = set_named(structure, text_of(value).as_bytes()) else {
            return Err(AgentsFault::UnknownName(walk.at(AgentsKey::Sets)));
        };
        if !is_free(slots, set) {
            return Err(AgentsFault::Duplicate(walk.at(AgentsKey::Sets)));
        }
        if let Some(_) = place_of(sets.as_slice(), set) {
            return Err(AgentsFault::Duplicate(walk.at(AgentsKey::Sets)));
        }
        sets.push(set);
    }
    Ok(sets)
}

fn variables_of(
    alloc: Global,
    structure: &Structure,
    constants: &[Constant],
    walk: &Walk,
) -> Result<ArrayVec<Variable, 8>, AgentsFault>
    requires { IsHere walk.now }
    ensures read { IfOk result (λ xs. AreVariables structure.now constants.now [] (texts_at AgentsKey.Variables (own walk.now)) xs.items) }
    ensures fault { IfErr result (IsPlaced (file_of walk.now)) }
{
    let place = walk.at(AgentsKey::Variables);
    let texts = walk.texts(AgentsKey::Variables, MOST_VARIABLES)?;
    let mut variables: ArrayVec<Variable, 8> = ArrayVec::new();
    for (item, value) in texts.iter().enumerate() {
        let text = text_of(value).as_bytes();
        match read_variable(alloc, structure, constants, variables.as_slice(), text) {
            Ok(variable) => variables.push(variable),
            Err(refusal) => return Err(text_fault(place, item, refusal)),
        }
    }
    Ok(variables)
}

/// The names of the states, as they first appear in the groups.
fn states_of<'a>(walk: &Walk<'a>, groups: &'a [Value]) -> Result<ArrayVec<Name, 16>, AgentsFault>
    requires here { IsHere walk.now }
    requires part { walk.now.place.part ≡ AgentsPart.Behaviour }
    requires tables { tables_at AgentsKey.State (own walk.now) ≡ map table_in groups.now }
    requires each { All (λ v. is_table (view v) ≡ true) groups.now }
    requires few { length groups.now ≤ 256 }
    ensures names { IfOk result (λ states. bytes_of states.items ≡ states_in (tables_at AgentsKey.State (own walk.now))) }
    ensures fault { IfErr result (IsPlaced (file_of walk.now)) }
{
    let mut states = ArrayVec::new();
    for (number, value) in groups.iter().enumerate() {
        add_states(&walk.group(value, number), &mut states)?;
    }
    Ok(states)
}

fn first_values(variables: &[Variable]) -> ArrayVec<Initial, 8>
    requires { length variables.now ≤ 8 }
    ensures { result.items ≡ map (λ x. x.initial) variables.now }
{
    let mut values = ArrayVec::new();
    for variable in variables {
        values.push(variable.initial);
    }
    values
}

fn copied_states(names: &[Name]) -> ArrayVec<Name, 16>
    requires { length names.now ≤ 16 }
    ensures { result.items ≡ names.now }
{
    match ArrayVec::try_from(names) {
        Ok(copy) => copy,
        Err(_) => unreachable!(),
    }
}

/// The start transition of the behaviour.
fn start_of(alloc: Global, setting: &Setting, walk: &Walk) -> Result<Row, AgentsFault>
    requires { IsHere walk.now }
    ensures start { IfOk result (λ start. IsSomeAnd (text_at AgentsKey.Start (own walk.now)) (λ text. IsStartOf setting.now text start)) }
    ensures fault { IfErr result (IsPlaced (file_of walk.now)) }
{
    let text = walk.text(AgentsKey::Start)?;
    match read_start(alloc, setting, text.as_bytes()) {
        Ok(start) => Ok(start),
        Err(refusal) => Err(text_fault(walk.at(AgentsKey::Start), 0, refusal)),
    }
}

fn no_transitions(alloc: Global) -> Transitions
    ensures saves { result.saves.items ≡ [] }
    ensures rows { result.rows.items ≡ [] }
{
    Transitions {
        saves: Vec::new(alloc),
        rows: Vec::new(alloc),
    }
}

/// What the groups of the behaviour say.
fn transitions_of<'a>(
    alloc: Global,
    setting: &Setting,
    walk: &Walk<'a>,
    groups: &'a [Value],
) -> Result<Transitions, AgentsFault>
    requires here { IsHere walk.now }
    requires part { walk.now.place.part ≡ AgentsPart.Behaviour }
    requires tables { tables_at AgentsKey.State (own walk.now) ≡ map table_in groups.now }
    requires each { All (λ v. is_table (view v) ≡ true) groups.now }
    requires few { length groups.now ≤ 256 }
    ensures saves { IfOk result (λ all. AllZip (IsSaveOf setting.now) (for_groups setting.now AgentsKey.Save (tables_at AgentsKey.State (own walk.now))) all.saves.items) }
    ensures rows { IfOk result (λ all. AllZip (IsInputOf setting.now) (for_groups setting.now AgentsKey.Input (tables_at AgentsKey.State (own walk.now))) all.rows.items) }
    ensures once { IfOk result (λ all. AreOnce all.saves.items all.rows.items) }
    ensures keys { IfOk result (λ _. All (λ g. has_only (keys_of AgentsPart.State) g ≡ true) (tables_at AgentsKey.State (own walk.now))) }
    ensures fault { IfErr result (IsPlaced (file_of walk.now)) }
{
    let mut all = no_transitions(alloc);
    for (number, value) in groups.iter().enumerate() {
        add_group(alloc, setting, &walk.group(value, number), &mut all)?;
    }
    Ok(all)
}

/// What the behaviour says of a set.
fn listed_of<'a>(
    alloc: Global,
    setting: &Setting,
    walk: &Walk<'a>,
    groups: &'a [Value],
) -> Result<ListedSet, AgentsFault>
    requires here { IsHere walk.now }
    requires part { walk.now.place.part ≡ AgentsPart.Behaviour }
    requires tables { tables_at AgentsKey.State (own walk.now) ≡ map table_in groups.now }
    requires each { All (λ v. is_table (view v) ≡ true) groups.now }
    requires few { length groups.now ≤ 256 }
    ensures listed { IfOk result (IsListedBy setting.now (own walk.now)) }
    ensures fault { IfErr result (IsPlaced (file_of walk.now)) }
{
    let start = start_of(alloc, setting, walk)?;
    let uses = uses_of(alloc, setting.structure, setting.set)?;
    let all = transitions_of(alloc, setting, walk, groups)?;
    walk.only_known_keys()?;
    let Transitions { saves, rows } = all;
    Ok(ListedSet {
        set: setting.set,
        uses,
        vars: first_values(setting.variables.as_slice()),
        states: copied_states(setting.states.as_slice()),
        saves,
        start,
        rows,
    })
}

/// Puts what is said of a set into its slot.
fn put(slots: &mut Slots, listed: ListedSet)
    requires { listed.set.0 < length slots.old.items }
    ensures { slots.new.items ≡ slice_set slots.old.items listed.set.0 (Some listed) }
{
    let place = listed.set.0 as usize;
    slots[place] = Some(listed);
}

/// Reads a behaviour for each of its sets.
pub fn read_behaviour(
    alloc: Global,
    structure: &Structure,
    constants: &[Constant],
    walk: &Walk,
    slots: &mut Slots,
) -> Result<(), AgentsFault>
    requires here { IsHere walk.now }
    requires part { walk.now.place.part ≡ AgentsPart.Behaviour }
    requires table { Contains (tables_at AgentsKey.Behaviour (file_of walk.now)) (own walk.now) }
    requires listed { AreSlots (IsListed structure.now constants.now (file_of walk.now)) slots.old.items }
    ensures all { length slots.new.items ≡ length slots.old.items }
    ensures listed { OnOk result (AreSlots (IsListed structure.now constants.now (file_of walk.now)) slots.new.items) }
    ensures count { OnOk result (taken slots.new.items ≡ taken slots.old.items + length (texts_at AgentsKey.Sets (own walk.now))) }
    ensures fault { IfErr result (IsPlaced (file_of walk.now)) }
{
    let sets = sets_of(structure, walk, slots.as_slice())?;
    let variables = variables_of(alloc, structure, constants, walk)?;
    let _start = walk.text(AgentsKey::Start)?;
    let groups = walk.some_tables(AgentsKey::State, MOST_GROUPS)?;
    let states = states_of(walk, groups)?;
    let each = sets.as_slice();
    for set in each {
        let setting = Setting {
            structure,
            set: *set,
            constants,
            variables: &variables,
            states: &states,
        };
        let listed = listed_of(alloc, &setting, walk, groups)?;
        put(slots, listed);
    }
    Ok(())
}
