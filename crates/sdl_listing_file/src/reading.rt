//! Reading the agents file.
ghost use Rattle.std.specs.Prelude.{◌≡◌, ◌≢◌, ◌⊎◌, [], length, flat_map, pos, Err, Some, None, map, IfOk, IfErr, IsSomeAnd};
ghost use Rattle.std.specs.List.{AllByRecursion};
ghost use Rattle.toml.specs.Data.{Members};
ghost use Rattle.toml.specs.Parse.{parse_document};
ghost use Rattle.toml.specs.View.{table_view};
ghost use Rattle.sdl_listing_file.specs.Tables.{texts_at, tables_at, integer_at, text_at};
ghost use Rattle.sdl_listing_file.specs.File.{AreConstants, AreSlots, taken, sets_in, IsListed, IsFileOf, IsPlaced};
ghost use Rattle.sdl_listing_file.specs.Walks.{file_of, own, IsHere};

use crate::behaviours::{Slots, read_behaviour};
use crate::checks::text_of;
use crate::fault::{AgentsFault, text_fault};
use crate::place::{AgentsKey, AgentsPart};
use crate::walk::Walk;
use sdl_listing_body::ListedSet;
use sdl_listing_body_text::{Constant, read_constant};
use sdl_signal::SetId;
use sdl_structure_parts::Structure;
use std::alloc::{AllocError, Global};
use toml::Table;

/// How many constants a file may have.
const MOST_CONSTANTS: usize = 256;

/// How many behaviours a file may have.
const MOST_BEHAVIOURS: usize = 64;

fn constants_of(
    alloc: Global,
    structure: &Structure,
    top: &Walk,
) -> Result<Vec<Constant>, AgentsFault>
    requires { IsHere top.now }
    ensures read { IfOk result (λ cs. AreConstants structure.now [] (texts_at AgentsKey.Constants (own top.now)) cs.items) }
    ensures fault { IfErr result (IsPlaced (file_of top.now)) }
{
    let place = top.at(AgentsKey::Constants);
    let texts = top.texts(AgentsKey::Constants, MOST_CONSTANTS)?;
    let mut constants = Vec::new(alloc);
    for (item, value) in texts.iter().enumerate() {
        let text = text_of(value).as_bytes();
        match read_constant(alloc, structure, constants.as_slice(), text) {
            Ok(constant) => constants.push(constant)?,
            Err(refusal) => return Err(text_fault(place, item, refusal)),
        }
    }
    Ok(constants)
}

/// The version is 1, and the system is the structure's.
fn check_head(structure: &Structure, top: &Walk) -> Result<(), AgentsFault>
    requires { IsHere top.now }
    ensures version { IfOk result (λ _. integer_at AgentsKey.Version (own top.now) ≡ Some (pos 1)) }
    ensures system { IfOk result (λ _. text_at AgentsKey.System (own top.now) ≡ Some structure.now.system) }
    ensures fault { IfErr result (IsPlaced (file_of top.now)) }
{
    if top.number(AgentsKey::Version)? != 1 {
        return Err(AgentsFault::OutOfRange(top.at(AgentsKey::Version)));
    }
    if top.text(AgentsKey::System)? != structure.system() {
        return Err(AgentsFault::UnknownName(top.at(AgentsKey::System)));
    }
    Ok(())
}

fn empty_slots(alloc: Global, count: usize) -> Result<Slots, AllocError>
    ensures all { IfOk result (λ slots. length slots.items ≡ count) }
    ensures empty { IfOk result (λ slots. AllByRecursion (λ slot. slot ≡ None) slots.items) }
{
    let mut slots = Vec::new(alloc);
    for _ in 0..count {
        slots.push(None)?;
    }
    Ok(slots)
}

/// What the file says of each set, in the structure's order, where there is a behaviour of each.
fn all_listed(alloc: Global, slots: Slots) -> Result<Vec<ListedSet>, AgentsFault>
    ensures slots { IfOk result (λ listing. map Some listing.items ≡ slots.items) }
    ensures fault { (root : Members) → IfErr result (IsPlaced root) }
{
    let mut listing = Vec::new(alloc);
    let mut number: u32 = 0;
    for slot in slots {
        match slot {
            Some(listed) => listing.push(listed)?,
            None => return Err(AgentsFault::NoBehaviour(SetId(number))),
        }
        number = number.saturating_add(1);
    }
    Ok(listing)
}

/// What the behaviours say of each set.
fn read_slots(
    alloc: Global,
    structure: &Structure,
    constants: &[Constant],
    top: &Walk,
) -> Result<Slots, AgentsFault>
    requires here { IsHere top.now }
    requires part { top.now.place.part ≡ AgentsPart.Agents }
    ensures all { IfOk result (λ slots. length slots.items ≡ length structure.now.sets) }
    ensures listed { IfOk result (λ slots. AreSlots (IsListed structure.now constants.now (own top.now)) slots.items) }
    ensures count { IfOk result (λ slots. taken slots.items ≡ length (sets_in (tables_at AgentsKey.Behaviour (own top.now)))) }
    ensures fault { IfErr result (IsPlaced (file_of top.now)) }
{
    let mut slots = empty_slots(alloc, structure.sets().len())?;
    let behaviours = top.some_tables(AgentsKey::Behaviour, MOST_BEHAVIOURS)?;
    for (number, value) in behaviours.iter().enumerate() {
        let walk = top.behaviour(value, number);
        read_behaviour(alloc, structure, constants, &walk, &mut slots)?;
    }
    Ok(slots)
}

fn read_top(
    alloc: Global,
    table: &Table,
    structure: &Structure,
) -> Result<Vec<ListedSet>, AgentsFault>
    ensures read { IfOk result (λ listing. IsFileOf structure.now (table_view table.now) listing.items) }
    ensures fault { IfErr result (IsPlaced (table_view table.now)) }
{
    let top = Walk::top(table);
    check_head(structure, &top)?;
    let constants = constants_of(alloc, structure, &top)?;
    let slots = read_slots(alloc, structure, constants.as_slice(), &top)?;
    top.only_known_keys()?;
    let listing = all_listed(alloc, slots)?;
    Ok(listing)
}

/// Reads the text of an agents file for the structure: what it says of each set, in the structure's order. Memory is answered only
/// where a growth was refused.
pub fn read_agents(
    alloc: Global,
    text: &str,
    structure: &Structure,
) -> Result<Vec<ListedSet>, AgentsFault>
    ensures read { IfOk result (λ listing. IsSomeAnd (parse_document text.now) (λ root. IsFileOf structure.now root listing.items)) }
    ensures not_toml { IfErr result (λ f. f ≡ AgentsFault.NotToml → parse_document text.now ≡ None) }
    ensures no_table { parse_document text.now ≡ None → (result ≡ Err AgentsFault.NotToml) ⊎ (result ≡ Err AgentsFault.Memory) }
    ensures placed { IfErr result (λ f. f ≢ AgentsFault.NotToml → f ≢ AgentsFault.Memory → IsSomeAnd (parse_document text.now) (λ root. IsPlaced root f)) }
{
    match toml::table_from_str(alloc, text) {
        Ok(table) => read_top(alloc, &table, structure),
        Err(error) => {
            if error.is_memory() {
                Err(AgentsFault::Memory)
            } else {
                Err(AgentsFault::NotToml)
            }
        }
    }
}
