//! The sets that the options of `chart` name.
ghost use Rattle.std.specs.Prelude.{◌≡◌, [], ◌∷◌, ◌++◌, Some, map, IfErr, IfOk, IfSome, OnOk};
ghost use Rattle.sdl_listing_expression_text.specs.Meanings as meaning;
ghost use Rattle.sdl_chart_words.specs.Sets.{AreNamed, IsWhy, names_in};

use crate::asked::Request;
use sdl_app_command::errors::{without_memory, write_error};
use sdl_listing_expression_text::set_named;
use sdl_signal::SetId;
use sdl_structure_parts::Structure;
use std::alloc::Global;
use std::io::Write;

/// What is asked for of a chart of a structure's run, with the sets that are named.
#[derive(Drop)]
pub struct Charting {
    pub request: Request,
    pub only: Vec<SetId>,
}

/// Why the sets are not known that words name.
#[derive(Clone, Copy)]
pub enum NoSets<'a> {
    /// A growth was refused.
    Memory,
    /// The structure has no set of this name.
    NoSet(&'a str),
}

/// What is asked for of a chart by these words, of which the request was read. Where they name no set, that was written.
pub fn charting_of<E: Write>(
    alloc: Global,
    structure: &Structure,
    request: Request,
    words: &[&str],
    errors: &mut E,
) -> Option<Charting>
    ensures asked { IfSome result (λ c. c.request ≡ request) }
    ensures named { IfSome result (λ c. AreNamed structure.now (map (λ w. w.now) words.now) c.only.items) }
    ensures quiet { IfSome result (λ c. errors.new ≡ errors.old) }
{
    match sets_in(alloc, structure, words) {
        Ok(only) => Some(Charting { request, only }),
        Err(NoSets::Memory) => {
            without_memory(errors);
            None
        }
        Err(NoSets::NoSet(name)) => {
            write_error(errors, format_args!("chart: no set {name}"));
            None
        }
    }
}

/// The sets that these words of `chart` name.
pub fn sets_in<'a>(
    alloc: Global,
    structure: &Structure,
    words: &[&'a str],
) -> Result<Vec<SetId>, NoSets<'a>>
    ensures sets { IfOk result (λ sets. AreNamed structure.now (map (λ w. w.now) words.now) sets.items) }
    ensures fault { IfErr result (IsWhy structure.now) }
{
    let mut sets = Vec::new(alloc);
    match add_sets(structure, false, words, &mut sets) {
        Ok(()) => Ok(sets),
        Err(fault) => Err(fault),
    }
}

/// Adds the sets that these words name; the first of them may be a name.
fn add_sets<'a>(
    structure: &Structure,
    named: bool,
    words: &[&'a str],
    sets: &mut Vec<SetId>,
) -> Result<(), NoSets<'a>>
    ensures added { OnOk result (map Some sets.new.items ≡ map Some sets.old.items ++ map (meaning.set_named structure.now) (names_in named (map (λ w. w.now) words.now))) }
    ensures fault { IfErr result (IsWhy structure.now) }
{
    match words {
        [] => Ok(()),
        [word, rest @ ..] => {
            if named {
                add_set(structure, *word, sets)?;
                add_sets(structure, false, rest, sets)
            } else {
                add_sets(structure, *word == "--only", rest, sets)
            }
        }
    }
}

/// Adds the set of this name.
fn add_set<'a>(
    structure: &Structure,
    name: &'a str,
    sets: &mut Vec<SetId>,
) -> Result<(), NoSets<'a>>
    ensures added { OnOk result (map Some sets.new.items ≡ map Some sets.old.items ++ map (meaning.set_named structure.now) (name.now ∷ [])) }
    ensures fault { IfErr result (IsWhy structure.now) }
{
    match set_named(structure, name.as_bytes()) {
        Some(set) => match sets.push(set) {
            Ok(()) => Ok(()),
            Err(_) => Err(NoSets::Memory),
        },
        None => Err(NoSets::NoSet(name)),
    }
}
