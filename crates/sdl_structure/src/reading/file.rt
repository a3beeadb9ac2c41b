//! The walk over a whole file.
ghost use Rattle.std.specs.Prelude.{◌≡◌, ◌≤◌, pos, Some, IfOk, IfErr, OnOk};
ghost use Rattle.sdl_structure_tables.specs.Tables.{integer_at, integer_or, HasKindAt};
ghost use Rattle.toml.specs.View.{table_view};
ghost use Rattle.sdl_structure.specs.File.{IsFileOf, version_number};
ghost use Rattle.sdl_structure_tables.specs.Faults.{IsBroken, IsOfFile};
ghost use Rattle.sdl_structure_tables.specs.Walks.{file_of, own, IsHere};
ghost use Rattle.sdl_structure_parts.specs.Lists.{structure_of};

use super::draft::Draft;
use super::gates::read_gates;
use sdl_signal::Name;
use sdl_structure_parts::limits::DEFAULT_BUDGET;
use sdl_structure_parts::{Lists, Owner, Scope, Structure};
use sdl_structure_tables::{FileFault, Key, Part, Walk, read_signals};
use std::alloc::Global;
use toml::Table;

/// Reads the top table of a file.
pub fn read_system(alloc: Global, file: &Table) -> Result<Structure, FileFault>
    ensures ok { IfOk result (IsFileOf (table_view file.now)) }
    ensures fault { IfErr result (IsBroken (table_view file.now)) }
{
    let top = Walk::top(file);
    let (system, budget, lists) = read_top(alloc, &top)?;
    let structure = Structure::new(alloc, system, budget, lists)?;
    Ok(structure)
}

/// The system's name, its budget, and its parts.
fn read_top(alloc: Global, top: &Walk) -> Result<(Name, u32, Lists), FileFault>
    requires here { IsHere top.now }
    requires part { top.now.place.part ≡ Part.System }
    ensures ok { IfOk result (λ r. IsFileOf (file_of top.now) (structure_of r.0 r.1 r.2)) }
    ensures fault { IfErr result (IsBroken (file_of top.now)) }
{
    read_version(top)?;
    let system = top.name(Key::System)?;
    let budget = read_budget(top)?;
    let signals = read_signals(alloc, top)?;
    let gates = read_gates(alloc, top, Owner::System, signals.as_slice())?;
    let mut draft = Draft::new(alloc, signals, gates);
    let mut inner = draft.read_blocks(alloc, top)?;
    let mut channels = draft.read_channels(alloc, top, Scope::System)?;
    top.only_known_keys()?;
    channels.append(&mut inner)?;
    let Draft {
        signals,
        blocks,
        sets,
        gates,
        ..
    } = draft;
    Ok((
        system,
        budget,
        Lists {
            signals,
            blocks,
            sets,
            gates,
            channels,
        },
    ))
}

/// The version, which is 1 or 2.
fn read_version(top: &Walk) -> Result<(), FileFault>
    requires here { IsHere top.now }
    requires part { top.now.place.part ≡ Part.System }
    ensures kind { OnOk result (HasKindAt (own top.now) Key.Version) }
    ensures known { OnOk result (integer_at Key.Version (own top.now) ≡ Some (version_number top.now.version)) }
    ensures fault { IfErr result (IsBroken (file_of top.now)) }
    ensures of_file { IfErr result IsOfFile }
{
    top.required_integer(Key::Version)?;
    Ok(())
}

/// How many transitions a block may make.
fn read_budget(top: &Walk) -> Result<u32, FileFault>
    requires here { IsHere top.now }
    requires part { top.now.place.part ≡ Part.System }
    ensures kind { IfOk result (λ _. HasKindAt (own top.now) Key.Budget) }
    ensures held { IfOk result (λ n. integer_or (pos 100000) Key.Budget (own top.now) ≡ Some (pos n)) }
    ensures range { IfOk result (λ n. (1 ≤ n) × (n ≤ 1000000)) }
    ensures fault { IfErr result (IsBroken (file_of top.now)) }
    ensures of_file { IfErr result IsOfFile }
{
    let budget = top.integer_or(Key::Budget, DEFAULT_BUDGET)?;
    Ok(budget as u32)
}
