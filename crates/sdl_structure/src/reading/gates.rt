//! Reading the gates of an agent.
ghost use Rattle.std.specs.Prelude.{◌≡◌, ◌≢◌, ◌≤◌, ◌++◌, [], ◌∷◌, length, All, IfOk, IfErr, true};
ghost use Rattle.std.specs.List.{AllZip};
ghost use Rattle.sdl_structure_tables.specs.Keys.{is_key, keys_of, gate_keys};
ghost use Rattle.sdl_structure_tables.specs.Tables.{tables_at, HasKindAt};
ghost use Rattle.sdl_structure_tables.specs.Places.{names_before};
ghost use Rattle.sdl_structure_tables.specs.Names.{IsSignalTable};
ghost use Rattle.sdl_structure.specs.File.{IsGateTable, HasGates, owned};
ghost use Rattle.sdl_structure_tables.specs.Faults.{IsBroken};
ghost use Rattle.sdl_structure_tables.specs.Walks.{file_of, own, IsHere, name_texts};

use sdl_signal::Name;
use sdl_structure_parts::{Gate, Owner, SignalDecl};
use sdl_structure_tables::{FileFault, Key, Walk, read_signal_list};
use std::alloc::Global;

/// The gates of the agent whose table it is.
pub fn read_gates(
    alloc: Global,
    walk: &Walk,
    owner: Owner,
    signals: &[SignalDecl],
) -> Result<Vec<Gate>, FileFault>
    requires here { IsHere walk.now }
    requires listed { is_key walk.now.version walk.now.place.part Key.Gate ≡ true }
    requires signals { AllZip IsSignalTable (tables_at Key.Signal (file_of walk.now)) signals.now }
    requires few { length signals.now ≤ 64 }
    ensures kind { IfOk result (λ _. HasKindAt (own walk.now) Key.Gate) }
    ensures read { IfOk result (λ gates. AllZip (IsGateTable signals.now) (owned owner (own walk.now)) gates.items) }
    ensures rules { IfOk result (λ _. HasGates (own walk.now)) }
    ensures few { IfOk result (λ gates. length gates.items ≤ 8) }
    ensures fault { IfErr result (IsBroken (file_of walk.now)) }
{
    let tables = walk.tables(Key::Gate)?;
    let mut taken = Vec::new(alloc);
    let mut gates = Vec::new(alloc);
    for (index, value) in tables.iter().enumerate() {
        let gate = read_gate(
            &walk.inner(Key::Gate, value, index),
            owner,
            signals,
            &mut taken,
        )?;
        gates.push(gate)?;
    }
    Ok(gates)
}

fn read_gate(
    walk: &Walk,
    owner: Owner,
    signals: &[SignalDecl],
    taken: &mut Vec<Name>,
) -> Result<Gate, FileFault>
    requires here { IsHere walk.now }
    requires keys { keys_of walk.now.version walk.now.place.part ≡ gate_keys }
    requires before { name_texts taken.old.items ≡ names_before (file_of walk.now) walk.now.place }
    requires signals { AllZip IsSignalTable (tables_at Key.Signal (file_of walk.now)) signals.now }
    requires few { length signals.now ≤ 64 }
    ensures read { IfOk result (IsGateTable signals.now (owner, own walk.now)) }
    ensures joined { IfOk result (λ g. taken.new.items ≡ taken.old.items ++ g.name ∷ []) }
    ensures apart { IfOk result (λ g. All (λ m. m.bytes ≢ g.name.bytes) taken.old.items) }
    ensures fault { IfErr result (IsBroken (file_of walk.now)) }
{
    let name = walk.new_name(taken)?;
    let inward = read_signal_list(walk, Key::Inward, signals)?;
    let outward = read_signal_list(walk, Key::Outward, signals)?;
    walk.only_known_keys()?;
    Ok(Gate {
        name,
        owner,
        inward,
        outward,
    })
}
