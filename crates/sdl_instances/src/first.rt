//! The initial instances of a block, and what a core keeps of the structure.
ghost use Rattle.std.specs.Prelude.{◌≡◌, ◌++◌, ◌<◌, ◌≤◌, [], All, OnOk, IfOk, map, length, option_map, option_copied, false, slice_get};
ghost use Rattle.sdl_instances.specs.Core.{numbers_of};
ghost use Rattle.sdl_instances_processes.specs.Places.{is_of};
ghost use Rattle.sdl_instances.specs.Run.{first_instances, initial_instances, initial_of, initial_in};
ghost use Rattle.sdl_transition_saves.specs.Saves.{IsInRange};
ghost use Rattle.sdl_transition.specs.Rules.{Rules, rules_for, rules_of, block_rules};
ghost use Rattle.std.specs.List.{AllByRecursion};

use crate::process_set::ProcessSet;
use arrayvec::ArrayVec;
use indexmap::IndexMap;
use sdl_instances_processes::Instance;
use sdl_instances_processes::copies::{copied_sorts, copied_values};
use sdl_signal::{BlockId, Pid, SetId, Sort, Value};
use sdl_structure_parts::{Set, SignalDecl};
use sdl_transition::{Behaviour, BlockParts};
use sdl_transition_saves::StateSaves;
use std::alloc::{AllocError, Global};

/// The sorts of each signal.
pub fn sorts_of(alloc: Global, signals: &[SignalDecl]) -> Result<Vec<ArrayVec<Sort, 4>>, AllocError>
    ensures { IfOk result (λ v. map (λ s. s.items) v.items ≡ map (λ x. x.sorts.items) signals.now) }
{
    let mut sorts = Vec::with_capacity(alloc, signals.len())?;
    for signal in signals {
        sorts.push(copied_sorts(&signal.sorts))?;
    }
    Ok(sorts)
}

/// The numbers of each set.
pub fn numbers_of_sets(alloc: Global, sets: &[Set]) -> Result<Vec<ProcessSet>, AllocError>
    ensures { IfOk result (λ v. v.items ≡ map numbers_of sets.now) }
{
    let mut numbers = Vec::with_capacity(alloc, sets.len())?;
    for set in sets {
        numbers.push(ProcessSet {
            block: set.block,
            initial: set.initial,
            maximum: set.maximum,
        })?;
    }
    Ok(numbers)
}

/// How many instances a set of the block has at first, and 0 for a set of another block.
fn first_in(block: BlockId, set: &ProcessSet) -> u32
    ensures { result ≡ initial_in block set.now }
{
    if set.block.0 == block.0 {
        set.initial
    } else {
        0
    }
}

/// The serial numbers that the sets give out at first.
pub fn first_serials(
    alloc: Global,
    block: BlockId,
    sets: &[ProcessSet],
) -> Result<Vec<u32>, AllocError>
    ensures { IfOk result (λ v. v.items ≡ map (initial_in block) sets.now) }
{
    let mut last = Vec::with_capacity(alloc, sets.len())?;
    for set in sets {
        last.push(first_in(block, set))?;
    }
    Ok(last)
}

/// The numbers of the set at this place.
pub fn numbers_at(sets: &[ProcessSet], place: usize) -> ProcessSet
    requires { place < length sets.now }
    ensures { slice_get sets.now place ≡ Some result }
{
    sets[place]
}

/// The behaviour of the set.
pub fn behaviour_of<S>(parts: &BlockParts<S>, set: SetId) -> Option<&Behaviour<S>>
    ensures { option_map rules_of (option_copied result) ≡ rules_for (block_rules parts.now) set }
{
    for behaviour in parts.behaviours.as_slice() {
        if behaviour.set.0 == set.0 {
            return Some(behaviour);
        }
    }
    None
}

/// Adds the first instances of a set. What a refusal leaves is not said.
fn add_first(
    alloc: Global,
    living: &mut IndexMap<Pid, Instance>,
    set: SetId,
    vars: &ArrayVec<Value, 8>,
    saves: &StateSaves,
    count: u32,
) -> Result<(), AllocError>
    requires { AllByRecursion (λ e. is_of set e.0 ≡ false) living.old.entries }
    ensures { OnOk result (living.new.entries ≡ living.old.entries ++ first_instances set vars.now.items saves.now count) }
{
    for made in 0..count {
        let variables = copied_values(vars.as_slice());
        let instance = Instance::new(alloc, variables, saves.copied(), Pid::Null);
        match living.insert(Pid::Inst(set, made + 1), instance) {
            Ok(_) => {}
            Err(_) => return Err(AllocError),
        }
    }
    Ok(())
}

/// Adds the initial instances of a set, where it is one of the block's. What a refusal leaves is not said.
fn add_initial<S>(
    alloc: Global,
    living: &mut IndexMap<Pid, Instance>,
    parts: &BlockParts<S>,
    set: SetId,
    numbers: &ProcessSet,
) -> Result<(), AllocError>
    requires others { AllByRecursion (λ e. is_of set e.0 ≡ false) living.old.entries }
    requires saves { AllByRecursion (λ (r : Rules). All IsInRange r.saves) (block_rules parts.now) }
    ensures { OnOk result (living.new.entries ≡ living.old.entries ++ initial_of parts.now.block (block_rules parts.now) set.0 numbers.now) }
{
    match behaviour_of(parts, set) {
        Some(behaviour) => add_first(
            alloc,
            living,
            set,
            &behaviour.vars,
            &StateSaves::of(behaviour.saves.as_slice()),
            first_in(parts.block, numbers),
        ),
        None => Ok(()),
    }
}

/// The initial instances of a block, its sets in order.
pub fn first_living<S>(
    alloc: Global,
    parts: &BlockParts<S>,
    sets: &[ProcessSet],
) -> Result<IndexMap<Pid, Instance>, AllocError>
    requires sets { length sets.now ≤ 64 }
    requires saves { AllByRecursion (λ (r : Rules). All IsInRange r.saves) (block_rules parts.now) }
    ensures { IfOk result (λ m. m.entries ≡ initial_instances parts.now.block (block_rules parts.now) 0 sets.now) }
{
    let mut living = IndexMap::new(alloc);
    for number in 0..sets.len() {
        let numbers = numbers_at(sets, number);
        add_initial(alloc, &mut living, parts, SetId(number as u32), &numbers)?;
    }
    Ok(living)
}
