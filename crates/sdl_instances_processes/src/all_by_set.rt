//! The places of the instances of each set, for all instances of a map.
ghost use Rattle.std.specs.Prelude.{◌≡◌, ◌++◌, ◌∷◌, [], List, OnOk, IfOk, length};
ghost use Rattle.sdl_instances_processes.specs.Record.{Record};
ghost use Rattle.sdl_instances_processes.specs.Places.{AreBySet};

use crate::by_set::PlacesBySet;
use crate::instance::Instance;
use indexmap::IndexMap;
use sdl_signal::Pid;
use std::alloc::{AllocError, Global};

/// Adds the place of the instance to those of its set.
fn add_by_set(
    alloc: Global,
    by_set: &mut PlacesBySet,
    pid: Pid,
    place: usize,
) -> Result<(), AllocError>
    ensures { OnOk result ((es : List (Pid × Record)) (r : Record) → place ≡ length es → AreBySet by_set.old.lists es → AreBySet by_set.new.lists (es ++ (pid, r) ∷ [])) }
{
    match pid {
        Pid::Inst(set, _) => {
            by_set.make_room(alloc, set.0 as usize + 1)?;
            by_set.add(set, place);
            Ok(())
        }
        Pid::Null => Ok(()),
        Pid::Env => Ok(()),
    }
}

/// The places of the instances of each set.
pub fn places_by_set(
    alloc: Global,
    instances: &IndexMap<Pid, Instance>,
) -> Result<PlacesBySet, AllocError>
    ensures { IfOk result (λ b. AreBySet b.lists instances.now.entries) }
{
    let mut by_set = PlacesBySet::new(alloc);
    for place in 0..instances.len() {
        match instances.get_index(place) {
            Some((pid, _)) => add_by_set(alloc, &mut by_set, *pid, place)?,
            None => unreachable!(),
        }
    }
    Ok(by_set)
}
