//! A system in a run.
ghost use Rattle.std.specs.Prelude.{◌≡◌, ◌≤◌, length};
ghost use Rattle.sdl_transition.specs.Bound.{AreOneSystem, IsBound};
ghost use Rattle.sdl_run_driver.specs.Systems.{IsBoundOf};

use sdl_routes::Routes;
use sdl_structure_parts::Checked;
use sdl_transition::{Agents, BlockParts, Bound};

/// A system in a run. Before the start its blocks are the parts that were bound to them, and from then on workers.
#[derive(Drop)]
pub struct System<B> {
    /// The structure of the system.
    pub checked: Checked,
    /// Its routes.
    pub routes: Routes,
    /// Its blocks, by number.
    pub blocks: Vec<B>,
    /// The number of turns that each block may have.
    pub budget: u32,
}

/// The system that was bound, for a run in which each block may have so many turns. No memory is taken.
pub fn with_budget<S: Agents>(bound: Bound<S>, budget: u32) -> System<BlockParts<S>>
    requires { IsBound S.may bound }
    ensures same { IsBoundOf result bound }
    ensures system { AreOneSystem S.may result.checked result.routes result.blocks.items }
    ensures few { length result.blocks.items ≤ 64 }
    ensures budget { result.budget ≡ budget }
{
    let (checked, routes, blocks) = bound.into_blocks();
    System {
        checked,
        routes,
        blocks,
        budget,
    }
}

/// The system as it was bound. No memory is taken.
pub fn bound_again<S: Agents>(system: System<BlockParts<S>>) -> Bound<S>
    requires { AreOneSystem S.may system.checked system.routes system.blocks.items }
    ensures same { IsBoundOf system result }
    ensures bound { IsBound S.may result }
{
    Bound::of_blocks(system.checked, system.routes, system.blocks)
}
