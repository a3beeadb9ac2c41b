//! Items, sorted by their routes.
ghost use Rattle.std.specs.Prelude.{◌≡◌, ◌≢◌, ◌<◌, ◌≤◌, ℕ, [], ◌∷◌, length, IfOk, OnOk, MatchBool, MatchOption};
ghost use Rattle.sdl_run_recount.specs.Sorted.{lists_in, items_at, AreSameBelow, Gains};

use sdl_instances_copies::copies::copied_item;
use sdl_signal::{Item, RouteId};
use std::alloc::{AllocError, Global};

/// A list of items for each route.
#[derive(Drop)]
pub struct ByRoute {
    lists: Vec<Vec<Item>>,
}

/// Whether the items are the same, in the same order.
fn are_same(left: &[Item], right: &[Item]) -> bool
    ensures { MatchBool result (left.now ≡ right.now) (left.now ≢ right.now) }
{
    left == right
}

impl ByRoute {
    /// No items, for so many routes.
    pub(crate) fn new(alloc: Global, routes: usize) -> Result<ByRoute, AllocError>
        ensures routes { IfOk result (λ sorted. length (lists_in sorted) ≡ routes) }
        ensures empty { IfOk result (λ sorted. (r : ℕ) → items_at (lists_in sorted) r ≡ []) }
    {
        let mut lists = Vec::with_capacity(alloc, routes)?;
        for _number in 0..routes {
            lists.push(Vec::new(alloc))?;
        }
        Ok(ByRoute { lists })
    }

    /// Adds a copy of the item to those of its route. What a refusal leaves is not said.
    pub(crate) fn add(&mut self, item: &Item) -> Result<(), AllocError>
        requires { item.now.route.0 < length (lists_in self.old) }
        ensures { OnOk result (Gains (λ _. item.now ∷ []) (lists_in self.old) (lists_in self.new)) }
    {
        let place = item.route.0 as usize;
        self.lists[place].push(copied_item(item))?;
        Ok(())
    }

    /// The first route whose items are not the same in both.
    pub(crate) fn first_other(&self, other: &ByRoute) -> Option<RouteId>
        requires few { length (lists_in self.now) ≤ 4096 }
        requires routes { length (lists_in other.now) ≡ length (lists_in self.now) }
        ensures { MatchOption result
            (AreSameBelow (length (lists_in self.now)) (lists_in self.now) (lists_in other.now))
            (λ r. (r.0 < length (lists_in self.now)) × (items_at (lists_in self.now) r.0 ≢ items_at (lists_in other.now) r.0) × AreSameBelow r.0 (lists_in self.now) (lists_in other.now)) }
    {
        for route in 0..self.lists.len() {
            if !are_same(self.lists[route].as_slice(), other.lists[route].as_slice()) {
                return Some(RouteId(route as u32));
            }
        }
        None
    }
}
