//! The index of a table: where the routes that fit a wish are found without a scan.
ghost use Rattle.std.specs.Prelude.{◌≡◌, ℕ, ◌+◌, ◌^◌, ◌<◌, ◌≤◌, [], List, length, Some, slice_get, option_copied, OnOk, IfOk, IfSome, IfNone, Contains};
ghost use Rattle.sdl_routes.specs.declared.route.TableRow.{TableRow};
ghost use Rattle.sdl_routes.specs.Index.{end_goal, group_place, goal_place, list_at, HasEntry, IsGroup, AreGroups, IsIndexOf};

use crate::entries::{Entry, add_entries, find};
use crate::route::{EndPoint, Goal, Source, TableRow, Wish};
use sdl_signal::SignalId;
use sdl_structure_parts::limits::MOST_SIGNALS;
use std::alloc::{AllocError, Global};

/// The entries of all wishes that some route fits: in groups, one for each source and signal, and in a group in lists, one
/// for each goal. A list has an entry for each VIA, and first that for none.
#[derive(Drop)]
pub struct Index {
    groups: Vec<Vec<Vec<Entry>>>,
}

/// The place of the group of this source and signal. Sets and gates take turns, each with room for all signals.
fn place_of_group(source: Source, signal: SignalId) -> usize
    ensures place { result ≡ group_place source signal }
    ensures small { result < 2 ^ 40 }
{
    match source {
        Source::Set(set) => 2 * MOST_SIGNALS * set.0 as usize + signal.0 as usize,
        Source::Gate(gate) => {
            2 * MOST_SIGNALS * gate.0 as usize + MOST_SIGNALS + signal.0 as usize
        }
    }
}

/// The place of the list of this goal in its group.
fn place_of_goal(goal: Goal) -> usize
    ensures { result ≡ goal_place goal }
{
    match goal {
        Goal::Anywhere => 0,
        Goal::Environment => 1,
        Goal::Null => 2,
        Goal::Set(set) => set.0 as usize + 3,
    }
}

/// The goal that only routes with this end have.
fn goal_of(end: EndPoint) -> Goal
    ensures { result ≡ end_goal end }
{
    match end {
        EndPoint::Environment(_) => Goal::Environment,
        EndPoint::Set(set) => Goal::Set(set),
    }
}

/// Adds empty lists until there are so many.
fn extend<T: Drop>(alloc: Global, lists: &mut Vec<Vec<T>>, count: usize) -> Result<(), AllocError>
    ensures same { (n : ℕ) → list_at lists.new.items n ≡ list_at lists.old.items n }
    ensures count { OnOk result (count ≤ length lists.new.items) }
{
    for _ in lists.len()..count {
        lists.push(Vec::new(alloc))?;
    }
    Ok(())
}

/// Adds the next row to the group of its source and signal.
fn add_to_group(
    alloc: Global,
    group: &mut Vec<Vec<Entry>>,
    row: &TableRow,
    number: u32,
) -> Result<(), AllocError>
    ensures { OnOk result ((rows : List TableRow) → slice_get rows number ≡ Some row.now → IsGroup rows number (group_place row.now.source row.now.route.signal) group.old.items → IsGroup rows (number + 1) (group_place row.now.source row.now.route.signal) group.new.items) }
{
    let goal = goal_of(row.route.end);
    let place = place_of_goal(goal);
    extend(alloc, group, place + 1)?;
    add_entries(alloc, &mut group[0], row, Goal::Anywhere, number)?;
    add_entries(alloc, &mut group[place], row, goal, number)
}

impl Index {
    /// Adds the next row.
    fn add(&mut self, alloc: Global, row: &TableRow, number: u32) -> Result<(), AllocError>
        ensures { OnOk result ((rows : List TableRow) → slice_get rows number ≡ Some row.now → AreGroups rows number self.old.groups.items → AreGroups rows (number + 1) self.new.groups.items) }
    {
        let place = place_of_group(row.source, row.route.signal);
        extend(alloc, &mut self.groups, place + 1)?;
        add_to_group(alloc, &mut self.groups[place], row, number)
    }

    /// The index of these rows.
    pub fn of(alloc: Global, rows: &[TableRow]) -> Result<Index, AllocError>
        requires few { length rows.now ≤ 4096 }
        ensures { IfOk result (IsIndexOf rows.now) }
    {
        let mut index = Index {
            groups: Vec::new(alloc),
        };
        for number in 0..rows.len() {
            index.add(alloc, &rows[number], number as u32)?;
        }
        Ok(index)
    }

    /// The entry with this wish.
    #[inline(always)]
    pub fn entry_of(&self, wish: &Wish) -> Option<&Entry>
        ensures found { IfSome (option_copied result) (λ e. (e.wish ≡ wish.now) × Contains (list_at (list_at self.now.groups.items (group_place wish.now.source wish.now.signal)) (goal_place wish.now.goal)) e) }
        ensures none { IfNone (option_copied result) (HasEntry (list_at (list_at self.now.groups.items (group_place wish.now.source wish.now.signal)) (goal_place wish.now.goal)) wish.now → ⊥) }
    {
        match self.groups.get(place_of_group(wish.source, wish.signal)) {
            Some(group) => match group.get(place_of_goal(wish.goal)) {
                Some(entries) => find(entries.as_slice(), wish),
                None => None,
            },
            None => None,
        }
    }
}
