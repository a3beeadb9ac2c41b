//! The routes that fit a wish, by their numbers.
ghost use Rattle.std.specs.Prelude.{◌≡◌, ℕ, ◌+◌, List, map, take, Some, slice_get, option_map, option_copied, OnOk, OnSome, IfSome, IfNone, Contains, IsTrue, ◌↔◌};
ghost use Rattle.sdl_routes.specs.declared.route.TableRow.{TableRow};
ghost use Rattle.sdl_routes.specs.declared.route.Wish.{Wish};
ghost use Rattle.sdl_routes.specs.declared.route.Via.{Via};
ghost use Rattle.sdl_routes.specs.Routes.{AreFitting, Fits, GoesBy, picked};
ghost use Rattle.sdl_routes.specs.Index.{StandsAt, HasEntry, AreEntries};

use crate::choice::fits;
use crate::route::{Goal, TableRow, Via, Wish};
use sdl_signal::RouteId;
use std::alloc::{AllocError, Global};

/// The numbers of the routes that fit a wish, in order.
#[derive(Drop)]
pub struct Entry {
    wish: Wish,
    numbers: Vec<u32>,
}

impl Entry {
    /// With n numbers, the one at `pick` modulo n.
    pub fn at(&self, pick: u32) -> Option<RouteId>
        ensures { option_map (λ r. r.0) result ≡ picked self.now.numbers.items pick }
    {
        if self.numbers.is_empty() {
            return None;
        }
        // mostly there is one, and no division
        let place = if self.numbers.len() == 1 {
            0
        } else {
            pick as usize % self.numbers.len()
        };
        Some(RouteId(self.numbers[place]))
    }

    /// Whether the entry has this wish.
    fn is_of(&self, wish: &Wish) -> bool
        ensures { IsTrue result ↔ self.now.wish ≡ wish.now }
    {
        self.wish == *wish
    }

    /// Adds the number of the next row, where it fits.
    fn note(&mut self, row: &TableRow, number: u32) -> Result<(), AllocError>
        ensures wish { OnOk result (self.new.wish ≡ self.old.wish) }
        ensures numbers { OnOk result ((rows : List TableRow) → slice_get rows number ≡ Some row.now → AreFitting self.old.wish 0 (take number rows) self.old.numbers.items → AreFitting self.old.wish 0 (take (number + 1) rows) self.new.numbers.items) }
    {
        if fits(row, &self.wish) {
            self.numbers.push(number)?;
        }
        Ok(())
    }
}

/// The entry with this wish.
pub fn find<'a>(entries: &'a [Entry], wish: &Wish) -> Option<&'a Entry>
    ensures found { IfSome (option_copied result) (λ e. (e.wish ≡ wish.now) × Contains entries.now e) }
    ensures none { IfNone (option_copied result) (HasEntry entries.now wish.now → ⊥) }
{
    for place in 0..entries.len() {
        if entries[place].is_of(wish) {
            return Some(&entries[place]);
        }
    }
    None
}

/// Makes an entry with no number for the wish, where there is none with it.
fn open_entry(alloc: Global, entries: &mut Vec<Entry>, wish: Wish) -> Result<(), AllocError>
    ensures kept { OnOk result ((rows : List TableRow) (n p g : ℕ) → StandsAt p g wish → AreEntries rows n p g entries.old.items → AreEntries rows n p g entries.new.items) }
    ensures there { OnOk result (HasEntry entries.new.items wish) }
    ensures others { OnOk result ((w : Wish) → HasEntry entries.old.items w → HasEntry entries.new.items w) }
{
    match find(entries.as_slice(), &wish) {
        Some(_) => Ok(()),
        None => {
            entries.push(Entry {
                wish,
                numbers: Vec::new(alloc),
            })?;
            Ok(())
        }
    }
}

/// Makes entries for all wishes with this goal that the row fits.
fn open_entries(
    alloc: Global,
    entries: &mut Vec<Entry>,
    row: &TableRow,
    goal: Goal,
) -> Result<(), AllocError>
    ensures kept { OnOk result ((rows : List TableRow) (n p g : ℕ) → ((via : Via) → StandsAt p g (record { source = row.now.source; signal = row.now.route.signal; goal = goal; via = via })) → AreEntries rows n p g entries.old.items → AreEntries rows n p g entries.new.items) }
    ensures there { OnOk result ((via : Via) → GoesBy row.now.route via → HasEntry entries.new.items (record { source = row.now.source; signal = row.now.route.signal; goal = goal; via = via })) }
{
    let wish = Wish {
        source: row.source,
        signal: row.route.signal,
        goal,
        via: Via::Any,
    };
    open_entry(alloc, entries, wish)?;
    let via = Via::Gate(row.route.start);
    open_entry(alloc, entries, Wish { via, ..wish })?;
    for hop in row.route.hops.as_slice() {
        let via = Via::Channel(hop.channel);
        open_entry(alloc, entries, Wish { via, ..wish })?;
    }
    Ok(())
}

/// Adds the number of the next row to the entries that it fits.
fn note_each(entries: &mut Vec<Entry>, row: &TableRow, number: u32) -> Result<(), AllocError>
    ensures { OnOk result ((rows : List TableRow) (p g : ℕ) → slice_get rows number ≡ Some row.now → ((w : Wish) → Fits row.now w → StandsAt p g w → HasEntry entries.old.items w) → AreEntries rows number p g entries.old.items → AreEntries rows (number + 1) p g entries.new.items) }
{
    for entry in entries.iter_mut() {
        entry.note(row, number)?;
    }
    Ok(())
}

/// Adds the next row to the entries of its source, its signal and this goal.
pub fn add_entries(
    alloc: Global,
    entries: &mut Vec<Entry>,
    row: &TableRow,
    goal: Goal,
    number: u32,
) -> Result<(), AllocError>
    ensures { OnOk result ((rows : List TableRow) (p g : ℕ) → slice_get rows number ≡ Some row.now → StandsAt p g (record { source = row.now.source; signal = row.now.route.signal; goal = goal; via = Via.Any }) → AreEntries rows number p g entries.old.items → AreEntries rows (number + 1) p g entries.new.items) }
{
    open_entries(alloc, entries, row, goal)?;
    note_each(entries, row, number)
}
