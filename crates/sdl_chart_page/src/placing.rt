//! The page while it is made. A stack holds the lists that can go on: at first, from the top, the logs by number, the receipts, and the
//! outputs of the environment. The list on top goes on, up to the arrival of an item that was not output yet, and waits for it. Each
//! output puts the list that waits for it on top. So a signal is followed to where it goes, and the environment goes on only where
//! nothing else can.
ghost use Rattle.std.specs.Prelude.{◌≡◌, List, ◌+◌, ◌<◌, ◌≤◌, ◌^◌, [], ◌∷◌, ◌++◌, None, Some, IfOk, IfSome, IfNone, OnOk, IsSome, IsTrue, IsFalse, length, flat_map, slice_set, slice_index_or};
ghost use Rattle.sdl_instances_log.specs.Log.{sent_by};
ghost use Rattle.sdl_run_outcome.specs.EnvironmentWork.{sent_of};
ghost use Rattle.sdl_chart_page.specs.Entries.{Entry, entries_of, entry_at, entry_seen, AreStored};
ghost use Rattle.sdl_chart_page.specs.Pages.{noted_at, IsDue, IsUnderWay, HasAll, HasMore, AreStuck, IsStuck, IsSameNoted, IsNoted, AreNoted};

use crate::by_origin::ByOrigin;
use crate::lists::{Lists, Seen};
use crate::page::{Row, Spot, Standing, spot_of};
use sdl_instances_log::Done;
use sdl_instances_packed_log::Shows;
use sdl_run_outcome::EnvOut;
use sdl_signal::{Item, Origin};
use std::alloc::{AllocError, Global};

/// A page that is made.
#[derive(Drop)]
pub(crate) struct Placing {
    rows: Vec<Row>,
    /// What is noted of each output.
    places: ByOrigin<Standing>,
    /// How many events of each list are on the page.
    next: Vec<usize>,
    /// The lists that can go on, the one on top last.
    stack: Vec<usize>,
    /// A bound of the steps: each puts an event on the page or takes a list off the stack, and a list comes back only for an arrival,
    /// which is then put on the page.
    steps: usize,
}

/// So many noughts.
fn noughts(alloc: Global, count: usize) -> Result<Vec<usize>, AllocError>
    ensures length { IfOk result (λ list. length list.items ≡ count) }
    ensures noughts { IfOk result (λ list. (n : _) → slice_index_or list.items n 0 ≡ 0) }
{
    let mut list = Vec::with_capacity(alloc, count)?;
    for _number in 0..count {
        list.push(0)?;
    }
    Ok(list)
}

/// The numbers below this one, the least last.
fn downwards(alloc: Global, count: usize) -> Result<Vec<usize>, AllocError> {
    let mut list = Vec::with_capacity(alloc, count)?;
    for number in (0..count).rev() {
        list.push(number)?;
    }
    Ok(list)
}

impl Placing {
    /// An empty page, with room for all events.
    fn new<K: Shows>(alloc: Global, lists: &Lists<K>) -> Result<Placing, AllocError>
        ensures { IfOk result (λ p. IsUnderWay (entries_of K.events lists.now) p.rows.items p.next.items p.places) }
    {
        let Some(count) = lists.count() else {
            return Err(AllocError);
        };
        let Some(events) = lists.events() else {
            return Err(AllocError);
        };
        let rows = Vec::with_capacity(alloc, events)?;
        let next = noughts(alloc, count)?;
        let stack = downwards(alloc, count)?;
        Ok(Placing {
            rows,
            places: ByOrigin::new(alloc),
            next,
            stack,
            steps: events.saturating_mul(2).saturating_add(count),
        })
    }

    /// The events of the lists on a page, as far as it comes.
    pub(crate) fn of<K: Shows>(alloc: Global, lists: &Lists<K>) -> Result<Placing, AllocError>
        ensures way { IfOk result (λ p. IsUnderWay (entries_of K.events lists.now) p.rows.items p.next.items p.places) }
        ensures stuck { IfOk result (λ p. AreStored K.stores lists.now.logs.now → AreStuck (entries_of K.events lists.now) p.next.items p.places) }
    {
        let mut placing = Placing::new(alloc, lists)?;
        placing.place_all(lists)?;
        Ok(placing)
    }

    /// The rows, and what is noted of each output.
    pub(crate) fn into_parts(self) -> (Vec<Row>, ByOrigin<Standing>)
        ensures rows { result.0 ≡ self.rows }
        ensures places { result.1 ≡ self.places }
    {
        let Placing {
            rows,
            places,
            next: _,
            stack: _,
            steps: _,
        } = self;
        (rows, places)
    }

    /// Puts the events of the lists on the page, as far as that goes.
    fn place_all<K: Shows>(&mut self, lists: &Lists<K>) -> Result<(), AllocError>
        requires { IsUnderWay (entries_of K.events lists.now) self.old.rows.items self.old.next.items self.old.places }
        ensures way { OnOk result (IsUnderWay (entries_of K.events lists.now) self.new.rows.items self.new.next.items self.new.places) }
        ensures stuck { OnOk result (AreStored K.stores lists.now.logs.now → AreStuck (entries_of K.events lists.now) self.new.next.items self.new.places) }
    {
        self.place_by_stack(lists)?;
        self.place_rest(lists)
    }

    /// Goes on with the lists by the stack.
    fn place_by_stack<K: Shows>(&mut self, lists: &Lists<K>) -> Result<(), AllocError>
        requires { IsUnderWay (entries_of K.events lists.now) self.old.rows.items self.old.next.items self.old.places }
        ensures { OnOk result (IsUnderWay (entries_of K.events lists.now) self.new.rows.items self.new.next.items self.new.places) }
    {
        for _step in 0..self.steps {
            match self.stack.pop() {
                Some(list) => self.step(lists, list)?,
                None => break,
            }
        }
        Ok(())
    }

    /// Goes on with the lists as long as one can. The stack leaves none that can where each item arrives once.
    fn place_rest<K: Shows>(&mut self, lists: &Lists<K>) -> Result<(), AllocError>
        requires { IsUnderWay (entries_of K.events lists.now) self.old.rows.items self.old.next.items self.old.places }
        ensures way { OnOk result (IsUnderWay (entries_of K.events lists.now) self.new.rows.items self.new.next.items self.new.places) }
        ensures stuck { OnOk result (AreStored K.stores lists.now.logs.now → AreStuck (entries_of K.events lists.now) self.new.next.items self.new.places) }
    {
        while let Some((list, seen)) = self.first_due(lists) {
            self.put_on(list, &seen)?;
        }
        Ok(())
    }

    /// The first list that can go on, and its next event.
    fn first_due<'a, K: Shows>(&self, lists: &Lists<'a, K>) -> Option<(usize, Seen<'a>)>
        requires { length self.now.next.items ≡ length (entries_of K.events lists.now) }
        ensures next { IfSome result (λ r. entry_at (entries_of K.events lists.now) r.0 (slice_index_or self.now.next.items r.0 0) ≡ Some (entry_seen r.1)) }
        ensures due { IfSome result (λ r. IsDue r.1 self.now.places) }
        ensures stuck { IfNone result (AreStored K.stores lists.now.logs.now → AreStuck (entries_of K.events lists.now) self.now.next.items self.now.places) }
    {
        for list in 0..self.next.len() {
            match self.due_in(lists, list) {
                Some(seen) => return Some((list, seen)),
                None => {}
            }
        }
        None
    }

    /// The next event of the list, where the list can go on with it.
    fn due_in<'a, K: Shows>(&self, lists: &Lists<'a, K>, list: usize) -> Option<Seen<'a>>
        ensures next { IfSome result (λ seen. entry_at (entries_of K.events lists.now) list (slice_index_or self.now.next.items list 0) ≡ Some (entry_seen seen)) }
        ensures due { IfSome result (λ seen. IsDue seen self.now.places) }
        ensures stuck { IfNone result (AreStored K.stores lists.now.logs.now → IsStuck (entries_of K.events lists.now) self.now.next.items self.now.places list) }
    {
        match lists.seen(list, self.placed(list)) {
            Some(seen) => {
                if self.is_output(&seen) {
                    Some(seen)
                } else {
                    None
                }
            }
            None => None,
        }
    }

    /// Whether the item that arrives in this event, if one does, was output.
    fn is_output(&self, seen: &Seen) -> bool
        ensures yes { IsTrue result → IsDue seen.now self.now.places }
        ensures no { IsFalse result → IsDue seen.now self.now.places → ⊥ }
    {
        match seen {
            Seen::Arrival(item) => self.noted(item.origin).is_some(),
            Seen::Turn(_) => true,
            Seen::Put(_) => true,
        }
    }

    /// Whether no event of a list is ahead.
    pub(crate) fn is_whole<K: Shows>(&self, lists: &Lists<K>) -> bool
        requires { length self.now.next.items ≡ length (entries_of K.events lists.now) }
        ensures all { IsTrue result → AreStored K.stores lists.now.logs.now → HasAll (entries_of K.events lists.now) self.now.next.items }
        ensures more { IsFalse result → HasMore (entries_of K.events lists.now) self.now.next.items }
    {
        for list in 0..self.next.len() {
            match lists.seen(list, self.placed(list)) {
                Some(_) => return false,
                None => {}
            }
        }
        true
    }

    /// How many events of the list are on the page.
    fn placed(&self, list: usize) -> usize
        ensures { result ≡ slice_index_or self.now.next.items list 0 }
    {
        self.next.get(list).copied().unwrap_or(0)
    }

    /// Goes on with the list: puts its next event on the page, or waits for the item that is to arrive, or has no event more.
    fn step<K: Shows>(&mut self, lists: &Lists<K>, list: usize) -> Result<(), AllocError>
        requires { IsUnderWay (entries_of K.events lists.now) self.old.rows.items self.old.next.items self.old.places }
        ensures { OnOk result (IsUnderWay (entries_of K.events lists.now) self.new.rows.items self.new.next.items self.new.places) }
    {
        let Some(seen) = lists.seen(list, self.placed(list)) else {
            return Ok(());
        };
        let due = self.is_due(&seen, list)?;
        if due {
            self.put_on(list, &seen)
        } else {
            Ok(())
        }
    }

    /// Whether the list can go on with this event. It waits for an item that is to arrive and is not output yet.
    fn is_due(&mut self, seen: &Seen, list: usize) -> Result<bool, AllocError>
        ensures due { IfOk result (λ is. IsTrue is → (self.new.places ≡ self.old.places) × IsDue seen.now self.old.places) }
        ensures rows { self.new.rows ≡ self.old.rows }
        ensures next { self.new.next ≡ self.old.next }
        ensures same { IsSameNoted self.old.places self.new.places }
    {
        match seen {
            Seen::Arrival(item) => self.has_come(item.origin, list),
            Seen::Turn(_) => Ok(true),
            Seen::Put(_) => Ok(true),
        }
    }

    /// Whether the item of this origin was output. If not, the list waits for it.
    fn has_come(&mut self, origin: Origin, list: usize) -> Result<bool, AllocError>
        ensures come { IfOk result (λ is. IsTrue is → (self.new.places ≡ self.old.places) × IsSome (noted_at self.old.places origin)) }
        ensures rows { self.new.rows ≡ self.old.rows }
        ensures next { self.new.next ≡ self.old.next }
        ensures same { IsSameNoted self.old.places self.new.places }
    {
        match self.noted(origin) {
            Some(_) => Ok(true),
            None => {
                self.places.reach(origin, Standing::Ahead)?;
                self.places.put(origin, Standing::Awaited(list));
                Ok(false)
            }
        }
    }

    /// Puts the next event of the list on the page, which is this one. The list goes on top of the stack, and then the lists that
    /// wait for what is sent in the event.
    fn put_on(&mut self, list: usize, seen: &Seen) -> Result<(), AllocError>
        requires list { list < length self.old.next.items }
        requires few { slice_index_or self.old.next.items list 0 ≤ length self.old.rows.items }
        requires due { IsDue seen.now self.old.places }
        ensures way { OnOk result ((lists : List (List Entry))
            → IsUnderWay lists self.old.rows.items self.old.next.items self.old.places
            → entry_at lists list (slice_index_or self.old.next.items list 0) ≡ Some (entry_seen seen.now)
            → IsUnderWay lists self.new.rows.items self.new.next.items self.new.places) }
        ensures next { OnOk result (self.new.next.items ≡ slice_set self.old.next.items list (slice_index_or self.old.next.items list 0 + 1)) }
    {
        let number = self.placed(list);
        let row = self.go_on(list, number)?;
        self.note_seen(seen, row)
    }

    /// Puts the event of this number of the list on the page, its next one. The list goes on top of the stack.
    fn go_on(&mut self, list: usize, number: usize) -> Result<usize, AllocError>
        requires list { list < length self.old.next.items }
        requires few { number ≤ length self.old.rows.items }
        ensures row { IfOk result (λ row. row ≡ length self.old.rows.items) }
        ensures rows { OnOk result (self.new.rows.items ≡ self.old.rows.items ++ record { list = list; number = number } ∷ []) }
        ensures next { OnOk result (self.new.next.items ≡ slice_set self.old.next.items list (number + 1)) }
        ensures places { self.new.places ≡ self.old.places }
    {
        let row = self.rows.len();
        self.rows.push(Row { list, number })?;
        self.next[list] = number + 1;
        self.stack.push(list)?;
        Ok(row)
    }

    /// Notes where the items were output that were sent in an event of this row.
    fn note_seen(&mut self, seen: &Seen, row: usize) -> Result<(), AllocError>
        ensures noted { OnOk result (AreNoted row 0 (entry_seen seen.now).sent self.old.places self.new.places) }
        ensures rows { self.new.rows ≡ self.old.rows }
        ensures next { self.new.next ≡ self.old.next }
    {
        match seen {
            Seen::Arrival(_) => Ok(()),
            Seen::Turn(done) => self.note_all(done, row, 0),
            Seen::Put(output) => self.note_output(output, row),
        }
    }

    /// Where the item of this origin was output, as far as that is noted.
    fn noted(&self, origin: Origin) -> Option<Spot>
        ensures { result ≡ noted_at self.now.places origin }
    {
        spot_of(self.places.at(origin))
    }

    /// Notes where the item of this origin was output, where nothing is noted of it yet.
    fn note(&mut self, origin: Origin, spot: Spot) -> Result<(), AllocError>
        ensures noted { OnOk result (IsNoted origin spot self.old.places self.new.places) }
        ensures rows { self.new.rows ≡ self.old.rows }
        ensures next { self.new.next ≡ self.old.next }
    {
        match self.noted(origin) {
            Some(_) => Ok(()),
            None => self.note_first(origin, spot),
        }
    }

    /// The same where nothing is noted of it. A list that waits for it goes on top of the stack.
    fn note_first(&mut self, origin: Origin, spot: Spot) -> Result<(), AllocError>
        requires { noted_at self.old.places origin ≡ None }
        ensures noted { OnOk result (IsNoted origin spot self.old.places self.new.places) }
        ensures rows { self.new.rows ≡ self.old.rows }
        ensures next { self.new.next ≡ self.old.next }
    {
        self.places.reach(origin, Standing::Ahead)?;
        let before = self.places.at(origin);
        self.places.put(origin, Standing::Stands(spot));
        self.wake(before)
    }

    /// Puts the list on top of the stack that waited for an output of which this was noted, if one did.
    fn wake(&mut self, before: Option<Standing>) -> Result<(), AllocError>
        ensures rows { self.new.rows ≡ self.old.rows }
        ensures next { self.new.next ≡ self.old.next }
        ensures places { self.new.places ≡ self.old.places }
    {
        match before {
            Some(Standing::Awaited(list)) => {
                self.stack.push(list)?;
                Ok(())
            }
            _ => Ok(()),
        }
    }

    /// Notes where the items were output that were sent in a turn of this row, the last one first. The first of them has this place
    /// among the row's items.
    fn note_all(&mut self, done: &[Done], row: usize, among: usize) -> Result<(), AllocError>
        requires { among + length done.now < 2 ^ 64 }
        ensures noted { OnOk result (AreNoted row among (flat_map sent_by done.now) self.old.places self.new.places) }
        ensures rows { self.new.rows ≡ self.old.rows }
        ensures next { self.new.next ≡ self.old.next }
    {
        match done {
            [] => Ok(()),
            [first, rest @ ..] => match first {
                Done::Sent(item) => {
                    self.note_all(rest, row, among + 1)?;
                    self.note(item.origin, Spot { row, among })
                }
                Done::NoRoute(_, _) => self.note_all(rest, row, among),
                Done::Made(_) => self.note_all(rest, row, among),
            },
        }
    }

    /// Notes where the item was output that the environment sent in this row.
    fn note_output(&mut self, output: &EnvOut, row: usize) -> Result<(), AllocError>
        ensures noted { OnOk result (AreNoted row 0 (sent_of output.now) self.old.places self.new.places) }
        ensures rows { self.new.rows ≡ self.old.rows }
        ensures next { self.new.next ≡ self.old.next }
    {
        match output {
            EnvOut::Sent(item) => self.note(item.origin, Spot { row, among: 0 }),
            EnvOut::NoRoute(_, _) => Ok(()),
        }
    }
}
