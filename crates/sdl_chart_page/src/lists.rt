//! The lists that a run leaves, as the page reads them.
ghost use Rattle.std.specs.Prelude.{◌≡◌, ◌≤◌, Some, IfSome, IfNone, true, map, length, slice_get};
ghost use Rattle.sdl_instances_packed_log.specs.Packed.{event_shown};
ghost use Rattle.sdl_chart_page.specs.Entries.{entry_at, entry_of_event, entry_of_receipt, entry_of_output, entry_seen, entries_of, IsPast, AreStored};

use sdl_instances_log::Done;
use sdl_instances_packed_log::{Shown, Shows};
use sdl_run_outcome::EnvOut;
use sdl_signal::Item;

/// The lists that a run leaves (this project's own): the log of each block, blocks by number, then what the environment received, and
/// then what became of its outputs. A list's number is its place among them.
#[derive(Drop)]
pub struct Lists<'a, K> {
    pub logs: &'a [K],
    pub received: &'a [Item],
    pub put: &'a [EnvOut],
}

/// What the page reads of an event.
#[derive(Drop)]
pub enum Seen<'a> {
    /// An item arrived: it entered a port, or it was discarded at a block, or the environment received it.
    Arrival(&'a Item),
    /// An instance made a transition, whose actions did this.
    Turn(&'a [Done]),
    /// The environment made an output.
    Put(&'a EnvOut),
}

/// What the page reads of a block's event.
fn seen_of(event: Shown<'_>) -> Seen<'_>
    ensures { entry_seen result ≡ entry_of_event (event_shown event.entry) }
{
    match event {
        Shown::Entered(item, _) => Seen::Arrival(item),
        Shown::Discarded(item, _) => Seen::Arrival(item),
        Shown::Turn {
            pid: _,
            trigger: _,
            frame: _,
            step: _,
            done,
            stopped: _,
        } => Seen::Turn(done),
    }
}

/// The event of this number in a log.
fn event_in<K: Shows>(log: &K, number: usize) -> Option<Seen<'_>>
    ensures some { IfSome result (λ seen. slice_get (map entry_of_event (K.events log.now)) number ≡ Some (entry_seen seen)) }
    ensures none { K.stores log.now ≡ true → IfNone result (length (K.events log.now) ≤ number) }
{
    match log.event(number) {
        Some(event) => Some(seen_of(event)),
        None => None,
    }
}

/// The receipt of this number.
fn receipt_in(received: &[Item], number: usize) -> Option<Seen<'_>>
    ensures some { IfSome result (λ seen. slice_get (map entry_of_receipt received.now) number ≡ Some (entry_seen seen)) }
    ensures none { IfNone result (length received.now ≤ number) }
{
    match received.get(number) {
        Some(item) => Some(Seen::Arrival(item)),
        None => None,
    }
}

/// The output of this number.
fn output_in(put: &[EnvOut], number: usize) -> Option<Seen<'_>>
    ensures some { IfSome result (λ seen. slice_get (map entry_of_output put.now) number ≡ Some (entry_seen seen)) }
    ensures none { IfNone result (length put.now ≤ number) }
{
    match put.get(number) {
        Some(output) => Some(Seen::Put(output)),
        None => None,
    }
}

impl<'a, K: Shows> Lists<'a, K> {
    /// How many lists there are, where a number can say it.
    pub(crate) fn count(&self) -> Option<usize>
        ensures { IfSome result (λ count. count ≡ length (entries_of K.events self.now)) }
    {
        self.logs.len().checked_add(2)
    }

    /// How many events there are in all lists, where a number can say it.
    pub(crate) fn events(&self) -> Option<usize> {
        let mut events = self.received.len().checked_add(self.put.len())?;
        for log in self.logs {
            events = events.checked_add(log.number() as usize)?;
        }
        Some(events)
    }

    /// What the page reads of the event of this number of a list. There is none where the list has not so many.
    pub fn seen(&self, list: usize, number: usize) -> Option<Seen<'a>>
        ensures some { IfSome result (λ seen. entry_at (entries_of K.events self.now) list number ≡ Some (entry_seen seen)) }
        ensures none { AreStored K.stores self.now.logs.now → IfNone result (IsPast (entries_of K.events self.now) list number) }
    {
        let logs = self.logs;
        let blocks = logs.len();
        if list < blocks {
            event_in(&logs[list], number)
        } else if list == blocks {
            receipt_in(self.received, number)
        } else if list - blocks == 1 {
            output_in(self.put, number)
        } else {
            None
        }
    }
}
