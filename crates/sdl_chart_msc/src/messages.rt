//! The items of a run as messages: their numbers, and what became of them.
ghost use Rattle.std.specs.Prelude.{◌≡◌, ◌+◌, List, Some, IfOk, map, replicate, option_map, option_and_then, slice_get, slice_set, slice_index_or};
ghost use Rattle.sdl_instances_packed_log.specs.Packed.{event_shown};
ghost use Rattle.sdl_signal.specs.declared.values.Origin.{Origin};
ghost use Rattle.sdl_chart_page.specs.declared.page.Spot.{Spot};
ghost use Rattle.sdl_chart_page.specs.Entries.{Entry, AreStored, entries_of};
ghost use Rattle.sdl_chart_page.specs.Pages.{Sheet, IsPageOf, spot_at};
ghost use Rattle.sdl_chart_msc.specs.Messages.{logged_at, row_sends, sent_above, sent_after, number_by, told_by_event, told_by_receipt, told_at, settled, fates_after, above_in, fates_in, IsSentAs};
ghost use Rattle.sdl_chart_msc.specs.declared.messages.Fate.TheVariants as fate;

use crate::rows::event_of;
use sdl_chart_page::{Lists, Page, Row};
use sdl_chart_text::sent_in;
use sdl_instances_log::Trigger;
use sdl_instances_packed_log::{Shown, Shows};
use sdl_signal::{Item, Origin, Pid};
use std::alloc::{AllocError, Global};

/// What became of an item.
#[derive(Clone, Copy)]
pub enum Fate {
    /// It entered no port, and the environment did not receive it.
    Astray,
    /// It entered the port of the instance, which did not consume it.
    Entered(Pid),
    /// The instance consumed it.
    Consumed(Pid),
    /// The environment received it.
    Received,
}

/// The items of a run as messages, which count from 1 in the order in which the page has their outputs.
#[derive(Drop)]
pub struct Messages {
    /// For each row, how many items are sent in the rows above it.
    pub(crate) above: Vec<usize>,
    /// What became of each message, by its number. The first is that of no message.
    pub(crate) fates: Vec<Fate>,
}

/// How many items were sent in the event of a row.
fn sent_in_row<K: Shows>(lists: &Lists<K>, row: Row) -> usize
    requires { AreStored K.stores lists.now.logs.now }
    ensures { result ≡ row_sends (entries_of K.events lists.now) row }
{
    match lists.seen(row.list, row.number) {
        Some(seen) => sent_in(&seen),
        None => 0,
    }
}

/// The sum, where a number can say it.
fn added(one: usize, other: usize) -> Result<usize, AllocError>
    ensures { IfOk result (λ sum. sum ≡ one + other) }
{
    match one.checked_add(other) {
        Some(sum) => Ok(sum),
        None => Err(AllocError),
    }
}

/// For each row how many items are sent in the rows above it, and how many are sent in all.
fn count_sent<K: Shows>(
    alloc: Global,
    lists: &Lists<K>,
    rows: &[Row],
) -> Result<(Vec<usize>, usize), AllocError>
    requires { AreStored K.stores lists.now.logs.now }
    ensures above { IfOk result (λ counts. counts.0.items ≡ sent_above (row_sends (entries_of K.events lists.now)) 0 rows.now) }
    ensures sent { IfOk result (λ counts. counts.1 ≡ sent_after (row_sends (entries_of K.events lists.now)) 0 rows.now) }
{
    let mut above = Vec::with_capacity(alloc, rows.len())?;
    let mut sent: usize = 0;
    for index in 0..rows.len() {
        above.push(sent)?;
        let more = added(sent, sent_in_row(lists, rows[index]))?;
        sent = more;
    }
    Ok((above, sent))
}

/// How many items are sent above the row of this number.
fn above_row(above: &[usize], row: usize) -> usize
    ensures { result ≡ slice_index_or above.now row 0 }
{
    above.get(row).copied().unwrap_or(0)
}

/// The number of the message of this origin, by how many items are sent above each row. It is 0 where its output is not on the page.
pub(crate) fn number_of(page: &Page, above: &[usize], origin: Origin) -> u128
    ensures { result ≡ number_by page.now above.now origin }
{
    match page.spot(origin) {
        Some(spot) => above_row(above, spot.row) as u128 + spot.among as u128 + 1,
        None => 0,
    }
}

/// What became of the message of this number.
pub(crate) fn fate_at(fates: &[Fate], number: u128) -> Fate
    ensures { result ≡ slice_index_or fates.now number fate.Astray }
{
    if number < fates.len() as u128 {
        fates[number as usize]
    } else {
        Fate::Astray
    }
}

/// Writes what became of the message of this number.
fn write_fate(fates: &mut Vec<Fate>, number: u128, fate: Fate)
    ensures { fates.new.items ≡ slice_set fates.old.items number fate }
{
    if number < fates.len() as u128 {
        fates[number as usize] = fate;
    }
}

/// Writes what was told of an item, where something was.
fn settle(fates: &mut Vec<Fate>, page: &Page, above: &[usize], told: Option<(Origin, Fate)>)
    ensures { fates.new.items ≡ settled (number_by page.now above.now) fates.old.items told }
{
    match told {
        Some((origin, fate)) => write_fate(fates, number_of(page, above, origin), fate),
        None => {}
    }
}

/// What an event of a block tells.
fn told_by_event(event: Shown) -> Option<(Origin, Fate)>
    ensures { result ≡ told_by_event (event_shown event.entry) }
{
    match event {
        Shown::Entered(item, pid) => Some((item.origin, Fate::Entered(pid))),
        Shown::Discarded(_, _) => None,
        Shown::Turn {
            pid,
            trigger,
            frame: _,
            step: _,
            done: _,
            stopped: _,
        } => match trigger {
            Trigger::Start => None,
            Trigger::Fire(item) => Some((item.origin, Fate::Consumed(pid))),
            Trigger::Implicit(item) => Some((item.origin, Fate::Consumed(pid))),
        },
    }
}

/// What the event of a row tells that is one of a log.
fn told_by_log<K: Shows>(logs: &[K], row: Row) -> Option<(Origin, Fate)>
    requires { AreStored K.stores logs.now }
    ensures { result ≡ option_and_then told_by_event (logged_at (map K.events logs.now) row) }
{
    match event_of(logs, row.list, row.number) {
        Some(event) => told_by_event(event),
        None => None,
    }
}

/// What the receipt of this number tells.
fn told_by_receipt(received: &[Item], number: usize) -> Option<(Origin, Fate)>
    ensures { result ≡ option_map told_by_receipt (slice_get received.now number) }
{
    match received.get(number) {
        Some(item) => Some((item.origin, Fate::Received)),
        None => None,
    }
}

/// What the event of a row tells.
fn told_by_row<K: Shows>(lists: &Lists<K>, row: Row) -> Option<(Origin, Fate)>
    requires { AreStored K.stores lists.now.logs.now }
    ensures { result ≡ told_at (map K.events lists.now.logs.now) lists.now.received.now row }
{
    if row.list == lists.logs.len() {
        told_by_receipt(lists.received, row.number)
    } else {
        told_by_log(lists.logs, row)
    }
}

/// So many times that an item is astray.
fn all_astray(alloc: Global, count: usize) -> Result<Vec<Fate>, AllocError>
    ensures { IfOk result (λ fates. fates.items ≡ replicate count fate.Astray) }
{
    let mut fates = Vec::with_capacity(alloc, count)?;
    for _number in 0..count {
        fates.push(Fate::Astray)?;
    }
    Ok(fates)
}

/// What became of each message, of so many.
fn fates_of<K: Shows>(
    alloc: Global,
    lists: &Lists<K>,
    page: &Page,
    above: &[usize],
    sent: usize,
) -> Result<Vec<Fate>, AllocError>
    requires { AreStored K.stores lists.now.logs.now }
    ensures { IfOk result (λ fates. fates.items ≡ fates_after (told_at (map K.events lists.now.logs.now) lists.now.received.now) (number_by page.now above.now) (replicate (sent + 1) fate.Astray) page.now.rows) }
{
    let count = added(sent, 1)?;
    let mut fates = all_astray(alloc, count)?;
    let rows = page.rows();
    for index in 0..rows.len() {
        settle(&mut fates, page, above, told_by_row(lists, rows[index]));
    }
    Ok(fates)
}

impl Messages {
    /// The items of the page's lists as messages.
    pub(crate) fn of<K: Shows>(
        alloc: Global,
        page: &Page,
        lists: &Lists<K>,
    ) -> Result<Messages, AllocError>
        requires { AreStored K.stores lists.now.logs.now }
        ensures above { IfOk result (λ m. m.above.items ≡ above_in (entries_of K.events lists.now) page.now) }
        ensures fates { IfOk result (λ m. m.fates.items ≡ fates_in (map K.events lists.now.logs.now) lists.now.received.now (entries_of K.events lists.now) page.now) }
    {
        let (above, sent) = count_sent(alloc, lists, page.rows())?;
        let fates = fates_of(alloc, lists, page, above.as_slice(), sent)?;
        Ok(Messages { above, fates })
    }
}

/// The number of a message tells its output: of all items that are sent on a page, from the top and counted from 1, the one of this
/// number is of the same origin.
pub fn numbers_tell_outputs()
    ensures { (lists : List (List Entry)) (page : Sheet) (o : Origin) (s : Spot) → IsPageOf lists page → spot_at page o ≡ Some s
        → IsSentAs lists page.rows (number_by page (above_in lists page) o) o }
{}
