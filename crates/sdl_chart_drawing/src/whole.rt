//! Whether a chart shows what it has to.
ghost use Rattle.std.specs.Prelude.{◌≡◌, ◌≢◌, ◌+◌, ◌-◌, ◌<◌, ◌≤◌, ◌^◌, IsTrue, ◌↔◌, IfOk, IsSomeAnd, All, Any, map, filter, length, slice_get, slice_range, nat_lt};
ghost use Rattle.std.specs.List.{range_with_len, AllZip};
ghost use Rattle.sdl_chart_page.specs.Pages.{spot_at};
ghost use Rattle.sdl_chart_drawing.specs.Charts.{output_drawn, comes_in, IsEntry, HasTip, IsItsArrival, ArrivesBelow, StaysAs, Arrives, BeginsAt, Begins, EndsAt, Ends, HasItsEnd, IsBelow, AreBelow, AreInOrder, IsChartOf, part_of};
ghost use Rattle.sdl_chart_page.specs.Entries.{AreStored};

use crate::shapes::{Drawing, Event, Message, Tip};
use crate::traffic::{Arrival, Output, outputs_of};
use crate::wanted::Wanted;
use sdl_chart_page::{Lists, Page, Row};
use sdl_instances_packed_log::Shows;
use sdl_signal::SetId;
use std::alloc::{AllocError, Global};

/// A part of a page, from one row to before another, and whether messages may be hidden in it.
#[derive(Clone, Copy)]
struct Span {
    pub first: usize,
    pub past: usize,
    pub hides: bool,
}

/// What the chart of a part is compared with: its rows, the outputs in them, and all arrivals of the page.
#[derive(Clone, Copy)]
struct Traffic<'a> {
    pub rows: &'a [Row],
    pub outputs: &'a [Output],
    pub arrivals: &'a [Arrival],
}

/// Whether the events are those of the rows, of which the first has this number.
fn are_events(first: usize, rows: &[Row], events: &[Event]) -> bool
    requires { first + length rows.now < 2 ^ 64 }
    ensures { IsTrue result → map (λ e. e.row) events.now ≡ range_with_len first (length rows.now) }
{
    match (rows, events) {
        ([], []) => true,
        ([_, rows @ ..], [event, events @ ..]) => event.row == first
            && are_events(first + 1, rows, events),
        _ => false,
    }
}

/// Whether an event does not stand above this height, where it is one of the list.
#[tactic(auto, unfolding(crate::specs::Charts::IsBelow))]
fn is_below(list: usize, y: usize, row: Row, event: &Event) -> bool
    ensures { IsTrue result ↔ IsBelow list y row event.now }
{
    row.list != list || y <= event.at.y
}

fn are_below(list: usize, y: usize, rows: &[Row], events: &[Event]) -> bool
    ensures { IsTrue result ↔ AreBelow list y rows.now events.now }
{
    match rows {
        [] => true,
        [row, rows @ ..] => match events {
            [] => true,
            [event, events @ ..] => is_below(list, y, *row, event)
                && are_below(list, y, rows, events),
        },
    }
}

/// Whether no event stands above one before it in its list.
fn are_in_order(rows: &[Row], events: &[Event]) -> bool
    ensures { IsTrue result ↔ AreInOrder rows.now events.now }
{
    match rows {
        [] => true,
        [row, rows @ ..] => match events {
            [] => true,
            [event, events @ ..] => are_below(row.list, event.at.y, rows, events)
                && are_in_order(rows, events),
        },
    }
}

fn is_output(message: &Message, output: &Output) -> bool
    ensures { IsTrue result ↔ (output_drawn message.now ≡ output.now) }
{
    message.from == output.row && message.origin == output.origin
}

/// Whether the messages are those of the outputs, one by one.
fn are_outputs(messages: &[Message], outputs: &[Output]) -> bool
    ensures { IsTrue result → map output_drawn messages.now ≡ outputs.now }
{
    match (messages, outputs) {
        ([], []) => true,
        ([message, messages @ ..], [output, outputs @ ..]) => is_output(message, output)
            && are_outputs(messages, outputs),
        _ => false,
    }
}

/// Whether an item arrives in the part, and was output above it.
fn comes_in(page: &Page, first: usize, past: usize, arrival: Arrival) -> bool
    ensures { result ≡ comes_in (spot_at page.now) first past arrival }
{
    if arrival.row < first {
        false
    } else if arrival.row < past {
        match page.spot(arrival.origin) {
            Some(spot) => spot.row < first,
            None => false,
        }
    } else {
        false
    }
}

/// The arrivals of items that come in.
fn entering(
    alloc: Global,
    page: &Page,
    span: Span,
    arrivals: &[Arrival],
) -> Result<Vec<Arrival>, AllocError>
    ensures { IfOk result (λ list. list.items ≡ filter (comes_in (spot_at page.now) span.first span.past) arrivals.now) }
{
    let mut list = Vec::new(alloc);
    for arrival in arrivals {
        if comes_in(page, span.first, span.past, *arrival) {
            list.push(*arrival)?;
        }
    }
    Ok(list)
}

/// Whether the item was output in the row from which its message is.
fn is_from(page: &Page, message: &Message) -> bool
    ensures { IsTrue result ↔ IsSomeAnd (spot_at page.now message.now.origin) (λ s. s.row ≡ message.now.from) }
{
    match page.spot(message.origin) {
        Some(spot) => spot.row == message.from,
        None => false,
    }
}

/// Whether a message ends in this row.
fn is_to(message: &Message, row: usize) -> bool
    ensures { IsTrue result ↔ IsSomeAnd message.now.to (λ n. n ≡ row) }
{
    match message.to {
        Some(to) => to == row,
        None => false,
    }
}

fn is_entry(page: &Page, message: &Message, arrival: &Arrival) -> bool
    ensures { IsTrue result ↔ IsEntry (spot_at page.now) message.now arrival.now }
{
    message.origin == arrival.origin && is_to(message, arrival.row) && is_from(page, message)
}

/// Whether the messages are of these arrivals, one by one.
fn are_entries(page: &Page, messages: &[Message], arrivals: &[Arrival]) -> bool
    ensures { IsTrue result → AllZip (IsEntry (spot_at page.now)) messages.now arrivals.now }
{
    match (messages, arrivals) {
        ([], []) => true,
        ([message, messages @ ..], [arrival, arrivals @ ..]) => is_entry(page, message, arrival)
            && are_entries(page, messages, arrivals),
        _ => false,
    }
}

/// Whether a message whose item arrives, or is discarded, has its tip.
fn has_tip(hides: bool, discarded: bool, tip: Tip) -> bool
    ensures { IsTrue result ↔ HasTip hides discarded tip }
{
    match tip {
        Tip::Arrow => !discarded,
        Tip::Lost => discarded,
        Tip::Later => false,
        Tip::Hidden => hides,
    }
}

fn never_arrives(arrivals: &[Arrival], message: &Message) -> bool
    ensures { IsTrue result ↔ All (λ a. a.origin ≢ message.now.origin) arrivals.now }
{
    arrivals.iter().all(|a| a.origin != message.origin)
}

fn arrives_later(past: usize, arrivals: &[Arrival], message: &Message) -> bool
    ensures { IsTrue result ↔ Any (λ a. (a.origin ≡ message.now.origin) × (past ≤ a.row)) arrivals.now }
{
    arrivals
        .iter()
        .any(|a| a.origin == message.origin && past <= a.row)
}

/// Whether a message whose item does not arrive in the part has its tip.
fn stays_as(span: Span, arrivals: &[Arrival], message: &Message) -> bool
    ensures { IsTrue result ↔ StaysAs span.past span.hides arrivals.now message.now message.now.tip }
{
    match message.tip {
        Tip::Arrow => false,
        Tip::Lost => never_arrives(arrivals, message),
        Tip::Later => arrives_later(span.past, arrivals, message),
        Tip::Hidden => span.hides,
    }
}

#[tactic(auto, unfolding(crate::specs::Charts::IsItsArrival))]
fn is_its_arrival(hides: bool, message: &Message, row: usize, arrival: &Arrival) -> bool
    ensures { IsTrue result ↔ IsItsArrival hides message.now row arrival.now }
{
    arrival.row == row
        && arrival.origin == message.origin
        && has_tip(hides, arrival.discarded, message.tip)
}

#[tactic(auto, unfolding(crate::specs::Charts::ArrivesBelow))]
fn arrives_below(past: usize, message: &Message, arrival: &Arrival) -> bool
    ensures { IsTrue result ↔ ArrivesBelow past message.now arrival.now }
{
    arrival.origin != message.origin || past <= arrival.row
}

fn all_below(past: usize, arrivals: &[Arrival], message: &Message) -> bool
    ensures { IsTrue result ↔ All (ArrivesBelow past message.now) arrivals.now }
{
    arrivals.iter().all(|a| arrives_below(past, message, a))
}

fn arrives_in(hides: bool, arrivals: &[Arrival], message: &Message, row: usize) -> bool
    ensures { IsTrue result ↔ Any (IsItsArrival hides message.now row) arrivals.now }
{
    arrivals
        .iter()
        .any(|a| is_its_arrival(hides, message, row, a))
}

/// Whether a message ends in the row where its item arrives, and else says why not.
fn arrives(span: Span, arrivals: &[Arrival], message: &Message) -> bool
    ensures { IsTrue result ↔ Arrives span.past span.hides arrivals.now message.now message.now.to }
{
    match message.to {
        None => all_below(span.past, arrivals, message) && stays_as(span, arrivals, message),
        Some(row) => row < span.past && arrives_in(span.hides, arrivals, message, row),
    }
}

#[tactic(auto, unfolding(crate::specs::Charts::BeginsAt))]
fn begins_at(message: &Message, event: &Event) -> bool
    ensures { IsTrue result ↔ BeginsAt message.now event.now }
{
    event.row == message.from && event.at.x == message.tail.x && event.at.y <= message.tail.y
}

/// Whether a message begins at its output. The first event is that of this row.
#[tactic(auto, unfolding(crate::specs::Charts::Begins))]
fn begins(first: usize, events: &[Event], message: &Message) -> bool
    ensures { IsTrue result ↔ Begins first events.now message.now }
{
    match events.get(message.from.saturating_sub(first)) {
        Some(event) => begins_at(message, event),
        None => false,
    }
}

#[tactic(auto, unfolding(crate::specs::Charts::EndsAt))]
fn ends_at(message: &Message, row: usize, event: &Event) -> bool
    ensures { IsTrue result ↔ EndsAt message.now row event.now }
{
    event.row == row && event.at.x == message.head.x && event.at.y == message.head.y
}

fn ends_in(first: usize, events: &[Event], message: &Message, row: usize) -> bool
    ensures { IsTrue result ↔ IsSomeAnd (slice_get events.now (row - first)) (EndsAt message.now row) }
{
    match events.get(row.saturating_sub(first)) {
        Some(event) => ends_at(message, row, event),
        None => false,
    }
}

fn ends(first: usize, events: &[Event], message: &Message) -> bool
    ensures { IsTrue result ↔ Ends first events.now message.now message.now.to }
{
    match message.to {
        None => true,
        Some(row) => ends_in(first, events, message, row),
    }
}

fn has_its_end(span: Span, arrivals: &[Arrival], events: &[Event], message: &Message) -> bool
    ensures { IsTrue result ↔ HasItsEnd span.first span.past span.hides arrivals.now events.now message.now }
{
    arrives(span, arrivals, message)
        && ends(span.first, events, message)
        && message.tail.y <= message.head.y
}

fn all_begin(first: usize, events: &[Event], messages: &[Message]) -> bool
    ensures { IsTrue result ↔ All (Begins first events.now) messages.now }
{
    messages.iter().all(|m| begins(first, events, m))
}

fn all_end(span: Span, arrivals: &[Arrival], events: &[Event], messages: &[Message]) -> bool
    ensures { IsTrue result ↔ All (HasItsEnd span.first span.past span.hides arrivals.now events.now) messages.now }
{
    messages
        .iter()
        .all(|m| has_its_end(span, arrivals, events, m))
}

/// Whether the events and the messages are a chart of the part. The last list has the arrivals of the items that come in.
fn is_chart(
    page: &Page,
    span: Span,
    traffic: Traffic,
    coming: &[Arrival],
    drawing: &Drawing,
) -> bool
    requires few { span.first + length traffic.rows.now < 2 ^ 64 }
    requires coming { coming.now ≡ filter (comes_in (spot_at page.now) span.first span.past) traffic.arrivals.now }
    ensures { IsTrue result → IsChartOf (record { spot = spot_at page.now; first = span.first; past = span.past; arrivals = traffic.entry.arrivals.now; outputs = traffic.entry.outputs.now; rows = traffic.entry.rows.now; hides = span.hides }) drawing.now }
{
    let events = drawing.events.as_slice();
    let messages = drawing.messages.as_slice();
    let incoming = drawing.incoming.as_slice();
    are_events(span.first, traffic.rows, events)
        && are_in_order(traffic.rows, events)
        && are_outputs(messages, traffic.outputs)
        && are_entries(page, incoming, coming)
        && all_begin(span.first, events, messages)
        && all_end(span, traffic.arrivals, events, messages)
        && all_end(span, traffic.arrivals, events, incoming)
}

/// The rows of a part of a page.
fn part_rows(page: &Page, first: usize, past: usize) -> &[Row]
    requires from { first ≤ past }
    requires to { past ≤ length page.now.rows }
    ensures { result.now ≡ slice_range page.now.rows first past }
{
    &page.rows()[first..past]
}

/// Whether messages may be hidden: not all sets are kept.
fn may_hide(only: &[SetId]) -> bool
    ensures { result ≡ nat_lt 0 (length only.now) }
{
    only.len() > 0
}

/// Whether a drawing is a chart of the part that is wanted, by all arrivals of the page.
pub fn is_whole<K: Shows>(
    alloc: Global,
    lists: &Lists<K>,
    page: &Page,
    wanted: &Wanted,
    arrivals: &[Arrival],
    drawing: &Drawing,
) -> Result<bool, AllocError>
    requires stored { AreStored K.stores lists.now.logs.now }
    requires from { wanted.now.first ≤ wanted.now.past }
    requires to { wanted.now.past ≤ length page.now.rows }
    requires arrivals { arrivals.now ≡ (part_of K.events lists.now page.now wanted.now).arrivals }
    ensures { IfOk result (λ whole. IsTrue whole → IsChartOf (part_of K.events lists.now page.now wanted.now) drawing.now) }
{
    let rows = part_rows(page, wanted.first, wanted.past);
    let outputs = outputs_of(alloc, lists, wanted.first, rows)?;
    let span = Span {
        first: wanted.first,
        past: wanted.past,
        hides: may_hide(wanted.only),
    };
    let coming = entering(alloc, page, span, arrivals)?;
    let traffic = Traffic {
        rows,
        outputs: outputs.as_slice(),
        arrivals,
    };
    Ok(is_chart(page, span, traffic, coming.as_slice(), drawing))
}
