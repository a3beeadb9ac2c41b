//! Items by the words of a call: `ROUTE SIGNAL VALUE .. [to PID] [sender PID] [stamp N] [origin W.N]`, with as many values as
//! the signal has parameters. Without their words the sender is `null`, the stamp 0, and the origin the next number of worker 0.
use crate::naming::{pid_of, signal_of, station_of};
use sdl_routes::Station;
use sdl_signal::{Item, Origin, RouteId, SignalId, Sort, Value};
use sdl_structure_parts::Structure;

/// An item that a call gives, and what the call says beside it.
#[derive(Drop)]
pub struct Given {
    pub item: Item,
    /// At the station that follows on this route; else on the item's own.
    pub along: Option<RouteId>,
    /// After this station on the route; else at the first.
    pub after: Option<Station>,
    pub pick: u32,
}

/// An origin: `WORKER.NUMBER`.
pub fn origin_of(word: &str) -> Option<Origin> {
    let (worker, number) = word.split_once('.')?;
    Some(Origin {
        worker: worker.parse::<u32>().ok()?,
        number: number.parse::<u64>().ok()?,
    })
}

/// An item that its origin tells from others.
pub fn item_from(origin: Origin) -> Item {
    Item {
        origin,
        ..Item::default()
    }
}

/// The item of the words, and None where they are no item. `next` is the number of an origin that is not given.
pub fn given_of(structure: &Structure, words: &[&str], next: u64) -> Option<Given> {
    let [route, signal, rest @ ..] = words else {
        return None;
    };
    let route = RouteId(route.parse::<u32>().ok()?);
    let signal = signal_of(structure, signal)?;
    let mut given = blank(route, signal, next);
    let sorts = sorts_of(structure, signal);
    let options = add_values(structure, &mut given.item, sorts, rest)?;
    if add_options(structure, &mut given, options) {
        Some(given)
    } else {
        None
    }
}

fn sorts_of(structure: &Structure, signal: SignalId) -> &[Sort] {
    match structure.signals().get(signal.0 as usize) {
        Some(signal) => signal.sorts.as_slice(),
        None => &[],
    }
}

fn blank(route: RouteId, signal: SignalId, next: u64) -> Given {
    let origin = Origin {
        worker: 0,
        number: next,
    };
    let mut item = item_from(origin);
    item.route = route;
    item.signal.id = signal;
    Given {
        item,
        along: None,
        after: None,
        pick: 0,
    }
}

/// Adds a value of each of the sorts to the item, and answers the words after them.
fn add_values<'a>(
    structure: &Structure,
    item: &mut Item,
    sorts: &[Sort],
    words: &'a [&'a str],
) -> Option<&'a [&'a str]> {
    let [sort, sorts @ ..] = sorts else {
        return Some(words);
    };
    let [word, words @ ..] = words else {
        return None;
    };
    add_value(structure, item, *sort, word)?;
    add_values(structure, item, sorts, words)
}

fn add_value(structure: &Structure, item: &mut Item, sort: Sort, word: &str) -> Option<()> {
    let value = value_of(structure, word, sort)?;
    if item.signal.params.is_full() {
        return None;
    }
    item.signal.params.push(value);
    Some(())
}

fn value_of(structure: &Structure, word: &str, sort: Sort) -> Option<Value> {
    match sort {
        Sort::Integer => Some(Value::Integer(word.parse::<i64>().ok()?)),
        Sort::Boolean => boolean_of(word),
        Sort::Pid => Some(Value::Pid(pid_of(structure, word)?)),
    }
}

fn boolean_of(word: &str) -> Option<Value> {
    match word {
        "true" => Some(Value::Boolean(true)),
        "false" => Some(Value::Boolean(false)),
        _ => None,
    }
}

/// Adds what the words say in pairs, and says whether they are such pairs.
fn add_options(structure: &Structure, given: &mut Given, words: &[&str]) -> bool {
    match words {
        [] => true,
        [name, word, rest @ ..] => {
            add_option(structure, given, name, word).is_some()
                && add_options(structure, given, rest)
        }
        _ => false,
    }
}

fn add_option(structure: &Structure, given: &mut Given, name: &str, word: &str) -> Option<()> {
    match name {
        "to" => given.item.to = Some(pid_of(structure, word)?),
        "sender" => given.item.sender = pid_of(structure, word)?,
        "stamp" => given.item.stamp = word.parse::<u64>().ok()?,
        "origin" => given.item.origin = origin_of(word)?,
        _ => return add_place(structure, given, name, word),
    }
    Some(())
}

fn add_place(structure: &Structure, given: &mut Given, name: &str, word: &str) -> Option<()> {
    match name {
        "along" => given.along = Some(RouteId(word.parse::<u32>().ok()?)),
        "after" => given.after = Some(station_of(structure, word)?),
        "pick" => given.pick = word.parse::<u32>().ok()?,
        _ => return None,
    }
    Some(())
}
