//! What a packed log shows, beside what a list of events has.
use crate::notes::note;
use crate::same::is_same;
use sdl_instances_log::{Event, LogStore};
use sdl_instances_packed_log::Packed;
use std::process::Abort;

/// So many events that the lists of a packed log grow several times.
const EVENTS: u32 = 500;

fn shows_all(rt: &impl Abort, packed: &Packed, events: &[Event]) {
    assert!(rt; packed.number() == events.len() as u64);
    for place in 0..events.len() {
        let Some(shown) = packed.shown(place) else {
            panic!(rt; "no event is shown");
        };
        assert!(rt; is_same(&shown, &events[place]));
    }
    assert!(rt; packed.shown(events.len()).is_none());
}

#[test]
fn a_packed_log_shows_each_event_with_all_its_parts(rt: HostRuntime) {
    let mut packed = Packed::new(rt.alloc());
    let mut events: Vec<Event> = LogStore::new(rt.alloc());
    for number in 0..EVENTS {
        assert!(&rt; note(&mut packed, number) && note(&mut events, number));
    }
    shows_all(&rt, &packed, events.as_slice());
}

// Run it with each allocation refused in turn: a refusal leaves what was noted, and the next call makes room.
#[test]
fn a_refusal_loses_no_event(rt: HostRuntime) {
    let mut packed = Packed::new(rt.alloc());
    let mut events: Vec<Event> = LogStore::new(rt.alloc());
    for number in 0..EVENTS {
        let noted = note(&mut packed, number) || note(&mut packed, number);
        let listed = note(&mut events, number) || note(&mut events, number);
        assert!(&rt; noted && listed);
    }
    shows_all(&rt, &packed, events.as_slice());
}
