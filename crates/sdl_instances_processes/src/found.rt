//! Which of the queues of a port has the signal that came first, or last.
ghost use Rattle.std.specs.Prelude.{◌≡◌, ◌+◌, [], List, get_or, length, map};
ghost use Rattle.sdl_transition_saves.specs.Saves.{holds};
ghost use Rattle.sdl_instances_processes.specs.declared.numbered.Numbered.{Numbered as ANumbered};
ghost use Rattle.sdl_instances_processes.specs.Arrivals.{IsFirstOf, IsLastOf};

use crate::numbered::Numbered;
use sdl_transition_saves::SignalSet;
use std::collections::VecDeque;

/// A queue, by its place, and the number of the arrival that stands first or last in it.
#[derive(Clone, Copy)]
pub struct Found {
    pub place: usize,
    pub number: u64,
}

/// What was found so far, or this queue, where an earlier signal stands first in it that is not saved.
#[inline(always)]
fn earlier(
    found: Option<Found>,
    place: usize,
    queue: &VecDeque<Numbered>,
    saved: SignalSet,
) -> Option<Found>
    ensures { (queues : List (List ANumbered)) → get_or queues place [] ≡ queue.now.items → IsFirstOf (holds saved) queues place found → IsFirstOf (holds saved) queues (place + 1) result }
{
    let Some(first) = queue.front() else {
        return found;
    };
    if saved.has(first.item.signal.id) {
        return found;
    }
    let this = Found {
        place,
        number: first.number,
    };
    match found {
        Some(other) => {
            if other.number <= this.number {
                Some(other)
            } else {
                Some(this)
            }
        }
        None => Some(this),
    }
}

/// The queue in which the earliest signal stands that is not saved. Each queue is looked at once.
pub fn first_not_saved(queues: &[VecDeque<Numbered>], saved: SignalSet) -> Option<Found>
    ensures { IsFirstOf (holds saved) (map (λ q. q.items) queues.now) (length queues.now) result }
{
    let mut found = None;
    for place in 0..queues.len() {
        found = earlier(found, place, &queues[place], saved);
    }
    found
}

/// What was found so far, or this queue, where a later signal stands last in it.
#[inline(always)]
fn later(found: Option<Found>, place: usize, queue: &VecDeque<Numbered>) -> Option<Found>
    ensures { (queues : List (List ANumbered)) → get_or queues place [] ≡ queue.now.items → IsLastOf queues place found → IsLastOf queues (place + 1) result }
{
    let Some(last) = queue.back() else {
        return found;
    };
    let this = Found {
        place,
        number: last.number,
    };
    match found {
        Some(other) => {
            if this.number <= other.number {
                Some(other)
            } else {
                Some(this)
            }
        }
        None => Some(this),
    }
}

/// The queue in which the latest signal stands. Each queue is looked at once.
pub fn last_of(queues: &[VecDeque<Numbered>]) -> Option<Found>
    ensures { IsLastOf (map (λ q. q.items) queues.now) (length queues.now) result }
{
    let mut found = None;
    for place in 0..queues.len() {
        found = later(found, place, &queues[place]);
    }
    found
}
