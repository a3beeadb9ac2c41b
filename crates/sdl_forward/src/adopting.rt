//! A board of queues whose ends have all come back.
ghost use Rattle.std.specs.Prelude.{◌≡◌, ◌<◌, ◌≤◌, Some, ⊤, length, slice_get, slice_set, vec_len, vec_capacity, Contains, MatchResult};
ghost use Rattle.std.specs.List.{insert};
ghost use Rattle.sdl_routes.specs.declared.route.Station.{Station};
ghost use Rattle.sdl_routes.specs.Routes.{EachOnce};
ghost use Rattle.sdl_queue.specs.declared.rest.Rest.{Rest};
ghost use Rattle.sdl_queue.specs.declared.rest.Rest.TheVariants.{Serial};
ghost use Rattle.sdl_queue.specs.Rest.{left_in};
ghost use Rattle.sdl_forward.specs.Boards.{stations_of, lists_of};
ghost use Rattle.sdl_forward.specs.Serials.{IsFirstRuled, IsApart};

use crate::Board;
use sdl_queue::{Rest, SerialQueue};
use sdl_routes::Station;
use std::sync::Wait;

impl Board {
    /// A board of these queues, each made one of one thread, with the memory that it keeps. `Err` hands them back where memory
    /// was refused to one, with its station: those before it are of one thread by then. May wait for other threads.
    pub fn adopt<R: Wait>(
        rt: &R,
        rests: Vec<(Station, Rest)>,
    ) -> Result<Board, (Vec<(Station, Rest)>, Station)>
        requires once { EachOnce (stations_of rests.items) }
        ensures lists { MatchResult result
            (λ board. board ≡ lists_of rests.items)
            (λ back. (lists_of back.0.items ≡ lists_of rests.items) × Contains (stations_of rests.items) back.1) }
        ensures refused { MatchResult result (λ _. ⊤) (λ back. IsFirstRuled back.0.items back.1) }
    {
        let mut rests = rests;
        for place in 0..rests.len() {
            if let Err(station) = make_serial(rt, &mut rests, place) {
                return Err((rests, station));
            }
        }
        Ok(Board::of(rests))
    }
}

/// Makes the queue at this place of the list one of one thread. `Err` names its station where memory was refused; then nothing
/// has changed.
fn make_serial<R: Wait>(
    rt: &R,
    rests: &mut Vec<(Station, Rest)>,
    place: usize,
) -> Result<(), Station>
    requires { place < length rests.old.items }
    ensures { MatchResult result
        (λ _. (old : Station × Rest) × (slice_get rests.old.items place ≡ Some old) × (rests.new.items ≡ slice_set rests.old.items place (old.0, Serial (left_in old.1))))
        (λ station. (apart : Rest) × IsApart apart × (slice_get rests.old.items place ≡ Some (station, apart)) × (rests.new.items ≡ rests.old.items)) }
{
    let (station, rest) = rests.remove(place);
    match into_serial(rt, rest) {
        Ok(queue) => {
            put_back(rests, place, (station, Rest::Serial(queue)));
            Ok(())
        }
        Err(apart) => {
            put_back(rests, place, (station, apart));
            Err(station)
        }
    }
}

/// The items that are left in a queue of one thread. `Err` hands the queue back where memory was refused.
fn into_serial<R: Wait>(rt: &R, rest: Rest) -> Result<SerialQueue, Rest>
    ensures { MatchResult result (λ queue. queue ≡ left_in rest) (λ back. (back ≡ rest) × IsApart rest) }
{
    match rest {
        Rest::Serial(queue) => Ok(queue),
        Rest::Ruled(rejoined) => match rejoined.into_serial(rt) {
            Ok(queue) => Ok(queue),
            Err((back, _)) => Err(Rest::Ruled(back)),
        },
        Rest::Ring(rejoined) => match rejoined.into_serial() {
            Ok(queue) => Ok(queue),
            Err((back, _)) => Err(Rest::Ring(back)),
        },
    }
}

/// Puts an element at the place at which one was removed.
fn put_back<T: Drop>(list: &mut Vec<T>, place: usize, element: T)
    requires within { place ≤ vec_len list.old }
    requires room { vec_len list.old < vec_capacity list.old }
    ensures { list.new.items ≡ insert list.old.items place element }
{
    match list.insert(place, element) {
        Ok(()) => {}
        Err(_) => unreachable!(),
    }
}
