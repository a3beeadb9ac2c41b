//! Lists of sorts and values, where they have room.
ghost use Rattle.std.specs.Prelude.{◌≡◌, ◌≤◌, IsSome, IfSome, ◌↔◌, length};

use arrayvec::ArrayVec;
use sdl_signal::{Sort, Value};

pub fn fitting_sorts<const N: usize>(sorts: &[Sort]) -> Option<ArrayVec<Sort, N>>
    ensures room { IsSome result ↔ (length sorts.now ≤ N) }
    ensures items { IfSome result (λ list. list.items ≡ sorts.now) }
{
    let mut list = ArrayVec::new();
    match list.try_extend_from_slice(sorts) {
        Ok(()) => Some(list),
        Err(_) => None,
    }
}

pub fn fitting_values<const N: usize>(values: &[Value]) -> Option<ArrayVec<Value, N>>
    ensures room { IsSome result ↔ (length values.now ≤ N) }
    ensures items { IfSome result (λ list. list.items ≡ values.now) }
{
    let mut list = ArrayVec::new();
    match list.try_extend_from_slice(values) {
        Ok(()) => Some(list),
        Err(_) => None,
    }
}
