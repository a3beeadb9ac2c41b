//! Copies of signals and items, which take no memory.
ghost use Rattle.std.specs.Prelude.{◌≡◌, ◌+◌, ◌++◌, ◌≤◌, length};

use arrayvec::ArrayVec;
use sdl_signal::{Item, Signal, Sort, Value};

/// Adds the values to a list that has room for them. Where values are moved right after they were written one by one, the processor
/// waits for them; so they are written where they are to stand.
#[inline(always)]
pub fn add_values<const N: usize>(to: &mut ArrayVec<Value, N>, values: &[Value])
    requires { length to.old.items + length values.now ≤ N }
    ensures { to.new.items ≡ to.old.items ++ values.now }
{
    for value in values {
        to.push(*value);
    }
}

/// The same values. There are at most as many as the list holds.
pub fn copied_values<const N: usize>(values: &[Value]) -> ArrayVec<Value, N>
    requires { length values.now ≤ N }
    ensures { result.items ≡ values.now }
{
    let mut copy = ArrayVec::new();
    add_values(&mut copy, values);
    copy
}

/// The same sorts.
pub fn copied_sorts(sorts: &ArrayVec<Sort, 4>) -> ArrayVec<Sort, 4>
    ensures { result.items ≡ sorts.now.items }
{
    let mut copy = ArrayVec::new();
    match copy.try_extend_from_slice(sorts.as_slice()) {
        Ok(()) => copy,
        Err(_) => unreachable!(),
    }
}

/// The same signal.
pub fn copied_signal(signal: &Signal) -> Signal
    ensures { result ≡ signal.now }
{
    Signal {
        id: signal.id,
        params: copied_values(signal.params.as_slice()),
    }
}

/// The same item.
pub fn copied_item(item: &Item) -> Item
    ensures { result ≡ item.now }
{
    Item {
        origin: item.origin,
        stamp: item.stamp,
        signal: copied_signal(&item.signal),
        sender: item.sender,
        to: item.to,
        route: item.route,
    }
}
