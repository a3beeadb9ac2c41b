//! Lists that are emptied from the front, or filled where they have room.
ghost use Rattle.std.specs.Prelude.{◌≡◌, ℕ, ◌+◌, ◌<◌, ◌≤◌, ◌++◌, ◌∷◌, [], length, vec_len, vec_capacity};

use std::collections::VecDeque;

/// Takes the first element of a list.
pub fn take_first<T>(list: &mut Vec<T>) -> T
    requires { 0 < length list.old.items }
    ensures { list.old.items ≡ result ∷ list.new.items }
{
    list.remove(0)
}

/// Takes the first element of a list, whose others stay where they are.
pub fn take_front<T>(list: &mut VecDeque<T>) -> T
    requires { 0 < length list.old.items }
    ensures { list.old.items ≡ result ∷ list.new.items }
{
    list.pop_front().unwrap()
}

/// Puts an element behind the others of a list that has room for it.
pub fn put_last<T: Drop>(list: &mut Vec<T>, element: T)
    requires { vec_len list.old + 1 ≤ vec_capacity list.old }
    ensures items { list.new.items ≡ list.old.items ++ element ∷ [] }
    ensures room { (more : ℕ) → vec_len list.old + (more + 1) ≤ vec_capacity list.old → vec_len list.new + more ≤ vec_capacity list.new }
{
    match list.push(element) {
        Ok(()) => {}
        Err(_) => unreachable!(),
    }
}
