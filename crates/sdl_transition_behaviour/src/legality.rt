//! Which Pids, values and destinations a system with so many process sets can have.
ghost use Rattle.std.specs.Prelude.{◌≡◌, ◌<◌, ◌≤◌, IsTrue, ◌↔◌, All, IfSome};
ghost use Rattle.sdl_transition_behaviour.specs.Offers.{IsLegalPid, IsLegalValue, IsLegalDest};

use crate::step::Dest;
use sdl_signal::{Pid, Value};

/// Whether the Pid can be one: an instance is of one of the sets, and has a serial number of at least 1. No memory is taken.
pub fn is_legal_pid(sets: usize, pid: Pid) -> bool
    ensures { IsTrue result ↔ IsLegalPid sets pid }
{
    match pid {
        Pid::Null => true,
        Pid::Env => true,
        Pid::Inst(set, serial) => (set.0 as usize) < sets && 1 <= serial,
    }
}

/// Whether a TO part, where there is one, names a Pid that can be one. No memory is taken.
pub fn names_legal(sets: usize, to: Option<Pid>) -> bool
    ensures { IsTrue result ↔ IfSome to (IsLegalPid sets) }
{
    match to {
        Some(pid) => is_legal_pid(sets, pid),
        None => true,
    }
}

fn is_legal(sets: usize, value: &Value) -> bool
    ensures { IsTrue result ↔ IsLegalValue sets value.now }
{
    match value {
        Value::Pid(pid) => is_legal_pid(sets, *pid),
        Value::Integer(_) => true,
        Value::Boolean(_) => true,
    }
}

/// Whether each Pid among the values can be one. No memory is taken.
pub fn are_legal(sets: usize, values: &[Value]) -> bool
    ensures { IsTrue result ↔ All (IsLegalValue sets) values.now }
{
    values.iter().all(|value| is_legal(sets, value))
}

/// Whether the destination, where it is a Pid, can be one. No memory is taken.
pub fn is_legal_dest(sets: usize, to: Dest) -> bool
    ensures { IsTrue result ↔ IsLegalDest sets to }
{
    match to {
        Dest::Pid(pid) => is_legal_pid(sets, pid),
        Dest::Set(_) => true,
        Dest::Anywhere => true,
        Dest::SelfPid => true,
        Dest::Parent => true,
        Dest::Offspring => true,
        Dest::Sender => true,
    }
}
