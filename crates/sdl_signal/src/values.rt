//! Values, Pids, signals and items.
ghost use Rattle.std.specs.Prelude.{◌≡◌, pos, IsTrue, ◌↔◌};
ghost use Rattle.sdl_signal.specs.Sorts.{sort_of, AreOfSorts};
ghost use Rattle.sdl_signal.specs.declared.values.Sort.TheVariants as sort;
ghost use Rattle.sdl_signal.specs.declared.values.Pid.TheVariants as pid;
ghost use Rattle.sdl_signal.specs.declared.values.Value.TheVariants as value;

use crate::ids::{GateId, RouteId, SetId, SignalId};
use arrayvec::ArrayVec;

/// The sort of a parameter or a variable.
#[derive(Clone, Copy, Debug, PartialEq, Eq)]
pub enum Sort {
    /// A signed number of 64 bits.
    Integer,
    Boolean,
    Pid,
}

impl Default for Sort {
    fn default() -> Self
        ensures { result ≡ sort.Integer }
    {
        Sort::Integer
    }
}

/// Who an agent instance is (Z.101, Pid sorts).
#[derive(Clone, Copy, Debug, PartialEq, Eq, Hash)]
pub enum Pid {
    /// No instance.
    Null,
    /// The environment, which is one agent. (This project's own.)
    Env,
    /// An instance of a set, by its serial number. Serial numbers count from 1 in each set and are never used
    /// again. (This project's own.)
    Inst(SetId, u32),
}

impl Default for Pid {
    fn default() -> Self
        ensures { result ≡ pid.Null }
    {
        Pid::Null
    }
}

/// A value of a sort.
#[derive(Clone, Copy, Debug, PartialEq, Eq)]
pub enum Value {
    Integer(i64),
    Boolean(bool),
    Pid(Pid),
}

impl Default for Value {
    fn default() -> Self
        ensures { result ≡ value.Integer (pos 0) }
    {
        Value::Integer(0)
    }
}

impl Value {
    /// The sort that it is of.
    pub fn sort(&self) -> Sort
        ensures { result ≡ sort_of self.now }
    {
        match self {
            Value::Integer(_) => Sort::Integer,
            Value::Boolean(_) => Sort::Boolean,
            Value::Pid(_) => Sort::Pid,
        }
    }

    /// Whether the values are of these sorts, one by one.
    pub fn are_of_sorts(values: &[Value], sorts: &[Sort]) -> bool
        ensures { IsTrue result ↔ AreOfSorts values.now sorts.now }
    {
        match (values, sorts) {
            ([], []) => true,
            ([value, values @ ..], [sort, sorts @ ..]) => value.sort() == *sort
                && Value::are_of_sorts(values, sorts),
            _ => false,
        }
    }
}

/// A signal with its actual parameters, at most four.
#[derive(Debug, Default, PartialEq, Eq, Drop)]
pub struct Signal {
    pub id: SignalId,
    pub params: ArrayVec<Value, 4>,
}

/// Which output an item came from: the worker that made it, and how many outputs that worker had made before,
/// those that no route fits included. (This project's own.)
#[derive(Clone, Copy, Debug, Default, PartialEq, Eq)]
pub struct Origin {
    pub worker: u32,
    pub number: u64,
}

/// A signal on its way: a signal instance of Z.101 with what this runtime adds to it.
#[derive(Debug, Default, PartialEq, Eq, Drop)]
pub struct Item {
    pub origin: Origin,
    /// One more than the greatest stamp that arrived at the sender's block before, and 0 where none did. The
    /// environment's is 0. (This project's own.)
    pub stamp: u64,
    pub signal: Signal,
    pub sender: Pid,
    /// The instance that TO named, where it named one.
    pub to: Option<Pid>,
    pub route: RouteId,
}

/// A line of the environment, read: a signal that enters at a gate of the system.
#[derive(Debug, Default, PartialEq, Eq, Drop)]
pub struct EnvLine {
    pub gate: GateId,
    pub signal: Signal,
    /// The TO part, where the line has one.
    pub to: Option<Pid>,
}
