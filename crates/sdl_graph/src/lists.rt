//! What the structure file lets a set do, and the values that its agents have at first.
ghost use Rattle.std.specs.Prelude.{◌≡◌, ◌≤◌, length, map, take};
ghost use Rattle.sdl_signal.specs.Sorts.{sort_of};
ghost use Rattle.sdl_graph.specs.Lists.{offered_as, states_below, first_of_sort};

use arrayvec::ArrayVec;
use sdl_signal::{Pid, SetId, SignalId, Sort, StateId, Value};
use sdl_transition_behaviour::{OfferedOutput, SignalSorts, Via};

/// A signal that a gate of the set lets in, with the sorts of its parameters.
pub type Inward = (SignalId, &'static [Sort]);

/// A signal of an outward list of the set, with the sorts of its parameters, and a VIA that it may have.
pub type Outward = (SignalId, &'static [Sort], Via);

/// What the structure file lets a set do. The skeleton writes it, in `numbers.rt`.
#[derive(Clone, Copy)]
pub struct SetLists {
    pub set: SetId,
    /// The name of the set.
    pub name: &'static str,
    /// How many sets the structure has.
    pub sets: u32,
    /// Each signal that a gate of the set lets in.
    pub inward: &'static [Inward],
    /// Each signal that a gate of the set lets out, with each VIA that it may have there.
    pub outward: &'static [Outward],
    /// The sets of its block.
    pub creates: &'static [SetId],
}

/// The first sorts of a list, as many as there is room for.
#[tactic(auto, using(std::proofs::lemmas::List::take_all))]
fn first_sorts<const N: usize>(sorts: &[Sort]) -> ArrayVec<Sort, N>
    ensures { result.items ≡ take N sorts.now }
{
    let shown = if sorts.len() > N { &sorts[..N] } else { sorts };
    let mut list = ArrayVec::new();
    match list.try_extend_from_slice(shown) {
        Ok(()) => list,
        Err(_) => unreachable!(),
    }
}

/// An output of the list, as an offer has it.
#[tactic(auto, unfolding(crate::specs::Lists::offered_as))]
fn offered(listed: &Outward) -> OfferedOutput
    ensures { result ≡ offered_as listed.now }
{
    let (id, sorts, via) = *listed;
    let signal = SignalSorts {
        id,
        sorts: first_sorts(sorts),
    };
    OfferedOutput { signal, via }
}

/// The outputs of a list.
pub fn listed_outputs(listed: &[Outward]) -> ArrayVec<OfferedOutput, 16>
    requires { length listed.now ≤ 16 }
    ensures { result.items ≡ map offered_as listed.now }
{
    let mut made = ArrayVec::new();
    for output in listed {
        made.push(offered(output));
    }
    made
}

/// The sets of a list.
pub fn listed_sets(sets: &[SetId]) -> ArrayVec<SetId, 8>
    requires { length sets.now ≤ 8 }
    ensures { result.items ≡ sets.now }
{
    let mut list = ArrayVec::new();
    match list.try_extend_from_slice(sets) {
        Ok(()) => list,
        Err(_) => unreachable!(),
    }
}

/// The sorts of the values.
pub fn sorts_of(values: &[Value]) -> ArrayVec<Sort, 8>
    requires { length values.now ≤ 8 }
    ensures { result.items ≡ map sort_of values.now }
{
    let mut made = ArrayVec::new();
    for value in values {
        made.push(value.sort());
    }
    made
}

/// So many states, by their numbers from 0.
pub fn states_to(count: u32) -> ArrayVec<StateId, 16>
    requires { count ≤ 16 }
    ensures { result.items ≡ states_below count }
{
    let mut made = ArrayVec::new();
    for number in 0..count {
        made.push(StateId(number));
    }
    made
}

/// The first values of a list, as many as there is room for.
#[tactic(auto, using(std::proofs::lemmas::List::take_all))]
pub fn first_values<const N: usize>(values: &[Value]) -> ArrayVec<Value, N>
    ensures { result.items ≡ take N values.now }
{
    let shown = if values.len() > N {
        &values[..N]
    } else {
        values
    };
    let mut list = ArrayVec::new();
    match list.try_extend_from_slice(shown) {
        Ok(()) => list,
        Err(_) => unreachable!(),
    }
}

/// The value of a sort that stands for any of it before a run: 0, `false` or `null`.
fn first_value(sort: Sort) -> Value
    ensures { result ≡ first_of_sort sort }
{
    match sort {
        Sort::Integer => Value::Integer(0),
        Sort::Boolean => Value::Boolean(false),
        Sort::Pid => Value::Pid(Pid::Null),
    }
}

/// A value for each of the sorts.
pub fn first_parameters(sorts: &[Sort]) -> ArrayVec<Value, 4>
    requires { length sorts.now ≤ 4 }
    ensures { result.items ≡ map first_of_sort sorts.now }
{
    let mut made = ArrayVec::new();
    for sort in sorts {
        made.push(first_value(*sort));
    }
    made
}
