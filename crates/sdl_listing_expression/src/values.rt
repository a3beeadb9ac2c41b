//! A value seen as one of a sort, and what the operators make of two values.
ghost use Rattle.std.specs.Prelude.{◌≡◌, ◌||◌, slice_get};
ghost use Rattle.sdl_listing_expression.specs.Scene.{parameters, own_of, integer_in, boolean_in, pid_in, of_sort, serial_of, instance_at};
ghost use Rattle.sdl_listing_expression.specs.Values.{apply, is_bent, counts};

use crate::arithmetic::{difference, modulo, product, quotient, remainder, sum};
use crate::syntax::{Operator, Word};
use sdl_signal::{Pid, SetId, Sort, Value};
use sdl_transition_behaviour::Frame;

pub fn integer(value: Value) -> i64
    ensures { result ≡ integer_in value }
{
    match value {
        Value::Integer(number) => number,
        Value::Boolean(_) => 0,
        Value::Pid(_) => 0,
    }
}

pub fn boolean(value: Value) -> bool
    ensures { result ≡ boolean_in value }
{
    match value {
        Value::Integer(_) => false,
        Value::Boolean(truth) => truth,
        Value::Pid(_) => false,
    }
}

pub fn pid(value: Value) -> Pid
    ensures { result ≡ pid_in value }
{
    match value {
        Value::Integer(_) => Pid::Null,
        Value::Boolean(_) => Pid::Null,
        Value::Pid(pid) => pid,
    }
}

/// The value of a place, seen as one of the sort.
pub fn sorted(sort: Sort, value: Option<Value>) -> Value
    ensures { result ≡ of_sort sort value }
{
    let value = value.unwrap_or(Value::Pid(Pid::Null));
    match sort {
        Sort::Integer => Value::Integer(integer(value)),
        Sort::Boolean => Value::Boolean(boolean(value)),
        Sort::Pid => Value::Pid(pid(value)),
    }
}

pub fn parameter(frame: &Frame, place: usize) -> Option<Value>
    ensures { result ≡ slice_get (parameters frame.now) place }
{
    match &frame.signal {
        Some(signal) => signal.params.as_slice().get(place).copied(),
        None => None,
    }
}

pub fn variable(vars: &[Value], place: usize) -> Option<Value>
    ensures { result ≡ slice_get vars.now place }
{
    vars.get(place).copied()
}

pub fn own(frame: &Frame, word: Word) -> Pid
    ensures { result ≡ own_of frame.now word }
{
    match word {
        Word::SelfPid => frame.self_pid,
        Word::Parent => frame.parent,
        Word::Offspring => frame.offspring,
        Word::Sender => frame.sender,
    }
}

pub fn serial(pid: Pid) -> i64
    ensures { result ≡ serial_of pid }
{
    match pid {
        Pid::Null => 0,
        Pid::Env => 0,
        Pid::Inst(_, serial) => i64::from(serial),
    }
}

pub fn instance(set: SetId, serial: i64) -> Pid
    ensures { result ≡ instance_at set serial }
{
    if 1 <= serial && serial <= 4_294_967_295 {
        Pid::Inst(set, serial as u32)
    } else {
        Pid::Null
    }
}

/// Whether the second value counts, once the first is known.
pub fn looks_on(operator: Operator, first: Value) -> bool
    ensures { result ≡ counts operator first }
{
    match operator {
        Operator::And => boolean(first),
        Operator::Or => !boolean(first),
        _ => true,
    }
}

/// What the operator makes of two values. Where that is bent, the mark is set.
pub fn combine(operator: Operator, a: Value, b: Value, bent: &mut bool) -> Value
    ensures value { result ≡ apply operator a b }
    ensures bent { bent.new ≡ (bent.old || is_bent operator a b) }
{
    match operator {
        Operator::Add => Value::Integer(sum(integer(a), integer(b), bent)),
        Operator::Subtract => Value::Integer(difference(integer(a), integer(b), bent)),
        Operator::Multiply => Value::Integer(product(integer(a), integer(b), bent)),
        Operator::Divide => Value::Integer(quotient(integer(a), integer(b), bent)),
        Operator::Modulo => Value::Integer(modulo(integer(a), integer(b), bent)),
        Operator::Remainder => Value::Integer(remainder(integer(a), integer(b), bent)),
        Operator::Equal => Value::Boolean(a == b),
        Operator::Differs => Value::Boolean(a != b),
        Operator::Less => Value::Boolean(integer(a) < integer(b)),
        Operator::AtMost => Value::Boolean(integer(a) <= integer(b)),
        Operator::And => Value::Boolean(boolean(a) && boolean(b)),
        Operator::Or => Value::Boolean(boolean(a) || boolean(b)),
        Operator::Xor => Value::Boolean(boolean(a) != boolean(b)),
    }
}
