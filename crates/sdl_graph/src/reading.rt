//! What a step reads of its frame.
ghost use Rattle.std.specs.Prelude.{◌≡◌, slice_get, option_and_then};
ghost use Rattle.sdl_graph.specs.Reading.{parameters, integer_of, boolean_of, pid_of};

use sdl_signal::{Pid, Value};
use sdl_transition_behaviour::Frame;

fn parameter(frame: &Frame, place: usize) -> Option<Value>
    ensures { result ≡ slice_get (parameters frame.now) place }
{
    match &frame.signal {
        Some(signal) => signal.params.as_slice().get(place).copied(),
        None => None,
    }
}

fn variable(frame: &Frame, place: usize) -> Option<Value>
    ensures { result ≡ slice_get frame.now.vars.items place }
{
    frame.vars.as_slice().get(place).copied()
}

fn integer(value: Option<Value>) -> Option<i64>
    ensures { result ≡ option_and_then integer_of value }
{
    match value {
        Some(Value::Integer(number)) => Some(number),
        _ => None,
    }
}

fn boolean(value: Option<Value>) -> Option<bool>
    ensures { result ≡ option_and_then boolean_of value }
{
    match value {
        Some(Value::Boolean(truth)) => Some(truth),
        _ => None,
    }
}

fn pid(value: Option<Value>) -> Option<Pid>
    ensures { result ≡ option_and_then pid_of value }
{
    match value {
        Some(Value::Pid(pid)) => Some(pid),
        _ => None,
    }
}

/// The Integer that the signal consumed carries at this place, from 0. There is none for a start, past the last
/// parameter, and where the parameter is of another sort.
pub fn integer_parameter(frame: &Frame, place: usize) -> Option<i64>
    ensures { result ≡ option_and_then integer_of (slice_get (parameters frame.now) place) }
{
    integer(parameter(frame, place))
}

/// The Boolean that the signal consumed carries at this place, from 0.
pub fn boolean_parameter(frame: &Frame, place: usize) -> Option<bool>
    ensures { result ≡ option_and_then boolean_of (slice_get (parameters frame.now) place) }
{
    boolean(parameter(frame, place))
}

/// The Pid that the signal consumed carries at this place, from 0.
pub fn pid_parameter(frame: &Frame, place: usize) -> Option<Pid>
    ensures { result ≡ option_and_then pid_of (slice_get (parameters frame.now) place) }
{
    pid(parameter(frame, place))
}

/// The Integer that the variable at this place holds, from 0. There is none past the last variable, and where the
/// variable is of another sort.
pub fn integer_variable(frame: &Frame, place: usize) -> Option<i64>
    ensures { result ≡ option_and_then integer_of (slice_get frame.now.vars.items place) }
{
    integer(variable(frame, place))
}

/// The Boolean that the variable at this place holds, from 0.
pub fn boolean_variable(frame: &Frame, place: usize) -> Option<bool>
    ensures { result ≡ option_and_then boolean_of (slice_get frame.now.vars.items place) }
{
    boolean(variable(frame, place))
}

/// The Pid that the variable at this place holds, from 0.
pub fn pid_variable(frame: &Frame, place: usize) -> Option<Pid>
    ensures { result ≡ option_and_then pid_of (slice_get frame.now.vars.items place) }
{
    pid(variable(frame, place))
}
