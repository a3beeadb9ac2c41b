//! What a step reads of its variables, where an answer that lacks it is `NoStep::Missing`.
ghost use Rattle.std.specs.Prelude.{◌≡◌, slice_get, option_and_then, ok_or};
ghost use Rattle.sdl_graph.specs.Reading.{integer_of, boolean_of, pid_of};
ghost use Rattle.sdl_graph.specs.declared.agent.NoStep.TheVariants.{Missing};

use crate::agent::NoStep;
use crate::reading::{boolean_variable, integer_variable, pid_variable};
use sdl_signal::Pid;
use sdl_transition_behaviour::Frame;

/// The Integer that the variable at this place holds, from 0.
pub fn integer(frame: &Frame, place: usize) -> Result<i64, NoStep>
    ensures { result ≡ ok_or (option_and_then integer_of (slice_get (frame.now.vars.items) place)) Missing }
{
    integer_variable(frame, place).ok_or(NoStep::Missing)
}

/// The Boolean that the variable at this place holds, from 0.
pub fn boolean(frame: &Frame, place: usize) -> Result<bool, NoStep>
    ensures { result ≡ ok_or (option_and_then boolean_of (slice_get (frame.now.vars.items) place)) Missing }
{
    boolean_variable(frame, place).ok_or(NoStep::Missing)
}

/// The Pid that the variable at this place holds, from 0.
pub fn pid(frame: &Frame, place: usize) -> Result<Pid, NoStep>
    ensures { result ≡ ok_or (option_and_then pid_of (slice_get (frame.now.vars.items) place)) Missing }
{
    pid_variable(frame, place).ok_or(NoStep::Missing)
}
