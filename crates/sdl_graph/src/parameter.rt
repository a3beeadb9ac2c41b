//! What a step reads of its parameters, where an answer that lacks it is `NoStep::Missing`.
ghost use Rattle.std.specs.Prelude.{◌≡◌, slice_get, option_and_then, ok_or};
ghost use Rattle.sdl_graph.specs.Reading.{integer_of, boolean_of, pid_of, parameters};
ghost use Rattle.sdl_graph.specs.declared.agent.NoStep.TheVariants.{Missing};

use crate::agent::NoStep;
use crate::reading::{boolean_parameter, integer_parameter, pid_parameter};
use sdl_signal::Pid;
use sdl_transition_behaviour::Frame;

/// The Integer that the signal consumed carries at this place, from 0.
pub fn integer(frame: &Frame, place: usize) -> Result<i64, NoStep>
    ensures { result ≡ ok_or (option_and_then integer_of (slice_get (parameters frame.now) place)) Missing }
{
    integer_parameter(frame, place).ok_or(NoStep::Missing)
}

/// The Boolean that the signal consumed carries at this place, from 0.
pub fn boolean(frame: &Frame, place: usize) -> Result<bool, NoStep>
    ensures { result ≡ ok_or (option_and_then boolean_of (slice_get (parameters frame.now) place)) Missing }
{
    boolean_parameter(frame, place).ok_or(NoStep::Missing)
}

/// The Pid that the signal consumed carries at this place, from 0.
pub fn pid(frame: &Frame, place: usize) -> Result<Pid, NoStep>
    ensures { result ≡ ok_or (option_and_then pid_of (slice_get (parameters frame.now) place)) Missing }
{
    pid_parameter(frame, place).ok_or(NoStep::Missing)
}
