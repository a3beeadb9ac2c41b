//! A copy of a frame, which takes no memory.
ghost use Rattle.std.specs.Prelude.{◌≡◌};

use sdl_instances_copies::copies::{copied_signal, copied_values};
use sdl_transition_behaviour::Frame;

/// The same frame.
pub fn copied_frame(frame: &Frame) -> Frame
    ensures { result ≡ frame.now }
{
    Frame {
        self_pid: frame.self_pid,
        parent: frame.parent,
        offspring: frame.offspring,
        sender: frame.sender,
        state: frame.state,
        vars: copied_values(frame.vars.as_slice()),
        signal: match &frame.signal {
            Some(signal) => Some(copied_signal(signal)),
            None => None,
        },
    }
}
