//! Whether what is shown of an event is that event.
use sdl_instances_log::Event;
use sdl_instances_packed_log::{Shown, ShownStep};
use sdl_transition_behaviour::{Frame, Step};

fn is_same_frame(left: &Frame, right: &Frame) -> bool {
    left.self_pid == right.self_pid
        && left.parent == right.parent
        && left.offspring == right.offspring
        && left.sender == right.sender
        && left.state == right.state
        && left.vars.as_slice() == right.vars.as_slice()
        && left.signal == right.signal
}

fn is_same_step(shown: &Option<ShownStep>, step: &Option<Step>) -> bool {
    match (shown, step) {
        (Some(shown), Some(step)) => {
            shown.actions == step.actions.as_slice()
                && shown.vars.as_slice() == step.vars.as_slice()
                && shown.next == step.next
        }
        (None, None) => true,
        _ => false,
    }
}

/// Whether the event is shown with all its parts.
pub fn is_same(shown: &Shown, event: &Event) -> bool {
    match (shown, event) {
        (Shown::Entered(item, pid), Event::Entered(other, whose)) => *item == other && pid == whose,
        (Shown::Discarded(item, cause), Event::Discarded(other, why)) => {
            *item == other && cause == why
        }
        (
            Shown::Turn {
                pid,
                trigger,
                frame,
                step,
                done,
                stopped,
            },
            Event::Turn {
                pid: whose,
                trigger: by,
                frame: with,
                step: answer,
                done: did,
                stopped: dropped,
            },
        ) => {
            pid == whose
                && *trigger == by
                && is_same_frame(frame, with)
                && is_same_step(step, answer)
                && *done == did.as_slice()
                && stopped == dropped
        }
        _ => false,
    }
}
