//! The control: the switch makes a call for each line that seizes it, and a call connects two lines.
use crate::numbers::{
    ACCEPT, ALERT, BUSY, BUSY_TONE, CALL, CONNECTED_NOW, HUNG_UP, NO_SUCH_NUMBER, PROGRESS,
    RELEASE, RELEASED, RING_BACK, RINGING_BACK, SEIZE, SETS, SETUP, SPEECH, TO_A, TO_B,
};
use sdl_graph_program::{
    Dest, Frame, Offer, OfferBuilder, Pid, SetDesign, Sort, StateId, Step, StepBuilder, Value, Via,
    integer_parameter, no_offer, no_step, pid_parameter, pid_variable,
};

/// The state of the switch.
const READY: StateId = StateId(0);

// The states of a call.
const WAITING: StateId = StateId(0);

const ALERTING: StateId = StateId(1);

const RINGING: StateId = StateId(2);

const CONNECTED: StateId = StateId(3);

// The variables of a call: the two lines.
const CALLER: usize = 0;

const CALLED: usize = 1;

/// How many transitions the switch has.
pub const SWITCH_TRANSITIONS: u32 = 2;

pub const SWITCH: SetDesign = SetDesign {
    name: "Switch",
    states: &["ready"],
    variables: &[],
    saves: &[],
    transitions: SWITCH_TRANSITIONS as usize,
};

/// How many transitions a call has.
pub const CALL_TRANSITIONS: u32 = 8;

pub const CALLS: SetDesign = SetDesign {
    name: "Call",
    states: &["waiting", "alerting", "ringing", "connected"],
    variables: &[Value::Pid(Pid::Null), Value::Pid(Pid::Null)],
    saves: &[],
    transitions: CALL_TRANSITIONS as usize,
};

pub fn switch_offer(number: u32) -> Offer {
    let switch = OfferBuilder::start(SETS, &[]);
    match number {
        0 => switch.next_state(READY).build(),
        1 => switch
            .row(READY, SEIZE, &[Sort::Integer])
            .create(CALL)
            .output(SETUP, &[Sort::Pid, Sort::Integer], Via::Any)
            .next_state(READY)
            .build(),
        _ => no_offer(),
    }
}

pub fn switch_step(number: u32, frame: &Frame) -> Step {
    match number {
        0 => StepBuilder::next_state(frame, READY).build(),
        1 => {
            let dialled = integer_parameter(frame, 0).unwrap_or(0);
            let caller_and_number = [Value::Pid(frame.sender), Value::Integer(dialled)];
            StepBuilder::next_state(frame, READY)
                .create(CALL)
                .output(SETUP, &caller_and_number, Dest::Offspring, Via::Any)
                .build()
        }
        _ => no_step(),
    }
}

pub fn call_offer(number: u32) -> Offer {
    let call = OfferBuilder::start(SETS, &[Sort::Pid, Sort::Pid]);
    let number_sort = [Sort::Integer];
    match number {
        0 => call.next_state(WAITING).build(),
        1 => call
            .row(WAITING, SETUP, &[Sort::Pid, Sort::Integer])
            .output(ALERT, &[], Via::Gate(TO_A))
            .output(ALERT, &[], Via::Gate(TO_B))
            .output(RELEASED, &number_sort, Via::Any)
            .next_state(ALERTING)
            .may_stop()
            .build(),
        2 => call
            .row(ALERTING, RINGING_BACK, &[])
            .output(PROGRESS, &number_sort, Via::Any)
            .next_state(RINGING)
            .build(),
        3 => call
            .row(ALERTING, BUSY, &[])
            .output(RELEASED, &number_sort, Via::Any)
            .may_stop()
            .build(),
        4 => call
            .row(RINGING, ACCEPT, &[])
            .output(PROGRESS, &number_sort, Via::Any)
            .next_state(CONNECTED)
            .build(),
        5 => call
            .row(RINGING, RELEASE, &[])
            .output(RELEASED, &number_sort, Via::Any)
            .may_stop()
            .build(),
        6 => call
            .row(CONNECTED, SPEECH, &number_sort)
            .output(SPEECH, &number_sort, Via::Any)
            .next_state(CONNECTED)
            .build(),
        7 => call
            .row(CONNECTED, RELEASE, &[])
            .output(RELEASED, &number_sort, Via::Any)
            .may_stop()
            .build(),
        _ => no_offer(),
    }
}

pub fn call_step(number: u32, frame: &Frame) -> Step {
    let caller = line(frame, CALLER);
    let called = line(frame, CALLED);
    match number {
        0 => StepBuilder::next_state(frame, WAITING).build(),
        1 => set_up(frame),
        2 => StepBuilder::next_state(frame, RINGING)
            .output(PROGRESS, &[Value::Integer(RING_BACK)], caller, Via::Any)
            .set_variable(CALLED, Value::Pid(frame.sender))
            .build(),
        3 => StepBuilder::stop(frame)
            .output(RELEASED, &[Value::Integer(BUSY_TONE)], caller, Via::Any)
            .build(),
        4 => StepBuilder::next_state(frame, CONNECTED)
            .output(PROGRESS, &[Value::Integer(CONNECTED_NOW)], caller, Via::Any)
            .build(),
        5 => StepBuilder::stop(frame)
            .output(RELEASED, &[Value::Integer(HUNG_UP)], called, Via::Any)
            .build(),
        6 => {
            let said = [Value::Integer(integer_parameter(frame, 0).unwrap_or(0))];
            StepBuilder::next_state(frame, CONNECTED)
                .output(SPEECH, &said, other_line(frame), Via::Any)
                .build()
        }
        7 => StepBuilder::stop(frame)
            .output(
                RELEASED,
                &[Value::Integer(HUNG_UP)],
                other_line(frame),
                Via::Any,
            )
            .build(),
        _ => no_step(),
    }
}

/// The line that a variable of the call holds.
fn line(frame: &Frame, variable: usize) -> Dest {
    Dest::Pid(pid_variable(frame, variable).unwrap_or(Pid::Null))
}

/// The line of the call that has not sent the signal.
fn other_line(frame: &Frame) -> Dest {
    if pid_variable(frame, CALLER) == Some(frame.sender) {
        line(frame, CALLED)
    } else {
        line(frame, CALLER)
    }
}

/// Alerts the line that was dialled, by the gate that leads to it, or tells the caller that there is none.
fn set_up(frame: &Frame) -> Step {
    let caller = pid_parameter(frame, 0).unwrap_or(Pid::Null);
    let gate = match integer_parameter(frame, 1) {
        Some(1) => TO_A,
        Some(2) => TO_B,
        _ => {
            return StepBuilder::stop(frame)
                .output(
                    RELEASED,
                    &[Value::Integer(NO_SUCH_NUMBER)],
                    Dest::Pid(caller),
                    Via::Any,
                )
                .build();
        }
    };
    StepBuilder::next_state(frame, ALERTING)
        .output(ALERT, &[], Dest::Anywhere, Via::Gate(gate))
        .set_variable(CALLER, Value::Pid(caller))
        .build()
}
