//! A subscriber's line: it knows whether its subscriber's receiver is off the hook, and the call that it takes part in.
use crate::numbers::{
    ACCEPT, ALERT, BUSY, CONNECTED_NOW, DIAL, DIAL_TONE, HEAR, OFFHOOK, ONHOOK, PROGRESS, QUIET,
    RELEASE, RELEASED, RING, RINGING_BACK, SAY, SEIZE, SETS, SPEECH, TONE,
};
use sdl_graph_program::{
    Dest, Frame, Offer, OfferBuilder, Pid, SetDesign, Sort, StateId, Step, StepBuilder, Value, Via,
    integer_parameter, no_offer, no_step, pid_variable,
};

// The states.
const IDLE: StateId = StateId(0);

const DIALLING: StateId = StateId(1);

const CALLING: StateId = StateId(2);

const CLEARING: StateId = StateId(3);

const RINGING: StateId = StateId(4);

const TALKING: StateId = StateId(5);

const FINISHED: StateId = StateId(6);

/// How many transitions a line has.
pub const TRANSITIONS: u32 = 22;

const STATES: [&str; 7] = [
    "idle", "dialling", "calling", "clearing", "ringing", "talking", "finished",
];

/// The variable of a line is its call.
const VARIABLES: [Value; 1] = [Value::Pid(Pid::Null)];

pub const LINE_A: SetDesign = SetDesign {
    name: "LineA",
    states: &STATES,
    variables: &VARIABLES,
    saves: &[],
    transitions: TRANSITIONS as usize,
};

pub const LINE_B: SetDesign = SetDesign {
    name: "LineB",
    ..LINE_A
};

/// What is offered for the transition of this number. They are numbered by their states.
pub fn offer(number: u32) -> Offer {
    let line = OfferBuilder::start(SETS, &[Sort::Pid]);
    match number {
        0 => line.next_state(IDLE).build(),
        1 | 2 => idle_offer(line, number),
        3 | 4 => dialling_offer(line, number),
        5 | 6 | 7 => calling_offer(line, number),
        8 | 9 => clearing_offer(line, number),
        10 | 11 => ringing_offer(line, number),
        12 | 13 | 14 | 15 => talking_offer(line, number),
        16 => line.row(FINISHED, ONHOOK, &[]).next_state(IDLE).build(),
        _ => match engaged_state(number) {
            Some(state) => line
                .row(state, ALERT, &[])
                .output(BUSY, &[], Via::Any)
                .next_state(state)
                .build(),
            None => no_offer(),
        },
    }
}

fn idle_offer(line: OfferBuilder, number: u32) -> Offer {
    match number {
        1 => line
            .row(IDLE, OFFHOOK, &[])
            .output(TONE, &[Sort::Integer], Via::Any)
            .next_state(DIALLING)
            .build(),
        _ => line
            .row(IDLE, ALERT, &[])
            .output(RING, &[], Via::Any)
            .output(RINGING_BACK, &[], Via::Any)
            .next_state(RINGING)
            .build(),
    }
}

fn dialling_offer(line: OfferBuilder, number: u32) -> Offer {
    match number {
        3 => line
            .row(DIALLING, DIAL, &[Sort::Integer])
            .output(SEIZE, &[Sort::Integer], Via::Any)
            .next_state(CALLING)
            .build(),
        _ => line.row(DIALLING, ONHOOK, &[]).next_state(IDLE).build(),
    }
}

fn calling_offer(line: OfferBuilder, number: u32) -> Offer {
    match number {
        5 => line
            .row(CALLING, PROGRESS, &[Sort::Integer])
            .output(TONE, &[Sort::Integer], Via::Any)
            .next_state(CALLING)
            .next_state(TALKING)
            .build(),
        6 => line
            .row(CALLING, RELEASED, &[Sort::Integer])
            .output(TONE, &[Sort::Integer], Via::Any)
            .next_state(FINISHED)
            .build(),
        _ => line
            .row(CALLING, ONHOOK, &[])
            .output(RELEASE, &[], Via::Any)
            .next_state(CLEARING)
            .next_state(IDLE)
            .build(),
    }
}

fn clearing_offer(line: OfferBuilder, number: u32) -> Offer {
    match number {
        8 => line
            .row(CLEARING, PROGRESS, &[Sort::Integer])
            .output(RELEASE, &[], Via::Any)
            .next_state(IDLE)
            .build(),
        _ => line
            .row(CLEARING, RELEASED, &[Sort::Integer])
            .next_state(IDLE)
            .build(),
    }
}

fn ringing_offer(line: OfferBuilder, number: u32) -> Offer {
    match number {
        10 => line
            .row(RINGING, OFFHOOK, &[])
            .output(ACCEPT, &[], Via::Any)
            .next_state(TALKING)
            .build(),
        _ => line
            .row(RINGING, RELEASED, &[Sort::Integer])
            .output(QUIET, &[], Via::Any)
            .next_state(IDLE)
            .build(),
    }
}

fn talking_offer(line: OfferBuilder, number: u32) -> Offer {
    match number {
        12 => line
            .row(TALKING, SAY, &[Sort::Integer])
            .output(SPEECH, &[Sort::Integer], Via::Any)
            .next_state(TALKING)
            .build(),
        13 => line
            .row(TALKING, SPEECH, &[Sort::Integer])
            .output(HEAR, &[Sort::Integer], Via::Any)
            .next_state(TALKING)
            .build(),
        14 => line
            .row(TALKING, ONHOOK, &[])
            .output(RELEASE, &[], Via::Any)
            .next_state(IDLE)
            .build(),
        _ => line
            .row(TALKING, RELEASED, &[Sort::Integer])
            .output(TONE, &[Sort::Integer], Via::Any)
            .next_state(FINISHED)
            .build(),
    }
}

/// In each of these states a line answers that it is engaged.
fn engaged_state(number: u32) -> Option<StateId> {
    match number {
        17 => Some(DIALLING),
        18 => Some(CALLING),
        19 => Some(CLEARING),
        20 => Some(TALKING),
        21 => Some(FINISHED),
        _ => None,
    }
}

pub fn step(number: u32, frame: &Frame) -> Step {
    let call = Dest::Pid(pid_variable(frame, 0).unwrap_or(Pid::Null));
    let given = [Value::Integer(integer_parameter(frame, 0).unwrap_or(0))];
    match number {
        0 | 4 | 9 | 16 => StepBuilder::next_state(frame, IDLE).build(),
        1 => StepBuilder::next_state(frame, DIALLING)
            .output(TONE, &[Value::Integer(DIAL_TONE)], Dest::Anywhere, Via::Any)
            .build(),
        2 => StepBuilder::next_state(frame, RINGING)
            .output(RING, &[], Dest::Anywhere, Via::Any)
            .output(RINGING_BACK, &[], Dest::Sender, Via::Any)
            .set_variable(0, Value::Pid(frame.sender))
            .build(),
        3 => StepBuilder::next_state(frame, CALLING)
            .output(SEIZE, &given, Dest::Anywhere, Via::Any)
            .set_variable(0, Value::Pid(Pid::Null))
            .build(),
        5 => {
            let connected = integer_parameter(frame, 0) == Some(CONNECTED_NOW);
            StepBuilder::next_state(frame, if connected { TALKING } else { CALLING })
                .output(TONE, &given, Dest::Anywhere, Via::Any)
                .set_variable(0, Value::Pid(frame.sender))
                .build()
        }
        6 | 15 => StepBuilder::next_state(frame, FINISHED)
            .output(TONE, &given, Dest::Anywhere, Via::Any)
            .build(),
        7 => match pid_variable(frame, 0) {
            Some(Pid::Inst(..)) => StepBuilder::next_state(frame, IDLE)
                .output(RELEASE, &[], call, Via::Any)
                .build(),
            _ => StepBuilder::next_state(frame, CLEARING).build(),
        },
        8 => StepBuilder::next_state(frame, IDLE)
            .output(RELEASE, &[], Dest::Sender, Via::Any)
            .build(),
        10 => StepBuilder::next_state(frame, TALKING)
            .output(ACCEPT, &[], call, Via::Any)
            .build(),
        11 => StepBuilder::next_state(frame, IDLE)
            .output(QUIET, &[], Dest::Anywhere, Via::Any)
            .build(),
        12 => StepBuilder::next_state(frame, TALKING)
            .output(SPEECH, &given, call, Via::Any)
            .build(),
        13 => StepBuilder::next_state(frame, TALKING)
            .output(HEAR, &given, Dest::Anywhere, Via::Any)
            .build(),
        14 => StepBuilder::next_state(frame, IDLE)
            .output(RELEASE, &[], call, Via::Any)
            .build(),
        _ => match engaged_state(number) {
            Some(state) => StepBuilder::next_state(frame, state)
                .output(BUSY, &[], Dest::Sender, Via::Any)
                .build(),
            None => no_step(),
        },
    }
}
