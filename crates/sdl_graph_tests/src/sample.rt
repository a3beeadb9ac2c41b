//! An offer and a frame of it.
use arrayvec::ArrayVec;
use sdl_signal::{GateId, Pid, SetId, Signal, SignalId, Sort, StateId, Value};
use sdl_test_systems::{Part, Parts, offer_of};
use sdl_transition_behaviour::{Frame, Offer, Via};

pub const ANSWER: SignalId = SignalId(1);

pub const NOTICE: SignalId = SignalId(2);

pub const GATE: Via = Via::Gate(GateId(0));

/// A row of an agent with a Pid and an Integer, in a structure of two sets: it may answer by any way and give notice
/// of a Pid by the gate; it may create an instance of set 1, and lead to state 0 or 1.
pub const SAMPLE: Parts = Parts {
    sets: 2,
    vars: &[Sort::Pid, Sort::Integer],
    parts: &[
        (
            1,
            Part::Row(StateId(0), SignalId(0), &[Sort::Integer, Sort::Boolean]),
        ),
        (1, Part::Output(ANSWER, &[Sort::Integer], Via::Any)),
        (1, Part::Output(NOTICE, &[Sort::Pid], GATE)),
        (1, Part::Create(SetId(1))),
        (1, Part::Next(StateId(0))),
        (1, Part::Next(StateId(1))),
    ],
};

/// Tables take the const, since no static may refer to another. Functions take this, since a const is written out at each use.
static SAMPLED: Parts = SAMPLE;

pub fn sample_offer() -> Offer {
    offer_of(&SAMPLED)
}

fn values_of<const N: usize>(values: &[Value]) -> ArrayVec<Value, N> {
    let mut list = ArrayVec::new();
    let _ = list.try_extend_from_slice(values);
    list
}

/// An instance of set 0, in state 0, on the signal 0 with these values.
pub fn frame_on(values: &[Value]) -> Frame {
    Frame {
        self_pid: Pid::Inst(SetId(0), 1),
        parent: Pid::Null,
        offspring: Pid::Null,
        sender: Pid::Env,
        state: Some(StateId(0)),
        vars: values_of(&[Value::Pid(Pid::Env), Value::Integer(5)]),
        signal: Some(Signal {
            id: SignalId(0),
            params: values_of(values),
        }),
    }
}

/// On the signal with 7 and true.
pub fn sample_frame() -> Frame {
    frame_on(&[Value::Integer(7), Value::Boolean(true)])
}
