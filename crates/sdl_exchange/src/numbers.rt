//! The numbers of the exchange's parts, as its structure file has them.
use sdl_graph_program::{GateId, Kind, SetId, SignalId, StateId, Use};

// The signals.
pub const OFFHOOK: SignalId = SignalId(0);

pub const ONHOOK: SignalId = SignalId(1);

pub const DIAL: SignalId = SignalId(2);

pub const SAY: SignalId = SignalId(3);

pub const TONE: SignalId = SignalId(4);

pub const RING: SignalId = SignalId(5);

pub const QUIET: SignalId = SignalId(6);

pub const HEAR: SignalId = SignalId(7);

pub const SEIZE: SignalId = SignalId(8);

pub const RINGING_BACK: SignalId = SignalId(9);

pub const BUSY: SignalId = SignalId(10);

pub const ACCEPT: SignalId = SignalId(11);

pub const RELEASE: SignalId = SignalId(12);

pub const SPEECH: SignalId = SignalId(13);

pub const ALERT: SignalId = SignalId(14);

pub const PROGRESS: SignalId = SignalId(15);

pub const RELEASED: SignalId = SignalId(16);

pub const SETUP: SignalId = SignalId(17);

/// The set of the calls.
pub const CALL: SetId = SetId(3);

/// How many sets the structure has.
pub const SETS: u32 = 4;

/// The gate of a call that leads to line a.
pub const TO_A: GateId = GateId(14);

/// The gate of a call that leads to line b.
pub const TO_B: GateId = GateId(15);

// What a subscriber hears.
pub const DIAL_TONE: i64 = 1;

pub const RING_BACK: i64 = 2;

pub const CONNECTED_NOW: i64 = 3;

pub const BUSY_TONE: i64 = 4;

pub const NO_SUCH_NUMBER: i64 = 5;

pub const HUNG_UP: i64 = 6;

/// What the transitions mean by the numbers that they use.
pub const USES: [Use; 24] = [
    (Kind::Set, 0, "LineA"),
    (Kind::Set, 1, "LineB"),
    (Kind::Set, 2, "Switch"),
    (Kind::Set, 3, "Call"),
    (Kind::Signal, 0, "offhook"),
    (Kind::Signal, 1, "onhook"),
    (Kind::Signal, 2, "dial"),
    (Kind::Signal, 3, "say"),
    (Kind::Signal, 4, "tone"),
    (Kind::Signal, 5, "ring"),
    (Kind::Signal, 6, "quiet"),
    (Kind::Signal, 7, "hear"),
    (Kind::Signal, 8, "seize"),
    (Kind::Signal, 9, "ringing"),
    (Kind::Signal, 10, "busy"),
    (Kind::Signal, 11, "accept"),
    (Kind::Signal, 12, "release"),
    (Kind::Signal, 13, "speech"),
    (Kind::Signal, 14, "alert"),
    (Kind::Signal, 15, "progress"),
    (Kind::Signal, 16, "released"),
    (Kind::Signal, 17, "setup"),
    (Kind::Gate, 14, "a"),
    (Kind::Gate, 15, "b"),
];
