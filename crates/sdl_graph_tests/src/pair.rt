//! A graph for two sets in one block, and the structure for it.
use sdl_graph_binding::{Design, SetDesign, Use};
use sdl_signal::{SignalId, Sort, StateId, Value};
use sdl_test_systems::{Doing, Doings, End, Part, Parts};
use sdl_transition_behaviour::{Dest, Kind, Via};

/// Sets: 0 Asker, 1 Teller. Signals: 0 ask, 1 tell.
pub const PAIR: &str = r#"version = 1
system = "Pair"

[[signal]]
name = "ask"

[[signal]]
name = "tell"
sorts = ["Integer"]

[[gate]]
name = "g"
inward = ["ask"]
outward = ["tell"]

[[block]]
name = "B"

[[block.gate]]
name = "g"
inward = ["ask"]
outward = ["tell"]

[[block.set]]
name = "Asker"

[[block.set.gate]]
name = "g"
inward = ["ask"]
outward = ["ask"]

[[block.set]]
name = "Teller"

[[block.set.gate]]
name = "g"
outward = ["tell"]

[[block.set.gate]]
name = "from"
inward = ["ask"]

[[block.channel]]
name = "in"
ends = ["env.g", "Asker.g"]
forth = ["ask"]

[[block.channel]]
name = "on"
ends = ["Asker.g", "Teller.from"]
forth = ["ask"]

[[block.channel]]
name = "out"
ends = ["Teller.g", "env.g"]
forth = ["tell"]

[[channel]]
name = "c"
ends = ["env.g", "B.g"]
forth = ["ask"]
back = ["tell"]
"#;

const ASK: SignalId = SignalId(0);

const TELL: SignalId = SignalId(1);

const IDLE: StateId = StateId(0);

const DONE: StateId = StateId(1);

const TELLING: Parts = Parts {
    sets: 2,
    vars: &[Sort::Integer],
    parts: &[(1, Part::Next(IDLE))],
};

const ASKING: Parts = Parts {
    vars: &[],
    ..TELLING
};

/// The teller's start and row, and then the asker's. The last can neither stop nor go on.
pub static OFFERS: [Parts; 5] = [
    TELLING,
    Parts {
        parts: &[
            (1, Part::Row(IDLE, ASK, &[])),
            (1, Part::Output(TELL, &[Sort::Integer], Via::Any)),
            (1, Part::Next(DONE)),
        ],
        ..TELLING
    },
    ASKING,
    Parts {
        parts: &[
            (1, Part::Row(IDLE, ASK, &[])),
            (1, Part::Output(ASK, &[], Via::Any)),
            (1, Part::Next(IDLE)),
        ],
        ..ASKING
    },
    Parts {
        parts: &[],
        ..ASKING
    },
];

const START: Doings = Doings {
    end: End::Next(0),
    doings: &[],
};

pub static STEPS: [Doings; 4] = [
    START,
    Doings {
        end: End::Next(1),
        doings: &[(
            1,
            Doing::Output(TELL, &[Value::Integer(3)], Dest::Anywhere, Via::Any),
        )],
    },
    START,
    Doings {
        doings: &[(1, Doing::Output(ASK, &[], Dest::Anywhere, Via::Any))],
        ..START
    },
];

pub const USES: &[Use] = &[
    (Kind::Set, 0, "Asker"),
    (Kind::Set, 1, "Teller"),
    (Kind::Signal, 0, "ask"),
    (Kind::Signal, 1, "tell"),
];

pub const TELLER: SetDesign = SetDesign {
    name: "Teller",
    states: &["idle", "done"],
    variables: &[Value::Integer(0)],
    saves: &[],
    transitions: 2,
};

pub const ASKER: SetDesign = SetDesign {
    name: "Asker",
    states: &["idle"],
    variables: &[],
    saves: &[],
    transitions: 2,
};

/// The sets stand in another order than in the structure.
pub static DESIGN: Design = Design {
    uses: USES,
    sets: &[TELLER, ASKER],
};
