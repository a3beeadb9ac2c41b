//! Which fault is named, and that all parts are handed back.
use super::anything::store_anything;
use super::drafts::{Draft, RowDraft, bind_drafts};
use super::outcomes::{Found, Outcome};
use sdl_examples::{ECHO, RELAY};
use sdl_signal::{GateId, SetId, Sort};
use sdl_transition::{BindFault, Kind, Via};
use std::test::Fail;

const PING: RowDraft = RowDraft {
    state: 0,
    signal: 0,
    sort: Sort::Integer,
    output: 1,
    via: Via::Any,
    create: None,
    sets: 1,
};

const ECHO_DRAFT: Draft = Draft {
    set: 0,
    uses: &[
        (Kind::Set, 0, "E"),
        (Kind::Signal, 0, "ping"),
        (Kind::Signal, 1, "pong"),
    ],
    sets: 1,
    rows: &[PING],
    saves: &[],
};

/// What Echo's behaviour uses, and a gate that is not its set's.
const WITH_A_GATE: &[(Kind, u32, &str)] = &[
    (Kind::Set, 0, "E"),
    (Kind::Signal, 0, "ping"),
    (Kind::Signal, 1, "pong"),
    (Kind::Gate, 0, "line"),
];

const PUT: RowDraft = RowDraft { sets: 3, ..PING };

const A: Draft = Draft {
    uses: &[
        (Kind::Set, 0, "A"),
        (Kind::Set, 2, "B"),
        (Kind::Signal, 0, "put"),
        (Kind::Signal, 1, "num"),
    ],
    sets: 3,
    rows: &[PUT],
    ..ECHO_DRAFT
};

const C: Draft = Draft {
    set: 1,
    uses: &[
        (Kind::Set, 1, "C"),
        (Kind::Signal, 0, "put"),
        (Kind::Signal, 1, "num"),
    ],
    ..A
};

const B: Draft = Draft {
    set: 2,
    uses: &[
        (Kind::Set, 2, "B"),
        (Kind::Signal, 1, "num"),
        (Kind::Signal, 2, "out"),
    ],
    rows: &[RowDraft {
        signal: 1,
        output: 2,
        ..PUT
    }],
    ..A
};

/// A of Relay, which creates in another block.
const CREATING: Draft = Draft {
    rows: &[RowDraft {
        create: Some(SetId(2)),
        ..PUT
    }],
    ..A
};

/// A system, as text, with drafts of its behaviours, and what comes of binding them.
#[derive(Clone, Copy)]
struct Case {
    file: &'static str,
    drafts: &'static [Draft],
    fault: Option<BindFault>,
    sets: usize,
    routes: usize,
    found: Found,
}

/// The start is transition 0, and the row for signal 0 transition 1.
const FOUND: Found = Found {
    start: 0,
    variables: 0,
    first: Some(1),
    second: None,
    outside: None,
};

const ECHO_BOUND: Case = Case {
    file: ECHO,
    drafts: &[ECHO_DRAFT],
    fault: None,
    sets: 1,
    routes: 2,
    found: FOUND,
};

const RELAY_BOUND: Case = Case {
    file: RELAY,
    drafts: &[A, C, B],
    sets: 3,
    routes: 5,
    ..ECHO_BOUND
};

/// What is bound, and then drafts of which one rule does not hold, each with the fault that is named.
static CASES: [Case; 16] = [
    ECHO_BOUND,
    // A signal without a row may be saved.
    Case {
        drafts: &[Draft {
            saves: &[(0, 1)],
            ..ECHO_DRAFT
        }],
        ..ECHO_BOUND
    },
    RELAY_BOUND,
    Case {
        drafts: &[],
        fault: Some(BindFault::NoBehaviour(SetId(0))),
        ..ECHO_BOUND
    },
    Case {
        drafts: &[ECHO_DRAFT, ECHO_DRAFT],
        fault: Some(BindFault::TwoBehaviours(SetId(0))),
        ..ECHO_BOUND
    },
    Case {
        drafts: &[Draft {
            rows: &[RowDraft { sets: 2, ..PING }],
            ..ECHO_DRAFT
        }],
        fault: Some(BindFault::WrongName(SetId(0))),
        ..ECHO_BOUND
    },
    Case {
        drafts: &[Draft {
            rows: &[RowDraft { output: 0, ..PING }],
            ..ECHO_DRAFT
        }],
        fault: Some(BindFault::UndeclaredOutput(SetId(0))),
        ..ECHO_BOUND
    },
    Case {
        drafts: &[Draft {
            uses: WITH_A_GATE,
            rows: &[RowDraft {
                via: Via::Gate(GateId(0)),
                ..PING
            }],
            ..ECHO_DRAFT
        }],
        fault: Some(BindFault::UndeclaredGate(SetId(0))),
        ..ECHO_BOUND
    },
    Case {
        drafts: &[Draft {
            rows: &[RowDraft { state: 1, ..PING }],
            ..ECHO_DRAFT
        }],
        fault: Some(BindFault::UnknownState(SetId(0))),
        ..ECHO_BOUND
    },
    Case {
        drafts: &[Draft {
            rows: &[RowDraft {
                sort: Sort::Boolean,
                ..PING
            }],
            ..ECHO_DRAFT
        }],
        fault: Some(BindFault::WrongSorts(SetId(0))),
        ..ECHO_BOUND
    },
    Case {
        drafts: &[Draft {
            rows: &[PING, PING],
            ..ECHO_DRAFT
        }],
        fault: Some(BindFault::TwoRows(SetId(0))),
        ..ECHO_BOUND
    },
    Case {
        drafts: &[Draft {
            saves: &[(0, 2)],
            ..ECHO_DRAFT
        }],
        fault: Some(BindFault::WrongName(SetId(0))),
        ..ECHO_BOUND
    },
    Case {
        drafts: &[Draft {
            saves: &[(0, 1), (1, 1)],
            ..ECHO_DRAFT
        }],
        fault: Some(BindFault::UnknownState(SetId(0))),
        ..ECHO_BOUND
    },
    Case {
        drafts: &[Draft {
            saves: &[(0, 1), (0, 0)],
            ..ECHO_DRAFT
        }],
        fault: Some(BindFault::TwoRows(SetId(0))),
        ..ECHO_BOUND
    },
    Case {
        drafts: &[Draft {
            saves: &[(0, 1), (0, 1)],
            ..ECHO_DRAFT
        }],
        fault: Some(BindFault::TwoRows(SetId(0))),
        ..ECHO_BOUND
    },
    // A of Relay creates in another block.
    Case {
        drafts: &[B, CREATING, C],
        fault: Some(BindFault::CreateElsewhere(SetId(0))),
        ..RELAY_BOUND
    },
];

/// A static, since a const is written out at each use.
static RELAY_CASE: Case = RELAY_BOUND;

/// What is to come of the case.
fn wanted(case: &Case) -> Outcome {
    Outcome {
        fault: case.fault,
        sets: case.sets,
        routes: case.routes,
        behaviours: case.drafts.len(),
        found: if case.fault.is_none() {
            Some(case.found)
        } else {
            None
        },
    }
}

#[test]
fn binds_or_names_the_fault(rt: HostRuntime) {
    for (place, case) in CASES.iter().enumerate() {
        let outcome = bind_drafts(rt.alloc(), case.file, case.drafts);
        assert!(rt; outcome == Some(wanted(case)), "case {place}");
    }
}

// Run it with each allocation refused in turn: a refused bind hands everything back, and binds it when it is tried again.
#[test]
fn binds_after_a_refusal(rt: HostRuntime) {
    let outcome = match bind_drafts(rt.alloc(), RELAY, RELAY_CASE.drafts) {
        Some(outcome) => Some(outcome),
        None => bind_drafts(rt.alloc(), RELAY, RELAY_CASE.drafts),
    };
    assert!(rt; outcome == Some(wanted(&RELAY_CASE)));
}

#[test]
fn a_stored_transition_keeps_its_number(rt: HostRuntime) -> Result<(), Fail> {
    assert!(rt; store_anything(rt.alloc())? == 9);
    Ok(())
}
