//! Binding by names, and the first fault of a design.
use super::pair::{ASKER, DESIGN, PAIR, TELLER, USES};
use super::storing::{BoundSet, bind_pair};
use sdl_graph_binding::{Design, GraphFault, Misfit, SetDesign, Use};
use sdl_signal::{SetId, SignalId, StateId, Value};
use sdl_transition::BindFault;
use sdl_transition_behaviour::Kind;
use std::alloc::Global;
use std::test::Fail;

/// A design with the numbers of the transitions that are bound by it, and the fault that is named.
#[derive(Clone, Copy)]
struct Case {
    uses: &'static [Use<'static>],
    sets: &'static [SetDesign<'static>],
    numbers: &'static [u32],
    fault: Option<GraphFault>,
}

const PLAIN: Case = Case {
    uses: USES,
    sets: &[TELLER, ASKER],
    numbers: &[0, 1, 2, 3],
    fault: None,
};

static CASES: [Case; 22] = [
    // A number without an end, and one without an offer.
    Case {
        numbers: &[0, 4],
        fault: Some(GraphFault::NoEnd(4)),
        ..PLAIN
    },
    Case {
        numbers: &[0, 5],
        fault: Some(GraphFault::NoOffer(5)),
        ..PLAIN
    },
    // A start in the place of a row.
    Case {
        numbers: &[0, 2, 2, 3],
        fault: Some(GraphFault::NoTrigger(2)),
        ..PLAIN
    },
    // A set that is not there. The place is that of the design.
    Case {
        sets: &[
            TELLER,
            SetDesign {
                name: "Askers",
                ..ASKER
            },
        ],
        fault: Some(GraphFault::NoSet(1)),
        ..PLAIN
    },
    Case {
        sets: &[
            TELLER,
            SetDesign {
                name: "asker",
                ..ASKER
            },
        ],
        fault: Some(GraphFault::NoSet(1)),
        ..PLAIN
    },
    Case {
        sets: &[TELLER, SetDesign { name: "", ..ASKER }],
        fault: Some(GraphFault::NoSet(1)),
        ..PLAIN
    },
    Case {
        sets: &[TELLER, SetDesign { name: "B", ..ASKER }],
        fault: Some(GraphFault::NoSet(1)),
        ..PLAIN
    },
    // Bad states.
    Case {
        sets: &[
            SetDesign {
                states: &["idle", "1"],
                ..TELLER
            },
            ASKER,
        ],
        fault: Some(GraphFault::BadStates(0)),
        ..PLAIN
    },
    Case {
        sets: &[
            SetDesign {
                states: &[
                    "s0", "s1", "s2", "s3", "s4", "s5", "s6", "s7", "s8", "s9", "s10", "s11",
                    "s12", "s13", "s14", "s15", "s16",
                ],
                ..TELLER
            },
            ASKER,
        ],
        fault: Some(GraphFault::BadStates(0)),
        ..PLAIN
    },
    Case {
        sets: &[
            SetDesign {
                states: &[
                    "s0", "s1", "s2", "s3", "s4", "s5", "s6", "s7", "s8", "s9", "s10", "s11",
                    "s12", "s13", "s14", "s15",
                ],
                ..TELLER
            },
            ASKER,
        ],
        fault: None,
        ..PLAIN
    },
    // Nine variables are too many.
    Case {
        sets: &[
            SetDesign {
                variables: &[Value::Integer(0); 9],
                ..TELLER
            },
            ASKER,
        ],
        fault: Some(GraphFault::ManyVariables(0)),
        ..PLAIN
    },
    // Saves of the asker, which is set 0. It has a row for `ask` in its one state.
    Case {
        sets: &[
            TELLER,
            SetDesign {
                saves: &[(StateId(0), SignalId(0))],
                ..ASKER
            },
        ],
        fault: Some(GraphFault::Bind(
            BindFault::TwoRows(SetId(0)),
            Some(Misfit::SavedTwice(StateId(0), SignalId(0))),
        )),
        ..PLAIN
    },
    Case {
        sets: &[
            TELLER,
            SetDesign {
                saves: &[(StateId(0), SignalId(2))],
                ..ASKER
            },
        ],
        fault: Some(GraphFault::Bind(
            BindFault::WrongName(SetId(0)),
            Some(Misfit::Unmeant(Kind::Signal, 2)),
        )),
        ..PLAIN
    },
    Case {
        sets: &[
            TELLER,
            SetDesign {
                saves: &[(StateId(1), SignalId(1))],
                ..ASKER
            },
        ],
        fault: Some(GraphFault::Bind(
            BindFault::UnknownState(SetId(0)),
            Some(Misfit::SavingState(StateId(1))),
        )),
        ..PLAIN
    },
    Case {
        sets: &[
            TELLER,
            SetDesign {
                saves: &[(StateId(0), SignalId(1))],
                ..ASKER
            },
        ],
        fault: None,
        ..PLAIN
    },
    // A use without a name.
    Case {
        uses: &[(Kind::Set, 0, "no name")],
        fault: Some(GraphFault::BadUses),
        ..PLAIN
    },
    // Transitions that are too few or too many.
    Case {
        numbers: &[0, 1, 2],
        fault: Some(GraphFault::FewTransitions(SetId(0))),
        ..PLAIN
    },
    Case {
        numbers: &[],
        fault: Some(GraphFault::FewTransitions(SetId(1))),
        ..PLAIN
    },
    Case {
        numbers: &[0, 1, 2, 3, 3],
        fault: Some(GraphFault::ManyTransitions),
        ..PLAIN
    },
    Case {
        sets: &[
            SetDesign {
                transitions: 0,
                ..TELLER
            },
            ASKER,
        ],
        fault: Some(GraphFault::FewTransitions(SetId(1))),
        ..PLAIN
    },
    // A fault of binding is passed on.
    Case {
        sets: &[TELLER],
        numbers: &[0, 1],
        fault: Some(GraphFault::Bind(BindFault::NoBehaviour(SetId(0)), None)),
        ..PLAIN
    },
    Case {
        uses: &[
            (Kind::Set, 0, "Asker"),
            (Kind::Set, 1, "Teller"),
            (Kind::Signal, 0, "ask"),
        ],
        fault: Some(GraphFault::Bind(
            BindFault::WrongName(SetId(1)),
            Some(Misfit::Unused(1, Kind::Signal, 1)),
        )),
        ..PLAIN
    },
];

/// The fault of binding these transitions by the design, and None where they are bound.
fn fault_of(alloc: Global, design: &Design, numbers: &[u32]) -> Option<GraphFault> {
    match bind_pair(alloc, PAIR, design, numbers) {
        // Without sets nothing was bound, and no case may pass as if it were.
        Ok(sets) => {
            if sets.is_empty() {
                Some(GraphFault::Memory)
            } else {
                None
            }
        }
        Err(fault) => Some(fault),
    }
}

#[test]
fn the_first_fault_of_a_design_is_named(rt: HostRuntime) {
    for (place, case) in CASES.iter().enumerate() {
        let design = Design {
            uses: case.uses,
            sets: case.sets,
        };
        let fault = fault_of(rt.alloc(), &design, case.numbers);
        assert!(rt; fault == case.fault, "case {place}");
    }
}

/// The fault of these sets.
fn fault_of_sets(alloc: Global, sets: &[SetDesign]) -> Option<GraphFault> {
    let design = Design {
        uses: DESIGN.uses,
        sets,
    };
    fault_of(alloc, &design, &[0, 1, 2, 3])
}

/// The fault of an asker with these saves. It is the second set of the design, and set 0 of the structure.
fn fault_of_saves(alloc: Global, saves: &[(StateId, SignalId)]) -> Option<GraphFault> {
    let asker = SetDesign { saves, ..ASKER };
    fault_of_sets(alloc, &[TELLER, asker])
}

#[test]
fn saves_are_neither_too_many_nor_twice(rt: HostRuntime) {
    let many = [(StateId(0), SignalId(1)); 257];
    let fault = fault_of_saves(rt.alloc(), many.as_slice());
    assert!(rt; fault == Some(GraphFault::ManySaves(SetId(0))));
    let twice = Some(Misfit::SavedTwice(StateId(0), SignalId(1)));
    let fault = fault_of_saves(rt.alloc(), &many[..256]);
    assert!(rt; fault == Some(GraphFault::Bind(BindFault::TwoRows(SetId(0)), twice)));
}

const TOLD: BoundSet = BoundSet {
    set: 1,
    start: 0,
    row: Some(1),
    counts: (1, 2, 1, 0),
};

const ASKED: BoundSet = BoundSet {
    set: 0,
    start: 2,
    row: Some(3),
    counts: (1, 1, 0, 0),
};

static SAVING: Design = Design {
    uses: USES,
    sets: &[
        SetDesign {
            saves: &[(StateId(1), SignalId(0)), (StateId(0), SignalId(1))],
            ..TELLER
        },
        ASKER,
    ],
};

/// Whether these are the sets, in any order.
fn same_in_any_order(sets: &[BoundSet], wanted: [BoundSet; 2]) -> bool {
    sets.len() == 2 && sets.contains(&wanted[0]) && sets.contains(&wanted[1])
}

/// The sets of the design are those of its names: the teller, set 1, has the first two transitions. What is saved is bound with its
/// set.
#[test]
fn sets_go_by_their_names(rt: HostRuntime) -> Result<(), Fail> {
    let bound = bind_pair(rt.alloc(), PAIR, &DESIGN, &[0, 1, 2, 3])?;
    assert!(rt; same_in_any_order(bound.as_slice(), [TOLD, ASKED]));
    let saving = BoundSet {
        counts: (1, 2, 1, 2),
        ..TOLD
    };
    let saved = bind_pair(rt.alloc(), PAIR, &SAVING, &[0, 1, 2, 3])?;
    assert!(rt; same_in_any_order(saved.as_slice(), [saving, ASKED]));
    Ok(())
}

// Run it with each allocation refused in turn: then either the pair is bound, or memory is named.
#[test]
fn a_refusal_of_memory_is_named(rt: HostRuntime) {
    let named = match bind_pair(rt.alloc(), PAIR, &DESIGN, &[0, 1, 2, 3]) {
        Ok(sets) => sets.len() == 2,
        Err(GraphFault::Memory) => true,
        Err(GraphFault::Bind(fault, misfit)) => fault == BindFault::Memory && misfit.is_none(),
        Err(_) => false,
    };
    assert!(rt; named);
}
