//! Offers that can end, and steps that conform to their offer or break it in each way. What finds no room makes an offer that cannot
//! end, or a step that conforms to no offer.
use super::sample::{ANSWER, GATE, NOTICE, SAMPLE, sample_frame, sample_offer};
use sdl_graph::no_offer;
use sdl_signal::{Pid, SetId, SignalId, Sort, StateId, Value};
use sdl_test_systems::{Doing, Doings, End, Part, Parts, offer_of, step_of};
use sdl_transition_behaviour::{Dest, Next, Offer, Via};
use sdl_transition_conformance::{can_end, conforms, copied_offer, kept};

/// It lets the agent stop, and create an instance of set 0.
const STOPPING: Parts = Parts {
    sets: 1,
    vars: &[Sort::Pid, Sort::Integer],
    parts: &[(1, Part::Create(SetId(0))), (1, Part::Stop)],
};

/// No set has this number.
const STRANGER: Pid = Pid::Inst(SetId(2), 1);

const OTHER_SELF: Value = Value::Pid(Pid::Inst(SetId(0), 3));

const ANSWERED: Doing = Doing::Output(ANSWER, &[Value::Integer(7)], Dest::Anywhere, Via::Any);

const ANSWERED_TO_SENDER: Doing = Doing::Output(
    ANSWER,
    &[Value::Integer(7)],
    Dest::Sender,
    Via::Any,
);

const ANSWERED_BY_GATE: Doing = Doing::Output(ANSWER, &[Value::Integer(7)], Dest::Anywhere, GATE);

const ANSWERED_WITH_TRUE: Doing = Doing::Output(
    ANSWER,
    &[Value::Boolean(true)],
    Dest::Anywhere,
    Via::Any,
);

const ANSWERED_WITHOUT: Doing = Doing::Output(ANSWER, &[], Dest::Anywhere, Via::Any);

const ANSWERED_TO_STRANGER: Doing = Doing::Output(
    ANSWER,
    &[Value::Integer(7)],
    Dest::Pid(STRANGER),
    Via::Any,
);

const OTHER: Doing = Doing::Output(SignalId(3), &[Value::Integer(7)], Dest::Anywhere, Via::Any);

const NOTICED: Doing = Doing::Output(
    NOTICE,
    &[Value::Pid(Pid::Inst(SetId(1), 1))],
    Dest::Anywhere,
    GATE,
);

const NOTICED_STRANGER: Doing = Doing::Output(
    NOTICE,
    &[Value::Pid(STRANGER)],
    Dest::Anywhere,
    GATE,
);

const NOTICED_NONE: Doing = Doing::Output(
    NOTICE,
    &[Value::Pid(Pid::Inst(SetId(1), 0))],
    Dest::Anywhere,
    GATE,
);

const ANSWERED_WITH_TWO: Doing = Doing::Output(
    ANSWER,
    &[Value::Integer(1), Value::Integer(2)],
    Dest::Anywhere,
    Via::Any,
);

const ANSWERED_WITH_FIVE: Doing = Doing::Output(
    ANSWER,
    &[Value::Integer(0); 5],
    Dest::Anywhere,
    Via::Any,
);

/// As many actions as a step has room for.
const EIGHT_CREATES: &[(u32, Doing)] = &[(8, Doing::Create(SetId(0)))];

/// An offer, how a step ends, what it does, each so often, and whether it conforms.
type Trial = (Parts, End, &'static [(u32, Doing)], bool);

static STEPS: [Trial; 23] = [
    (
        SAMPLE,
        End::Next(1),
        &[
            (1, ANSWERED_TO_SENDER),
            (1, NOTICED),
            (1, Doing::Create(SetId(1))),
            (1, Doing::Variable(0, OTHER_SELF)),
        ],
        true,
    ),
    // outputs
    (SAMPLE, End::Next(1), &[(1, ANSWERED)], true),
    (SAMPLE, End::Next(1), &[(1, OTHER)], false),
    (SAMPLE, End::Next(1), &[(1, ANSWERED_WITH_TRUE)], false),
    (SAMPLE, End::Next(1), &[(1, ANSWERED_BY_GATE)], false),
    // numbers of parameters
    (SAMPLE, End::Next(1), &[(1, ANSWERED_WITHOUT)], false),
    (SAMPLE, End::Next(1), &[(1, ANSWERED_WITH_TWO)], false),
    // Pids of instances that there are, and others
    (SAMPLE, End::Next(1), &[(1, NOTICED)], true),
    (SAMPLE, End::Next(1), &[(1, NOTICED_STRANGER)], false),
    (SAMPLE, End::Next(1), &[(1, NOTICED_NONE)], false),
    (SAMPLE, End::Next(1), &[(1, ANSWERED_TO_STRANGER)], false),
    // creates
    (SAMPLE, End::Next(1), &[(1, Doing::Create(SetId(1)))], true),
    (SAMPLE, End::Next(1), &[(1, Doing::Create(SetId(0)))], false),
    // variables
    (
        SAMPLE,
        End::Next(1),
        &[(1, Doing::Variable(1, Value::Integer(6)))],
        true,
    ),
    (
        SAMPLE,
        End::Next(1),
        &[(1, Doing::Variable(1, Value::Boolean(true)))],
        false,
    ),
    (
        SAMPLE,
        End::Next(1),
        &[(1, Doing::Variable(0, Value::Pid(STRANGER)))],
        false,
    ),
    // ends
    (SAMPLE, End::Next(2), &[], false),
    (SAMPLE, End::Stop, &[], false),
    (SAMPLE, End::Nothing, &[], false),
    // What finds no room makes a step that breaks its offer.
    (STOPPING, End::Stop, EIGHT_CREATES, true),
    (STOPPING, End::Stop, &[(9, Doing::Create(SetId(0)))], false),
    (STOPPING, End::Stop, &[(1, ANSWERED_WITH_FIVE)], false),
    (
        STOPPING,
        End::Stop,
        &[(1, Doing::Variable(2, Value::Integer(0)))],
        false,
    ),
];

#[test]
fn steps_conform_or_break_their_offer(rt: HostRuntime) {
    let frame = sample_frame();
    for (place, (parts, end, doings, wanted)) in STEPS.iter().enumerate() {
        let step = step_of(
            &frame,
            &Doings {
                end: *end,
                doings: *doings,
            },
        );
        assert!(rt;
            conforms(&offer_of(parts), &step) == *wanted,
            "step {place}"
        );
    }
    let full = Doings {
        end: End::Stop,
        doings: EIGHT_CREATES,
    };
    assert!(rt; step_of(&frame, &full).actions.len() == 8);
}

const NEXT: Part = Part::Next(StateId(0));

const CREATE: Part = Part::Create(SetId(0));

const SILENT: Part = Part::Output(ANSWER, &[], Via::Any);

const FIVE: Part = Part::Output(ANSWER, &[Sort::Integer; 5], Via::Any);

/// Offers, whether each can end, and how many outputs it has. Outputs are counted only where the offer can end.
static OFFERS: [(Parts, bool, usize); 10] = [
    (SAMPLE, true, 2),
    (
        Parts {
            vars: &[],
            parts: &[(1, NEXT), (16, SILENT)],
            ..STOPPING
        },
        true,
        16,
    ),
    (
        Parts {
            vars: &[],
            parts: &[(1, NEXT), (17, SILENT)],
            ..STOPPING
        },
        false,
        0,
    ),
    (
        Parts {
            vars: &[],
            parts: &[(16, NEXT)],
            ..STOPPING
        },
        true,
        0,
    ),
    (
        Parts {
            vars: &[],
            parts: &[(17, NEXT)],
            ..STOPPING
        },
        false,
        0,
    ),
    // A later part does not mend an offer.
    (
        Parts {
            vars: &[],
            parts: &[(8, CREATE), (1, Part::Stop)],
            ..STOPPING
        },
        true,
        0,
    ),
    (
        Parts {
            vars: &[],
            parts: &[(9, CREATE), (1, Part::Stop), (1, NEXT)],
            ..STOPPING
        },
        false,
        0,
    ),
    // Sorts have room or none.
    (
        Parts {
            vars: &[Sort::Integer; 8],
            parts: &[(1, Part::Stop)],
            ..STOPPING
        },
        true,
        0,
    ),
    (
        Parts {
            vars: &[Sort::Integer; 9],
            parts: &[(1, Part::Stop)],
            ..STOPPING
        },
        false,
        0,
    ),
    (
        Parts {
            vars: &[],
            parts: &[(1, Part::Stop), (1, FIVE)],
            ..STOPPING
        },
        false,
        0,
    ),
];

#[test]
fn offers_can_end_or_not(rt: HostRuntime) {
    for (place, (parts, wanted, outputs)) in OFFERS.iter().enumerate() {
        let offer = offer_of(parts);
        assert!(rt;
            ends_as_wanted(&offer, *wanted) && ends_as_wanted(&copied_offer(&offer), *wanted),
            "offer {place}"
        );
        assert!(rt;
            !*wanted || offer.outputs.len() == *outputs,
            "offer {place}"
        );
    }
    assert!(rt; ends_as_wanted(&no_offer(), false));
}

fn ends_as_wanted(offer: &Offer, wanted: bool) -> bool {
    can_end(offer) == wanted
}

/// Steps to keep to the sample: how many actions each has then, and where it leads.
static KEPT: [(Doings, usize, u32); 3] = [
    (
        Doings {
            end: End::Next(1),
            doings: &[
                (1, Doing::Create(SetId(0))),
                (1, Doing::Variable(1, Value::Integer(6))),
            ],
        },
        0,
        0,
    ),
    (
        Doings {
            end: End::Next(1),
            doings: &[(1, Doing::Create(SetId(1)))],
        },
        1,
        1,
    ),
    (
        Doings {
            end: End::Next(1),
            doings: &[(8, Doing::Create(SetId(1)))],
        },
        8,
        1,
    ),
];

/// What breaks the offer is replaced by the step that does nothing, and what conforms is unchanged.
#[test]
fn steps_are_kept_to_their_offer(rt: HostRuntime) {
    let frame = sample_frame();
    for (doings, actions, next) in KEPT.iter() {
        let step = kept(&sample_offer(), &frame, step_of(&frame, doings));
        assert!(rt; step.actions.len() == *actions);
        assert!(rt; step.vars.as_slice() == frame.vars.as_slice());
        assert!(rt; step.next == Next::State(StateId(*next)));
    }
}
