//! The texts of a design's own faults.
use super::echo_graph::{DESIGN, SET};
use sdl_graph_binding::Misfit;
use sdl_graph_program::numbering::{Numbered, numbered_in};
use sdl_graph_program::{
    Design, GateId, GraphFault, Kind, SetDesign, SetId, SignalId, StateId, refused,
};
use sdl_transition::BindFault;
use std::test::Fail;

const NO_TRANSITION: SetDesign = SetDesign {
    name: "F",
    states: &[],
    variables: &[],
    saves: &[],
    transitions: 0,
};

const THREE_TRANSITIONS: SetDesign = SetDesign {
    name: "Flash",
    states: &[],
    variables: &[],
    saves: &[],
    transitions: 3,
};

static THREE_SETS: [SetDesign; 3] = [SET, NO_TRANSITION, THREE_TRANSITIONS];

const IDLE: StateId = StateId(0);

const PONG: SignalId = SignalId(1);

/// Numbers of transitions, each with the place of its set and its place there.
static PLACES: [(usize, Option<(usize, usize)>); 6] = [
    (0, Some((0, 0))),
    (1, Some((0, 1))),
    (2, Some((2, 0))),
    (3, Some((2, 1))),
    (4, Some((2, 2))),
    (5, None),
];

#[test]
fn transitions_are_counted_through_all_sets(rt: HostRuntime) {
    for (number, place) in PLACES.iter() {
        assert!(rt; numbered_in(&THREE_SETS, *number) == *place);
    }
}

/// Numbers of transitions, and how each is printed.
static PRINTED: [(u32, &str); 4] = [
    (1, "1 (E row 1)"),
    (2, "2 (Flash start)"),
    (4, "4 (Flash row 2)"),
    (5, "5"),
];

#[test]
fn a_transition_is_printed_with_its_set_and_row(rt: HostRuntime) -> Result<(), Fail> {
    let design = Design {
        uses: &[],
        sets: &THREE_SETS,
    };
    for (number, wanted) in PRINTED.iter() {
        let numbered = Numbered {
            design: &design,
            number: *number,
        };
        let text = format!(in rt.alloc(); "{numbered}")?;
        assert!(rt; text.as_str() == *wanted);
    }
    Ok(())
}

/// Faults, each with its text.
static FAULTS: [(GraphFault, &str); 14] = [
    (
        GraphFault::NoOffer(0),
        "G1 NoOffer transition 0 (E start)\n",
    ),
    (GraphFault::NoEnd(1), "G2 NoEnd transition 1 (E row 1)\n"),
    (GraphFault::NoTrigger(2), "G3 NoTrigger transition 2\n"),
    (GraphFault::NoSet(0), "G4 NoSet E\n"),
    (GraphFault::BadStates(0), "G5 BadStates E\n"),
    (GraphFault::ManyVariables(0), "G6 ManyVariables E\n"),
    (GraphFault::BadUses, "G7 BadUses\n"),
    (
        GraphFault::FewTransitions(SetId(0)),
        "G8 FewTransitions set 0\n",
    ),
    (GraphFault::ManyRows(SetId(1)), "G9 ManyRows set 1\n"),
    (GraphFault::ManyTransitions, "G10 ManyTransitions\n"),
    (GraphFault::ManySaves(SetId(1)), "G11 ManySaves set 1\n"),
    (
        GraphFault::Bind(BindFault::WrongName(SetId(0)), None),
        "B3 WrongName set 0\n",
    ),
    (
        GraphFault::Bind(BindFault::NoBehaviour(SetId(1)), None),
        "B1 NoBehaviour set 1\n",
    ),
    (GraphFault::Memory, "memory\n"),
];

#[test]
fn each_fault_has_its_text(rt: HostRuntime) -> Result<(), Fail> {
    for (fault, wanted) in FAULTS.iter() {
        let mut errors: Vec<u8> = Vec::new(rt.alloc());
        assert!(rt; refused(&mut errors, &DESIGN, *fault) == 1);
        assert!(rt; errors.as_slice() == wanted.as_bytes());
    }
    Ok(())
}

/// Parts of a design that have a fault, each with its text.
static MISFITS: [(Misfit, &str); 16] = [
    (
        Misfit::Named(Kind::Signal, 1),
        "signal 1 is pong here, and has another name in the file\n",
    ),
    (
        Misfit::Absent(Kind::Gate, 7),
        "gate 7 is gate 7 here, and is not in the file\n",
    ),
    (
        Misfit::Unmeant(Kind::Signal, 2),
        "signal 2 is not among the uses\n",
    ),
    (
        Misfit::Unused(1, Kind::Channel, 4),
        "transition 1 (E row 1): channel 4 is not among the uses\n",
    ),
    (
        Misfit::Sets(0, 3),
        "transition 0 (E start): its offer says 3 sets\n",
    ),
    (
        Misfit::Output(1, PONG),
        "transition 1 (E row 1): no gate of E has pong outward\n",
    ),
    (
        Misfit::OtherGate(1, PONG, GateId(5)),
        "transition 1 (E row 1): pong via gate 5, gate 5, which is none of E\n",
    ),
    (
        Misfit::Gate(1, PONG, GateId(5)),
        "transition 1 (E row 1): gate 5, gate 5, does not have pong outward\n",
    ),
    (
        Misfit::State(1, StateId(3)),
        "transition 1 (E row 1): state 3 is past the list of states\n",
    ),
    (
        Misfit::SavingState(StateId(3)),
        "state 3 saves, and is past the list of states\n",
    ),
    (
        Misfit::Signal(1, PONG),
        "transition 1 (E row 1): pong has other sorts in the file\n",
    ),
    (
        Misfit::Variables(0),
        "transition 0 (E start): its offer has other sorts than the variables\n",
    ),
    (
        Misfit::InitialPid(2),
        "variable 2 is a Pid other than Null\n",
    ),
    (
        Misfit::Create(1, SetId(4)),
        "transition 1 (E row 1): set 4 lies in another block than E\n",
    ),
    (Misfit::TwoRows(IDLE, PONG), "two rows for idle and pong\n"),
    (
        Misfit::SavedTwice(IDLE, PONG),
        "idle saves pong, and has it once more\n",
    ),
];

/// The part of the design that has the fault stands in a second line.
#[test]
fn each_misfit_has_its_text(rt: HostRuntime) -> Result<(), Fail> {
    for (misfit, wanted) in MISFITS.iter() {
        let mut errors: Vec<u8> = Vec::new(rt.alloc());
        let fault = GraphFault::Bind(BindFault::WrongSorts(SetId(0)), Some(*misfit));
        assert!(rt; refused(&mut errors, &DESIGN, fault) == 1);
        let both = format!(in rt.alloc(); "B7 WrongSorts set 0\n{wanted}")?;
        assert!(rt; errors.as_slice() == both.as_bytes());
    }
    Ok(())
}
