//! A chain of sixteen blocks in threads, 66 workers: the first two blocks make their first steps at once.
ghost use Rattle.sdl_transition.specs.Bound.{IsBound};

use sdl_graph::{Graph, StepBuilder, integer_parameter};
use sdl_graph_binding::{Design, GraphAgents, SetDesign, Stored, bind_graph};
use sdl_run::{AuditFault, Closing, Gate, Ledger, RunEnd, StartFault, audit, run_threads};
use sdl_signal::{SignalId, Sort, StateId, Value};
use sdl_test_systems::{Part, Parts, offer_of, routes_of};
use sdl_transition::Bound;
use sdl_transition_behaviour::{Dest, Frame, Kind, Offer, Run, Step, Via};
use std::alloc::Global;
use std::sync::Wait;
use std::sync::atomic::AtomicU64;
use std::sync::atomic::Ordering::SeqCst;
use std::test::Fail;
use std::thread;
use std::thread::Threads;

const BLOCKS: u32 = 16;

const NUM: SignalId = SignalId(0);

const IDLE: StateId = StateId(0);

/// Each set sends the number that it receives on. An even number is that of a start, an odd one that of a row.
struct Links;

/// The start, and the row.
static OFFERS: [Parts; 2] = [
    Parts {
        sets: BLOCKS,
        vars: &[],
        parts: &[(1, Part::Next(IDLE))],
    },
    Parts {
        sets: BLOCKS,
        vars: &[],
        parts: &[
            (1, Part::Row(IDLE, NUM, &[Sort::Integer])),
            (1, Part::Output(NUM, &[Sort::Integer], Via::Any)),
            (1, Part::Next(IDLE)),
        ],
    },
];

impl Graph for Links {
    fn offer(number: u32) -> Offer {
        offer_of(&OFFERS[number as usize % 2])
    }

    fn step(number: u32, frame: &Frame) -> Step {
        let step = StepBuilder::next_state(frame, IDLE);
        if number % 2 == 0 {
            return step.build();
        }
        let number = Value::Integer(integer_parameter(frame, 0).unwrap_or(0));
        step.output(NUM, &[number], Dest::Anywhere, Via::Any)
            .build()
    }
}

const LINK: SetDesign = SetDesign {
    name: "S0",
    states: &["idle"],
    variables: &[],
    saves: &[],
    transitions: 2,
};

static DESIGN: Design = Design {
    uses: &[
        (Kind::Set, 0, "S0"),
        (Kind::Set, 1, "S1"),
        (Kind::Set, 2, "S2"),
        (Kind::Set, 3, "S3"),
        (Kind::Set, 4, "S4"),
        (Kind::Set, 5, "S5"),
        (Kind::Set, 6, "S6"),
        (Kind::Set, 7, "S7"),
        (Kind::Set, 8, "S8"),
        (Kind::Set, 9, "S9"),
        (Kind::Set, 10, "S10"),
        (Kind::Set, 11, "S11"),
        (Kind::Set, 12, "S12"),
        (Kind::Set, 13, "S13"),
        (Kind::Set, 14, "S14"),
        (Kind::Set, 15, "S15"),
        (Kind::Signal, 0, "num"),
    ],
    sets: &[
        LINK,
        SetDesign { name: "S1", ..LINK },
        SetDesign { name: "S2", ..LINK },
        SetDesign { name: "S3", ..LINK },
        SetDesign { name: "S4", ..LINK },
        SetDesign { name: "S5", ..LINK },
        SetDesign { name: "S6", ..LINK },
        SetDesign { name: "S7", ..LINK },
        SetDesign { name: "S8", ..LINK },
        SetDesign { name: "S9", ..LINK },
        SetDesign {
            name: "S10",
            ..LINK
        },
        SetDesign {
            name: "S11",
            ..LINK
        },
        SetDesign {
            name: "S12",
            ..LINK
        },
        SetDesign {
            name: "S13",
            ..LINK
        },
        SetDesign {
            name: "S14",
            ..LINK
        },
        SetDesign {
            name: "S15",
            ..LINK
        },
    ],
};

/// The structure file of a chain of blocks: for each, the end that its channel comes from, and its number.
macro_rules! chain_file {
    ($($from:literal => $number:literal),*) => {
        concat!(
            "version = 1
system = 'Chain'
signal = [{ name = 'num', sorts = ['Integer'] }]
gate = [{ name = 'in', inward = ['num'] }, { name = 'out', outward = ['num'] }]
",
            $("[[block]]
name = 'B", $number, "'
gate = [{ name = 'i', inward = ['num'] }, { name = 'o', outward = ['num'] }]
set = [{ name = 'S", $number, "', gate = [{ name = 'i', inward = ['num'] }, { name = 'o', outward = ['num'] }] }]
channel = [
  { name = 'x", $number, "', ends = ['env.i', 'S", $number, ".i'], forth = ['num'] },
  { name = 'y", $number, "', ends = ['S", $number, ".o', 'env.o'], forth = ['num'] },
]
",)*
            $("[[channel]]
name = 'c", $number, "'
ends = ['", $from, "', 'B", $number, ".i']
forth = ['num']
",)*
            "[[channel]]
name = 'last'
ends = ['B15.o', 'env.out']
forth = ['num']
"
        )
    };
}

/// The structure file of the chain.
const CHAIN: &str = chain_file!(
    "env.in" => 0,
    "B0.o" => 1,
    "B1.o" => 2,
    "B2.o" => 3,
    "B3.o" => 4,
    "B4.o" => 5,
    "B5.o" => 6,
    "B6.o" => 7,
    "B7.o" => 8,
    "B8.o" => 9,
    "B9.o" => 10,
    "B10.o" => 11,
    "B11.o" => 12,
    "B12.o" => 13,
    "B13.o" => 14,
    "B14.o" => 15
);

/// The first two workers, which are blocks, wait at their first steps until both are there, and give up after some tries.
#[derive(Drop)]
struct Meeting {
    came: AtomicU64,
    met: AtomicU64,
}

const TRIES: u64 = 100_000_000;

impl Gate for Meeting {
    fn before(&self, worker: u32, step: u64) {
        if worker > 1 || step != 0 {
            return;
        }
        self.came.fetch_add(1, SeqCst);
        for _ in 0..TRIES {
            if self.came.load(SeqCst) == 2 {
                self.met.fetch_add(1, SeqCst);
                return;
            }
            thread::yield_now();
        }
    }
}

/// What a run left that this test looks at.
#[derive(Drop)]
struct Left {
    ledger: Ledger,
    end: RunEnd,
    workers: usize,
    written: Vec<u8>,
    /// What an audit says of it.
    audited: Result<(), AuditFault>,
}

/// Runs the chain in threads on an input, and audits what it left.
fn run_bound<T: Threads + Wait + Sync>(
    rt: &T,
    alloc: Global,
    bound: Bound<GraphAgents<Links>>,
    gate: &Meeting,
    input: &[u8],
) -> Result<Left, Fail>
    requires { IsBound (λ _ _ _. Unit {0}) bound }
{
    let mut input = input;
    let mut output = Vec::new(alloc);
    let ran: Result<Closing<GraphAgents<Links>>, StartFault<GraphAgents<Links>>> = run_threads(
        rt,
        alloc,
        bound,
        1_000,
        gate,
        &mut input,
        &mut output,
    );
    match ran {
        Ok(closing) => {
            let (closing, audited) = audit(rt, closing);
            Ok(Left {
                ledger: closing.ledger,
                end: closing.end,
                workers: closing.hands.len(),
                written: output,
                audited,
            })
        }
        Err(StartFault::Memory(_)) => Err("memory".into()),
    }
}

/// Stores the transitions, binds the chain and runs it.
fn run<T: Threads + Wait + Sync>(
    rt: &T,
    alloc: Global,
    gate: &Meeting,
    input: &[u8],
) -> Result<Left, Fail> {
    let Ok((checked, routes)) = routes_of(alloc, CHAIN) else {
        return Err("no chain".into());
    };
    let mut stored: Stored<Links> = Stored::new(alloc);
    for number in 0..2 * BLOCKS {
        let Some(own) = stored.answering(number) else {
            break;
        };
        let offer = own.offer();
        let run: Run = match Box::new(alloc, move |frame: &Frame| own.answer(frame)) {
            Ok(run) => run,
            Err(_) => break,
        };
        stored.keep(number, offer, run);
    }
    let (transitions, _) = stored.into_parts()?;
    let bound = bind_graph(alloc, checked, routes, &DESIGN, transitions)?;
    run_bound(rt, alloc, bound, gate, input)
}

#[test]
fn two_blocks_of_a_chain_make_their_first_step_at_once(rt: HostRuntime) -> Result<(), Fail> {
    let meeting = Meeting {
        came: AtomicU64::new(0),
        met: AtomicU64::new(0),
    };
    let left = run(&rt, rt.alloc(), &meeting, b"in num 7\n")?;
    assert!(rt; meeting.met.load(SeqCst) == 2);
    assert!(rt; (left.end, left.workers) == (RunEnd::Quiet, 66));
    assert!(rt; left.written.as_slice() == b"out num 7\n".as_slice());
    // the line, and what each block sends
    let ledger = Ledger {
        output: 17,
        entered: 17,
        fired: 16,
        environment: 1,
        ..Ledger::default()
    };
    assert!(rt; left.ledger == ledger);
    assert!(rt; left.audited == Ok(()));
    Ok(())
}
