//! Relay, where each `num` that B consumes is counted.
ghost use Rattle.std.specs.Prelude.{◌∷◌, [], IfOk};
ghost use Rattle.sdl_signal.specs.declared.values.Sort.TheVariants as sort;
ghost use Rattle.sdl_transition_behaviour.specs.Transitions.{IsAllowed, IsAllowedBehaviour};
ghost use Rattle.sdl_agents.specs.Tables.{LeadsToIdle, RelayMay, forwarded};
ghost use Rattle.sdl_agents.specs.Offered.{KeepsTo, OffersOne};

use crate::gates::Holding;
use crate::threaded::{LeftInThreads, Logs, run_behaviours};
use arrayvec::ArrayVec;
use sdl_agents::offers::{forward_offer, start_offer};
use sdl_agents::relay::Relay;
use sdl_agents::steps::{begin, forward};
use sdl_examples::RELAY;
use sdl_signal::{SetId, SignalId, StateId, name};
use sdl_test_systems::Stop;
use sdl_transition::{Behaviour, Frame, Kind, Named, Row, Run, Step, Transition};
use std::alloc::Global;
use std::sync::atomic::AtomicU64;
use std::sync::atomic::Ordering::SeqCst;
use std::sync::{Arc, Wait};
use std::thread::Threads;

/// The sets of Relay.
const SETS: u32 = 3;

const PUT: SignalId = SignalId(0);

const NUM: SignalId = SignalId(1);

const OUT: SignalId = SignalId(2);

/// A number that a behaviour uses, with the name that it means by it.
type Use = (Kind, u32, &'static str);

static USES_OF_A: [Use; 3] = [
    (Kind::Set, 0, "A"),
    (Kind::Signal, 0, "put"),
    (Kind::Signal, 1, "num"),
];

static USES_OF_C: [Use; 3] = [
    (Kind::Set, 1, "C"),
    (Kind::Signal, 0, "put"),
    (Kind::Signal, 1, "num"),
];

static USES_OF_B: [Use; 3] = [
    (Kind::Set, 2, "B"),
    (Kind::Signal, 1, "num"),
    (Kind::Signal, 2, "out"),
];

/// Sends a `num` on as `out`, and counts it.
fn count(calls: &AtomicU64, frame: &Frame) -> Step
    ensures step { LeadsToIdle (forwarded 2 frame.now.signal) result }
    ensures conforms { KeepsTo (OffersOne 2 (sort.Integer ∷ [])) frame.now result }
{
    calls.fetch_add(1, SeqCst);
    forward(frame, OUT)
}

/// The uses, where their texts are names.
fn uses_of(alloc: Global, uses: &[Use]) -> Result<Vec<Named>, Stop> {
    let mut all = Vec::new(alloc);
    for (kind, number, text) in uses {
        let name = name(text).ok_or("not a name")?;
        all.push(Named {
            kind: *kind,
            number: *number,
            name,
        })?;
    }
    Ok(all)
}

/// The behaviour of the set, with its start, and its row for the signal.
fn behaviour_of(
    alloc: Global,
    set: u32,
    uses: &[Use],
    signal: SignalId,
    start: Transition<Relay>,
    row: Transition<Relay>,
) -> Result<Behaviour<Relay>, Stop>
    requires start { IsAllowed RelayMay start }
    requires row { IsAllowed RelayMay row }
    ensures { IfOk result (IsAllowedBehaviour RelayMay) }
{
    let mut states = ArrayVec::new();
    states.push(name("idle").ok_or("not a name")?);
    let uses = uses_of(alloc, uses)?;
    let mut behaviour = Behaviour::new(alloc, SetId(set), ArrayVec::new(), states, start);
    behaviour.uses = uses;
    let row = Row {
        state: StateId(0),
        signal,
        transition: row,
    };
    match behaviour.add_row(row) {
        Ok(()) => Ok(behaviour),
        Err((_, error)) => Err(Stop::from(error)),
    }
}

/// Makes the behaviours of A, C and B, and runs Relay on the input in threads with this gate, its logs kept so.
pub fn run<T: Threads + Wait + Sync>(
    rt: &T,
    alloc: Global,
    calls: &Arc<AtomicU64, Global>,
    input: &[u8],
    gate: &Holding,
    logs: Logs,
) -> Result<LeftInThreads, Stop> {
    let shared = calls.clone()?;
    let start_a: Run = Box::new(alloc, |frame: &Frame| begin(frame))?;
    let put_a: Run = Box::new(alloc, |frame: &Frame| forward(frame, NUM))?;
    let start_c: Run = Box::new(alloc, |frame: &Frame| begin(frame))?;
    let put_c: Run = Box::new(alloc, |frame: &Frame| forward(frame, NUM))?;
    let start_b: Run = Box::new(alloc, |frame: &Frame| begin(frame))?;
    let num_b: Run = Box::new(alloc, move |frame: &Frame| count(&shared, frame))?;
    let start_a = Transition::store(0, start_offer(SETS), start_a);
    let put_a = Transition::store(1, forward_offer(SETS, PUT, NUM), put_a);
    let start_c = Transition::store(0, start_offer(SETS), start_c);
    let put_c = Transition::store(1, forward_offer(SETS, PUT, NUM), put_c);
    let start_b = Transition::store(0, start_offer(SETS), start_b);
    let num_b = Transition::store(2, forward_offer(SETS, NUM, OUT), num_b);
    let a = behaviour_of(alloc, 0, &USES_OF_A, PUT, start_a, put_a)?;
    let c = behaviour_of(alloc, 1, &USES_OF_C, PUT, start_c, put_c)?;
    let b = behaviour_of(alloc, 2, &USES_OF_B, NUM, start_b, num_b)?;
    let behaviours = Vec::from_array(alloc, [a, c, b])?;
    run_behaviours(rt, alloc, RELAY, behaviours, input, gate, logs)
}
