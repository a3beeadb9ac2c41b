//! Whole runs of the wheel, and what they leave.
ghost use Rattle.sdl_transition.specs.Bound.{IsBound};

use super::wheel::{BREACH, BROKEN, DESIGN, FAULTY, SOUND, TRANSITIONS, WHEEL};
use super::wheels::Wheels;
use sdl_graph_binding::{Breaches, Broken, GraphAgents, GraphFault, Stored, bind_graph};
use sdl_graph_program::run_graph;
use sdl_instances_log::{Event, LogStore, Unstored};
use sdl_run::{RunEnd, StartFault};
use sdl_test_systems::routes_of;
use sdl_transition::Bound;
use sdl_transition_behaviour::{Frame, Run};
use std::alloc::Global;
use std::process::Abort;
use std::test::Fail;

/// What a run left.
#[derive(Drop)]
struct Ran {
    output: Vec<u8>,
    broken: Option<Broken>,
    end: RunEnd,
    /// How many signals were consumed by a row, and without one.
    fired: (u64, u64),
    /// How many events are stored.
    stored: usize,
}

/// Runs agents that are bound, with logs of this kind.
fn run_bound<K: LogStore>(
    alloc: Global,
    bound: Bound<GraphAgents<Wheels>>,
    breaches: &Breaches,
    lines: &[u8],
) -> Result<Ran, GraphFault>
    requires { IsBound (λ _ _ _. Unit {0}) bound }
{
    let mut input = lines;
    let mut output: Vec<u8> = Vec::new(alloc);
    match run_graph::<Wheels, K, &[u8], Vec<u8>>(
        alloc,
        bound,
        breaches,
        1000,
        &[],
        &mut input,
        &mut output,
    ) {
        Ok(closing) => {
            let ledger = &closing.closing.ledger;
            let fired = (ledger.fired, ledger.implicit);
            let mut stored: usize = 0;
            for log in closing.closing.logs.as_slice() {
                stored = stored.saturating_add(log.stored().len());
            }
            Ok(Ran {
                output,
                broken: closing.broken,
                end: closing.closing.end,
                fired,
                stored,
            })
        }
        Err(StartFault::Memory(_)) => Err(GraphFault::Memory),
    }
}

/// Stores the transitions of the wheel whose start has this number, and runs it.
fn run_wheel<K: LogStore>(alloc: Global, start: u32, lines: &[u8]) -> Result<Ran, GraphFault> {
    let Ok((checked, routes)) = routes_of(alloc, WHEEL) else {
        return Err(GraphFault::Memory);
    };
    let mut stored: Stored<Wheels> = Stored::new(alloc);
    for place in 0..TRANSITIONS {
        let number = start.saturating_add(place);
        let Some(own) = stored.answering(number) else {
            break;
        };
        let offer = own.offer();
        let run: Run = match Box::new(alloc, move |frame: &Frame| own.answer(frame)) {
            Ok(run) => run,
            Err(_) => break,
        };
        stored.keep(number, offer, run);
    }
    let (transitions, breaches) = stored.into_parts()?;
    let bound = bind_graph(alloc, checked, routes, &DESIGN, transitions)?;
    run_bound::<K>(alloc, bound, &breaches, lines)
}

/// Once round, one position on, two back, and then a halt that is no row there.
const ROUND: &[u8] =
    b"g look\ng turn\ng turn\ng look\ng turn\ng turn\ng turn\ng turn\ng turn\ng turn\ng turn\ng turn
g turn\ng turn\ng turn\ng turn\ng turn\ng look\ng turn\ng turn\ng back\ng back\ng back\ng look\ng halt\ng look\n";

const SEEN: &[u8] = b"g at 0 0\ng at 2 2\ng at 15 15\ng at 14 20\ng at 14 20\n";

/// All but the logs of a run of that.
fn assert_round(rt: &impl Abort, ran: &Ran) {
    assert!(rt; ran.output.as_slice() == SEEN);
    assert!(rt; ran.broken == None);
    assert!(rt; ran.end == RunEnd::Quiet);
    assert!(rt; ran.fired == (25, 1));
}

/// Whether the log is stored or not, each of the 16 states is passed.
#[test]
fn a_wheel_turns(rt: HostRuntime) -> Result<(), Fail> {
    let kept = run_wheel::<Vec<Event>>(rt.alloc(), SOUND, ROUND)?;
    assert_round(&rt, &kept);
    assert!(rt; kept.stored > 26);
    let counted = run_wheel::<Unstored>(rt.alloc(), SOUND, ROUND)?;
    assert_round(&rt, &counted);
    assert!(rt; counted.stored == 0);
    Ok(())
}

#[test]
fn a_wheel_halts(rt: HostRuntime) -> Result<(), Fail> {
    let ran = run_wheel::<Unstored>(
        rt.alloc(),
        SOUND,
        b"g turn\ng back\ng look\ng halt\ng look\n",
    )?;
    assert!(rt; ran.output.as_slice() == b"g at 0 2\n".as_slice());
    assert!(rt; ran.fired == (4, 0));
    Ok(())
}

/// Looks in the positions 1, 2, twice, and 3.
const LOOKS: &[u8] = b"g turn\ng look\ng turn\ng look\ng look\ng turn\ng look\n";

/// The looks in position 2 do nothing and are marked, and the run goes on.
fn assert_marked(rt: &impl Abort, ran: &Ran) {
    let broken = Some(Broken {
        first: BROKEN,
        breach: BREACH,
        count: 2,
    });
    assert!(rt; ran.output.as_slice() == b"g at 1 1\ng at 3 3\n".as_slice());
    assert!(rt; ran.broken == broken);
    assert!(rt; ran.end == RunEnd::Quiet);
    assert!(rt; ran.fired == (7, 0));
}

#[test]
fn a_broken_offer_is_marked_in_the_closing(rt: HostRuntime) -> Result<(), Fail> {
    assert_marked(&rt, &run_wheel::<Vec<Event>>(rt.alloc(), FAULTY, LOOKS)?);
    assert_marked(&rt, &run_wheel::<Unstored>(rt.alloc(), FAULTY, LOOKS)?);
    Ok(())
}
