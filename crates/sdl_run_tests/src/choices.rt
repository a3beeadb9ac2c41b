//! Schedules whose picks choose: among the routes of a line, among the instances that it may enter, and among the routes
//! of the answer.
use crate::echo;
use crate::plan::{Left, Plan};
use sdl_instances::Event;
use sdl_run::{EnvOut, Ledger, RunEnd};
use sdl_signal::{Pid, RouteId, SetId};
use sdl_test_systems::Stop;
use std::alloc::Global;
use std::process::Abort;
use std::test::Fail;

/// Echo with three instances of E, and two ways for each signal: `ping` comes by way of `c1` or `c2`. `pong` goes by way of
/// `c1` to the gate `line`, or by way of `d1` to the gate `other`.
const TWO_WAYS: &str = "version = 1
system = 'TwoWays'
signal = [{ name = 'ping', sorts = ['Integer'] }, { name = 'pong', sorts = ['Integer'] }]
gate = [{ name = 'line', inward = ['ping'], outward = ['pong'] }, { name = 'other', outward = ['pong'] }]
channel = [
  { name = 'c0', ends = ['env.line', 'B.g'], forth = ['ping'], back = ['pong'] },
  { name = 'd0', ends = ['B.h', 'env.other'], forth = ['pong'] },
]

[[block]]
name = 'B'
gate = [{ name = 'g', inward = ['ping'], outward = ['pong'] }, { name = 'h', outward = ['pong'] }]
set = [{ name = 'E', initial = 3, maximum = 3, gate = [
  { name = 'p', inward = ['ping'], outward = ['pong'] },
  { name = 'q', inward = ['ping'], outward = ['pong'] },
] }]
channel = [
  { name = 'c1', ends = ['env.g', 'E.p'], forth = ['ping'], back = ['pong'] },
  { name = 'c2', ends = ['env.g', 'E.q'], forth = ['ping'] },
  { name = 'd1', ends = ['E.q', 'env.h'], forth = ['pong'] },
]
";

/// The block, the environment, and the forwarders of the lines `c0` forth and back, `d0`, `c1` forth and back, `c2` and `d1`.
const WORKERS: u32 = 9;

/// What the picks choose: the route of `ping`, the instance that it enters, and the gate of `pong`.
#[derive(Clone, Copy)]
struct Choice {
    route: u32,
    serial: u32,
    text: &'static [u8],
}

/// The number of the schedule for the worker with the pick.
fn number(worker: u32, pick: u32) -> u32 {
    pick.wrapping_mul(WORKERS).wrapping_add(worker)
}

/// Starts the three instances, reads a line with one pick and moves it to the block. The block then makes a step with the other
/// pick.
fn run(alloc: Global, reading: u32, arriving: u32) -> Result<Left, Stop> {
    let schedule = [0, 0, 0, number(1, reading), 2, 5, 7, number(0, arriving)];
    let plan = Plan {
        budget: 100,
        schedule: &schedule,
        input: b"line ping 7\n",
    };
    echo::run(alloc, TWO_WAYS, plan)
}

/// The route of the one line that was read.
fn route_read(put: &[EnvOut]) -> Option<RouteId> {
    match put {
        [EnvOut::Sent(item)] => Some(item.route),
        _ => None,
    }
}

/// The instance that the line entered, after the three starts.
fn entered(log: &[Event]) -> Option<Pid> {
    match log.get(3) {
        Some(Event::Entered(_, pid)) => Some(*pid),
        _ => None,
    }
}

/// The run left what was chosen, and all else as in any of these runs.
fn look(rt: &impl Abort, left: &Left, wanted: &Choice) {
    let route = RouteId(wanted.route);
    assert!(rt; route_read(left.env_put.as_slice()) == Some(route));
    assert!(rt; left.logs.len() == 1);
    let pid = Pid::Inst(SetId(0), wanted.serial);
    assert!(rt; entered(left.logs[0].as_slice()) == Some(pid));
    assert!(rt; left.written.as_slice() == wanted.text);
    assert!(rt; left.end == RunEnd::Quiet);
    let ledger = Ledger {
        output: 2,
        entered: 2,
        fired: 1,
        environment: 1,
        ..Ledger::default()
    };
    assert!(rt; left.ledger == ledger);
}

/// With these picks the run chooses this.
fn chooses(rt: &impl Abort, alloc: Global, picks: (u32, u32), wanted: Choice) -> Result<(), Stop> {
    let (reading, arriving) = picks;
    let left = run(alloc, reading, arriving)?;
    look(rt, &left, &wanted);
    Ok(())
}

const LINE: &[u8] = b"line pong 7\n";

const OTHER: &[u8] = b"other pong 7\n";

/// Picks of the environment, each with the route of the line.
static ROUTES: [(u32, u32); 4] = [(0, 0), (1, 1), (2, 0), (7, 1)];

#[test]
fn the_environment_chooses_among_routes(rt: HostRuntime) -> Result<(), Fail> {
    for (pick, route) in ROUTES.iter() {
        let wanted = Choice {
            route: *route,
            serial: 1,
            text: LINE,
        };
        chooses(&rt, rt.alloc(), (*pick, 0), wanted)?;
    }
    Ok(())
}

/// Picks of the block, each with the instance that the line enters and the answer.
static INSTANCES: [(u32, u32, &[u8]); 6] = [
    (0, 1, LINE),
    (1, 2, OTHER),
    (2, 3, LINE),
    (3, 1, OTHER),
    (4, 2, LINE),
    (11, 3, OTHER),
];

#[test]
fn a_block_chooses_among_instances_and_routes(rt: HostRuntime) -> Result<(), Fail> {
    for (pick, serial, text) in INSTANCES.iter() {
        let wanted = Choice {
            route: 0,
            serial: *serial,
            text: *text,
        };
        chooses(&rt, rt.alloc(), (0, *pick), wanted)?;
    }
    Ok(())
}
