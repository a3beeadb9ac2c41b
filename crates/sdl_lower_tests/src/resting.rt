//! How workers in threads come to rest: a token goes round among them, one runs far ahead where nobody takes, or one waits for room.
ghost use Rattle.std.specs.Prelude.{◌≡◌, ◌≤◌, [], ⊤, IfOk, vec_capacity};
ghost use Rattle.std.specs.List.{All};
ghost use Rattle.sdl_run_threads.specs.Kinds.{KeepsOneOf};

use super::jobs::{Job, Jobber, Ring, done_by, done_in_list, station_at};
use sdl_routes::{Routes, Station};
use sdl_run_threads::{Gate, Kind, Returned, Team, run_all};
use sdl_signal::name;
use sdl_structure_parts::{Checked, Lists, Structure, check};
use std::alloc::{AllocError, Global};
use std::sync::atomic::AtomicU64;
use std::sync::atomic::Ordering::SeqCst;
use std::sync::{Arc, Wait};
use std::test::Fail;
use std::thread;
use std::thread::Threads;

const HOPS: u64 = 400;

const TRIES: u64 = 10_000_000;

fn passer_at(ring: &Arc<Ring, Global>, place: usize) -> Result<Jobber, AllocError> {
    let shared = Arc::try_clone(ring)?;
    Ok(Jobber::new(station_at(place), Job::Pass(shared, place)))
}

/// What came of a run: the workers in threads, and the one on this thread.
type Came = (Vec<Returned<Kind<Jobber, Jobber>>>, Returned<Jobber>);

/// A structure without parts, which these workers do not look at.
fn no_parts(alloc: Global) -> Result<Structure, Fail> {
    let Some(system) = name("Resting") else {
        return Err("no name".into());
    };
    let lists = Lists {
        signals: Vec::new(alloc),
        blocks: Vec::new(alloc),
        sets: Vec::new(alloc),
        gates: Vec::new(alloc),
        channels: Vec::new(alloc),
    };
    Ok(Structure::new(alloc, system, 1, lists)?)
}

/// The same with its routes, of which it has none.
fn no_routes(alloc: Global) -> Result<(Checked, Routes), Fail> {
    let Ok(checked) = check(no_parts(alloc)?) else {
        return Err("not well formed".into());
    };
    let routes = Routes::build(alloc, &checked)?;
    Ok((checked, routes))
}

/// Three workers in threads and one on this thread. They run until all are at rest.
fn run<R: Threads + Wait + Sync>(
    rt: &R,
    alloc: Global,
    workers: Vec<Kind<Jobber, Jobber>>,
    environment: Jobber,
    gate: &Meeting,
) -> Result<Came, Fail>
    requires { All (KeepsOneOf (λ a. ⊤) (λ f. ⊤)) workers.items }
{
    if workers.len() > 3 {
        return Err("too many workers".into());
    }
    let number_of_environment = workers.len() as u32;
    let (checked, routes) = no_routes(alloc)?;
    let done = Vec::with_capacity(alloc, workers.len())?;
    let team = Team {
        workers,
        environment,
        number_of_environment,
        done,
    };
    Ok(run_all(rt, team, checked.structure(), &routes, gate))
}

/// Four workers, of which the first has a token.
fn run_ring<R: Threads + Wait + Sync>(rt: &R, alloc: Global, gate: &Meeting) -> Result<Came, Fail> {
    let ring = Arc::new(
        alloc,
        Ring {
            cells: [
                AtomicU64::new(HOPS),
                AtomicU64::new(0),
                AtomicU64::new(0),
                AtomicU64::new(0),
            ],
        },
    )?;
    let first = passer_at(&ring, 0)?;
    let second = passer_at(&ring, 1)?;
    let third = passer_at(&ring, 2)?;
    let fourth = passer_at(&ring, 3)?;
    let workers = vec![in alloc;
        Kind::Block(first),
        Kind::Forwarder(second),
        Kind::Block(third),
    ]?;
    run(rt, alloc, workers, fourth, gate)
}

/// Where it meets, each worker waits at its first step until all four are at theirs, and gives up after some tries.
#[derive(Drop)]
struct Meeting {
    meets: bool,
    came: AtomicU64,
    met: AtomicU64,
}

impl Meeting {
    fn new(meets: bool) -> Meeting {
        Meeting {
            meets,
            came: AtomicU64::new(0),
            met: AtomicU64::new(0),
        }
    }
}

impl Gate for Meeting {
    fn before(&self, _worker: u32, step: u64) {
        if step != 0 || !self.meets {
            return;
        }
        self.came.fetch_add(1, SeqCst);
        for _ in 0..TRIES {
            if self.came.load(SeqCst) == 4 {
                self.met.fetch_add(1, SeqCst);
                return;
            }
            thread::yield_now();
        }
    }
}

/// Each of the four passed the token on as often as the others.
fn all_passed(came: &Came) -> bool {
    came.0.len() == 3
        && came
            .0
            .iter()
            .all(|worker| done_in_list(worker) == Some((100, 0)))
        && done_by(&came.1) == Some((100, 0))
}

/// None stops before all are at rest, also where all make their first step at once.
#[test]
fn none_stops_before_all_are_at_rest(rt: HostRuntime) -> Result<(), Fail> {
    for (meets, met) in [(false, 0), (true, 4)] {
        let meeting = Meeting::new(meets);
        let came = run_ring(&rt, rt.alloc(), &meeting)?;
        assert!(rt; all_passed(&came));
        assert!(rt; meeting.came.load(SeqCst) == met);
        assert!(rt; meeting.met.load(SeqCst) == met);
    }
    Ok(())
}

/// How often a worker put, and how much it has yet to do.
type Did = Option<(u64, u64)>;

/// Runs this job in a thread, beside a worker on this thread, and tells what both did.
fn run_beside<R: Threads + Wait + Sync>(
    rt: &R,
    alloc: Global,
    job: Job,
    environment: Job,
) -> Result<(Did, Did), Fail> {
    let workers = vec![in alloc; Kind::Block(Jobber::new(station_at(0), job))]?;
    let environment = Jobber::new(Station::Outlet, environment);
    let (workers, environment) = run(rt, alloc, workers, environment, &Meeting::new(false))?;
    let did = match workers.as_slice() {
        [worker] => done_in_list(worker),
        _ => None,
    };
    Ok((did, done_by(&environment)))
}

/// At the last of these steps the worker looks how far it is ahead, and finds that it is far: more than 512 items, where it looks
/// after each 64 steps.
const STEPS: u64 = 576;

/// More flushes than the steps that a worker makes before it comes to rest.
const FLUSHES: u64 = 400;

/// So many lines, and more items than a worker takes before it asks outside the system while others work, where it read no line.
const LINES: u64 = 100;

const ITEMS: u64 = 8_000;

/// The sleep in which one lets others catch up ends by itself, as nobody takes; it comes to rest after that, so that the run ends.
/// Who has a backlog is not at rest: the run goes on until there is room for it. For each line that was read, one takes more of what
/// comes before it asks for others.
#[test]
fn workers_come_to_rest_beside_others(rt: HostRuntime) -> Result<(), Fail> {
    let alloc = rt.alloc();
    let (ahead, beside) = run_beside(&rt, alloc, Job::Put(STEPS), Job::Put(0))?;
    assert!(rt; ahead == Some((STEPS, 0)) && beside == Some((0, 0)));
    let (held, beside) = run_beside(&rt, alloc, Job::Wait(FLUSHES), Job::Put(0))?;
    assert!(rt; held == Some((0, 0)) && beside == Some((0, 0)));
    let rest = Arc::new(alloc, AtomicU64::new(0))?;
    let work = Job::Work(rest.clone()?);
    let (working, reading) = run_beside(&rt, alloc, work, Job::Read(LINES, ITEMS, rest))?;
    assert!(rt; working.is_some() && reading == Some((LINES, 0)));
    Ok(())
}
