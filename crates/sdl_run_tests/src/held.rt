//! Runs of Relay in threads where steps wait for one another.
use crate::counted;
use crate::gates::{Held, Holding, xorshift};
use crate::threaded::{LeftInThreads, Logs, lines};
use sdl_run::{EnvOut, Ledger, RunEnd};
use sdl_signal::{InputEnd, Item, OutputEnd, RouteId, Value};
use sdl_test_systems::Stop;
use std::alloc::Global;
use std::process::Abort;
use std::sync::atomic::AtomicU64;
use std::sync::atomic::Ordering::SeqCst;
use std::sync::{Arc, Wait};
use std::test::Fail;
use std::thread::Threads;

#[test]
fn two_blocks_make_their_first_step_at_once(rt: HostRuntime) -> Result<(), Fail> {
    let meeting = Holding::new(Held::FirstSteps);
    let calls = Arc::new(rt.alloc(), AtomicU64::new(0))?;
    let left = counted::run(&rt, rt.alloc(), &calls, &[], &meeting, Logs::Stored)?;
    assert!(rt; meeting.met.load(SeqCst) == 2);
    assert!(rt; left.end == RunEnd::Quiet);
    assert!(rt; left.ledger == Ledger::default());
    Ok(())
}

/// All that B does is done while this thread waits before a step of the environment, and L does nothing before that.
#[test]
fn threads_carry_signals_and_make_turns(rt: HostRuntime) -> Result<(), Fail> {
    let calls = Arc::new(rt.alloc(), AtomicU64::new(0))?;
    let holding = Holding::new(Held::Blocks(calls.clone()?));
    let input = lines(rt.alloc(), "left put", 1..51)?;
    let left = counted::run(
        &rt,
        rt.alloc(),
        &calls,
        input.as_slice(),
        &holding,
        Logs::Stored,
    )?;
    assert!(rt; holding.met.load(SeqCst) == 2);
    let wanted = lines(rt.alloc(), "sink out", 1..51)?;
    answers_each(&rt, &left, 50, wanted.as_slice());
    Ok(())
}

/// What a run of Relay on so many lines to the left leaves, of which each is answered.
fn ledger_of(lines: u64) -> Ledger {
    let thrice = lines.saturating_mul(3);
    Ledger {
        output: thrice,
        entered: thrice,
        fired: lines.saturating_mul(2),
        environment: lines,
        ..Ledger::default()
    }
}

/// The run read so many lines, answered each with these, and ended quietly.
fn answers_each(rt: &impl Abort, left: &LeftInThreads, lines: u64, wanted: &[u8]) {
    assert!(rt; left.written.as_slice() == wanted);
    assert!(rt; left.end == RunEnd::Quiet);
    assert!(rt; left.ledger == ledger_of(lines));
}

/// Runs Relay on so many lines to the left, of which each is to come in its order. The forwarder of the first path is held
/// meanwhile, until the environment has read them all.
fn come_behind_a_held_forwarder<T: Threads + Wait + Sync + Abort>(
    rt: &T,
    alloc: Global,
    count: u32,
) -> Result<(), Stop> {
    let end = count.saturating_add(1);
    let held = Holding::new(Held::Path(u64::from(end)));
    let calls = Arc::new(alloc, AtomicU64::new(0))?;
    let input = lines(alloc, "left put", 1..end)?;
    let left = counted::run(rt, alloc, &calls, input.as_slice(), &held, Logs::Stored)?;
    assert!(rt; held.met.load(SeqCst) == 1);
    let wanted = lines(alloc, "sink out", 1..end)?;
    answers_each(rt, &left, u64::from(count), wanted.as_slice());
    Ok(())
}

/// What is put while the forwarder of the first path is held waits in its ring and behind it.
#[test]
fn two_hundred_lines_come_in_their_order_behind_a_held_forwarder(
    rt: HostRuntime,
) -> Result<(), Fail> {
    come_behind_a_held_forwarder(&rt, rt.alloc(), 200)?;
    Ok(())
}

/// The environment comes so far ahead of it that it lets it catch up, and goes on as it does not.
#[test]
fn three_thousand_lines_come_in_their_order_behind_a_held_forwarder(
    rt: HostRuntime,
) -> Result<(), Fail> {
    come_behind_a_held_forwarder(&rt, rt.alloc(), 3_000)?;
    Ok(())
}

/// A run in threads on lines to the left alone, some of its steps held back at random.
fn run_keeping<T: Threads + Wait + Sync>(
    rt: &T,
    alloc: Global,
    input: &[u8],
    logs: Logs,
) -> Result<LeftInThreads, Stop> {
    let calls = Arc::new(alloc, AtomicU64::new(0))?;
    let jitter = Holding::new(Held::Random(AtomicU64::new(xorshift(1))));
    counted::run(rt, alloc, &calls, input, &jitter, logs)
}

/// Whether the values are one Integer, this number.
fn is_number(values: &[Value], number: u32) -> bool {
    match values {
        [Value::Integer(value)] => *value == i64::from(number),
        _ => false,
    }
}

/// Whether the item is of this route, the output of this number of the worker, and carries the number that follows.
fn is_output(item: &Item, route: RouteId, worker: u32, number: u32) -> bool {
    item.route == route
        && item.origin.worker == worker
        && item.origin.number == u64::from(number)
        && is_number(item.signal.params.as_slice(), number.saturating_add(1))
}

/// Whether each line went out from the gate `left`, in order.
fn are_put_in_order(put: &[EnvOut]) -> bool {
    let mut number: u32 = 0;
    for out in put {
        let EnvOut::Sent(item) = out else {
            return false;
        };
        if !is_output(item, RouteId(0), 2, number) {
            return false;
        }
        number = number.wrapping_add(1);
    }
    true
}

/// Whether each was answered by B, in order.
fn are_received_in_order(received: &[Item]) -> bool {
    let mut number: u32 = 0;
    for item in received {
        if !is_output(item, RouteId(4), 1, number) {
            return false;
        }
        number = number.wrapping_add(1);
    }
    true
}

/// The run read 300 lines, and answered each with these, in order. Nothing is left of them.
fn is_whole(rt: &impl Abort, left: &LeftInThreads, wanted: &[u8]) {
    answers_each(rt, left, 300, wanted);
    assert!(rt; left.env_put.len() == 300);
    assert!(rt; left.held == 0 && left.resting == 0);
    assert!(rt; left.input == InputEnd::Whole);
    assert!(rt; left.output == OutputEnd::Whole);
    assert!(rt; are_put_in_order(left.env_put.as_slice()));
    assert!(rt; are_received_in_order(left.env_received.as_slice()));
}

#[test]
fn a_run_that_counts_its_logs_leaves_what_one_that_stores_them_does(
    rt: HostRuntime,
) -> Result<(), Fail> {
    let input = lines(rt.alloc(), "left put", 1..301)?;
    let stored = run_keeping(&rt, rt.alloc(), input.as_slice(), Logs::Stored)?;
    let counted = run_keeping(&rt, rt.alloc(), input.as_slice(), Logs::Counted)?;
    // three starts, and what entered and was consumed
    assert!(rt; stored.events == 1_203);
    assert!(rt; counted.events == 0);
    let wanted = lines(rt.alloc(), "sink out", 1..301)?;
    is_whole(&rt, &stored, wanted.as_slice());
    is_whole(&rt, &counted, wanted.as_slice());
    assert!(rt; stored.env_received.as_slice() == counted.env_received.as_slice());
    Ok(())
}
