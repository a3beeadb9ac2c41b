//! What a run of Ring is to leave.
use crate::plan::{Left, Plan};
use arrayvec::ArrayVec;
use sdl_block_hand::Hand;
use sdl_queue::Rest;
use sdl_routes::Station;
use sdl_run::{Ledger, RunEnd};
use sdl_signal::{
    BlockId, InputEnd, Item, Origin, OutputEnd, Pid, RouteId, SetId, Signal, SignalId, Value,
};
use sdl_test_systems::Stop;
use std::process::Abort;

/// Two blocks, the environment, and the forwarders of three channels, forth and back.
const WORKERS: usize = 9;

/// Looks at what the run left: all that Ring leaves, or, where memory was refused, what balances.
pub fn look(rt: &impl Abort, plan: &Plan, left: &Left) -> Result<(), Stop> {
    assert!(rt; left.written.len() == 0);
    balances(rt, &left.ledger);
    match left.end {
        RunEnd::Memory(worker) => assert!(rt; (worker as usize) < WORKERS),
        end => {
            assert!(rt; end == RunEnd::Spent(BlockId(0)));
            is_row(rt, plan.budget.saturating_sub(1), left)?;
        }
    }
    Ok(())
}

/// Each output is accounted for, and each signal that entered.
fn balances(rt: &impl Abort, ledger: &Ledger) {
    let ends = [
        ledger.no_route,
        ledger.entered,
        ledger.no_instance,
        ledger.gone,
        ledger.left,
    ];
    assert!(rt; ledger.output == sum(&ends));
    let uses = [
        ledger.fired,
        ledger.implicit,
        ledger.stopped,
        ledger.waiting,
        ledger.environment,
    ];
    assert!(rt; ledger.entered == sum(&uses));
}

/// The sum of these counts.
fn sum(counts: &[u64]) -> u64 {
    let mut total: u64 = 0;
    for count in counts {
        total = total.saturating_add(*count);
    }
    total
}

/// Each block made its start and this many turns more, on the tokens that entered. The token that follows is in the inlet of Q.
fn is_row(rt: &impl Abort, turns: u32, left: &Left) -> Result<(), Stop> {
    let last = 2 * u64::from(turns);
    assert!(rt; left.logs.len() == 2);
    for log in left.logs.iter() {
        assert!(rt; log.len() as u64 == last + 1);
    }
    let ledger = Ledger {
        output: last + 1,
        entered: last,
        left: 1,
        fired: last,
        ..Ledger::default()
    };
    assert!(rt; left.ledger == ledger);
    assert!(rt; left.env_put.len() == 0);
    assert!(rt; left.env_received.len() == 0);
    assert!(rt; (left.input, left.output) == (InputEnd::Whole, OutputEnd::Whole));
    are_empty(rt, left.hands.as_slice());
    one_is_left(rt, left.rests.as_slice(), turns)
}

/// No worker holds anything.
fn are_empty(rt: &impl Abort, hands: &[Hand]) {
    assert!(rt; hands.len() == WORKERS);
    for hand in hands {
        assert!(rt; hand.kept == None);
        assert!(rt; hand.outgoing.len() == 0);
    }
}

/// Only at the inlet of Q anything is left: X's output of this number.
fn one_is_left(rt: &impl Abort, rests: &[(Station, Rest)], number: u32) -> Result<(), Stop> {
    assert!(rt; rests.len() == 8);
    for (station, rest) in rests {
        if *station == Station::Inlet(BlockId(1)) {
            assert!(rt; rest.len() == 1);
            let item = front(rest).ok_or("nothing left")?;
            assert!(rt; *item == token(number));
        } else {
            assert!(rt; rest.len() == 0);
        }
    }
    Ok(())
}

/// The item at the front.
fn front(rest: &Rest) -> Option<&Item> {
    match rest {
        Rest::Serial(queue) => queue.left().next(),
        Rest::Ruled(_) | Rest::Ring(_) => None,
    }
}

/// X's output of this number: it counts the steps of the token, of which each second one is X's.
fn token(number: u32) -> Item {
    let mut params = ArrayVec::new();
    params.push(Value::Integer(2 * i64::from(number)));
    Item {
        origin: Origin {
            worker: 0,
            number: u64::from(number),
        },
        stamp: 2 * u64::from(number),
        signal: Signal {
            id: SignalId(0),
            params,
        },
        sender: Pid::Inst(SetId(0), 1),
        to: None,
        route: RouteId(0),
    }
}
