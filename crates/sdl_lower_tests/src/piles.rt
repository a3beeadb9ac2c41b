//! A pile of saved signals, of which each change of state lets one through.
use arrayvec::ArrayVec;
use sdl_instances_processes::Instance;
use sdl_signal::{Item, Pid, SignalId, StateId, Value};
use sdl_transition_saves::{Save, StateSaves};
use std::alloc::{AllocError, Global};
use std::process::Abort;

const DATA: SignalId = SignalId(0);

const GO: SignalId = SignalId(1);

const WAIT: StateId = StateId(0);

const RUN: StateId = StateId(1);

/// Puts the signal with this stamp into the port.
fn enter(instance: &mut Instance, signal: SignalId, stamp: u64) -> Result<(), AllocError> {
    let mut item = Item::default();
    item.signal.id = signal;
    item.stamp = stamp;
    let mut slot = Some(item);
    instance.receive_from(&mut slot)
}

/// Consumes the next signal, which is this one, and goes on in the state.
fn turn(
    rt: &impl Abort,
    instance: &mut Instance,
    (signal, stamp): (SignalId, u64),
    state: StateId,
) {
    let Some(next) = instance.front() else {
        assert!(rt; false);
        return;
    };
    assert!(rt; next.signal.id == signal && next.stamp == stamp);
    let _ = instance.consume();
    let vars: ArrayVec<Value, 8> = ArrayVec::new();
    instance.proceed(state, &vars);
}

/// So many signals are saved, and each is let through by a change of state of its own.
fn let_each_through(
    rt: &impl Abort,
    instance: &mut Instance,
    count: u64,
) -> Result<(), AllocError> {
    for n in 0..count {
        enter(instance, DATA, n)?;
    }
    assert!(rt; !instance.is_ready());
    for n in 0..count {
        enter(instance, GO, n)?;
        turn(rt, instance, (GO, n), RUN);
        turn(rt, instance, (DATA, n), WAIT);
    }
    assert!(rt; instance.port_len() == 0);
    Ok(())
}

/// The same, of an instance that saves them while it waits.
fn let_through(rt: &impl Abort, alloc: Global, count: u64) -> Result<(), AllocError> {
    let saves = StateSaves::of(&[Save {
        state: WAIT,
        signal: DATA,
    }]);
    let mut instance = Instance::new(alloc, ArrayVec::new(), saves, Pid::Null);
    let vars: ArrayVec<Value, 8> = ArrayVec::new();
    instance.proceed(WAIT, &vars);
    let_each_through(rt, &mut instance, count)
}

#[test]
fn thousands_saved_are_let_through(rt: HostRuntime) -> Result<(), AllocError> {
    for count in [8_000, 16_000] {
        let_through(&rt, rt.alloc(), count)?;
    }
    Ok(())
}
