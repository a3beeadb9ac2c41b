//! What is noted, of many kinds: by its number, the same in each log.
use arrayvec::ArrayVec;
use sdl_instances_log::{Cause, Done, LogStore, Trigger};
use sdl_routes::Via;
use sdl_signal::{Item, Origin, Pid, RouteId, SetId, Signal, SignalId, StateId, Value};
use sdl_transition_behaviour::{Action, Dest, Frame, Next, Step};

fn signal_of(number: u32) -> Signal {
    let mut params: ArrayVec<Value, 4> = ArrayVec::new();
    for place in 0..number % 5 {
        let _ = params.try_push(Value::Integer(
            (number.wrapping_mul(7).wrapping_add(place)) as i64,
        ));
    }
    Signal {
        id: SignalId(number),
        params,
    }
}

fn item_of(number: u32) -> Item {
    Item {
        origin: Origin {
            worker: number % 3,
            number: number as u64,
        },
        stamp: (number / 2) as u64,
        signal: signal_of(number),
        sender: pid_of(number),
        to: None,
        route: RouteId(number % 11),
    }
}

fn pid_of(number: u32) -> Pid {
    Pid::Inst(SetId(number % 4), number)
}

fn frame_of(number: u32) -> Frame {
    let mut vars: ArrayVec<Value, 8> = ArrayVec::new();
    for place in 0..number % 9 {
        let _ = vars.try_push(Value::Integer(place as i64));
    }
    Frame {
        self_pid: pid_of(number),
        parent: Pid::Null,
        offspring: pid_of(number.wrapping_add(1)),
        sender: Pid::Env,
        state: Some(StateId(number % 6)),
        vars,
        signal: Some(signal_of(number)),
    }
}

fn step_of(number: u32) -> Step {
    let mut actions: ArrayVec<Action, 8> = ArrayVec::new();
    for place in 0..number % 9 {
        let action = if place % 2 == 0 {
            Action::Output {
                signal: signal_of(number.wrapping_add(place)),
                dest: Dest::Sender,
                via: Via::Any,
            }
        } else {
            Action::Create(SetId(place))
        };
        let _ = actions.try_push(action);
    }
    let mut vars: ArrayVec<Value, 8> = ArrayVec::new();
    for place in 0..number % 8 {
        let _ = vars.try_push(Value::Pid(pid_of(place)));
    }
    let next = if number % 5 == 0 {
        Next::Stop
    } else {
        Next::State(StateId(number % 10))
    };
    Step {
        actions,
        vars,
        next,
    }
}

fn done_of(number: u32) -> ArrayVec<Done, 8> {
    let mut done: ArrayVec<Done, 8> = ArrayVec::new();
    for place in 0..number.wrapping_mul(5) % 9 {
        let one = match place % 3 {
            0 => Done::Sent(item_of(number.wrapping_add(place))),
            1 => Done::NoRoute(
                Origin {
                    worker: place,
                    number: number as u64,
                },
                SignalId(place),
            ),
            _ => Done::Made(pid_of(place)),
        };
        let _ = done.try_push(one);
    }
    done
}

/// Notes the event of this number, where there is room for it.
pub fn note<K: LogStore>(log: &mut K, number: u32) -> bool {
    if log.make_room().is_err() {
        return false;
    }
    match number % 6 {
        0 => log.enter(&item_of(number), pid_of(number)),
        1 => log.discard(item_of(number), Cause::NoInstance),
        2 => log.discard(item_of(number), Cause::Gone),
        3 => log.turn(
            pid_of(number),
            Trigger::Fire(item_of(number)),
            &frame_of(number),
            &mut step_of(number),
            &mut done_of(number),
            None,
        ),
        4 => log.turn(
            pid_of(number),
            Trigger::Start,
            &frame_of(number),
            &mut step_of(number),
            &mut done_of(number),
            Some(number as u64),
        ),
        _ => log.skip(&frame_of(number), item_of(number)),
    }
    true
}
