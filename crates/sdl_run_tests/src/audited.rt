//! What an audit says of what a run of Echo left, and of it with one part changed.
use crate::changes::Change;
use crate::one_item::rest_of_one;
use crate::streams::{Form, WELL, run};
use sdl_run::AuditFault;
use sdl_signal::RouteId;
use sdl_test_systems::Stop;
use std::alloc::Global;
use std::sync::Wait;
use std::test::Fail;
use std::thread::Threads;

/// What an audit says of a run on one thread, with this change.
fn answer<T: Threads + Wait + Sync>(
    rt: &T,
    alloc: Global,
    change: Change,
) -> Result<Result<(), AuditFault>, Stop> {
    let left = run(rt, alloc, Form::OneThread, &WELL, change)?;
    Ok(left.audited)
}

/// What an audit says where the inlet holds one item more.
fn answer_to_one_more<T: Threads + Wait + Sync>(
    rt: &T,
    alloc: Global,
) -> Result<Result<(), AuditFault>, Stop> {
    let rest = rest_of_one(rt, alloc, RouteId(0))?;
    answer(rt, alloc, Change::InInlet(rest))
}

#[test]
fn an_audit_finds_the_least_route_or_else_the_ledger(rt: HostRuntime) -> Result<(), Fail> {
    let alloc = rt.alloc();
    let unreceived = answer(&rt, alloc, Change::Unreceived)?;
    assert!(rt; unreceived == Err(AuditFault::Route(RouteId(1))));
    let one_left = answer(&rt, alloc, Change::OneLeft)?;
    assert!(rt; one_left == Err(AuditFault::Ledger));
    let one_more = answer_to_one_more(&rt, alloc)?;
    assert!(rt; one_more == Err(AuditFault::Route(RouteId(0))));
    Ok(())
}

// Run it with each allocation refused in turn: a refusal of the audit's own is told, and else the route.
#[test]
fn a_refused_audit_says_so(rt: HostRuntime) -> Result<(), Fail> {
    match answer_to_one_more(&rt, rt.alloc()) {
        Ok(Err(AuditFault::Route(route))) => assert!(rt; route == RouteId(0)),
        Ok(Err(AuditFault::Memory)) => {}
        Ok(_) => assert!(rt; false),
        Err(Stop::Memory) => {}
        Err(stop) => return Err(Fail::from(stop)),
    }
    Ok(())
}
