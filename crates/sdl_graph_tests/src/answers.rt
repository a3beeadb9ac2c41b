//! What marked answers are, and what is marked.
use super::breaking::{STEPS, breaking_frame, offer, step};
use sdl_graph_binding::{Breaches, Broken, keep_to_offer};
use sdl_signal::StateId;
use sdl_transition_behaviour::{Next, Step};
use sdl_transition_conformance::{Breach, first_broken};
use std::alloc::{AllocError, Global};
use std::process::Abort;

/// The number of the step that conforms to the offer.
const CONFORMING: u32 = 0;

/// The answer of this number, kept to its offer.
fn kept_answer(number: u32, breaches: &Breaches) -> Step {
    let mut answer = step(number);
    keep_to_offer(number, &offer(), &breaking_frame(), &mut answer, breaches);
    answer
}

#[test]
fn a_conforming_answer_stands_unmarked(rt: HostRuntime) -> Result<(), AllocError> {
    let breaches = Breaches::new(rt.alloc())?;
    let answer = kept_answer(CONFORMING, &breaches);
    let own = step(CONFORMING);
    assert!(rt; answer.actions.as_slice() == own.actions.as_slice());
    assert!(rt; answer.actions.len() == 2);
    assert!(rt; answer.vars.as_slice() == own.vars.as_slice());
    assert!(rt; answer.next == Next::State(StateId(1)));
    assert!(rt; breaches.broken() == None);
    Ok(())
}

/// The answer of this number is replaced by the step that does nothing, and marked.
fn does_nothing(
    rt: &impl Abort,
    alloc: Global,
    number: u32,
    breach: Breach,
) -> Result<(), AllocError> {
    let breaches = Breaches::new(alloc)?;
    let answer = kept_answer(number, &breaches);
    assert!(rt; answer.actions.is_empty(), "step {number}");
    assert!(rt; answer.vars.as_slice() == breaking_frame().vars.as_slice());
    assert!(rt; answer.next == Next::State(StateId(0)));
    let wanted = Broken {
        first: number,
        breach,
        count: 1,
    };
    assert!(rt; breaches.broken() == Some(wanted), "step {number}");
    Ok(())
}

/// The first part that the offer does not allow is named.
#[test]
fn a_broken_answer_does_nothing(rt: HostRuntime) -> Result<(), AllocError> {
    let mut number: u32 = 0;
    for (_, breach) in STEPS.iter() {
        assert!(rt;
            first_broken(&offer(), &step(number)) == *breach,
            "step {number}"
        );
        if let Some(breach) = breach {
            does_nothing(&rt, rt.alloc(), number, *breach)?;
        }
        number = number.saturating_add(1);
    }
    Ok(())
}

/// Whichever share the answers have, the first is named, and all are counted.
#[test]
fn the_first_is_named_and_all_are_counted(rt: HostRuntime) -> Result<(), AllocError> {
    let breaches = Breaches::new(rt.alloc())?;
    let share = breaches.share()?;
    for number in [CONFORMING, 9, 3, CONFORMING, 9, 1] {
        let own = if number == 3 { &share } else { &breaches };
        let _step = kept_answer(number, own);
    }
    let wanted = Some(Broken {
        first: 9,
        breach: Breach::Variable(1),
        count: 4,
    });
    assert!(rt; breaches.broken() == wanted);
    assert!(rt; share.broken() == wanted);
    Ok(())
}

#[test]
fn the_least_and_the_greatest_number_are_named(rt: HostRuntime) -> Result<(), AllocError> {
    for number in [0, u32::MAX] {
        let breaches = Breaches::new(rt.alloc())?;
        breaches.note(number, Breach::Stop);
        let wanted = Some(Broken {
            first: number,
            breach: Breach::Stop,
            count: 1,
        });
        assert!(rt; breaches.broken() == wanted);
    }
    Ok(())
}
