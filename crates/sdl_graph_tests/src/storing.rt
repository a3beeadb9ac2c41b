//! The transitions of the pair, stored and bound.
use super::graphs::Graphs;
use sdl_graph_binding::{Design, GraphAgents, GraphFault, Stored, bind_graph};
use sdl_test_systems::{Stop, routes_of};
use sdl_transition_behaviour::{Behaviour, Frame, Run};
use std::alloc::{AllocError, Global};

/// A set of a bound system: its number, the numbers of its start transition and of its first row, and how many rows, states,
/// variables and saves it has.
#[derive(Clone, Copy, PartialEq, Eq)]
pub struct BoundSet {
    pub set: u32,
    pub start: u32,
    pub row: Option<u32>,
    pub counts: (usize, usize, usize, usize),
}

fn bound_set(behaviour: &Behaviour<GraphAgents<Graphs>>) -> BoundSet {
    let row = match behaviour.rows.as_slice() {
        [first, ..] => Some(first.transition.number),
        [] => None,
    };
    BoundSet {
        set: behaviour.set.0,
        start: behaviour.start.number,
        row,
        counts: (
            behaviour.rows.len(),
            behaviour.states.len(),
            behaviour.vars.len(),
            behaviour.saves.len(),
        ),
    }
}

/// Stores the transitions of these numbers and binds them to the structure, and answers the sets of the first block. An
/// unusable structure answers an empty list.
pub fn bind_pair(
    alloc: Global,
    text: &str,
    design: &Design,
    numbers: &[u32],
) -> Result<Vec<BoundSet>, GraphFault> {
    let (checked, routes) = match routes_of(alloc, text) {
        Ok(both) => both,
        Err(Stop::Memory) => return Err(GraphFault::Memory),
        Err(Stop::Wrong(_)) => return Ok(Vec::new(alloc)),
    };
    let mut stored: Stored<Graphs> = Stored::new(alloc);
    for number in numbers.iter().copied() {
        let Some(own) = stored.answering(number) else {
            break;
        };
        let offer = own.offer();
        let run: Run = match Box::new(alloc, move |frame: &Frame| own.answer(frame)) {
            Ok(run) => run,
            Err(_) => break,
        };
        stored.keep(number, offer, run);
    }
    let (transitions, _breaches) = stored.into_parts()?;
    let bound = bind_graph(alloc, checked, routes, design, transitions)?;
    let (_checked, _routes, blocks) = bound.into_blocks();
    match blocks.as_slice() {
        [block, ..] => match bound_sets(alloc, block.behaviours.as_slice()) {
            Ok(sets) => Ok(sets),
            Err(_) => Err(GraphFault::Memory),
        },
        [] => Ok(Vec::new(alloc)),
    }
}

fn bound_sets(
    alloc: Global,
    behaviours: &[Behaviour<GraphAgents<Graphs>>],
) -> Result<Vec<BoundSet>, AllocError> {
    let mut sets = Vec::new(alloc);
    for behaviour in behaviours {
        sets.push(bound_set(behaviour))?;
    }
    Ok(sets)
}

/// After a fault nothing is stored, and the first fault is the one that is named: the pair has no offer of the number 5, and one
/// of the number 4 that can't end.
#[test]
fn the_first_fault_stays(rt: HostRuntime) {
    let mut stored: Stored<Graphs> = Stored::new(rt.alloc());
    assert!(rt; stored.answering(5).is_none());
    assert!(rt; stored.answering(4).is_none());
    assert!(rt; stored.answering(0).is_none());
    assert!(rt; matches!(stored.into_parts(), Err(GraphFault::NoOffer(5))));
}

/// A transition whose closure found no memory is not kept.
#[test]
fn what_is_not_kept_is_a_refusal_of_memory(rt: HostRuntime) {
    let mut stored: Stored<Graphs> = Stored::new(rt.alloc());
    assert!(rt; stored.answering(0).is_some());
    assert!(rt; stored.answering(1).is_none());
    assert!(rt; matches!(stored.into_parts(), Err(GraphFault::Memory)));
}
