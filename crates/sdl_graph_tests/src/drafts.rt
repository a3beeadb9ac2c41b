//! Behaviours whose transitions lead to idle and do nothing, whatever they offer.
ghost use Rattle.std.specs.Prelude.{◌≡◌, [], ◌∷◌};

use super::anything::Anything;
use super::outcomes::{Outcome, bind_or_retry};
use arrayvec::ArrayVec;
use sdl_agents::steps::idle;
use sdl_signal::{Name, SetId, SignalId, Sort, StateId};
use sdl_test_systems::routes_of;
use sdl_transition::{
    Behaviour, Frame, Kind, Named, Offer, OfferedOutput, Row, Run, Save, SignalSorts, Transition,
    Via,
};
use std::alloc::Global;

/// A row on a signal with one parameter, with an offer of its own state and signal.
#[derive(Clone, Copy)]
pub struct RowDraft {
    pub state: u32,
    pub signal: u32,
    pub sort: Sort,
    pub output: u32,
    pub via: Via,
    pub create: Option<SetId>,
    pub sets: u32,
}

/// A behaviour of the set, in one state.
#[derive(Clone, Copy)]
pub struct Draft {
    pub set: u32,
    pub uses: &'static [(Kind, u32, &'static str)],
    pub sets: u32,
    pub rows: &'static [RowDraft],
    pub saves: &'static [(u32, u32)],
}

/// A use of a name.
pub fn named(kind: Kind, number: u32, text: &str) -> Option<Named> {
    let name = sdl_signal::name(text)?;
    Some(Named { kind, number, name })
}

fn one(sort: Sort) -> ArrayVec<Sort, 4> {
    let mut sorts = ArrayVec::new();
    sorts.push(sort);
    sorts
}

/// The offer of a row, or of a start.
fn offer_of(sets: u32, row: Option<&RowDraft>) -> Offer
    ensures vars { result.vars.items ≡ [] }
    ensures nexts { result.nexts.items ≡ record { 0 = 0 } ∷ [] }
{
    let mut nexts = ArrayVec::new();
    nexts.push(StateId(0));
    let mut offer = Offer {
        state: None,
        signal: None,
        vars: ArrayVec::new(),
        outputs: ArrayVec::new(),
        creates: ArrayVec::new(),
        nexts,
        may_stop: false,
        sets,
    };
    if let Some(row) = row {
        offer.state = Some(StateId(row.state));
        offer.signal = Some(SignalSorts {
            id: SignalId(row.signal),
            sorts: one(row.sort),
        });
        offer.outputs.push(OfferedOutput {
            signal: SignalSorts {
                id: SignalId(row.output),
                sorts: one(Sort::Integer),
            },
            via: row.via,
        });
        if let Some(set) = row.create {
            offer.creates.push(set);
        }
    }
    offer
}

/// Binds the behaviours to the structure of the file. `None` where memory was refused before that.
fn bind_to_file(
    alloc: Global,
    file: &str,
    behaviours: Vec<Behaviour<Anything>>,
) -> Option<Outcome> {
    match routes_of(alloc, file) {
        Ok((checked, routes)) => Some(bind_or_retry(alloc, checked, routes, behaviours)),
        Err(_) => None,
    }
}

/// The numbers that a draft uses, with their names.
fn uses_of(alloc: Global, draft: &Draft) -> Option<Vec<Named>> {
    let mut uses = Vec::new(alloc);
    for (kind, number, text) in draft.uses {
        uses.push(named(*kind, *number, text)?).ok()?;
    }
    Some(uses)
}

/// The one state of a draft.
fn states() -> Option<ArrayVec<Name, 16>> {
    let mut states = ArrayVec::new();
    states.push(sdl_signal::name("idle")?);
    Some(states)
}

fn saves_of(alloc: Global, draft: &Draft) -> Option<Vec<Save>> {
    let mut saves = Vec::new(alloc);
    for (state, signal) in draft.saves {
        let save = Save {
            state: StateId(*state),
            signal: SignalId(*signal),
        };
        saves.push(save).ok()?;
    }
    Some(saves)
}

/// What a behaviour has beside its transitions.
#[derive(Drop)]
struct Plain {
    uses: Vec<Named>,
    states: ArrayVec<Name, 16>,
    saves: Vec<Save>,
}

fn plain_of(alloc: Global, draft: &Draft) -> Option<Plain> {
    Some(Plain {
        uses: uses_of(alloc, draft)?,
        states: states()?,
        saves: saves_of(alloc, draft)?,
    })
}

/// Makes the closures, stores them and binds the behaviours. `None` where memory was refused before that.
pub fn bind_drafts(alloc: Global, file: &str, drafts: &[Draft]) -> Option<Outcome> {
    let mut behaviours = Vec::new(alloc);
    for draft in drafts {
        let plain = plain_of(alloc, draft)?;
        let run: Run = Box::new(alloc, |_frame: &Frame| idle(ArrayVec::new())).ok()?;
        let start: Transition<Anything> = Transition::store(0, offer_of(draft.sets, None), run);
        let mut rows = Vec::new(alloc);
        for row in draft.rows {
            let run: Run = Box::new(alloc, |_frame: &Frame| idle(ArrayVec::new())).ok()?;
            let offer = offer_of(row.sets, Some(row));
            rows.push(Row {
                state: StateId(row.state),
                signal: SignalId(row.signal),
                transition: Transition::store(1, offer, run),
            })
            .ok()?;
        }
        let Plain {
            uses,
            states,
            saves,
        } = plain;
        behaviours
            .push(Behaviour {
                set: SetId(draft.set),
                uses,
                vars: ArrayVec::new(),
                states,
                start,
                rows,
                saves,
            })
            .ok()?;
    }
    bind_to_file(alloc, file, behaviours)
}
