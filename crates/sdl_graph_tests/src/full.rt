//! Behaviours with as many uses, rows and saves as there may be.
ghost use Rattle.std.specs.Prelude.{◌<◌, vec_len};
ghost use Rattle.sdl_transition_behaviour.specs.Transitions.{IsAllowed, IsAllowedBehaviour};

use super::anything::Anything;
use super::drafts::named;
use arrayvec::ArrayVec;
use sdl_agents::offers::start_offer;
use sdl_agents::steps::begin;
use sdl_signal::{SetId, SignalId, StateId};
use sdl_transition::{Agents, Behaviour, Frame, Kind, Named, Row, Run, Save, Transition};
use std::alloc::Global;

/// How many uses, rows and saves a behaviour has at most.
const MOST: usize = 256;

/// A behaviour with this start.
fn behaviour_of(alloc: Global, start: Transition<Anything>) -> Behaviour<Anything>
    requires { IsAllowed (λ _ _ _. Unit {0}) start }
    ensures { IsAllowedBehaviour (λ _ _ _. Unit {0}) result }
{
    Behaviour::new(alloc, SetId(0), ArrayVec::new(), ArrayVec::new(), start)
}

/// Adds a use of this number. Where memory is refused, what was handed back is added once more.
fn add_use(behaviour: &mut Behaviour<Anything>, number: u32) -> Option<()>
    requires { vec_len behaviour.old.uses < 256 }
{
    let used = named(Kind::Signal, number, "ping")?;
    match behaviour.add_use(used) {
        Ok(()) => Some(()),
        Err((same, _)) => behaviour.add_use(same).ok(),
    }
}

/// Whether there are as many uses as may be, each with its place as its number.
fn uses_in_order(uses: &[Named]) -> bool {
    let mut numbered = uses.iter().enumerate();
    uses.len() == MOST && numbered.all(|(place, used)| used.number as usize == place)
}

/// Adds the row. Where memory is refused, what was handed back is added once more.
fn add_row(behaviour: &mut Behaviour<Anything>, row: Row<Anything>) -> Option<()>
    requires room { vec_len behaviour.old.rows < 256 }
    requires row { IsAllowed (λ _ _ _. Unit {0}) row.transition }
    requires rest { IsAllowedBehaviour (λ _ _ _. Unit {0}) behaviour.old }
    ensures { IsAllowedBehaviour (λ _ _ _. Unit {0}) behaviour.new }
{
    match behaviour.add_row(row) {
        Ok(()) => Some(()),
        Err((same, _)) => behaviour.add_row(same).ok(),
    }
}

/// Whether there are as many rows as may be, each for the signal with its place as its number.
fn rows_in_order(rows: &[Row<Anything>]) -> bool {
    let mut numbered = rows.iter().enumerate();
    rows.len() == MOST && numbered.all(|(place, row)| row.signal.0 as usize == place)
}

/// The save of this number: state by state, 64 signals each.
fn save_of(number: u32) -> Save {
    Save {
        state: StateId(number / 64),
        signal: SignalId(number % 64),
    }
}

/// Whether it is the save of the number.
fn is_of(save: &Save, number: usize) -> bool {
    save.state.0 as usize == number / 64 && save.signal.0 as usize == number % 64
}

/// Adds the save. Where memory is refused, nothing is added, and what was handed back is added once more.
fn add_save(behaviour: &mut Behaviour<Anything>, save: Save) -> Option<()>
    requires { vec_len behaviour.old.saves < 256 }
{
    let before = behaviour.saves.len();
    match behaviour.add_save(save.state, save.signal) {
        Ok(()) => Some(()),
        Err((state, signal, _)) => {
            if behaviour.saves.len() != before {
                return None;
            }
            behaviour.add_save(state, signal).ok()
        }
    }
}

/// Whether there are as many saves as may be, each at the place of its number.
fn saves_in_order(saves: &[Save]) -> bool {
    let mut numbered = saves.iter().enumerate();
    saves.len() == MOST && numbered.all(|(place, save)| is_of(save, place))
}

/// Adds uses and saves as long as there may be more, each with its place as its number.
fn add_names(behaviour: &mut Behaviour<Anything>) -> Option<()> {
    for number in 0..300 {
        if behaviour.uses.len() < MOST {
            add_use(behaviour, number)?;
        }
        if behaviour.saves.len() < MOST {
            add_save(behaviour, save_of(number))?;
        }
    }
    Some(())
}

/// Fills a behaviour with rows, each for the signal with its place as its number, and with uses and saves. It answers whether
/// it has as many as may be of each, in their order.
fn fill(alloc: Global) -> Option<bool> {
    let run: Run = Box::new(alloc, |frame: &Frame| begin(frame)).ok()?;
    let mut behaviour = behaviour_of(alloc, Transition::store(0, start_offer(1), run));
    for number in 0..300 {
        if behaviour.rows.len() < MOST {
            let run: Run = Box::new(alloc, |frame: &Frame| begin(frame)).ok()?;
            let row = Row {
                state: StateId(0),
                signal: SignalId(number),
                transition: Transition::store(1, start_offer(1), run),
            };
            add_row(&mut behaviour, row)?;
        }
    }
    add_names(&mut behaviour)?;
    Some(
        rows_in_order(behaviour.rows.as_slice())
            && uses_in_order(behaviour.uses.as_slice())
            && saves_in_order(behaviour.saves.as_slice()),
    )
}

// Run it with each allocation refused in turn: what is handed back is added once more.
#[test]
fn a_behaviour_is_filled(rt: HostRuntime) {
    let filled = match fill(rt.alloc()) {
        Some(filled) => Some(filled),
        // the closure of a transition found no memory
        None => fill(rt.alloc()),
    };
    assert!(rt; filled == Some(true));
}
