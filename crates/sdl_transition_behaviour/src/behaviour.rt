//! The behaviour of a set of process instances.
ghost use Rattle.std.specs.Prelude.{◌≡◌, ◌<◌, [], ◌∷◌, ◌++◌, if◌then◌else◌, is_ok, IfErr, vec_len};
ghost use Rattle.sdl_transition_behaviour.specs.Transitions.{IsAllowed, IsAllowedBehaviour};

use crate::agents::Agents;
use crate::transition::Transition;
use arrayvec::ArrayVec;
use sdl_signal::{Name, SetId, SignalId, StateId, Value};
use sdl_transition_saves::Save;
use std::alloc::{AllocError, Global};

/// What a number of a behaviour stands for.
#[derive(Clone, Copy, Debug, PartialEq, Eq)]
pub enum Kind {
    Signal,
    Set,
    Gate,
    Channel,
}

/// A number that a behaviour uses, with the name that it means by it. The structure is to have that name at that
/// number.
#[derive(Drop)]
pub struct Named {
    pub kind: Kind,
    pub number: u32,
    pub name: Name,
}

/// What an instance does in a state on a signal.
#[derive(Drop)]
pub struct Row<S> {
    pub state: StateId,
    pub signal: SignalId,
    pub transition: Transition<S>,
}

/// What the instances of a set do: the names that are meant, the initial variables, the names of the states, and the
/// start transition; a row for each state and signal that it does not leave to the implicit transition; and the signals
/// that its states save.
#[derive(Drop)]
pub struct Behaviour<S> {
    pub set: SetId,
    pub uses: Vec<Named>,
    pub vars: ArrayVec<Value, 8>,
    pub states: ArrayVec<Name, 16>,
    pub start: Transition<S>,
    pub rows: Vec<Row<S>>,
    pub saves: Vec<Save>,
}

impl<S: Agents> Behaviour<S> {
    /// A behaviour with neither uses, rows nor saves. No memory is taken.
    pub fn new(
        alloc: Global,
        set: SetId,
        vars: ArrayVec<Value, 8>,
        states: ArrayVec<Name, 16>,
        start: Transition<S>,
    ) -> Behaviour<S>
        requires { IsAllowed S.may start }
        ensures set { result.set ≡ set }
        ensures vars { result.vars ≡ vars }
        ensures states { result.states ≡ states }
        ensures start { result.start ≡ start }
        ensures uses { result.uses.items ≡ [] }
        ensures rows { result.rows.items ≡ [] }
        ensures saves { result.saves.items ≡ [] }
        ensures allowed { IsAllowedBehaviour S.may result }
    {
        Behaviour {
            set,
            uses: Vec::new(alloc),
            vars,
            states,
            start,
            rows: Vec::new(alloc),
            saves: Vec::new(alloc),
        }
    }

    /// Adds a use, or hands it back for want of memory.
    pub fn add_use(&mut self, named: Named) -> Result<(), (Named, AllocError)>
        requires { vec_len self.old.uses < 256 }
        ensures uses { self.new.uses.items ≡ (if is_ok result then self.old.uses.items ++ named ∷ [] else self.old.uses.items) }
        ensures returned { IfErr result (λ e. e.0 ≡ named) }
        ensures same { self.new ≡ record self.old { uses = self.new.uses } }
    {
        match self.uses.push(named) {
            Ok(()) => Ok(()),
            Err(failed) => Err((failed.value, AllocError)),
        }
    }

    /// Adds a row, or hands it back for want of memory.
    pub fn add_row(&mut self, row: Row<S>) -> Result<(), (Row<S>, AllocError)>
        requires room { vec_len self.old.rows < 256 }
        requires allowed { IsAllowed S.may row.transition }
        requires rest { IsAllowedBehaviour S.may self.old }
        ensures rows { self.new.rows.items ≡ (if is_ok result then self.old.rows.items ++ row ∷ [] else self.old.rows.items) }
        ensures returned { IfErr result (λ e. e.0 ≡ row) }
        ensures same { self.new ≡ record self.old { rows = self.new.rows } }
        ensures allowed { IsAllowedBehaviour S.may self.new }
    {
        match self.rows.push(row) {
            Ok(()) => Ok(()),
            Err(failed) => Err((failed.value, AllocError)),
        }
    }

    /// Adds that the state saves the signal (Z.101, save), or hands both back for want of memory. Then nothing changes.
    pub fn add_save(
        &mut self,
        state: StateId,
        signal: SignalId,
    ) -> Result<(), (StateId, SignalId, AllocError)>
        requires { vec_len self.old.saves < 256 }
        ensures saves { self.new.saves.items ≡ (if is_ok result then self.old.saves.items ++ record { state = state; signal = signal } ∷ [] else self.old.saves.items) }
        ensures returned { IfErr result (λ e. (e.0 ≡ state) × (e.1 ≡ signal)) }
        ensures same { self.new ≡ record self.old { saves = self.new.saves } }
    {
        match self.saves.push(Save { state, signal }) {
            Ok(()) => Ok(()),
            Err(_) => Err((state, signal, AllocError)),
        }
    }
}
