//! The sets of agents that know their rows from their steps, as a design has them.
ghost use Rattle.std.specs.Prelude.{◌≡◌};
ghost use Rattle.sdl_graph_binding.specs.Agents.{IsDesignOf};

use crate::sets::SetDesign;
use sdl_graph::{Agent, States, is_saved, number_of, transitions_of};
use sdl_signal::{SignalId, StateId, Value};
use std::alloc::{AllocError, Global};

/// A set, as its agents say what it is.
#[derive(Drop)]
pub struct AgentSet {
    pub name: &'static str,
    pub states: Vec<&'static str>,
    pub variables: &'static [Value],
    pub saves: Vec<(StateId, SignalId)>,
    pub transitions: usize,
}

/// The names of the states, in the order of their numbers.
fn names_of<A: Agent>(alloc: Global) -> Result<Vec<&'static str>, AllocError> {
    let mut names = Vec::new(alloc);
    for (_, name) in A::State::STATES {
        names.push(*name)?;
    }
    Ok(names)
}

/// Each state with each signal that it saves.
fn saves_of<A: Agent>(alloc: Global) -> Result<Vec<(StateId, SignalId)>, AllocError> {
    let mut saves = Vec::new(alloc);
    for (state, _) in A::State::STATES {
        add_saves::<A>(&mut saves, *state)?;
    }
    Ok(saves)
}

/// Adds the state with each signal that it saves.
fn add_saves<A: Agent>(
    saves: &mut Vec<(StateId, SignalId)>,
    state: A::State,
) -> Result<(), AllocError> {
    for inward in A::LISTS.inward {
        if is_saved::<A>(state, *inward) {
            saves.push((number_of(state), inward.0))?;
        }
    }
    Ok(())
}

/// The set that the agents are of.
fn agent_set<A: Agent>(alloc: Global) -> Result<AgentSet, AllocError> {
    Ok(AgentSet {
        name: A::LISTS.name,
        states: names_of::<A>(alloc)?,
        variables: A::VARIABLES,
        saves: saves_of::<A>(alloc)?,
        transitions: transitions_of::<A>(),
    })
}

impl AgentSet {
    /// The set, as a design has it.
    pub fn design(&self) -> SetDesign<'_>
        ensures { IsDesignOf self.now result }
    {
        SetDesign {
            name: self.name,
            states: self.states.as_slice(),
            variables: self.variables,
            saves: self.saves.as_slice(),
            transitions: self.transitions,
        }
    }
}

/// The sets of a system in the order of their numbers. Whether each found memory is remembered.
#[derive(Drop)]
pub struct AgentSets {
    alloc: Global,
    sets: Vec<AgentSet>,
    fits: bool,
}

impl AgentSets {
    /// No set.
    pub fn new(alloc: Global) -> AgentSets {
        AgentSets {
            alloc,
            sets: Vec::new(alloc),
            fits: true,
        }
    }

    /// Adds the set of these agents.
    pub fn add<A: Agent>(&mut self) {
        let added = match agent_set::<A>(self.alloc) {
            Ok(set) => self.sets.push(set).is_ok(),
            Err(_) => false,
        };
        self.fits = self.fits && added;
    }

    /// How many transitions the sets have together.
    pub fn transitions(&self) -> u32 {
        let mut transitions = 0_usize;
        for set in self.sets.as_slice() {
            transitions = transitions.saturating_add(set.transitions);
        }
        u32::try_from(transitions).unwrap_or(u32::MAX)
    }

    /// The sets, as a design has them. The error is that memory was refused, here or for a set.
    pub fn designs(&self) -> Result<Vec<SetDesign<'_>>, AllocError> {
        if !self.fits {
            return Err(AllocError);
        }
        let mut designs = Vec::new(self.alloc);
        for set in self.sets.as_slice() {
            designs.push(set.design())?;
        }
        Ok(designs)
    }
}
