//! The names of the states of each set.
ghost use Rattle.std.specs.Prelude.{◌≡◌};
ghost use Rattle.sdl_chart_text.specs.Legends.{state_text, state_of};

use sdl_signal::{Pid, SetId, StateId};
use std::alloc::{AllocError, Global};
use std::marker::Model;

/// The names of the states of each set, sets by number. Contracts see a list of names for each set.
#[derive(Drop)]
pub struct States {
    sets: Vec<Vec<String>>,
}

impl Model for States {
    ghost use Rattle.std.specs.Prelude.{ℕ, List, map, string_bytes};

    ghost Value = { List (List (List ℕ)) };

    ghost view = { λ s. map (λ names. map (λ n. string_bytes n) names.items) s.sets.items };
}

/// Adds a name behind the others.
fn add(alloc: Global, names: &mut Vec<String>, name: &str) -> Result<(), AllocError> {
    names.push(String::from_str(alloc, name)?)?;
    Ok(())
}

impl States {
    /// No names, of so many sets.
    pub fn new(alloc: Global, sets: usize) -> Result<States, AllocError> {
        let mut lists = Vec::with_capacity(alloc, sets)?;
        for _set in 0..sets {
            lists.push(Vec::new(alloc))?;
        }
        Ok(States { sets: lists })
    }

    /// Says the name of the next state of a set, of which the first is 0. A set that is not there is passed over.
    pub fn say(&mut self, alloc: Global, set: SetId, name: &str) -> Result<(), AllocError> {
        let number = set.0 as usize;
        if number < self.sets.len() {
            add(alloc, &mut self.sets[number], name)?;
        }
        Ok(())
    }

    /// The name of the state of a set. It is empty where there is none.
    pub fn name(&self, set: SetId, state: StateId) -> &str
        ensures { result.now ≡ state_text self.now set state }
    {
        match self.sets.get(set.0 as usize) {
            Some(names) => match names.as_slice().get(state.0 as usize) {
                Some(name) => name.as_str(),
                None => "",
            },
            None => "",
        }
    }

    /// The name of the state of an instance. It is empty where there is none.
    pub fn name_of(&self, pid: Pid, state: StateId) -> &str
        ensures { result.now ≡ state_of self.now pid state }
    {
        match pid {
            Pid::Inst(set, _) => self.name(set, state),
            Pid::Env => "",
            Pid::Null => "",
        }
    }
}
