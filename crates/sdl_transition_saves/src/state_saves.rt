//! What each state saves.
ghost use Rattle.std.specs.Prelude.{◌≡◌, ◌∷◌, [], ◌<◌, ◌≤◌, ℕ, All, false, get_or, length};
ghost use Rattle.sdl_signal.specs.declared.ids.SignalId.{SignalId as ASignal};
ghost use Rattle.sdl_signal.specs.declared.ids.StateId.{StateId as AState};
ghost use Rattle.sdl_transition_saves.specs.Saves.{holds, no_signal, saved_by, IsInRange};

use crate::save::Save;
use crate::save_list::SaveList;
use crate::signal_set::SignalSet;
use arrayvec::ArrayVec;
use sdl_signal::StateId;
use std::marker::Model;

/// What the states of a behaviour save: a set of signals for each state, by its number, as far as there is one; a behaviour that
/// saves nothing has no set. Contracts see the saves.
#[derive(Drop)]
pub struct StateSaves {
    sets: ArrayVec<SignalSet, 16>,
    list: SaveList,
}

impl Model for StateSaves {
    ghost use Rattle.std.specs.Prelude.{List};
    ghost use Rattle.sdl_transition_saves.specs.declared.save.Save.{Save};
    ghost use Rattle.sdl_transition_saves.specs.Saves.{AreSetsOf};

    ghost Value = { List Save };

    ghost view = { λ s. s.list };

    ghost invariant = { λ s. AreSetsOf s.list s.sets.items };
}

/// Adds sets without a signal until there are so many.
fn fill(sets: &mut ArrayVec<SignalSet, 16>, count: usize)
    requires { count ≤ 16 }
    ensures same { (n : ℕ) (s : ASignal) → holds (get_or sets.new.items n no_signal) s ≡ holds (get_or sets.old.items n no_signal) s }
    ensures long { count ≤ length sets.new.items }
{
    for _ in sets.len()..count {
        sets.push(SignalSet::none());
    }
}

impl StateSaves {
    /// Nothing is saved.
    pub fn none() -> StateSaves
        ensures { result ≡ [] }
    {
        StateSaves {
            sets: ArrayVec::new(),
            list: SaveList::empty(),
        }
    }

    /// What these saves say.
    pub fn of(saves: &[Save]) -> StateSaves
        requires { All IsInRange saves.now }
        ensures { result ≡ saves.now }
    {
        match saves {
            [] => StateSaves::none(),
            [save, rest @ ..] => StateSaves::of(rest).with(*save),
        }
    }

    /// The save, and then these.
    fn with(self, save: Save) -> StateSaves
        requires { IsInRange save }
        ensures { result ≡ save ∷ self }
    {
        let StateSaves { sets, list } = self;
        let mut sets = sets;
        let state = save.state.0 as usize;
        fill(&mut sets, state + 1);
        sets[state].add(save.signal);
        StateSaves {
            sets,
            list: list.after(save),
        }
    }

    /// What the state saves.
    #[inline(always)]
    pub fn in_state(&self, state: StateId) -> SignalSet
        ensures { (s : ASignal) → holds result s ≡ saved_by self.now state s }
    {
        match self.sets.get(state.0 as usize) {
            Some(set) => *set,
            None => SignalSet::none(),
        }
    }

    /// Whether there may be a save.
    #[inline(always)]
    pub fn may_save(&self) -> bool
        ensures { result ≡ false → (q : AState) (s : ASignal) → saved_by self.now q s ≡ false }
    {
        self.sets.len() > 0
    }

    /// The same saves.
    pub fn copied(&self) -> StateSaves
        ensures { result ≡ self.now }
    {
        let mut sets = ArrayVec::new();
        match sets.try_extend_from_slice(self.sets.as_slice()) {
            Ok(()) => {}
            Err(_) => unreachable!(),
        }
        StateSaves {
            sets,
            list: self.list.same(),
        }
    }
}
