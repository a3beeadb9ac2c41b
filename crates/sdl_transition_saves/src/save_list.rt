//! A list of saves that only clauses read. It takes no memory.
ghost use Rattle.std.specs.Prelude.{◌≡◌, ◌∷◌, []};

use crate::save::Save;
use std::marker::Model;
use std::snapshot::Snapshot;

/// How a list of saves was made. A value of it is made for a moment, and never kept.
#[derive(Drop)]
pub enum Made {
    Empty,
    Longer(Snapshot<Made>, Save),
    Same(Snapshot<Snapshot<Made>>),
}

/// A list of saves. It has no bytes, and contracts see it as the list.
#[derive(Drop)]
pub struct SaveList {
    made: Snapshot<Made>,
}

impl Model for SaveList {
    ghost use Rattle.std.specs.Prelude.{List};
    ghost use Rattle.sdl_transition_saves.specs.declared.save.Save.{Save};
    ghost use Rattle.sdl_transition_saves.specs.Lists.{list_of};

    ghost Value = { List Save };

    ghost view = { λ l. list_of l.made.value };
}

impl SaveList {
    /// No save.
    pub fn empty() -> SaveList
        ensures { result ≡ [] }
    {
        SaveList {
            made: Snapshot::of(&Made::Empty),
        }
    }

    /// The save, and then these.
    pub fn after(self, save: Save) -> SaveList
        ensures { result ≡ save ∷ self }
    {
        let SaveList { made } = self;
        SaveList {
            made: Snapshot::of(&Made::Longer(made, save)),
        }
    }

    /// The same saves.
    pub fn same(&self) -> SaveList
        ensures { result ≡ self.now }
    {
        SaveList {
            made: Snapshot::of(&Made::Same(Snapshot::of(&self.made))),
        }
    }
}
