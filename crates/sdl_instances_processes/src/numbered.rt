//! A list of the signals that have come to a port and are still in it. Only clauses read it, and it takes no memory.
ghost use Rattle.std.specs.Prelude.{◌≡◌, ◌++◌, ◌∷◌, []};
ghost use Rattle.sdl_instances_processes.specs.Arrivals.{without};

use sdl_signal::Item;
use std::marker::Model;
use std::snapshot::Snapshot;

/// A signal in a port, with the number of its arrival.
#[derive(Drop)]
pub struct Numbered {
    pub number: u64,
    pub item: Item,
}

/// How a list of arrivals was made. A value of it is made for a moment, and never kept.
#[derive(Drop)]
pub enum Made {
    Nothing,
    More(Snapshot<Snapshot<Made>>, Snapshot<Numbered>),
    Less(Snapshot<Snapshot<Made>>, usize),
}

/// A list of arrivals. It has no bytes, and contracts see it as the list.
#[derive(Drop)]
pub struct ArrivalList {
    made: Snapshot<Made>,
}

impl Model for ArrivalList {
    ghost use Rattle.std.specs.Prelude.{List};
    ghost use Rattle.sdl_instances_processes.specs.declared.numbered.Numbered.{Numbered};
    ghost use Rattle.sdl_instances_processes.specs.Made.{list_of};

    ghost Value = { List Numbered };

    ghost view = { λ l. list_of l.made.value };
}

impl ArrivalList {
    /// No arrival.
    #[inline(always)]
    pub fn empty() -> ArrivalList
        ensures { result ≡ [] }
    {
        ArrivalList {
            made: Snapshot::of(&Made::Nothing),
        }
    }

    /// Adds the arrival at the end.
    #[inline(always)]
    pub fn push(&mut self, arrival: &Numbered)
        ensures { self.new ≡ self.old ++ arrival.now ∷ [] }
    {
        self.made = Snapshot::of(&Made::More(Snapshot::of(&self.made), Snapshot::of(arrival)));
    }

    /// Takes the first arrival of this signal out.
    #[inline(always)]
    pub fn leave(&mut self, signal: usize)
        ensures { self.new ≡ without signal self.old }
    {
        self.made = Snapshot::of(&Made::Less(Snapshot::of(&self.made), signal));
    }
}
