//! The page: its rows, and where each item was output.
ghost use Rattle.std.specs.Prelude.{◌≡◌, IfOk, IfErr};
ghost use Rattle.sdl_chart_page.specs.Entries.{entries_of, AreStored};
ghost use Rattle.sdl_chart_page.specs.Pages.{spot_noted};

use crate::by_origin::ByOrigin;
use crate::lists::Lists;
use crate::placing::Placing;
use sdl_instances_packed_log::Shows;
use sdl_signal::Origin;
use std::alloc::{AllocError, Global};
use std::marker::Model;
use thiserror::Error;

/// Why there is no page.
#[derive(Clone, Copy, Debug, PartialEq, Eq, Error)]
pub enum PageFault {
    /// A growth was refused.
    #[error("memory")]
    Memory,
    /// An event is left whose item was output nowhere above. No run that has ended leaves such lists.
    #[error("not whole")]
    NotWhole,
}

/// A row of the page: the event of this number of a list.
#[derive(Clone, Copy)]
pub struct Row {
    pub list: usize,
    pub number: usize,
}

/// Where an item was output: the row, counted from 0, and the item's place among those that were sent in it.
#[derive(Clone, Copy)]
pub struct Spot {
    pub row: usize,
    pub among: usize,
}

/// What is noted of an output while the page is made.
#[derive(Clone, Copy)]
pub enum Standing {
    /// It is not on the page, and no list waits for its item.
    Ahead,
    /// It is not on the page, and the list of this number waits for its item.
    Awaited(usize),
    /// It is on the page.
    Stands(Spot),
}

/// Where an output stands, by what is noted of it.
pub(crate) fn spot_of(place: Option<Standing>) -> Option<Spot>
    ensures { result ≡ spot_noted place }
{
    match place {
        Some(Standing::Stands(spot)) => Some(spot),
        Some(Standing::Awaited(_)) => None,
        Some(Standing::Ahead) => None,
        None => None,
    }
}

/// One order of all events of a run's lists (this project's own). It keeps the order of each list, and no item arrives before it is
/// output. It says nothing of time.
#[derive(Drop)]
pub struct Page {
    rows: Vec<Row>,
    places: ByOrigin<Standing>,
}

impl Model for Page {
    ghost use Rattle.sdl_chart_page.specs.Pages.{Sheet};

    ghost Value = { Sheet };

    ghost view = { λ p. record { rows = p.rows.items; places = p.places } };
}

impl Page {
    ghost use Rattle.sdl_chart_page.specs.Pages.{IsPageOf, AreWhole, AreOrderly, spot_at};

    /// The page of the lists: all events of logs that are stored. There is one of all lists that are orderly, where there is memory.
    /// It takes time in proportion to the events.
    pub fn of<K: Shows>(alloc: Global, lists: &Lists<K>) -> Result<Page, PageFault>
        ensures page { IfOk result (IsPageOf (entries_of K.events lists.now)) }
        ensures whole { IfOk result (λ page. AreStored K.stores lists.now.logs.now → AreWhole (entries_of K.events lists.now) page.rows) }
        ensures fault { IfErr result (λ f. f ≡ PageFault.NotWhole → AreStored K.stores lists.now.logs.now → AreOrderly (entries_of K.events lists.now) → ⊥) }
    {
        let Ok(placing) = Placing::of(alloc, lists) else {
            return Err(PageFault::Memory);
        };
        if !placing.is_whole(lists) {
            return Err(PageFault::NotWhole);
        }
        let (rows, places) = placing.into_parts();
        Ok(Page { rows, places })
    }

    /// The rows from the top.
    pub fn rows(&self) -> &[Row]
        ensures { result.now ≡ self.now.rows }
    {
        self.rows.as_slice()
    }

    /// Where the item of this origin was output, as far as that is on the page.
    pub fn spot(&self, origin: Origin) -> Option<Spot>
        ensures { result ≡ spot_at self.now origin }
    {
        spot_of(self.places.at(origin))
    }

    /// This value for each output of the lists.
    pub fn by_output<T: Copy + Drop>(
        &self,
        alloc: Global,
        value: T,
    ) -> Result<ByOrigin<T>, AllocError> {
        self.places.alike(alloc, value)
    }
}
