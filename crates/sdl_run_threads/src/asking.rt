//! When the environment may ask its reader though the others are not at rest.
use crate::told::Told;

/// After how many sleeps in a row that ended by themselves it may, where many steps were made: some systems never rest. So many take
/// 80 ms. That alone does not tell, as the others may want for processors.
const FEW_NAPS: u32 = 10;

/// After how many such sleeps it may in any case: two seconds, in which the others were in one long step, or had no processor.
const MOST_NAPS: u32 = 250;

/// How many steps are many. After so many of its own it may too: it never sleeps where always something comes.
const MANY_STEPS: u64 = 4_096;

/// How many more these are for each item that it put: what comes of a line is awaited, however slowly it comes.
const STEPS_FOR_EACH: u64 = 256;

/// How long the environment has waited for the others to rest.
#[derive(Default, Drop)]
pub(crate) struct Asking {
    /// When it might last ask: how many items it had put, and how many steps of its own and of all workers had done something.
    put: u64,
    steps: u64,
    moved: u64,
    /// How many of its sleeps in a row ended by themselves.
    naps: u32,
}

impl Asking {
    /// Whether it may ask: where the others rest, or where it has waited long enough. It has put so many items in so many steps.
    pub(crate) fn may(&mut self, told: &Told, put: u64, steps: u64) -> bool {
        let may = told.words.all_but_one_rest() || self.has_waited(told, put, steps);
        if may {
            self.put = put;
            self.steps = steps;
            self.moved = told.moved.sum_of_all();
            self.naps = 0;
        }
        may
    }

    fn has_waited(&self, told: &Told, put: u64, steps: u64) -> bool {
        let items = put.saturating_sub(self.put);
        let many = MANY_STEPS.saturating_add(items.saturating_mul(STEPS_FOR_EACH));
        (self.naps >= FEW_NAPS && told.moved.sum_of_all().wrapping_sub(self.moved) >= many)
            || self.naps >= MOST_NAPS
            || steps.saturating_sub(self.steps) >= many
    }

    /// One more of its sleeps ended by itself.
    pub(crate) fn naps(&mut self) {
        self.naps = self.naps.saturating_add(1);
    }

    /// It did something after it slept.
    pub(crate) fn goes_on(&mut self) {
        self.naps = 0;
    }
}
