//! The rule of a queue with separate ends, and what each step on it tells. But for `Tagged`, whose values stand in the
//! queue, the types here are for the proofs alone.
use crossbeam_queue::protocol::{Join, Lesson, Outcome, Protocol, Split};
use crossbeam_queue::{RuledSegQueue, SegPass};
use sdl_signal::Item;
use std::collections::LinkedList;

/// An item with the number of the feeder that put it. It is filled up to 160 bytes, so that a processor copies it in whole parts
/// of 32: the last of 144 bytes would be copied as a part that overlaps the one before. Who then reads that part waits until both
/// are stored.
#[derive(Drop)]
pub struct Tagged {
    pub item: Item,
    pub feeder: u32,
    pub pad: u64,
    pub more_pad: u64,
}

/// What one feeder put, in order.
pub struct PutList {
    pub number: u32,
    pub items: LinkedList<Item>,
}

/// What the tap knows: how many feeders there are, what was taken, what the feeders that have come back put,
/// and the longest history that one of these saw.
pub struct Taking {
    pub feeders: u32,
    pub taken: LinkedList<Tagged>,
    pub joined: LinkedList<PutList>,
    pub latest: LinkedList<Tagged>,
}

/// What a pass knows.
pub enum View {
    /// Nothing: it was taken back.
    Spent,
    /// A feeder, of this number: all that was put, by whomever, up to its own last item.
    Feeds(u32, LinkedList<Tagged>),
    /// The tap.
    Takes(Taking),
}

/// The rule.
pub struct InOrder;

impl Protocol<Tagged, View> for InOrder {
    ghost use Rattle.sdl_queue.specs.Rule.{InLine, unfed};

    ghost holds = { InLine };

    ghost first = { unfed };
}

/// A pass is given out to one more feeder.
pub struct Enrol;

impl Split<View> for Enrol {
    ghost use Rattle.sdl_queue.specs.Rule.{with_feeder, new_feeder};

    ghost left = { with_feeder };

    ghost right = { new_feeder };
}

/// The pass of a feeder that has come back is taken back.
pub struct Gather;

impl Join<View> for Gather {
    ghost use Rattle.sdl_queue.specs.Rule.{gathered};
    ghost use Rattle.sdl_queue.specs.declared.rule.View.TheVariants.{Spent};

    ghost both = { gathered };

    ghost spent = { Spent };
}

/// A feeder puts.
pub struct Feeding;

impl Outcome<Tagged, View> for Feeding {
    ghost use Rattle.sdl_queue.specs.Rule.{HasPut};

    ghost then = { HasPut };
}

/// The tap takes, or finds nothing.
pub struct Tapping;

impl Outcome<Tagged, View> for Tapping {
    ghost use Rattle.sdl_queue.specs.Rule.{HasTaken};

    ghost then = { HasTaken };
}

impl Lesson<Tagged, View> for Tapping {
    ghost use Rattle.std.specs.Prelude.{⊤};

    ghost fact = { λ v items. ⊤ };
}

/// A look at the whole queue, or a take from it, once every feeder has come back.
pub struct Settling;

impl Outcome<Tagged, View> for Settling {
    ghost use Rattle.sdl_queue.specs.Rule.{HasTakenRejoined};

    ghost then = { HasTakenRejoined };
}

impl Lesson<Tagged, View> for Settling {
    ghost use Rattle.sdl_queue.specs.Rule.{IsRejoined};

    ghost fact = { IsRejoined };
}

/// A queue under the rule.
pub type Queue = RuledSegQueue<Tagged, View, InOrder>;

/// What an end holds of it. It has no bytes.
pub type Pass = SegPass<Tagged, View>;

/// The queue that the ends share.
pub struct Line {
    pub queue: Queue,
}

impl Drop for Line {
    fn drop(self) {
        let Self { queue } = self;
        queue.destroy();
    }
}
