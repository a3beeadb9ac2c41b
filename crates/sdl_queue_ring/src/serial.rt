//! A queue of one thread.
ghost use Rattle.std.specs.Prelude.{◌≡◌, [], ◌∷◌, ◌++◌, length, MatchResult, MatchOption};
ghost use Rattle.std.specs.VecDeque.Iter.{deque_iter_rest};

use sdl_signal::Item;
use std::alloc::{AllocError, Global};
use std::collections::VecDeque;
use std::collections::vec_deque::Iter;
use std::marker::Model;

/// A first-in first-out queue of items in one thread, which contracts see as its items from the front.
#[derive(Drop)]
pub struct SerialQueue {
    items: VecDeque<Item>,
}

impl Model for SerialQueue {
    ghost use Rattle.std.specs.Prelude.{List};
    ghost use Rattle.sdl_signal.specs.declared.values.Item.{Item};

    ghost Value = { List Item };

    ghost view = { λ q. q.items.items };
}

impl SerialQueue {
    pub fn new(alloc: Global) -> SerialQueue
        ensures { result ≡ [] }
    {
        SerialQueue {
            items: VecDeque::new(alloc),
        }
    }

    /// A queue of these items, of which the first is at the front.
    pub fn of(items: VecDeque<Item>) -> SerialQueue
        ensures { result ≡ items.items }
    {
        SerialQueue { items }
    }

    /// Puts the item at the back. Where memory is refused, the item comes back and the queue is as it was.
    #[inline(always)]
    pub fn put(&mut self, item: Item) -> Result<(), (Item, AllocError)>
        ensures { MatchResult result (λ _. self.new ≡ self.old ++ item ∷ []) (λ back. (back.0 ≡ item) × (self.new ≡ self.old)) }
    {
        // where there is room, no answer with an item in it is made and moved
        if self.items.len() < self.items.capacity() {
            self.items.push_back_reserved(item);
            return Ok(());
        }
        match self.items.push_back(item) {
            Ok(()) => Ok(()),
            Err(refused) => Err((refused.value, AllocError)),
        }
    }

    /// Takes the item at the front.
    #[inline(always)]
    pub fn take(&mut self) -> Option<Item>
        ensures { MatchOption result ((self.old ≡ []) × (self.new ≡ [])) (λ item. self.old ≡ item ∷ self.new) }
    {
        self.items.pop_front()
    }

    pub fn len(&self) -> usize
        ensures { result ≡ length self.now }
    {
        self.items.len()
    }

    /// The items that are left, from the front.
    pub fn left(&self) -> Iter<'_, Item>
        ensures { deque_iter_rest result ≡ self.now }
    {
        self.items.iter()
    }
}
