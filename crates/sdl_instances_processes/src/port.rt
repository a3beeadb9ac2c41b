//! The input port of an instance.
ghost use Rattle.std.specs.Prelude.{◌≡◌, ◌<◌, ◌++◌, ◌∷◌, [], List, OnOk, OnErr, IfSome, IfNone, IsSome, Some, None, true, option_copied, is_some, length};
ghost use Rattle.sdl_signal.specs.declared.values.Item.{Item as AnItem};
ghost use Rattle.sdl_transition_saves.specs.Saves.{holds, no_signal};
ghost use Rattle.sdl_instances_processes.specs.Ports.{Held, TakesOut, next_in};

use crate::by_signal::ItemsBySignal;
use sdl_signal::Item;
use sdl_transition_saves::SignalSet;
use std::alloc::{AllocError, Global};
use std::collections::VecDeque;
use std::marker::Model;

/// An input port: signals in the order of their arrival, from which the first is taken that the state does not save. Where no
/// state saves anything they stand in one queue, and else in a queue for each signal.
#[derive(Drop)]
pub struct Port {
    /// What the state saves.
    current: SignalSet,
    /// Whether some state may save something.
    may_save: bool,
    /// The signals, where no state saves anything.
    queue: VecDeque<Item>,
    /// The signals, where some state may save something.
    by_signal: ItemsBySignal,
}

impl Model for Port {
    ghost use Rattle.std.specs.Prelude.{◌≡◌, false, if◌then◌else◌};
    ghost use Rattle.sdl_transition_saves.specs.Saves.{no_signal};
    ghost use Rattle.sdl_instances_processes.specs.Ports.{Held};

    ghost Value = { Held };

    ghost view = { λ p. record { items = if p.may_save then p.by_signal else p.queue.items; current = p.current; may_save = p.may_save } };

    ghost invariant = { λ p. p.may_save ≡ false → p.current ≡ no_signal };
}

impl Port {
    /// An empty port. No memory is taken.
    pub fn new(alloc: Global, may_save: bool) -> Port
        ensures { result ≡ record { items = []; current = no_signal; may_save = may_save } }
    {
        Port {
            current: SignalSet::none(),
            may_save,
            queue: VecDeque::new(alloc),
            by_signal: ItemsBySignal::new(alloc),
        }
    }

    /// Whether some state may save something.
    #[inline(always)]
    pub fn may_save(&self) -> bool
        ensures { result ≡ self.now.may_save }
    {
        self.may_save
    }

    /// Puts the item of the slot, where it has one, at the back, and leaves the slot empty. A refusal changes nothing.
    #[inline(always)]
    pub fn receive_from(&mut self, slot: &mut Option<Item>) -> Result<(), AllocError>
        ensures ok { OnOk result ((slot.new ≡ None) × IfSome slot.old (λ item. self.new ≡ record self.old { items = self.old.items ++ item ∷ [] }) × IfNone slot.old (self.new ≡ self.old)) }
        ensures err { OnErr result ((self.new ≡ self.old) × (slot.new ≡ slot.old)) }
    {
        if self.may_save {
            return self.by_signal.receive_from(slot);
        }
        if self.queue.len() == self.queue.capacity() {
            self.queue.reserve(1)?;
        }
        if let Some(item) = slot.take() {
            self.queue.push_back_reserved(item);
        }
        Ok(())
    }

    /// The item at the back.
    pub fn last_received(&self) -> &Item
        requires { 0 < length self.now.items }
        ensures { (before : List AnItem) (item : AnItem) → self.now.items ≡ before ++ item ∷ [] → result.now ≡ item }
    {
        if self.may_save {
            return self.by_signal.last();
        }
        match self.queue.back() {
            Some(item) => item,
            None => unreachable!(),
        }
    }

    /// The number of signals.
    pub fn len(&self) -> u64
        ensures { result ≡ length self.now.items }
    {
        if self.may_save {
            self.by_signal.len()
        } else {
            self.queue.len() as u64
        }
    }

    /// Whether there is a signal that the state does not save.
    #[inline(always)]
    pub fn has_next(&self) -> bool
        ensures { result ≡ is_some (next_in (holds self.now.current) self.now.items) }
    {
        if self.may_save {
            self.by_signal.first(self.current).is_some()
        } else {
            self.queue.len() > 0
        }
    }

    /// The first signal that the state does not save.
    #[inline(always)]
    pub fn next(&self) -> Option<&Item>
        ensures { option_copied result ≡ next_in (holds self.now.current) self.now.items }
    {
        if self.may_save {
            self.by_signal.first(self.current)
        } else {
            self.queue.front()
        }
    }

    /// Takes the first signal out that the state does not save.
    #[inline(always)]
    pub fn take_next(&mut self) -> Item
        requires { IsSome (next_in (holds self.old.current) self.old.items) }
        ensures taken { TakesOut (holds self.old.current) self.old.items result self.new.items }
        ensures rest { self.new ≡ record self.old { items = self.new.items } }
    {
        if self.may_save {
            return self.by_signal.take_first(self.current);
        }
        match self.queue.pop_front() {
            Some(item) => item,
            None => unreachable!(),
        }
    }

    /// From now on the state saves these. Only a port some state of which may save something is told so.
    pub fn save(&mut self, current: SignalSet)
        requires { self.old.may_save ≡ true }
        ensures { self.new ≡ record self.old { current = current } }
    {
        self.current = current;
    }
}
