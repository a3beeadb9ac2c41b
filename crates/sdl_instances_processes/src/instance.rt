//! A living instance.
ghost use Rattle.std.specs.Prelude.{◌≡◌, ◌<◌, ◌++◌, ◌∷◌, [], List, OnOk, OnErr, IfSome, IfNone, IsSome, Some, None, option_copied, length};
ghost use Rattle.sdl_signal.specs.declared.values.Item.{Item};
ghost use Rattle.sdl_instances_processes.specs.Ports.{TakesOut};
ghost use Rattle.sdl_instances_processes.specs.Record.{created_record, consumed, front_of, is_ready, saved_now};

use crate::copies::add_values;
use crate::port::Port;
use arrayvec::ArrayVec;
use sdl_signal::{Item, Pid, StateId, Value};
use sdl_transition_saves::StateSaves;
use std::alloc::{AllocError, Global};
use std::marker::Model;

/// A living instance. It has no state before its start transition.
#[derive(Drop)]
pub struct Instance {
    pub(crate) state: Option<StateId>,
    pub(crate) vars: ArrayVec<Value, 8>,
    pub(crate) port: Port,
    pub(crate) parent: Pid,
    pub(crate) offspring: Pid,
    pub(crate) sender: Pid,
    /// What each of its states saves.
    pub(crate) saves: StateSaves,
}

impl Model for Instance {
    ghost use Rattle.sdl_instances_processes.specs.Record.{Record, IsSavedNow};

    ghost Value = { Record };

    ghost view = { λ i. record { state = i.state; vars = i.vars.items; port = i.port.items; saves = i.saves; parent = i.parent; offspring = i.offspring; sender = i.sender } };

    ghost invariant = { λ i. IsSavedNow i.saves i.state i.port };
}

impl Instance {
    /// An instance that has not started, with its initial variables, what its states save, and the parent. No memory is taken.
    pub fn new(alloc: Global, vars: ArrayVec<Value, 8>, saves: StateSaves, parent: Pid) -> Instance
        ensures { result ≡ created_record vars.items saves parent }
    {
        Instance {
            state: None,
            vars,
            port: Port::new(alloc, saves.may_save()),
            parent,
            offspring: Pid::Null,
            sender: Pid::Null,
            saves,
        }
    }

    /// Puts the item of the slot, where it has one, at the back of the port, and leaves the slot empty. A refusal changes nothing.
    #[inline(always)]
    pub fn receive_from(&mut self, slot: &mut Option<Item>) -> Result<(), AllocError>
        ensures ok { OnOk result ((slot.new ≡ None) × IfSome slot.old (λ item. self.new ≡ record self.old { port = self.old.port ++ item ∷ [] }) × IfNone slot.old (self.new ≡ self.old)) }
        ensures err { OnErr result ((self.new ≡ self.old) × (slot.new ≡ slot.old)) }
    {
        self.port.receive_from(slot)
    }

    /// The item at the back of the port.
    pub fn last_received(&self) -> &Item
        requires { 0 < length self.now.port }
        ensures { (before : List Item) (item : Item) → self.now.port ≡ before ++ item ∷ [] → result.now ≡ item }
    {
        self.port.last_received()
    }

    /// The number of signals in the port.
    pub fn port_len(&self) -> u64
        ensures { result ≡ length self.now.port }
    {
        self.port.len()
    }

    /// Whether the instance is ready for a turn: it has not started, or its port has a signal that its state does not save.
    pub fn is_ready(&self) -> bool
        ensures { result ≡ is_ready self.now }
    {
        self.state.is_none() || self.port.has_next()
    }

    /// The state, or none before the start transition.
    pub fn state(&self) -> Option<StateId>
        ensures { result ≡ self.now.state }
    {
        self.state
    }

    /// The variables.
    pub fn vars(&self) -> &ArrayVec<Value, 8>
        ensures { result.now.items ≡ self.now.vars }
    {
        &self.vars
    }

    /// PARENT.
    pub fn parent(&self) -> Pid
        ensures { result ≡ self.now.parent }
    {
        self.parent
    }

    /// OFFSPRING.
    pub fn offspring(&self) -> Pid
        ensures { result ≡ self.now.offspring }
    {
        self.offspring
    }

    /// SENDER.
    pub fn sender(&self) -> Pid
        ensures { result ≡ self.now.sender }
    {
        self.sender
    }

    /// The signal that its next transition is for: the first in the port that its state does not save. Before the start there is none.
    pub fn front(&self) -> Option<&Item>
        ensures { option_copied result ≡ front_of self.now }
    {
        match self.state {
            Some(_) => self.port.next(),
            None => None,
        }
    }

    /// Takes the first signal that its state does not save out of the port. SENDER is then its sender.
    #[inline(always)]
    pub fn consume(&mut self) -> Item
        requires { IsSome (front_of self.old) }
        ensures { (rest : List Item) × TakesOut (saved_now self.old) self.old.port result rest × (self.new ≡ consumed self.old result rest) }
    {
        let item = self.port.take_next();
        self.sender = item.sender;
        item
    }

    /// Gives OFFSPRING this value.
    pub fn set_offspring(&mut self, offspring: Pid)
        ensures { self.new ≡ record self.old { offspring = offspring } }
    {
        self.offspring = offspring;
    }

    /// Goes on in the state with these variables.
    pub fn proceed(&mut self, state: StateId, vars: &ArrayVec<Value, 8>)
        ensures { self.new ≡ record self.old { state = Some state; vars = vars.now.items } }
    {
        self.state = Some(state);
        if self.port.may_save() {
            self.port.save(self.saves.in_state(state));
        }
        self.vars.clear();
        add_values(&mut self.vars, vars.as_slice());
    }
}
