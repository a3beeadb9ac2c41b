//! The living instances of a block.
ghost use Rattle.std.specs.Prelude.{◌≡◌, ◌+◌, ◌<◌, ◌≤◌, ◌^◌, ◌∷◌, List, length, slice_index, OnOk, OnErr, IfOk, IfErr, IsSome, None, ◌++◌, [], remove};
ghost use Rattle.sdl_signal.specs.declared.values.Pid.{Pid};
ghost use Rattle.sdl_signal.specs.declared.values.Pid.TheVariants as pid;
ghost use Rattle.sdl_signal.specs.declared.values.Item.{Item};
ghost use Rattle.sdl_instances_log.specs.declared.event.Done.{Done};
ghost use Rattle.sdl_instances_processes.specs.Ports.{TakesOut};
ghost use Rattle.sdl_instances_processes.specs.Record.{Record, consumed, front_of, saved_now};
ghost use Rattle.sdl_instances.specs.Living.{state_of, creatable_of, StandsAt, HaveSerials, written, with_created, next_of, next_frame, CreatesAt, FinishesAt, OutputsAs};

use crate::first::numbers_at;
use crate::outputs::{OutputStamp, output};
use crate::process_set::ProcessSet;
use arrayvec::ArrayVec;
use sdl_instances_log::Done;
use sdl_instances_processes::copies::{add_values, copied_values};
use sdl_instances_processes::{Instance, Instances};
use sdl_routes::{Routes, Via};
use sdl_signal::{Item, Pid, SetId, Signal, Value};
use sdl_transition::{Dest, Frame, Next};
use sdl_transition_saves::StateSaves;
use std::alloc::{AllocError, Global};

/// The living instances of a block in the order of their creation. With them stands the last serial number that
/// each set of the structure has given out.
#[derive(Drop)]
pub struct Living {
    pub(crate) alloc: Global,
    pub(crate) instances: Instances,
    pub(crate) last: Vec<u32>,
}

/// A frame that shows nothing yet.
#[inline(always)]
pub fn blank_frame() -> Frame
    ensures { result ≡ record { self_pid = pid.Null; parent = pid.Null; offspring = pid.Null; sender = pid.Null; state = None; vars = record { items = [] }; signal = None } }
{
    Frame {
        self_pid: Pid::Null,
        parent: Pid::Null,
        offspring: Pid::Null,
        sender: Pid::Null,
        state: None,
        vars: ArrayVec::new(),
        signal: None,
    }
}

/// Shows in the blank frame what the next transition of the instance is shown, as the instance `pid`. It is filled where it
/// stands, since each function that answers with a frame copies it once.
#[inline(always)]
fn show_next(pid: Pid, instance: &Instance, frame: &mut Frame)
    requires { frame.old.vars.items ≡ [] }
    ensures { frame.new ≡ next_frame pid instance.now }
{
    match instance.front() {
        Some(item) => {
            frame.sender = item.sender;
            frame.signal = Some(Signal {
                id: item.signal.id,
                params: ArrayVec::new(),
            });
            if let Some(signal) = &mut frame.signal {
                add_values(&mut signal.params, item.signal.params.as_slice());
            }
        }
        None => {
            frame.sender = instance.sender();
            frame.signal = None;
        }
    }
    frame.self_pid = pid;
    frame.parent = instance.parent();
    frame.offspring = instance.offspring();
    frame.state = instance.state();
    add_values(&mut frame.vars, instance.vars().as_slice());
}

impl Living {
    /// Takes room for as many instances as a turn can create. A refusal changes no instance.
    #[inline(always)]
    pub fn make_room(&mut self) -> Result<(), AllocError>
        ensures same { state_of self.new ≡ state_of self.old }
        ensures room { OnOk result (8 ≤ creatable_of self.new) }
    {
        self.instances.make_room(self.alloc, self.last.len())
    }

    /// The Pid of the instance at this place.
    pub fn pid(&self, place: usize) -> Pid
        requires { place < length (state_of self.now).living }
        ensures { (p : Pid) (r : Record) → StandsAt (state_of self.now) place p r → result ≡ p }
    {
        let (pid, _) = self.instances.get(place);
        pid
    }

    /// Shows in the blank frame what the next transition of the instance at this place is shown.
    #[inline(always)]
    pub fn show(&self, place: usize, frame: &mut Frame)
        requires within { place < length (state_of self.now).living }
        requires blank { frame.old.vars.items ≡ [] }
        ensures { (p : Pid) (r : Record) → StandsAt (state_of self.now) place p r → frame.new ≡ next_frame p r }
    {
        let (pid, instance) = self.instances.get(place);
        show_next(pid, instance, frame);
    }

    /// Carries out an output of the instance at this place, and adds what it did.
    #[inline(always)]
    pub fn output(
        &self,
        routes: &Routes,
        place: usize,
        signal: &Signal,
        dest: Dest,
        via: Via,
        output_stamp: OutputStamp,
        done: &mut ArrayVec<Done, 8>,
    )
        requires within { place < length (state_of self.now).living }
        requires serials { HaveSerials (state_of self.now) }
        requires room { length done.old.items + 1 ≤ 8 }
        ensures { (d : Done) × (done.new.items ≡ done.old.items ++ d ∷ []) × ((p : Pid) (r : Record) → StandsAt (state_of self.now) place p r → OutputsAs routes.now p r signal.now dest via output_stamp d) }
    {
        let (pid, instance) = self.instances.get(place);
        output(routes, pid, instance, signal, dest, via, output_stamp, done);
    }

    /// Takes the first signal that its state does not save from the port of the instance at this place, whose SENDER it sets.
    #[inline(always)]
    pub fn consume(&mut self, place: usize) -> Item
        requires within { place < length (state_of self.old).living }
        requires front { (p : Pid) (r : Record) → StandsAt (state_of self.old) place p r → IsSome (front_of r) }
        ensures consumed { (p : Pid) (r : Record) → StandsAt (state_of self.old) place p r → (rest : List Item) × TakesOut (saved_now r) r.port result rest × (state_of self.new ≡ written (state_of self.old) place p (consumed r result rest)) }
        ensures creatable { creatable_of self.new ≡ creatable_of self.old }
    {
        self.instances.consume(place)
    }

    /// Adds an instance of the set, of its next serial number, with the variables, what its states save, and the parent.
    fn add_created(
        &mut self,
        set: SetId,
        vars: &ArrayVec<Value, 8>,
        saves: StateSaves,
        parent: Pid,
    ) -> Pid
        requires set { set.0 < length (state_of self.old).last }
        requires room { 0 < creatable_of self.old }
        requires serials { HaveSerials (state_of self.old) }
        requires few { slice_index (state_of self.old).last set.0 + 1 < 2 ^ 32 }
        ensures pid { result ≡ next_of (state_of self.old) set }
        ensures with_created { state_of self.new ≡ with_created (state_of self.old) set vars.now.items saves parent }
        ensures creatable { creatable_of self.old < creatable_of self.new + 2 }
    {
        let serial = self.last[set.0 as usize] + 1;
        let variables = copied_values(vars.as_slice());
        let instance = Instance::new(self.alloc, variables, saves, parent);
        self.instances.add(set, serial, instance);
        self.last[set.0 as usize] = serial;
        Pid::Inst(set, serial)
    }

    /// Lets the instance at this place create one of the set. Where the set has as many as it may have, none is made, and
    /// the answer and OFFSPRING are Null.
    pub fn create(
        &mut self,
        sets: &[ProcessSet],
        place: usize,
        set: SetId,
        vars: &ArrayVec<Value, 8>,
        saves: StateSaves,
    ) -> Pid
        requires within { place < length (state_of self.old).living }
        requires set { (set.0 < length sets.now) × (set.0 < length (state_of self.old).last) }
        requires room { 0 < creatable_of self.old }
        requires serials { HaveSerials (state_of self.old) }
        requires few { slice_index (state_of self.old).last set.0 + 1 < 2 ^ 32 }
        ensures creates { (p : Pid) (r : Record) → StandsAt (state_of self.old) place p r → CreatesAt sets.now place p r set vars.now.items saves result (state_of self.old) (state_of self.new) }
        ensures creatable { creatable_of self.old < creatable_of self.new + 2 }
    {
        let creator = self.pid(place);
        let numbers = numbers_at(sets, set.0 as usize);
        let made = if self.instances.number_of(set) < numbers.maximum as usize {
            self.add_created(set, vars, saves, creator)
        } else {
            Pid::Null
        };
        self.instances.set_offspring(place, made);
        made
    }

    /// Ends a transition of the instance at this place: it goes on in a state with these variables, or it stops. After a
    /// stop the answer is the number of signals that were in its port.
    #[inline(always)]
    pub fn finish(&mut self, place: usize, vars: &ArrayVec<Value, 8>, next: Next) -> Option<u64>
        requires within { place < length (state_of self.old).living }
        ensures { (p : Pid) (r : Record) → StandsAt (state_of self.old) place p r → FinishesAt place p r vars.now.items next result (state_of self.old) (state_of self.new) }
    {
        match next {
            Next::State(state) => {
                self.instances.proceed(place, state, vars);
                None
            }
            Next::Stop => Some(self.stop(place)),
        }
    }

    /// Takes the instance at this place out, and answers with the number of signals in its port. Most transitions don't stop: this
    /// stands apart from what each of them does.
    #[inline(never)]
    fn stop(&mut self, place: usize) -> u64
        requires within { place < length (state_of self.old).living }
        ensures { (p : Pid) (r : Record) → StandsAt (state_of self.old) place p r → (result ≡ length r.port) × (state_of self.new ≡ record (state_of self.old) { living = remove (state_of self.old).living place }) }
    {
        let (_, instance) = self.instances.remove(place);
        instance.port_len()
    }
}
