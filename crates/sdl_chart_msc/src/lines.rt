//! The lines of what instances did.
ghost use Rattle.std.specs.Prelude.{◌≡◌, ◌++◌, OnOk, codes, decimal, flat_map};
ghost use Rattle.std.specs.Io.KnownBytes.{Appends};
ghost use Rattle.sdl_instances_packed_log.specs.Packed.{event_shown, step_shown};
ghost use Rattle.sdl_chart_text.specs.Legends.{end_gate_text};
ghost use Rattle.sdl_app_file_commands.specs.Texts.{signal_text};
ghost use Rattle.sdl_chart_msc.specs.Names.{name_text};
ghost use Rattle.sdl_chart_msc.specs.Lines.{script_of, message_text, source_text, in_text, address_text, out_text, done_text, trigger_text, is_at, condition_text, end_text, turn_text, event_text, remark_text, is_consumed, sent_note, note_text};

use crate::messages::{Fate, Messages, fate_at, number_of};
use crate::names::{write_between, write_name};
use crate::signals::{write_params, write_pid_line, write_signal_name};
use sdl_app_file_commands::names::{gate_name, signal_name};
use sdl_chart_page::Page;
use sdl_chart_text::{States, end_name, start_name};
use sdl_instances_log::{Done, Trigger};
use sdl_instances_packed_log::{Shown, ShownStep};
use sdl_routes::Routes;
use sdl_run_outcome::EnvOut;
use sdl_signal::{Item, Origin, Pid, RouteId, Signal, SignalId, StateId};
use sdl_structure_parts::Structure;
use sdl_transition_behaviour::{Frame, Next};
use std::io::{Result, Write};

/// What the lines are written from.
#[derive(Drop)]
pub struct Scene<'a> {
    pub structure: &'a Structure,
    pub routes: &'a Routes,
    pub states: &'a States,
    pub page: &'a Page,
    pub messages: &'a Messages,
}

/// Whether an instance that is to be in this next state is in it.
fn is_at(state: Option<StateId>, next: StateId) -> bool
    ensures { result ≡ is_at state next }
{
    match state {
        Some(now) => now.0 == next.0,
        None => false,
    }
}

/// Whether an instance consumed the item.
fn is_consumed(fate: Fate) -> bool
    ensures { result ≡ is_consumed fate }
{
    match fate {
        Fate::Consumed(_) => true,
        Fate::Entered(_) => false,
        Fate::Received => false,
        Fate::Astray => false,
    }
}

/// Writes that an output had no route.
fn write_unrouted<W: Write>(output: &mut W, structure: &Structure, signal: SignalId) -> Result<()>
    ensures { OnOk result (Appends (W.contents output.old) (W.contents output.new) (codes "    action 'no route for " ++ signal_text structure.now signal ++ codes "';\n")) }
{
    let name = signal_name(structure, signal);
    write!(output, "    action 'no route for {name}';\n")
}

impl Scene<'_> {
    /// The number of the message of this origin.
    fn number(&self, origin: Origin) -> u128
        ensures { result ≡ (script_of self.now).number origin }
    {
        number_of(self.page, self.messages.above.as_slice(), origin)
    }

    /// What became of the item of this origin.
    fn fate(&self, origin: Origin) -> Fate
        ensures { result ≡ (script_of self.now).fate origin }
    {
        fate_at(self.messages.fates.as_slice(), self.number(origin))
    }

    /// Writes the number of an item's message behind its signal.
    fn write_number<W: Write>(&self, output: &mut W, origin: Origin) -> Result<()>
        ensures { OnOk result (Appends (W.contents output.old) (W.contents output.new) (codes ",m" ++ decimal ((script_of self.now).number origin))) }
    {
        let number = self.number(origin);
        write!(output, ",m{number}")
    }

    /// Writes an item as a message behind a text: its signal, the number of its message, and its values.
    fn write_message<W: Write>(&self, output: &mut W, before: &str, item: &Item) -> Result<()>
        ensures { OnOk result (Appends (W.contents output.old) (W.contents output.new) (message_text (script_of self.now) before.now item.now)) }
    {
        write_signal_name(output, self.structure, before, item.signal.id)?;
        self.write_number(output, item.origin)?;
        write_params(output, self.structure, &item.signal)
    }

    /// Writes who sent an item that is consumed.
    fn write_source<W: Write>(&self, output: &mut W, item: &Item) -> Result<()>
        ensures { OnOk result (Appends (W.contents output.old) (W.contents output.new) (source_text (script_of self.now) item.now)) }
    {
        match item.sender {
            Pid::Env => {
                let gate = start_name(self.structure, self.routes, item.route);
                write_between(output, " from env via ", gate, ";\n")
            }
            Pid::Null => write_pid_line(output, self.structure, " from ", item.sender),
            Pid::Inst(_, _) => write_pid_line(output, self.structure, " from ", item.sender),
        }
    }

    /// Writes that an item was consumed.
    fn write_in<W: Write>(&self, output: &mut W, item: &Item) -> Result<()>
        ensures { OnOk result (Appends (W.contents output.old) (W.contents output.new) (in_text (script_of self.now) item.now)) }
    {
        self.write_message(output, "    in ", item)?;
        self.write_source(output, item)
    }

    /// Writes that an item went to the environment, and by which gate.
    fn write_outward<W: Write>(&self, output: &mut W, route: RouteId) -> Result<()>
        ensures { OnOk result (Appends (W.contents output.old) (W.contents output.new) (codes " to env via " ++ name_text (end_gate_text self.now.structure.now self.now.routes.now route) ++ codes ";\n")) }
    {
        let gate = end_name(self.structure, self.routes, route);
        write_between(output, " to env via ", gate, ";\n")
    }

    /// Writes to whom an item went that was output.
    fn write_address<W: Write>(&self, output: &mut W, item: &Item) -> Result<()>
        ensures { OnOk result (Appends (W.contents output.old) (W.contents output.new) (address_text (script_of self.now) item.now ((script_of self.now).fate item.now.origin))) }
    {
        match self.fate(item.origin) {
            Fate::Astray => write!(output, " to lost;\n"),
            Fate::Entered(pid) => write_pid_line(output, self.structure, " to lost ", pid),
            Fate::Consumed(pid) => write_pid_line(output, self.structure, " to ", pid),
            Fate::Received => self.write_outward(output, item.route),
        }
    }

    /// Writes an output.
    fn write_out<W: Write>(&self, output: &mut W, item: &Item) -> Result<()>
        ensures { OnOk result (Appends (W.contents output.old) (W.contents output.new) (out_text (script_of self.now) item.now)) }
    {
        self.write_message(output, "    out ", item)?;
        self.write_address(output, item)
    }

    /// Writes what an action did.
    fn write_done<W: Write>(&self, output: &mut W, done: &Done) -> Result<()>
        ensures { OnOk result (Appends (W.contents output.old) (W.contents output.new) (done_text (script_of self.now) done.now)) }
    {
        match done {
            Done::Sent(item) => self.write_out(output, item),
            Done::NoRoute(_, signal) => write_unrouted(output, self.structure, *signal),
            Done::Made(Pid::Null) => write!(output, "    action 'created none';\n"),
            Done::Made(pid) => write_pid_line(output, self.structure, "    create ", *pid),
        }
    }

    /// Writes what the actions of a turn did.
    fn write_all_done<W: Write>(&self, output: &mut W, all: &[Done]) -> Result<()>
        ensures { OnOk result (Appends (W.contents output.old) (W.contents output.new) (flat_map (done_text (script_of self.now)) all.now)) }
    {
        for done in all {
            self.write_done(output, done)?;
        }
        Ok(())
    }

    /// Writes that an item was consumed without a transition.
    fn write_implicit<W: Write>(&self, output: &mut W, item: &Item) -> Result<()>
        ensures { OnOk result (Appends (W.contents output.old) (W.contents output.new) (in_text (script_of self.now) item.now ++ codes "    action 'no transition';\n")) }
    {
        self.write_in(output, item)?;
        write!(output, "    action 'no transition';\n")
    }

    /// Writes what a turn begins with. A start has no line.
    fn write_trigger<W: Write>(&self, output: &mut W, trigger: &Trigger) -> Result<()>
        ensures { OnOk result (Appends (W.contents output.old) (W.contents output.new) (trigger_text (script_of self.now) trigger.now)) }
    {
        match trigger {
            Trigger::Start => Ok(()),
            Trigger::Fire(item) => self.write_in(output, item),
            Trigger::Implicit(item) => self.write_implicit(output, item),
        }
    }

    /// Writes the next state, where it is another than that before.
    fn write_condition<W: Write>(&self, output: &mut W, frame: &Frame, next: StateId) -> Result<()>
        ensures { OnOk result (Appends (W.contents output.old) (W.contents output.new) (condition_text (script_of self.now) frame.now next)) }
    {
        if is_at(frame.state, next) {
            Ok(())
        } else {
            let name = self.states.name_of(frame.self_pid, next);
            write_between(output, "    condition ", name, ";\n")
        }
    }

    /// Writes how a turn ended: by a stop, or in a next state.
    fn write_end<W: Write>(
        &self,
        output: &mut W,
        frame: &Frame,
        step: Option<ShownStep>,
    ) -> Result<()>
        ensures { OnOk result (Appends (W.contents output.old) (W.contents output.new) (end_text (script_of self.now) frame.now (step_shown step.entry))) }
    {
        match step {
            Some(answer) => match answer.next {
                Next::State(next) => self.write_condition(output, frame, next),
                Next::Stop => write!(output, "    stop;\n"),
            },
            None => Ok(()),
        }
    }

    /// Writes a turn.
    fn write_turn<W: Write>(
        &self,
        output: &mut W,
        trigger: &Trigger,
        frame: &Frame,
        step: Option<ShownStep>,
        done: &[Done],
    ) -> Result<()>
        ensures { OnOk result (Appends (W.contents output.old) (W.contents output.new) (turn_text (script_of self.now) trigger.now frame.now (step_shown step.entry) done.now)) }
    {
        self.write_trigger(output, trigger)?;
        self.write_all_done(output, done)?;
        self.write_end(output, frame, step)
    }

    /// Writes an event of a block, where it is a turn. That a signal entered a port has no sign in this form.
    pub(crate) fn write_event<W: Write>(&self, output: &mut W, event: Shown) -> Result<()>
        ensures { OnOk result (Appends (W.contents output.old) (W.contents output.new) (event_text (script_of self.now) (event_shown event.entry))) }
    {
        match event {
            Shown::Entered(_, _) => Ok(()),
            Shown::Discarded(_, _) => Ok(()),
            Shown::Turn {
                pid: _,
                trigger,
                frame,
                step,
                done,
                stopped: _,
            } => self.write_turn(output, trigger, frame, step, done),
        }
    }

    /// Writes a note of a signal at a gate of the system.
    fn write_remark<W: Write>(
        &self,
        output: &mut W,
        gate: &str,
        signal: &Signal,
        end: &str,
    ) -> Result<()>
        ensures { OnOk result (Appends (W.contents output.old) (W.contents output.new) (remark_text self.now.structure.now gate.now signal.now end.now)) }
    {
        write_name(output, "  /* env ", gate)?;
        write_signal_name(output, self.structure, ": ", signal.id)?;
        write_params(output, self.structure, signal)?;
        write!(output, "{end}")
    }

    /// Writes a note of an output of the environment that has a route, where no instance consumed its item.
    fn write_sent_note<W: Write>(&self, output: &mut W, item: &Item) -> Result<()>
        ensures { OnOk result (Appends (W.contents output.old) (W.contents output.new) (sent_note (script_of self.now) item.now)) }
    {
        if is_consumed(self.fate(item.origin)) {
            Ok(())
        } else {
            let gate = start_name(self.structure, self.routes, item.route);
            self.write_remark(output, gate, &item.signal, ", not consumed */\n")
        }
    }

    /// Writes a note of an output of the environment, where no instance consumed its item.
    fn write_note<W: Write>(&self, output: &mut W, out: &EnvOut) -> Result<()>
        ensures { OnOk result (Appends (W.contents output.old) (W.contents output.new) (note_text (script_of self.now) out.now)) }
    {
        match out {
            EnvOut::Sent(item) => self.write_sent_note(output, item),
            EnvOut::NoRoute(_, line) => {
                let gate = gate_name(self.structure, line.gate);
                self.write_remark(output, gate, &line.signal, ", no route */\n")
            }
        }
    }

    /// Writes the notes of the environment's outputs.
    pub(crate) fn write_notes<W: Write>(&self, output: &mut W, put: &[EnvOut]) -> Result<()>
        ensures { OnOk result (Appends (W.contents output.old) (W.contents output.new) (flat_map (note_text (script_of self.now)) put.now)) }
    {
        for out in put {
            self.write_note(output, out)?;
        }
        Ok(())
    }
}
