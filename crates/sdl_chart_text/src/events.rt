//! The events of a block, as a chart writes them.
ghost use Rattle.std.specs.Prelude.{◌≡◌, ◌++◌, OnOk, flat_map, codes};
ghost use Rattle.std.specs.Io.KnownBytes.{Appends};
ghost use Rattle.sdl_instances_packed_log.specs.Packed.{event_shown, step_shown};
ghost use Rattle.sdl_chart_page.specs.Entries.{AreStored};
ghost use Rattle.sdl_app_file_commands.specs.Texts.{block_text};
ghost use Rattle.sdl_chart_text.specs.Legends.{legend_of, start_text};
ghost use Rattle.sdl_chart_text.specs.Signals.{pid_text};
ghost use Rattle.sdl_chart_text.specs.Rows.{known_text, whom_text, before_text, consumed_text, trigger_text, sent_text, done_text, stop_text, end_text, cause_text, event_text};

use crate::chart::Chart;
use crate::items::{write_known, write_left_of, write_sender, write_whom};
use crate::names::start_name;
use crate::signals::{write_pid, write_signal};
use sdl_app_file_commands::names::signal_name;
use sdl_instances_log::{Cause, Done, Trigger};
use sdl_instances_packed_log::{Shown, ShownStep, Shows};
use sdl_signal::{Item, Pid, RouteId};
use sdl_structure_parts::Structure;
use sdl_transition_behaviour::{Frame, Next};
use std::io::{Result, Write};

/// Writes an event of a block.
pub(crate) fn write_event<K: Shows, W: Write>(
    output: &mut W,
    chart: &Chart<K>,
    block: usize,
    event: Shown,
) -> Result<()>
    requires { AreStored K.stores chart.now.lists.now.logs.now }
    ensures { OnOk result (Appends (W.contents output.old) (W.contents output.new) (event_text (legend_of K.events chart.now) block (event_shown event.entry))) }
{
    match event {
        Shown::Entered(item, pid) => write_entered(output, chart, item, pid),
        Shown::Discarded(item, cause) => write_discarded(output, chart, block, item, cause),
        Shown::Turn {
            pid,
            trigger,
            frame,
            step,
            done,
            stopped,
        } => write_turn(output, chart, pid, trigger, frame, step, done, stopped),
    }
}

/// Writes that an item entered the port of an instance.
fn write_entered<K: Shows, W: Write>(
    output: &mut W,
    chart: &Chart<K>,
    item: &Item,
    pid: Pid,
) -> Result<()>
    requires { AreStored K.stores chart.now.lists.now.logs.now }
    ensures { OnOk result (Appends (W.contents output.old) (W.contents output.new) (pid_text chart.now.structure.now pid ++ codes " receives " ++ known_text (legend_of K.events chart.now) item.now)) }
{
    write_pid(output, chart.structure, pid)?;
    write!(output, " receives ")?;
    write_known(output, chart, item)
}

/// Writes that an item was discarded at a block.
fn write_discarded<K: Shows, W: Write>(
    output: &mut W,
    chart: &Chart<K>,
    block: usize,
    item: &Item,
    cause: Cause,
) -> Result<()>
    requires { AreStored K.stores chart.now.lists.now.logs.now }
    ensures { OnOk result (Appends (W.contents output.old) (W.contents output.new) ((block_text chart.now.structure.now (record { 0 = block }) ++ codes " discards ") ++ known_text (legend_of K.events chart.now) item.now ++ whom_text (legend_of K.events chart.now) item.now ++ (codes ", " ++ cause_text cause))) }
{
    write_discards(output, chart.structure, block)?;
    write_known(output, chart, item)?;
    write_whom(output, chart, item)?;
    write_cause(output, cause)
}

/// Writes that a block discards what is written next.
fn write_discards<W: Write>(output: &mut W, structure: &Structure, block: usize) -> Result<()>
    ensures { OnOk result (Appends (W.contents output.old) (W.contents output.new) (block_text structure.now (record { 0 = block }) ++ codes " discards ")) }
{
    let name = name_of_block(structure, block);
    write!(output, "{name} discards ")
}

/// Writes why an item was discarded.
fn write_cause<W: Write>(output: &mut W, cause: Cause) -> Result<()>
    ensures { OnOk result (Appends (W.contents output.old) (W.contents output.new) (codes ", " ++ cause_text cause)) }
{
    let word = cause_word(cause);
    write!(output, ", {word}")
}

/// Writes a turn of an instance.
fn write_turn<K: Shows, W: Write>(
    output: &mut W,
    chart: &Chart<K>,
    pid: Pid,
    trigger: &Trigger,
    frame: &Frame,
    step: Option<ShownStep>,
    done: &[Done],
    stopped: Option<u64>,
) -> Result<()>
    requires { AreStored K.stores chart.now.lists.now.logs.now }
    ensures { OnOk result (Appends (W.contents output.old) (W.contents output.new) (pid_text chart.now.structure.now pid ++ trigger_text (legend_of K.events chart.now) trigger.now frame.now ++ flat_map (done_text (legend_of K.events chart.now)) done.now ++ end_text (legend_of K.events chart.now) frame.now (step_shown step.entry) stopped)) }
{
    write_pid(output, chart.structure, pid)?;
    write_trigger(output, chart, trigger, frame)?;
    write_all_done(output, chart, done)?;
    write_end(output, chart, frame, step, stopped)
}

/// Writes what a turn begins with.
fn write_trigger<K: Shows, W: Write>(
    output: &mut W,
    chart: &Chart<K>,
    trigger: &Trigger,
    frame: &Frame,
) -> Result<()>
    requires { AreStored K.stores chart.now.lists.now.logs.now }
    ensures { OnOk result (Appends (W.contents output.old) (W.contents output.new) (trigger_text (legend_of K.events chart.now) trigger.now frame.now)) }
{
    match trigger {
        Trigger::Start => write!(output, " starts"),
        Trigger::Fire(item) => write_consumed(output, chart, item, frame),
        Trigger::Implicit(item) => write_implicit(output, chart, item, frame),
    }
}

/// Writes the state of an instance, and what it consumed there without a transition.
fn write_implicit<K: Shows, W: Write>(
    output: &mut W,
    chart: &Chart<K>,
    item: &Item,
    frame: &Frame,
) -> Result<()>
    requires { AreStored K.stores chart.now.lists.now.logs.now }
    ensures { OnOk result (Appends (W.contents output.old) (W.contents output.new) (consumed_text (legend_of K.events chart.now) item.now frame.now ++ codes "; no transition")) }
{
    write_consumed(output, chart, item, frame)?;
    write!(output, "; no transition")
}

/// Writes the state of an instance, and what it consumed there.
fn write_consumed<K: Shows, W: Write>(
    output: &mut W,
    chart: &Chart<K>,
    item: &Item,
    frame: &Frame,
) -> Result<()>
    requires { AreStored K.stores chart.now.lists.now.logs.now }
    ensures { OnOk result (Appends (W.contents output.old) (W.contents output.new) (consumed_text (legend_of K.events chart.now) item.now frame.now)) }
{
    write_state(output, chart, frame)?;
    write_known(output, chart, item)?;
    write_sender(output, chart, item)
}

/// Writes the state of an instance before its turn.
fn write_state<K: Shows, W: Write>(output: &mut W, chart: &Chart<K>, frame: &Frame) -> Result<()>
    ensures { OnOk result (Appends (W.contents output.old) (W.contents output.new) (codes " " ++ before_text (legend_of K.events chart.now) frame.now ++ codes ": ")) }
{
    let state = state_before(chart, frame);
    write!(output, " {state}: ")
}

/// Writes all that was done in a turn.
fn write_all_done<K: Shows, W: Write>(output: &mut W, chart: &Chart<K>, all: &[Done]) -> Result<()>
    ensures { OnOk result (Appends (W.contents output.old) (W.contents output.new) (flat_map (done_text (legend_of K.events chart.now)) all.now)) }
{
    for done in all {
        write_done(output, chart, done)?;
    }
    Ok(())
}

/// Writes what an action did.
fn write_done<K: Shows, W: Write>(output: &mut W, chart: &Chart<K>, done: &Done) -> Result<()>
    ensures { OnOk result (Appends (W.contents output.old) (W.contents output.new) (done_text (legend_of K.events chart.now) done.now)) }
{
    match done {
        Done::Sent(item) => write_sent(output, chart, item),
        Done::NoRoute(_, signal) => {
            let name = signal_name(chart.structure, *signal);
            write!(output, "; no route for {name}")
        }
        Done::Made(Pid::Null) => write!(output, "; created none"),
        Done::Made(pid) => {
            write!(output, "; created ")?;
            write_pid(output, chart.structure, *pid)
        }
    }
}

/// Writes an output of an instance.
fn write_sent<K: Shows, W: Write>(output: &mut W, chart: &Chart<K>, item: &Item) -> Result<()>
    ensures { OnOk result (Appends (W.contents output.old) (W.contents output.new) (sent_text (legend_of K.events chart.now) item.now)) }
{
    write!(output, "; sent ")?;
    write_signal(output, chart.structure, &item.signal)?;
    write_whom(output, chart, item)?;
    write_over(output, chart, item.route)?;
    write_left_of(output, chart, item.origin)
}

/// Writes the gate at which a route starts.
fn write_over<K: Shows, W: Write>(output: &mut W, chart: &Chart<K>, route: RouteId) -> Result<()>
    ensures { OnOk result (Appends (W.contents output.old) (W.contents output.new) (codes " over " ++ start_text chart.now.structure.now chart.now.routes.now route)) }
{
    let gate = start_name(chart.structure, chart.routes, route);
    write!(output, " over {gate}")
}

/// Writes how a turn ended: in a next state, by a stop, or without a transition.
fn write_end<K: Shows, W: Write>(
    output: &mut W,
    chart: &Chart<K>,
    frame: &Frame,
    step: Option<ShownStep>,
    stopped: Option<u64>,
) -> Result<()>
    ensures { OnOk result (Appends (W.contents output.old) (W.contents output.new) (end_text (legend_of K.events chart.now) frame.now (step_shown step.entry) stopped)) }
{
    match step {
        Some(answer) => match answer.next {
            Next::State(state) => {
                let name = chart.states.name_of(frame.self_pid, state);
                write!(output, "; next {name}")
            }
            Next::Stop => write_stop(output, stopped),
        },
        None => {
            let state = state_before(chart, frame);
            write!(output, "; stays {state}")
        }
    }
}

/// Writes a stop, and how many signals were dropped with it.
fn write_stop<W: Write>(output: &mut W, stopped: Option<u64>) -> Result<()>
    ensures { OnOk result (Appends (W.contents output.old) (W.contents output.new) (stop_text stopped)) }
{
    write!(output, "; stops")?;
    match stopped {
        Some(0) => Ok(()),
        Some(dropped) => write!(output, ", {dropped} dropped"),
        None => Ok(()),
    }
}

/// The name of an instance's state before its turn.
fn state_before<'a, K: Shows>(chart: &Chart<'a, K>, frame: &Frame) -> &'a str
    ensures { result.now ≡ before_text (legend_of K.events chart.now) frame.now }
{
    let states = chart.states;
    match frame.state {
        Some(state) => states.name_of(frame.self_pid, state),
        None => "",
    }
}

/// The name of the block of this number.
fn name_of_block(structure: &Structure, number: usize) -> &str
    ensures { result.now ≡ block_text structure.now (record { 0 = number }) }
{
    match structure.blocks().get(number) {
        Some(block) => block.name.as_str(),
        None => "",
    }
}

fn cause_word(cause: Cause) -> &'static str
    ensures { result.now ≡ cause_text cause }
{
    match cause {
        Cause::NoInstance => "noinstance",
        Cause::Gone => "gone",
    }
}
