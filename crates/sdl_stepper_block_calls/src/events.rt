//! What events look like: as the trace of a run prints them, with the number of the origin of an output that no route fits.
use sdl_instances::{Cause, Done, Event, Trigger};
use sdl_signal::{Pid, SignalId};
use sdl_stepper_calls::answers::Answers;
use sdl_stepper_calls::naming::signal_name;
use sdl_stepper_calls::texts::{write_origin, write_pid};
use sdl_structure_parts::Structure;
use std::io::Write;

/// Where events are written: the structure, and the name of the block.
#[derive(Clone, Copy)]
pub struct Shown<'a> {
    pub structure: &'a Structure,
    pub block: &'a str,
}

/// Writes an event, and what a turn did.
pub fn write_event<W: Write>(answers: &mut Answers<W>, shown: Shown, event: &Event) {
    match event {
        Event::Entered(item, pid) => {
            write_signal(answers, shown, " enter ", item.signal.id);
            write_end(answers, shown, *pid);
        }
        Event::Discarded(item, cause) => {
            write_signal(answers, shown, " discard ", item.signal.id);
            answers.line(cause_text(*cause));
        }
        Event::Turn {
            pid,
            trigger,
            done,
            stopped,
            ..
        } => {
            write_trigger(answers, shown, trigger);
            write_end(answers, shown, *pid);
            write_all_done(answers, shown, done.as_slice());
            write_stop(answers, shown, *pid, *stopped);
        }
    }
}

fn write_trigger<W: Write>(answers: &mut Answers<W>, shown: Shown, trigger: &Trigger) {
    match trigger {
        Trigger::Start => {
            answers.text(shown.block);
            answers.text(" start");
        }
        Trigger::Fire(item) => write_signal(answers, shown, " fire ", item.signal.id),
        Trigger::Implicit(item) => write_signal(answers, shown, " implicit ", item.signal.id),
    }
}

fn write_all_done<W: Write>(answers: &mut Answers<W>, shown: Shown, all: &[Done]) {
    for done in all {
        write_done(answers, shown, done);
    }
}

fn write_done<W: Write>(answers: &mut Answers<W>, shown: Shown, done: &Done) {
    match done {
        Done::Sent(item) => {
            write_signal(answers, shown, " sent ", item.signal.id);
            answers.text(" ");
            answers.number_line(item.route.0 as u64);
        }
        Done::NoRoute(origin, signal) => {
            write_signal(answers, shown, " noroute ", *signal);
            answers.text(" origin ");
            write_origin(answers, *origin);
            answers.line("");
        }
        Done::Made(pid) => {
            answers.text(shown.block);
            answers.text(" made");
            write_end(answers, shown, *pid);
        }
    }
}

fn write_stop<W: Write>(answers: &mut Answers<W>, shown: Shown, pid: Pid, stopped: Option<u64>) {
    if let Some(dropped) = stopped {
        answers.text(shown.block);
        answers.text(" stopped ");
        write_pid(answers, shown.structure, pid);
        answers.text(" ");
        answers.number_line(dropped);
    }
}

/// Writes the block, what happened, and the signal.
fn write_signal<W: Write>(answers: &mut Answers<W>, shown: Shown, what: &str, signal: SignalId) {
    answers.text(shown.block);
    answers.text(what);
    answers.text(signal_name(shown.structure, signal));
}

fn write_end<W: Write>(answers: &mut Answers<W>, shown: Shown, pid: Pid) {
    answers.text(" ");
    write_pid(answers, shown.structure, pid);
    answers.line("");
}

/// The cause, after a space.
pub fn cause_text(cause: Cause) -> &'static str {
    match cause {
        Cause::NoInstance => " noinstance",
        Cause::Gone => " gone",
    }
}
