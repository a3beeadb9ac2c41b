//! What the parts of a run look like in an answer.
use crate::answers::Answers;
use crate::naming::{block_name, channel_name, set_name, signal_name};
use sdl_routes::{Hop, Station};
use sdl_signal::{Item, Origin, Pid, Value};
use sdl_structure_parts::Structure;
use std::io::Write;

/// Writes a Pid: `null`, `env`, or `SET:N`.
pub fn write_pid<W: Write>(answers: &mut Answers<W>, structure: &Structure, pid: Pid) {
    match pid {
        Pid::Null => answers.text("null"),
        Pid::Env => answers.text("env"),
        Pid::Inst(set, serial) => {
            answers.text(set_name(structure, set));
            answers.text(":");
            answers.number(serial as u64);
        }
    }
}

fn write_value<W: Write>(answers: &mut Answers<W>, structure: &Structure, value: &Value) {
    match value {
        Value::Integer(number) => answers.integer(*number),
        Value::Boolean(holds) => answers.text(if *holds { "true" } else { "false" }),
        Value::Pid(pid) => write_pid(answers, structure, *pid),
    }
}

/// Writes an origin: `WORKER.NUMBER`.
pub fn write_origin<W: Write>(answers: &mut Answers<W>, origin: Origin) {
    answers.number(origin.worker as u64);
    answers.text(".");
    answers.number(origin.number);
}

/// Writes an item by the words by which a call gives it.
pub fn write_item<W: Write>(answers: &mut Answers<W>, structure: &Structure, item: &Item) {
    answers.number(item.route.0 as u64);
    answers.text(" ");
    answers.text(signal_name(structure, item.signal.id));
    write_values(answers, structure, item.signal.params.as_slice());
    write_options(answers, structure, item);
}

/// Writes what the words of a call may leave out.
fn write_options<W: Write>(answers: &mut Answers<W>, structure: &Structure, item: &Item) {
    if let Some(to) = item.to {
        write_named_pid(answers, structure, " to ", to);
    }
    write_named_pid(answers, structure, " sender ", item.sender);
    answers.text(" stamp ");
    answers.number(item.stamp);
    answers.text(" origin ");
    write_origin(answers, item.origin);
}

fn write_values<W: Write>(answers: &mut Answers<W>, structure: &Structure, values: &[Value]) {
    for value in values {
        answers.text(" ");
        write_value(answers, structure, value);
    }
}

fn write_named_pid<W: Write>(
    answers: &mut Answers<W>,
    structure: &Structure,
    name: &str,
    pid: Pid,
) {
    answers.text(name);
    write_pid(answers, structure, pid);
}

/// Writes a path: its channel, with `+` for forth and `-` for back.
pub fn write_path<W: Write>(answers: &mut Answers<W>, structure: &Structure, path: Hop) {
    answers.text(channel_name(structure, path.channel));
    answers.text(if path.back { "-" } else { "+" });
}

/// Writes a station: a path, `inlet:BLOCK`, or `outlet`.
pub fn write_station<W: Write>(answers: &mut Answers<W>, structure: &Structure, station: Station) {
    match station {
        Station::Line(path) => write_path(answers, structure, path),
        Station::Inlet(block) => {
            answers.text("inlet:");
            answers.text(block_name(structure, block));
        }
        Station::Outlet => answers.text("outlet"),
    }
}

/// Writes a station, and ends the line.
pub fn write_station_line<W: Write>(
    answers: &mut Answers<W>,
    structure: &Structure,
    station: Station,
) {
    write_station(answers, structure, station);
    answers.line("");
}
