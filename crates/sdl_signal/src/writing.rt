//! A line of the environment, written. (This project's own.)
ghost use Rattle.std.specs.Prelude.{◌≡◌, ◌≤◌, ◌+◌, ◌*◌, ◌++◌, length, map, IfSome, IsSome};
ghost use Rattle.sdl_signal.specs.Line.{pid_text, value_text, value_texts, line_text};
ghost use Rattle.sdl_signal.specs.Sorts.{sort_of};
ghost use Rattle.sdl_signal.specs.Writing.{spaced};

use crate::ids::GateId;
use crate::naming::Names;
use crate::values::{Pid, Signal, Value};
use arrayvec::ArrayVec;
use itoa::Buffer;

/// Appends a text to the line.
fn append(line: &mut ArrayVec<u8, 256>, text: &[u8])
    requires { length line.old.items + length text.now ≤ 256 }
    ensures { line.new.items ≡ line.old.items ++ text.now }
{
    let _appended = line.try_extend_from_slice(text);
}

/// Appends the text of a Pid.
fn append_pid(line: &mut ArrayVec<u8, 256>, names: &Names, pid: Pid)
    requires room { length line.old.items ≤ 213 }
    requires named { IsSome (pid_text names.now pid) }
    ensures text { IfSome (pid_text names.now pid) (λ text. line.new.items ≡ line.old.items ++ text) }
    ensures few { length line.new.items ≤ length line.old.items + 43 }
{
    match pid {
        Pid::Null => append(line, b"null"),
        Pid::Env => append(line, b"env"),
        Pid::Inst(set, serial) => {
            append(line, names.set_name(set));
            line.push(b':');
            let mut buffer = Buffer::new();
            append(line, buffer.format(serial).as_bytes());
        }
    }
}

/// Appends the text of a value.
fn append_value(line: &mut ArrayVec<u8, 256>, names: &Names, value: Value)
    requires room { length line.old.items ≤ 213 }
    requires named { IsSome (value_text names.now (sort_of value) value) }
    ensures text { IfSome (value_text names.now (sort_of value) value) (λ text. line.new.items ≡ line.old.items ++ text) }
    ensures few { length line.new.items ≤ length line.old.items + 43 }
{
    match value {
        Value::Integer(number) => {
            let mut buffer = Buffer::new();
            append(line, buffer.format(number).as_bytes());
        }
        Value::Boolean(true) => append(line, b"true"),
        Value::Boolean(false) => append(line, b"false"),
        Value::Pid(pid) => append_pid(line, names, pid),
    }
}

/// Appends the texts of values, each with a space before it.
fn append_values(line: &mut ArrayVec<u8, 256>, names: &Names, values: &[Value])
    requires room { length line.old.items ≤ 65 }
    requires few { length values.now ≤ 4 }
    requires named { IsSome (value_texts names.now (map sort_of values.now) values.now) }
    ensures texts { IfSome (value_texts names.now (map sort_of values.now) values.now)
        (λ texts. line.new.items ≡ line.old.items ++ spaced texts) }
    ensures length { length line.new.items ≤ length line.old.items + 44 * length values.now }
{
    for value in values {
        line.push(b' ');
        append_value(line, names, *value);
    }
}

/// The line of a signal at a gate of the system, without a newline and without a TO part: the gate, the signal and
/// each parameter, with one space between. It has at most 241 bytes. No memory is taken.
#[inline(always)]
pub fn line_of(names: &Names, gate: GateId, signal: &Signal) -> ArrayVec<u8, 256>
    requires { IsSome (line_text names.now (record { gate = gate; signal = signal.now; to = None })) }
    ensures text { line_text names.now (record { gate = gate; signal = signal.now; to = None }) ≡ Some result.items }
    ensures few { length result.items ≤ 241 }
{
    let mut line = ArrayVec::new();
    append(&mut line, names.gate_name(gate));
    line.push(b' ');
    append(&mut line, names.signal(signal.id).name.as_bytes());
    append_values(&mut line, names, &signal.params);
    line
}
