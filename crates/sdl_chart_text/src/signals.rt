//! Pids, values and signals as a chart writes them. A mark stands between the set and the number of an instance.
ghost use Rattle.std.specs.Prelude.{◌++◌, OnOk, codes, flat_map};
ghost use Rattle.std.specs.Io.KnownBytes.{Appends};
ghost use Rattle.sdl_app_file_commands.specs.Texts.{signal_text};
ghost use Rattle.sdl_chart_text.specs.Signals.{marked_pid_text, marked_value_text, next_value_text, marked_values_text, pid_text, signal_with_values};

use sdl_app_file_commands::names::{set_name, signal_name};
use sdl_signal::{Pid, Signal, SignalId, Value};
use sdl_structure_parts::Structure;
use std::io::{Result, Write};

/// Writes a Pid with this mark.
pub fn write_marked_pid<W: Write>(
    output: &mut W,
    structure: &Structure,
    mark: &str,
    pid: Pid,
) -> Result<()>
    ensures { OnOk result (Appends (W.contents output.old) (W.contents output.new) (marked_pid_text structure.now mark.now pid)) }
{
    match pid {
        Pid::Null => write!(output, "null"),
        Pid::Env => write!(output, "env"),
        Pid::Inst(set, serial) => {
            let name = set_name(structure, set);
            write!(output, "{name}{mark}{serial}")
        }
    }
}

/// Writes a value, a Pid with this mark.
fn write_value<W: Write>(
    output: &mut W,
    structure: &Structure,
    mark: &str,
    value: Value,
) -> Result<()>
    ensures { OnOk result (Appends (W.contents output.old) (W.contents output.new) (marked_value_text structure.now mark.now value)) }
{
    match value {
        Value::Integer(number) => write!(output, "{number}"),
        Value::Boolean(true) => write!(output, "true"),
        Value::Boolean(false) => write!(output, "false"),
        Value::Pid(pid) => write_marked_pid(output, structure, mark, pid),
    }
}

/// Writes a value behind a comma.
fn write_next_value<W: Write>(
    output: &mut W,
    structure: &Structure,
    mark: &str,
    value: Value,
) -> Result<()>
    ensures { OnOk result (Appends (W.contents output.old) (W.contents output.new) (next_value_text structure.now mark.now value)) }
{
    write!(output, ", ")?;
    write_value(output, structure, mark, value)
}

/// Writes values, each behind a comma.
fn write_more_values<W: Write>(
    output: &mut W,
    structure: &Structure,
    mark: &str,
    values: &[Value],
) -> Result<()>
    ensures { OnOk result (Appends (W.contents output.old) (W.contents output.new) (flat_map (next_value_text structure.now mark.now) values.now)) }
{
    for value in values {
        write_next_value(output, structure, mark, *value)?;
    }
    Ok(())
}

/// Writes a value and more values in brackets.
fn write_in_brackets<W: Write>(
    output: &mut W,
    structure: &Structure,
    mark: &str,
    first: Value,
    more: &[Value],
) -> Result<()>
    ensures { OnOk result (Appends (W.contents output.old) (W.contents output.new) (codes "(" ++ marked_value_text structure.now mark.now first ++ flat_map (next_value_text structure.now mark.now) more.now ++ codes ")")) }
{
    write!(output, "(")?;
    write_value(output, structure, mark, first)?;
    write_more_values(output, structure, mark, more)?;
    write!(output, ")")
}

/// Writes values in brackets, where there are some.
fn write_values<W: Write>(
    output: &mut W,
    structure: &Structure,
    mark: &str,
    values: &[Value],
) -> Result<()>
    ensures { OnOk result (Appends (W.contents output.old) (W.contents output.new) (marked_values_text structure.now mark.now values.now)) }
{
    match values {
        [] => Ok(()),
        [first, more @ ..] => write_in_brackets(output, structure, mark, *first, more),
    }
}

/// Writes the values of a signal in brackets, where it has some, Pids with this mark.
pub fn write_marked_params<W: Write>(
    output: &mut W,
    structure: &Structure,
    mark: &str,
    signal: &Signal,
) -> Result<()>
    ensures { OnOk result (Appends (W.contents output.old) (W.contents output.new) (marked_values_text structure.now mark.now signal.now.params.items)) }
{
    write_values(output, structure, mark, signal.params.as_slice())
}

/// Writes a Pid in a line of a chart.
pub(crate) fn write_pid<W: Write>(output: &mut W, structure: &Structure, pid: Pid) -> Result<()>
    ensures { OnOk result (Appends (W.contents output.old) (W.contents output.new) (pid_text structure.now pid)) }
{
    write_marked_pid(output, structure, ":", pid)
}

/// Writes the name of a signal.
fn write_name<W: Write>(output: &mut W, structure: &Structure, signal: SignalId) -> Result<()>
    ensures { OnOk result (Appends (W.contents output.old) (W.contents output.new) (signal_text structure.now signal)) }
{
    let name = signal_name(structure, signal);
    write!(output, "{name}")
}

/// Writes the name of a signal and its values in a line of a chart.
pub(crate) fn write_signal<W: Write>(
    output: &mut W,
    structure: &Structure,
    signal: &Signal,
) -> Result<()>
    ensures { OnOk result (Appends (W.contents output.old) (W.contents output.new) (signal_with_values structure.now signal.now)) }
{
    write_name(output, structure, signal.id)?;
    write_marked_params(output, structure, ":", signal)
}
