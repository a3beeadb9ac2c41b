//! Pids and values in the textual form of Z.120.
ghost use Rattle.std.specs.Prelude.{◌++◌, OnOk};
ghost use Rattle.std.specs.Io.KnownBytes.{Appends};
ghost use Rattle.sdl_app_file_commands.specs.Texts.{signal_text};
ghost use Rattle.sdl_chart_msc.specs.Names.{name_text, pid_text, pid_line, values_text};

use crate::names::write_name;
use sdl_app_file_commands::names::signal_name;
use sdl_chart_text::{write_marked_params, write_marked_pid};
use sdl_signal::{Pid, Signal, SignalId};
use sdl_structure_parts::Structure;
use std::io::{Result, Write};

/// Writes a Pid: an instance by its set, an underscore and its number. No two instances get one name, since the number is what
/// stands behind the last underscore.
pub(crate) fn write_pid<W: Write>(output: &mut W, structure: &Structure, pid: Pid) -> Result<()>
    ensures { OnOk result (Appends (W.contents output.old) (W.contents output.new) (pid_text structure.now pid)) }
{
    write_marked_pid(output, structure, "_", pid)
}

/// Writes a Pid behind a text, and ends the line.
pub(crate) fn write_pid_line<W: Write>(
    output: &mut W,
    structure: &Structure,
    before: &str,
    pid: Pid,
) -> Result<()>
    ensures { OnOk result (Appends (W.contents output.old) (W.contents output.new) (pid_line structure.now before.now pid)) }
{
    write!(output, "{before}")?;
    write_pid(output, structure, pid)?;
    write!(output, ";\n")
}

/// Writes the values of a signal in brackets, where it has some.
pub(crate) fn write_params<W: Write>(
    output: &mut W,
    structure: &Structure,
    signal: &Signal,
) -> Result<()>
    ensures { OnOk result (Appends (W.contents output.old) (W.contents output.new) (values_text structure.now signal.now.params.items)) }
{
    write_marked_params(output, structure, "_", signal)
}

/// Writes the name of a signal behind a text.
pub(crate) fn write_signal_name<W: Write>(
    output: &mut W,
    structure: &Structure,
    before: &str,
    signal: SignalId,
) -> Result<()>
    ensures { OnOk result (Appends (W.contents output.old) (W.contents output.new) (before.now ++ name_text (signal_text structure.now signal))) }
{
    write_name(output, before, signal_name(structure, signal))
}
