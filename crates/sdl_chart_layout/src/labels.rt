//! The texts of Pids and signals.
use sdl_app_file_commands::names::{set_name, signal_name};
use sdl_signal::{Pid, Signal, Value};
use sdl_structure_parts::Structure;
use std::fmt;
use std::fmt::{Display, Formatter};

/// A Pid, as it is shown.
#[derive(Clone, Copy)]
pub(crate) struct PidText<'a> {
    pub structure: &'a Structure,
    pub pid: Pid,
}

impl Display for PidText<'_> {
    fn fmt<W: fmt::Write>(&self, f: &mut Formatter<W>) -> fmt::Result {
        match self.pid {
            Pid::Null => write!(f, "null"),
            Pid::Env => write!(f, "env"),
            Pid::Inst(set, serial) => {
                let name = set_name(self.structure, set);
                write!(f, "{name}:{serial}")
            }
        }
    }
}

/// A signal with its values, as it is shown.
#[derive(Clone, Copy)]
pub(crate) struct SignalText<'a> {
    pub structure: &'a Structure,
    pub signal: &'a Signal,
}

/// Writes a value behind a sign.
fn write_value<W: fmt::Write>(
    f: &mut Formatter<W>,
    structure: &Structure,
    sign: &str,
    value: Value,
) -> fmt::Result {
    match value {
        Value::Integer(number) => write!(f, "{sign}{number}"),
        Value::Boolean(truth) => write!(f, "{sign}{truth}"),
        Value::Pid(pid) => {
            let pid = PidText { structure, pid };
            write!(f, "{sign}{pid}")
        }
    }
}

impl Display for SignalText<'_> {
    fn fmt<W: fmt::Write>(&self, f: &mut Formatter<W>) -> fmt::Result {
        let name = signal_name(self.structure, self.signal.id);
        write!(f, "{name}")?;
        let mut sign = "(";
        for value in self.signal.params.as_slice() {
            write_value(f, self.structure, sign, *value)?;
            sign = ", ";
        }
        if self.signal.params.as_slice().is_empty() {
            Ok(())
        } else {
            write!(f, ")")
        }
    }
}
