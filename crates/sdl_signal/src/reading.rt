//! A line of the environment, read by its rules. (This project's own.)
ghost use Rattle.std.specs.Prelude.{◌≡◌, ◌<◌, ◌⊎◌, ◌↔◌, IfOk, IfErr, OnOk, IfSome, IfNone, IsSome, IsSomeAnd, IsTrue, Any, option_map, map, take, length, ◌≤◌};
ghost use Rattle.sdl_signal.specs.Line.{LineFits, PidFits, line_text, to_texts, to_part};
ghost use Rattle.sdl_signal.specs.Names.{Lexicon};
ghost use Rattle.sdl_signal.specs.Reading as rule;
ghost use Rattle.sdl_signal.specs.Reading.{IsBlankLine, Passes, IsFirstFault, IsPidText, HasDistinctNames, NamesFirst, PidNamesFirst};

mod fields;
mod in_order;
mod values;

use crate::naming::Names;
use crate::values::{EnvLine, Pid, Signal};
use arrayvec::ArrayVec;
use fields::{MANY, fields_of, parts};
use in_order::read_in_order;
use sdl_signal_lines::LONGEST_LINE;
use std::fmt::{self, Display, Formatter};
use values::{read_pid, read_values};

/// Why a line is refused: the first rule that fails. (This project's own.)
#[derive(Clone, Copy, Debug, PartialEq, Eq)]
pub enum LineFault {
    /// L1: the line has over 320 bytes.
    TooLong,
    /// L2: a byte is outside 32 to 126.
    NotAscii,
    /// L3: a field is empty, or there are fewer than two.
    Missing,
    /// L4: the first field is no gate of the system.
    UnknownGate,
    /// L5: the second field is no signal of the system.
    UnknownSignal,
    /// L6: there are not as many values as the signal has parameters.
    WrongCount,
    /// L7: a field is no value of its sort.
    BadValue,
    /// L8: the field after `to` is no Pid.
    BadTo,
}

/// The fault as the program prints it: its number and its name.
impl Display for LineFault {
    fn fmt<W: fmt::Write>(&self, f: &mut Formatter<W>) -> fmt::Result {
        f.write_str(match self {
            LineFault::TooLong => "L1 TooLong",
            LineFault::NotAscii => "L2 NotAscii",
            LineFault::Missing => "L3 Missing",
            LineFault::UnknownGate => "L4 UnknownGate",
            LineFault::UnknownSignal => "L5 UnknownSignal",
            LineFault::WrongCount => "L6 WrongCount",
            LineFault::BadValue => "L7 BadValue",
            LineFault::BadTo => "L8 BadTo",
        })
    }
}

/// Whether a byte is outside 32 to 126. A carriage return is one.
fn has_other_byte(line: &[u8]) -> bool
    ensures { IsTrue result ↔ Any (λ b. (b < 32) ⊎ (126 < b)) line.now }
{
    line.iter().any(|b| *b < 32 || 126 < *b)
}

/// The Pid of the TO part, where there is one, or `None` where its field is no Pid.
fn read_to(names: &Names, to: Option<&[u8]>) -> Option<Option<Pid>>
    ensures some { IfSome result (λ pid. to_texts names.now pid ≡ Some (to_part (option_map (λ t. t.now) to.entry))) }
    ensures fits { IfSome result (λ pid. IfSome pid PidFits) }
    ensures first { IfSome result (λ pid. IfSome pid (PidNamesFirst names.now)) }
    ensures none { IfNone result (IsSomeAnd to.entry (λ t. ¬ IsPidText names.now t.now)) }
{
    let Some(text) = to else {
        return Some(None);
    };
    let Some(pid) = read_pid(names, text) else {
        return None;
    };
    Some(Some(pid))
}

/// The fields of a line that keeps the rules up to L3, at most nine of them; else the first of those rules that
/// it breaks.
fn cut_by_rules(line: &[u8]) -> Result<ArrayVec<&[u8], MANY>, LineFault>
    ensures cut { IfOk result (λ found. map (λ f. f.now) found.items ≡ take 9 (rule.fields line.now)) }
    ensures two { IfOk result (λ found. 2 ≤ length found.items) }
    ensures passes { (names : Lexicon) → IfOk result (λ _. Passes names line.now 4) }
    ensures fault { (names : Lexicon) → IfErr result (IsFirstFault names line.now) }
{
    if line.len() > LONGEST_LINE {
        return Err(LineFault::TooLong);
    }
    if has_other_byte(line) {
        return Err(LineFault::NotAscii);
    }
    let Some(found) = fields_of(line) else {
        return Err(LineFault::Missing);
    };
    if found.len() < 2 {
        return Err(LineFault::Missing);
    }
    Ok(found)
}

/// The line that the text is, or the first rule that it breaks. It goes through the rules in their order.
#[inline(never)]
fn read_by_rules(names: &Names, line: &[u8]) -> Result<EnvLine, LineFault>
    ensures read { IfOk result (λ l. line_text names.now l ≡ Some line.now) }
    ensures first_named { IfOk result (NamesFirst names.now) }
    ensures fits { IfOk result LineFits }
    ensures fault { IfErr result (IsFirstFault names.now line.now) }
{
    let found = match cut_by_rules(line) {
        Ok(found) => found,
        Err(fault) => return Err(fault),
    };
    let Some(gate) = names.gate_named(found[0]) else {
        return Err(LineFault::UnknownGate);
    };
    let Some(id) = names.signal_named(found[1]) else {
        return Err(LineFault::UnknownSignal);
    };
    let sorts = &names.signal(id).sorts;
    let (values, to) = parts(&found);
    if values.len() != sorts.len() {
        return Err(LineFault::WrongCount);
    }
    let Some(params) = read_values(names, sorts, values) else {
        return Err(LineFault::BadValue);
    };
    let Some(to) = read_to(names, to) else {
        return Err(LineFault::BadTo);
    };
    Ok(EnvLine {
        gate,
        signal: Signal { id, params },
        to,
    })
}

/// Reads the text into a blank line, or answers the first rule that it breaks. A line that
/// breaks none is read from its front to its end.
#[inline(always)]
pub(crate) fn read_into(names: &Names, text: &[u8], line: &mut EnvLine) -> Result<(), LineFault>
    requires { IsBlankLine line.old }
    ensures read { OnOk result (line_text names.now line.new ≡ Some text.now) }
    ensures first_named { OnOk result (NamesFirst names.now line.new) }
    ensures fits { OnOk result (LineFits line.new) }
    ensures fault { IfErr result (IsFirstFault names.now text.now) }
{
    if read_in_order(names, text, line) {
        return Ok(());
    }
    match read_by_rules(names, text) {
        Ok(read) => {
            *line = read;
            Ok(())
        }
        Err(fault) => Err(fault),
    }
}

/// Reads a line, without its newline, as a signal that enters at a gate of the system. Of equal names the first
/// counts. No memory is taken.
///
/// # Errors
///
/// The first rule that the line breaks.
pub fn read_line(names: &Names, line: &[u8]) -> Result<EnvLine, LineFault>
    ensures read { IfOk result (λ l. line_text names.now l ≡ Some line.now) }
    ensures first_named { IfOk result (λ l. NamesFirst names.now l) }
    ensures fits { IfOk result LineFits }
    ensures only { (l : EnvLine) → LineFits l → NamesFirst names.now l → line_text names.now l ≡ Some line.now → result ≡ Ok l }
    ensures distinct { HasDistinctNames names.now → (l : EnvLine) → LineFits l → line_text names.now l ≡ Some line.now → result ≡ Ok l }
    ensures fault { IfErr result (λ f. IsFirstFault names.now line.now f) }
    ensures writable { IfOk result (λ l. IsSome (line_text names.now (record l { to = None }))) }
{
    names.keep_rules();
    let mut read = EnvLine::default();
    match read_into(names, line, &mut read) {
        Ok(()) => Ok(read),
        Err(fault) => Err(fault),
    }
}
