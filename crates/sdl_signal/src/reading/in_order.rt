//! A line, read from its front to its end.
ghost use Rattle.std.specs.Prelude.{◌≡◌, ◌≤◌, ℕ, List, [], ◌∷◌, ◌++◌, true, None, Some, IfSome, length, option_map};
ghost use Rattle.std.specs.List.{AllByRecursion};
ghost use Rattle.sdl_signal.specs.Line.{LineFits, PidFits, ValueFits, space, line_text, to_texts, value_texts};
ghost use Rattle.sdl_signal.specs.Reading.{IsBlankLine, NamesFirst, PidNamesFirst, ValueNamesFirst};
ghost use Rattle.sdl_signal.specs.Writing.{spaced};

use super::values::{read_pid, read_value};
use crate::naming::Names;
use crate::values::{EnvLine, Pid, Sort, Value};
use arrayvec::ArrayVec;

/// The text up to its first space, or to its end, and what follows.
#[inline(always)]
fn field_before(text: &[u8]) -> (&[u8], &[u8])
    ensures { text.now ≡ result.0.now ++ result.1.now }
{
    let count = match text.iter().position(|b| *b == b' ') {
        Some(place) => place,
        None => text.len(),
    };
    text.split_at(count)
}

/// What follows the space that the text begins with.
#[inline(always)]
fn behind_space(text: &[u8]) -> Option<&[u8]>
    ensures { IfSome result (λ rest. text.now ≡ space ∷ rest.now) }
{
    if text.is_empty() || text[0] != b' ' {
        return None;
    }
    Some(&text[1..])
}

/// Reads the values of these sorts one after another, each with a space before it, and answers what follows. `None` where one
/// is none of its sort.
#[inline(always)]
fn read_spaced<'a>(
    names: &Names,
    sorts: &[Sort],
    text: &'a [u8],
    values: &mut ArrayVec<Value, 4>,
) -> Option<&'a [u8]>
    requires few { length sorts.now ≤ 4 }
    requires empty { values.old.items ≡ [] }
    ensures texts { IfSome result (λ rest. (ts : List (List ℕ)) × (value_texts names.now sorts.now values.new.items ≡ Some ts) × (text.now ≡ spaced ts ++ rest.now)) }
    ensures fits { IfSome result (λ _. AllByRecursion ValueFits values.new.items) }
    ensures first { IfSome result (λ _. AllByRecursion (ValueNamesFirst names.now) values.new.items) }
{
    let mut rest = text;
    for sort in sorts {
        let Some(behind) = behind_space(rest) else {
            return None;
        };
        let (field, after) = field_before(behind);
        let Some(value) = read_value(names, *sort, field) else {
            return None;
        };
        values.push(value);
        rest = after;
    }
    Some(rest)
}

/// Reads a TO part, where the text has one, each of its fields with a space before it. It says whether the text is that or empty.
#[inline(always)]
fn read_to_part(names: &Names, text: &[u8], to: &mut Option<Pid>) -> bool
    requires { to.old ≡ None }
    ensures text { result ≡ true → option_map spaced (to_texts names.now to.new) ≡ Some text.now }
    ensures fits { result ≡ true → IfSome to.new PidFits }
    ensures first { result ≡ true → IfSome to.new (PidNamesFirst names.now) }
{
    if text.is_empty() {
        return true;
    }
    let Some(behind) = behind_space(text) else {
        return false;
    };
    let (word, rest) = field_before(behind);
    if word != b"to".as_slice() {
        return false;
    }
    let Some(field) = behind_space(rest) else {
        return false;
    };
    let Some(pid) = read_pid(names, field) else {
        return false;
    };
    *to = Some(pid);
    true
}

/// Reads the text into a blank line, and says whether it could. Which rule another text breaks is found by going through the rules
/// one by one.
#[inline(always)]
pub(crate) fn read_in_order(names: &Names, text: &[u8], line: &mut EnvLine) -> bool
    requires { IsBlankLine line.old }
    ensures read { result ≡ true → line_text names.now line.new ≡ Some text.now }
    ensures first_named { result ≡ true → NamesFirst names.now line.new }
    ensures fits { result ≡ true → LineFits line.new }
{
    names.keep_rules();
    let (gate, behind_gate) = field_before(text);
    let Some(gate) = names.gate_named(gate) else {
        return false;
    };
    let Some(rest) = behind_space(behind_gate) else {
        return false;
    };
    let (signal, values) = field_before(rest);
    let Some(id) = names.signal_named(signal) else {
        return false;
    };
    line.gate = gate;
    line.signal.id = id;
    match read_spaced(
        names,
        &names.signal(id).sorts,
        values,
        &mut line.signal.params,
    ) {
        Some(to) => read_to_part(names, to, &mut line.to),
        None => false,
    }
}
