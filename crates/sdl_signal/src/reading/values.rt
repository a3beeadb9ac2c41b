//! The values of a line, from their texts.
ghost use Rattle.std.specs.Prelude.{◌≡◌, ◌≢◌, ℤ, ℕ, ◌<◌, ◌≤◌, ◌^◌, IfSome, IfNone, map, length, decimal, Some, ◌==◌, position};
ghost use Rattle.std.specs.List.{AllByRecursion};
ghost use Rattle.std.specs.Fmt.{signed_decimal};
ghost use Rattle.sdl_signal.specs.Line.{colon, PidFits, ValueFits, IsInteger, pid_text, value_text, value_texts};
ghost use Rattle.sdl_signal.specs.Reading.{IsPidText, IsValueText, HasBadValue, PidNamesFirst, ValueNamesFirst};

use crate::naming::Names;
use crate::values::{Pid, Sort, Value};
use arrayvec::ArrayVec;
use itoa::Buffer;
use std::str;

/// The number of this text. Its text is that of the number again: no `+`, no leading zeros, no `-0`.
fn read_integer(field: &[u8]) -> Option<i64>
    ensures some { IfSome result (λ n. signed_decimal n ≡ field.now) }
    ensures fits { IfSome result IsInteger }
    ensures none { IfNone result ((n : ℤ) → IsInteger n → signed_decimal n ≢ field.now) }
{
    let Ok(text) = str::from_utf8(field) else {
        return None;
    };
    let Ok(number) = text.parse::<i64>() else {
        return None;
    };
    let mut buffer = Buffer::new();
    if buffer.format(number) == text {
        Some(number)
    } else {
        None
    }
}

/// The serial number of this text, which counts from 1.
fn read_serial(field: &[u8]) -> Option<u32>
    ensures some { IfSome result (λ n. decimal n ≡ field.now) }
    ensures fits { IfSome result (λ n. (0 < n) × (n < 2 ^ 32)) }
    ensures none { IfNone result ((n : ℕ) → 0 < n → n < 2 ^ 32 → decimal n ≢ field.now) }
{
    let Ok(text) = str::from_utf8(field) else {
        return None;
    };
    let Ok(number) = text.parse::<u32>() else {
        return None;
    };
    let mut buffer = Buffer::new();
    if number > 0 && buffer.format(number) == text {
        Some(number)
    } else {
        None
    }
}

/// The place of the first colon.
fn colon_of(field: &[u8]) -> Option<usize>
    ensures place { result ≡ position (λ b. b == colon) field.now }
    ensures within { IfSome result (λ i. i < length field.now) }
{
    field.iter().position(|b| *b == b':')
}

/// The Pid of this text.
pub(crate) fn read_pid(names: &Names, field: &[u8]) -> Option<Pid>
    ensures some { IfSome result (λ p. pid_text names.now p ≡ Some field.now) }
    ensures fits { IfSome result PidFits }
    ensures first { IfSome result (PidNamesFirst names.now) }
    ensures none { IfNone result (¬ IsPidText names.now field.now) }
{
    if field == b"null".as_slice() {
        return Some(Pid::Null);
    }
    if field == b"env".as_slice() {
        return Some(Pid::Env);
    }
    names.keep_rules();
    let Some(place) = colon_of(field) else {
        return None;
    };
    let Some(set) = names.set_named(&field[..place]) else {
        return None;
    };
    let Some(serial) = read_serial(&field[place + 1..]) else {
        return None;
    };
    Some(Pid::Inst(set, serial))
}

/// The value of this sort and text.
pub(crate) fn read_value(names: &Names, sort: Sort, field: &[u8]) -> Option<Value>
    ensures some { IfSome result (λ v. value_text names.now sort v ≡ Some field.now) }
    ensures fits { IfSome result ValueFits }
    ensures first { IfSome result (ValueNamesFirst names.now) }
    ensures none { IfNone result (¬ IsValueText names.now sort field.now) }
{
    match sort {
        Sort::Integer => {
            let Some(number) = read_integer(field) else {
                return None;
            };
            Some(Value::Integer(number))
        }
        Sort::Boolean => {
            if field == b"true".as_slice() {
                return Some(Value::Boolean(true));
            }
            if field == b"false".as_slice() {
                return Some(Value::Boolean(false));
            }
            None
        }
        Sort::Pid => {
            let Some(pid) = read_pid(names, field) else {
                return None;
            };
            Some(Value::Pid(pid))
        }
    }
}

/// The values of these sorts and texts.
pub(crate) fn read_values(
    names: &Names,
    sorts: &[Sort],
    fields: &[&[u8]],
) -> Option<ArrayVec<Value, 4>>
    requires alike { length sorts.now ≡ length fields.now }
    requires few { length sorts.now ≤ 4 }
    ensures some { IfSome result (λ vs. value_texts names.now sorts.now vs.items ≡ Some (map (λ f. f.now) fields.now)) }
    ensures fits { IfSome result (λ vs. AllByRecursion ValueFits vs.items) }
    ensures first { IfSome result (λ vs. AllByRecursion (ValueNamesFirst names.now) vs.items) }
    ensures none { IfNone result (HasBadValue names.now sorts.now (map (λ f. f.now) fields.now)) }
{
    let mut values = ArrayVec::new();
    for (i, sort) in sorts.iter().enumerate() {
        let Some(value) = read_value(names, *sort, fields[i]) else {
            return None;
        };
        values.push(value);
    }
    Some(values)
}
