//! The numbers of a text.
ghost use Rattle.std.specs.Prelude.{◌≡◌, ◌<◌, pos, neg_ℤ, length, decimal, true, ◌≤◌, IfOk, IfErr, IfSome, if◌then◌else◌};
ghost use Rattle.sdl_listing_expression_text.specs.Faults.{left_at};
ghost use Rattle.sdl_listing_expression_text.specs.Spelling.{IsLiteral, Reads};

use crate::cursor::{Cursor, Read};
use crate::fault::{TextFault, Wanted};
use itoa::Buffer;
use sdl_listing_tokens::Kind;
use std::str;

/// The number of this text. Its text is that of the number again: no leading zeros.
fn size_of(digits: &[u8]) -> Option<u64>
    ensures { IfSome result (λ n. digits.now ≡ decimal n) }
{
    let Ok(text) = str::from_utf8(digits) else {
        return None;
    };
    let Ok(number) = text.parse::<u64>() else {
        return None;
    };
    let mut buffer = Buffer::new();
    if buffer.format(number) == text {
        Some(number)
    } else {
        None
    }
}

/// The Integer of this size, below 0 where there is a minus before it. There is no -0.
fn signed(size: u64, is_negative: bool) -> Option<i64>
    ensures value { IfSome result (λ z. z ≡ (if is_negative then neg_ℤ (pos size) else pos size)) }
    ensures some { IfSome result (λ _. is_negative ≡ true → 0 < size) }
{
    if !is_negative {
        return match i64::try_from(size) {
            Ok(number) => Some(number),
            Err(_) => None,
        };
    }
    if size == 0 {
        return None;
    }
    match i64::try_from(size) {
        Ok(number) => Some(-number),
        Err(_) if size == 9_223_372_036_854_775_808 => Some(i64::MIN),
        Err(_) => None,
    }
}

/// The number at the front, below 0 where there is a minus before it.
pub fn integer<'a>(at: Cursor<'a>, is_negative: bool) -> Read<'a, i64>
    ensures shorter { IfOk result (λ r. length r.1.tokens.now < length at.entry.tokens.now) }
    ensures read { IfOk result (λ r. Reads (IsLiteral is_negative r.0) at.entry.tokens.now r.1.tokens.now) }
    ensures place { IfErr result (λ e. left_at e ≤ length at.entry.tokens.now) }
{
    let Some((token, rest)) = at.next() else {
        return Err(at.fault(TextFault::Expected(Wanted::Literal)));
    };
    let Kind::Integer = token.kind else {
        return Err(at.fault(TextFault::Expected(Wanted::Literal)));
    };
    let Some(size) = size_of(token.text) else {
        return Err(at.fault(TextFault::BadInteger));
    };
    match signed(size, is_negative) {
        Some(number) => Ok((number, rest)),
        None => Err(at.fault(TextFault::BadInteger)),
    }
}
