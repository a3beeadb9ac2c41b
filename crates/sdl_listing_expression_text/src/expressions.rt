//! The expressions of a text.
//!
//! The tokens that a reader took spell what it read, and no operator is left behind an expression. A fault stands at one of the
//! tokens that were left, or at their end. Which fault it is, and that there is a reason for it, is only tested.
ghost use Rattle.std.specs.Prelude.{◌≡◌, ◌+◌, ◌<◌, ◌≤◌, length, IfOk, IfErr, IfSome, IfNone};
ghost use Rattle.sdl_listing_expression.specs.Sorted.{sort_in};
ghost use Rattle.sdl_listing_expression_text.specs.Faults.{left_at};
ghost use Rattle.sdl_listing_expression_text.specs.Spelling.{first_level, HasNone, Stops, Reads, Spells, InBrackets, word_of, IsWordOf, IsValueWord, IsOperator};

use crate::building::{choice_of, instance, inverse, joined, negated, serial_number};
use crate::cursor::{Cursor, Read};
use crate::fault::{Named, Stopped, TextFault, Wanted};
use crate::numbers::integer;
use crate::operators::{COMPARISONS, Infix, LOOSEST, TIGHTEST, infix_of, wanted_sort};
use crate::setting::Meanings;
use sdl_listing_expression::{Expr, Word, sort_of};
use sdl_listing_tokens::{Kind, Reserved, Sign};
use sdl_signal::Sort;
use std::alloc::Global;

/// How many braces and brackets may be open.
pub const MOST_DEPTH: usize = 16;

/// The operator of the level at the front, and what stands behind it.
fn infix_at<'a>(at: Cursor<'a>, level: usize) -> Option<(Infix, Cursor<'a>)>
    ensures shorter { IfSome result (λ r. length r.1.tokens.now < length at.entry.tokens.now) }
    ensures level { IfSome result (λ r. r.0.level ≡ level) }
    ensures read { IfSome result (λ r. Reads (IsOperator r.0) at.entry.tokens.now r.1.tokens.now) }
    ensures none { IfNone result (HasNone level at.entry.tokens.now) }
{
    let Some((token, rest)) = at.next() else {
        return None;
    };
    let Some(found) = infix_of(token.kind) else {
        return None;
    };
    if found.level == level {
        return Some((found, rest));
    }
    None
}

/// An expression whose operators outside brackets are of this level, or bind tighter. So many brackets may be opened.
#[cycle(expressions)]
fn operand<'a>(
    alloc: Global,
    meanings: &Meanings,
    at: Cursor<'a>,
    level: usize,
    room: usize,
) -> Read<'a, Expr>
    requires { level ≤ 5 }
    ensures shorter { IfOk result (λ r. length r.1.tokens.now < length at.entry.tokens.now) }
    ensures spelled { IfOk result (λ r. Reads (Spells meanings.now r.0 level) at.entry.tokens.now r.1.tokens.now) }
    ensures stops { IfOk result (λ r. Stops level r.1.tokens.now) }
    ensures place { IfErr result (λ e. left_at e ≤ length at.entry.tokens.now) }
{
    if level > TIGHTEST {
        return unary(alloc, meanings, at, room);
    }
    let (first, rest) = operand(alloc, meanings, at, level + 1, room)?;
    more(alloc, meanings, first, at, rest, level, room)
}

/// The same, of which the first operand is read: it began at `from`.
#[cycle(expressions)]
fn more<'a>(
    alloc: Global,
    meanings: &Meanings,
    first: Expr,
    from: Cursor<'a>,
    at: Cursor<'a>,
    level: usize,
    room: usize,
) -> Read<'a, Expr>
    requires level { level ≤ 4 }
    requires first { Reads (Spells meanings.now first (first_level level)) from.tokens.now at.tokens.now }
    requires stops { Stops (level + 1) at.tokens.now }
    requires shorter { length at.tokens.now ≤ length from.tokens.now }
    ensures shorter { IfOk result (λ r. length r.1.tokens.now ≤ length at.entry.tokens.now) }
    ensures spelled { IfOk result (λ r. Reads (Spells meanings.now r.0 level) from.entry.tokens.now r.1.tokens.now) }
    ensures stops { IfOk result (λ r. Stops level r.1.tokens.now) }
    ensures place { IfErr result (λ e. left_at e ≤ length from.entry.tokens.now) }
{
    let Some((found, behind)) = infix_at(at, level) else {
        return Ok((first, at));
    };
    let sort = sort_of(&first);
    let wanted = wanted_sort(found.operator, sort);
    from.sorted(sort, wanted)?;
    let behind = at.counted(behind)?;
    let (second, rest) = operand(alloc, meanings, behind, level + 1, room)?;
    behind.sorted(sort_of(&second), wanted)?;
    let both = joined(alloc, found, first, second)?;
    if level == COMPARISONS {
        return Ok((both, rest));
    }
    more(alloc, meanings, both, from, rest, level, room)
}

/// A value with an operator before it, or without.
#[cycle(expressions)]
fn unary<'a>(alloc: Global, meanings: &Meanings, at: Cursor<'a>, room: usize) -> Read<'a, Expr>
    ensures shorter { IfOk result (λ r. length r.1.tokens.now < length at.entry.tokens.now) }
    ensures spelled { IfOk result (λ r. Reads (Spells meanings.now r.0 5) at.entry.tokens.now r.1.tokens.now) }
    ensures place { IfErr result (λ e. left_at e ≤ length at.entry.tokens.now) }
{
    if at.has_sign(Sign::Minus) {
        let counted = at.part()?;
        let behind = counted.sign(Sign::Minus)?;
        if behind.begins_number() {
            let (number, rest) = integer(behind, true)?;
            return Ok((Expr::Integer(number), rest));
        }
        let (inner, rest) = primary(alloc, meanings, behind, room)?;
        behind.sorted(sort_of(&inner), Sort::Integer)?;
        let value = negated(alloc, inner)?;
        return Ok((value, rest));
    }
    if at.has_word(Reserved::Not) {
        let counted = at.part()?;
        let behind = counted.word(Reserved::Not)?;
        let (inner, rest) = primary(alloc, meanings, behind, room)?;
        behind.sorted(sort_of(&inner), Sort::Boolean)?;
        let value = inverse(alloc, inner)?;
        return Ok((value, rest));
    }
    primary(alloc, meanings, at, room)
}

/// The Pid that the word names.
pub fn own_pid(word: Reserved) -> Option<Word>
    ensures { IfSome result (λ own. word_of own ≡ word) }
{
    match word {
        Reserved::SelfPid => Some(Word::SelfPid),
        Reserved::Parent => Some(Word::Parent),
        Reserved::Offspring => Some(Word::Offspring),
        Reserved::Sender => Some(Word::Sender),
        _ => None,
    }
}

/// The word of a Pid.
pub fn own_word(own: Word) -> Reserved
    ensures { result ≡ word_of own }
{
    match own {
        Word::SelfPid => Reserved::SelfPid,
        Word::Parent => Reserved::Parent,
        Word::Offspring => Reserved::Offspring,
        Word::Sender => Reserved::Sender,
    }
}

/// The value that the word is by itself.
fn word_value(word: Reserved) -> Option<Expr>
    ensures { IfSome result (IsWordOf word) }
{
    match word {
        Reserved::True => Some(Expr::Boolean(true)),
        Reserved::False => Some(Expr::Boolean(false)),
        Reserved::Null => Some(Expr::Null),
        Reserved::Env => Some(Expr::Env),
        _ => match own_pid(word) {
            Some(own) => Some(Expr::Own(own)),
            None => None,
        },
    }
}

/// The same place, behind the word: no create may stand on a way to OFFSPRING.
fn looked_up<'a>(at: Cursor<'a>, word: Reserved) -> Cursor<'a>
    ensures { result.tokens.now ≡ at.entry.tokens.now }
{
    if at.has_create && word == Reserved::Offspring {
        return at.with_late(TextFault::EarlyOffspring);
    }
    at
}

/// A word that is a value by itself.
fn worded<'a>(at: Cursor<'a>, word: Reserved) -> Read<'a, Expr>
    ensures shorter { IfOk result (λ r. length r.1.tokens.now < length at.entry.tokens.now) }
    ensures read { IfOk result (λ r. Reads (IsValueWord r.0) at.entry.tokens.now r.1.tokens.now) }
    ensures place { IfErr result (λ e. left_at e ≤ length at.entry.tokens.now) }
{
    match word_value(word) {
        Some(value) => {
            let counted = at.part()?;
            let rest = looked_up(counted, word).word(word)?;
            Ok((value, rest))
        }
        None => Err(at.fault(TextFault::Expected(Wanted::Value))),
    }
}

/// A value without an operator outside brackets.
#[cycle(expressions)]
fn primary<'a>(alloc: Global, meanings: &Meanings, at: Cursor<'a>, room: usize) -> Read<'a, Expr>
    ensures shorter { IfOk result (λ r. length r.1.tokens.now < length at.entry.tokens.now) }
    ensures spelled { IfOk result (λ r. Reads (Spells meanings.now r.0 6) at.entry.tokens.now r.1.tokens.now) }
    ensures place { IfErr result (λ e. left_at e ≤ length at.entry.tokens.now) }
{
    match at.kind() {
        Some(Kind::Integer) => {
            let counted = at.part()?;
            let (number, rest) = integer(counted, false)?;
            Ok((Expr::Integer(number), rest))
        }
        Some(Kind::Name) => named(alloc, meanings, at, room),
        Some(Kind::Sign(Sign::Open)) => {
            let counted = at.part()?;
            bracketed(alloc, meanings, counted, room)
        }
        Some(Kind::Word(Reserved::If)) => choice(alloc, meanings, at, room),
        Some(Kind::Word(Reserved::Serial)) => serial(alloc, meanings, at, room),
        Some(Kind::Word(word)) => worded(at, word),
        _ => Err(at.fault(TextFault::Expected(Wanted::Value))),
    }
}

/// A value that begins with a name: a variable, a parameter, a constant, or an instance of a set.
#[cycle(expressions)]
fn named<'a>(alloc: Global, meanings: &Meanings, at: Cursor<'a>, room: usize) -> Read<'a, Expr>
    ensures shorter { IfOk result (λ r. length r.1.tokens.now < length at.entry.tokens.now) }
    ensures spelled { IfOk result (λ r. Reads (Spells meanings.now r.0 6) at.entry.tokens.now r.1.tokens.now) }
    ensures place { IfErr result (λ e. left_at e ≤ length at.entry.tokens.now) }
{
    let counted = at.part()?;
    let (text, behind) = counted.name(Wanted::Value)?;
    match meanings.setting.set_named(text) {
        Some(set) => {
            let (inner, rest) = bracketed(alloc, meanings, behind, room)?;
            behind.inner().sorted(sort_of(&inner), Sort::Integer)?;
            let value = instance(alloc, set, inner)?;
            Ok((value, rest))
        }
        None => match meanings.value(text) {
            Some(value) => Ok((value, behind)),
            None => Err(at.fault(TextFault::UnknownName(Named::Value))),
        },
    }
}

/// The serial number of an instance.
#[cycle(expressions)]
fn serial<'a>(alloc: Global, meanings: &Meanings, at: Cursor<'a>, room: usize) -> Read<'a, Expr>
    ensures shorter { IfOk result (λ r. length r.1.tokens.now < length at.entry.tokens.now) }
    ensures spelled { IfOk result (λ r. Reads (Spells meanings.now r.0 6) at.entry.tokens.now r.1.tokens.now) }
    ensures place { IfErr result (λ e. left_at e ≤ length at.entry.tokens.now) }
{
    let counted = at.part()?;
    let behind = counted.word(Reserved::Serial)?;
    let (inner, rest) = bracketed(alloc, meanings, behind, room)?;
    behind.inner().sorted(sort_of(&inner), Sort::Pid)?;
    let value = serial_number(alloc, inner)?;
    Ok((value, rest))
}

/// An expression in brackets.
#[cycle(expressions)]
fn bracketed<'a>(alloc: Global, meanings: &Meanings, at: Cursor<'a>, room: usize) -> Read<'a, Expr>
    ensures shorter { IfOk result (λ r. length r.1.tokens.now < length at.entry.tokens.now) }
    ensures spelled { IfOk result (λ r. Reads (InBrackets (Spells meanings.now r.0 0)) at.entry.tokens.now r.1.tokens.now) }
    ensures place { IfErr result (λ e. left_at e ≤ length at.entry.tokens.now) }
{
    let behind = at.sign(Sign::Open)?;
    if room == 0 {
        return Err(at.fault(TextFault::TooDeep));
    }
    let (inner, rest) = operand(alloc, meanings, behind, LOOSEST, room - 1)?;
    let rest = rest.sign(Sign::Close)?;
    Ok((inner, rest))
}

/// A choice between two values.
#[cycle(expressions)]
fn choice<'a>(alloc: Global, meanings: &Meanings, at: Cursor<'a>, room: usize) -> Read<'a, Expr>
    ensures shorter { IfOk result (λ r. length r.1.tokens.now < length at.entry.tokens.now) }
    ensures spelled { IfOk result (λ r. Reads (Spells meanings.now r.0 6) at.entry.tokens.now r.1.tokens.now) }
    ensures place { IfErr result (λ e. left_at e ≤ length at.entry.tokens.now) }
{
    let counted = at.part()?;
    let behind = counted.word(Reserved::If)?;
    let (condition, rest) = operand(alloc, meanings, behind, LOOSEST, room)?;
    behind.sorted(sort_of(&condition), Sort::Boolean)?;
    let on_true = rest.word(Reserved::Then)?;
    let (yes, rest) = operand(alloc, meanings, on_true, LOOSEST, room)?;
    let on_false = rest.word(Reserved::Else)?;
    let (no, rest) = operand(alloc, meanings, on_false, LOOSEST, room)?;
    on_false.sorted(sort_of(&no), sort_of(&yes))?;
    let rest = rest.word(Reserved::Fi)?;
    let value = choice_of(alloc, condition, yes, no)?;
    Ok((value, rest))
}

/// An expression of the sort. So many brackets may be opened.
///
/// # Errors
///
/// The first fault of the tokens from the left, or that memory was refused.
pub fn expression<'a>(
    alloc: Global,
    meanings: &Meanings,
    at: Cursor<'a>,
    sort: Sort,
    room: usize,
) -> Read<'a, Expr>
    ensures shorter { IfOk result (λ r. length r.1.tokens.now < length at.entry.tokens.now) }
    ensures spelled { IfOk result (λ r. Reads (Spells meanings.now r.0 0) at.entry.tokens.now r.1.tokens.now) }
    ensures stops { IfOk result (λ r. Stops 0 r.1.tokens.now) }
    ensures sort { IfOk result (λ r. sort_in r.0 ≡ sort) }
    ensures place { IfErr result (λ e. left_at e ≤ length at.entry.tokens.now) }
{
    let (found, rest) = operand(alloc, meanings, at, LOOSEST, room)?;
    at.sorted(sort_of(&found), sort)?;
    Ok((found, rest))
}
