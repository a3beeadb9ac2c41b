//! Constants and variables, each from its text.
ghost use Rattle.std.specs.Prelude.{◌≡◌, ◌<◌, ◌≤◌, false, true, length, position, bytes_eq, Some, None, IfOk, IfErr, IfSome, IsSome};
ghost use Rattle.sdl_signal.specs.Sorts.{sort_of};
ghost use Rattle.sdl_listing_expression_text.specs.Meanings as rule;
ghost use Rattle.sdl_listing_expression_text.specs.Spelling.{IsNameOf, Reads, word_of_boolean};
ghost use Rattle.sdl_listing_body_text.specs.Rows.{IsWithin, IsText};
ghost use Rattle.sdl_listing_body_text.specs.Declarations.{IsNewName, IsLiteralValue, IsKnownValue, IsConstant, sort_text, blank, IsInitial, IsVariable};

use crate::places::{Refusal, refused, tokens_of};
use sdl_listing_expression_text::{
    Constant, Cursor, Named, Read, Stopped, TextFault, Variable, Wanted, constant_named, integer,
    place_of_constant, place_of_variable, set_named,
};
use sdl_listing_tokens::{Kind, Reserved, Sign, Token};
use sdl_signal::{Name, Pid, Sort, Value, name};
use sdl_structure_parts::Structure;
use std::alloc::Global;
use std::str;

/// The bytes as a name.
fn name_of(text: &[u8]) -> Option<Name>
    ensures { IfSome result (λ n. n.bytes ≡ text.now) }
{
    match str::from_utf8(text) {
        Ok(text) => name(text),
        Err(_) => None,
    }
}

/// Whether a set or a constant has the name.
fn is_taken(structure: &Structure, constants: &[Constant], text: &[u8]) -> bool
    ensures set { result ≡ false → rule.set_named structure.now text.now ≡ None }
    ensures constant { result ≡ false → position (λ x. bytes_eq x.name.bytes text.now) constants.now ≡ None }
{
    if set_named(structure, text).is_some() {
        return true;
    }
    place_of_constant(constants, text).is_some()
}

/// Whether one of the variables has the name.
fn is_variable(variables: &[Variable], text: &[u8]) -> bool
    ensures { result ≡ false → position (λ x. bytes_eq x.name.bytes text.now) variables.now ≡ None }
{
    place_of_variable(variables, text).is_some()
}

/// The text of a name that is declared: no set and no constant has it.
fn new_name<'a>(structure: &Structure, constants: &[Constant], at: Cursor<'a>) -> Read<'a, &'a [u8]>
    ensures { IfOk result (λ r. Reads (IsNewName structure.now constants.now r.0.now) at.entry.tokens.now r.1.tokens.now) }
{
    if let Some(Kind::Word(_)) = at.kind() {
        return Err(at.fault(TextFault::TakenName));
    }
    let (text, rest) = at.name(Wanted::Name)?;
    if is_taken(structure, constants, text) {
        return Err(at.fault(TextFault::TakenName));
    }
    Ok((text, rest))
}

/// A number, `true` or `false`.
fn literal<'a>(at: Cursor<'a>) -> Read<'a, Value>
    ensures known { IfOk result (λ r. IsSome (rule.literal r.0)) }
    ensures spelled { IfOk result (λ r. Reads (IsLiteralValue r.0) at.entry.tokens.now r.1.tokens.now) }
{
    let Some((token, _)) = at.next() else {
        return Err(at.fault(TextFault::Expected(Wanted::Literal)));
    };
    match token.kind {
        Kind::Word(Reserved::True) => truth(at, true),
        Kind::Word(Reserved::False) => truth(at, false),
        Kind::Sign(Sign::Minus) => negative(at),
        Kind::Integer => whole(at),
        _ => Err(at.fault(TextFault::Expected(Wanted::Literal))),
    }
}

/// The word of a Boolean.
fn truth_word(is_true: bool) -> Reserved
    ensures { result ≡ word_of_boolean is_true }
{
    if is_true {
        Reserved::True
    } else {
        Reserved::False
    }
}

fn truth<'a>(at: Cursor<'a>, is_true: bool) -> Read<'a, Value>
    ensures known { IfOk result (λ r. IsSome (rule.literal r.0)) }
    ensures spelled { IfOk result (λ r. Reads (IsLiteralValue r.0) at.entry.tokens.now r.1.tokens.now) }
{
    let rest = at.word(truth_word(is_true))?;
    Ok((Value::Boolean(is_true), rest))
}

fn negative<'a>(at: Cursor<'a>) -> Read<'a, Value>
    ensures known { IfOk result (λ r. IsSome (rule.literal r.0)) }
    ensures spelled { IfOk result (λ r. Reads (IsLiteralValue r.0) at.entry.tokens.now r.1.tokens.now) }
{
    let behind = at.sign(Sign::Minus)?;
    let (number, rest) = integer(behind, true)?;
    Ok((Value::Integer(number), rest))
}

fn whole<'a>(at: Cursor<'a>) -> Read<'a, Value>
    ensures known { IfOk result (λ r. IsSome (rule.literal r.0)) }
    ensures spelled { IfOk result (λ r. Reads (IsLiteralValue r.0) at.entry.tokens.now r.1.tokens.now) }
{
    let (number, rest) = integer(at, false)?;
    Ok((Value::Integer(number), rest))
}

/// The value of the constant whose name stands at the front.
fn constant_at<'a>(constants: &[Constant], at: Cursor<'a>) -> Read<'a, Value>
    ensures { IfOk result (λ r. Reads (IsKnownValue constants.now r.0) at.entry.tokens.now r.1.tokens.now) }
{
    let (text, rest) = at.name(Wanted::Literal)?;
    match constant_named(constants, text) {
        Some(value) => Ok((value, rest)),
        None => Err(at.fault(TextFault::UnknownName(Named::Constant))),
    }
}

/// A number, `true` or `false`, or a constant.
fn known_value<'a>(constants: &[Constant], at: Cursor<'a>) -> Read<'a, Value>
    ensures { IfOk result (λ r. Reads (IsKnownValue constants.now r.0) at.entry.tokens.now r.1.tokens.now) }
{
    if let Some(Kind::Name) = at.kind() {
        return constant_at(constants, at);
    }
    let (value, rest) = literal(at)?;
    Ok((value, rest))
}

/// Sees that nothing is left.
fn ended(rest: Cursor) -> Result<(), Stopped>
    ensures { IfOk result (λ _. length rest.entry.tokens.now ≡ 0) }
{
    if rest.left() > 0 {
        return Err(rest.fault(TextFault::Expected(Wanted::End)));
    }
    Ok(())
}

fn constant_of<'a>(
    structure: &Structure,
    before: &[Constant],
    tokens: &'a [Token<'a>],
) -> Result<Constant, Stopped>
    ensures value { IfOk result (λ c. IsSome (rule.literal c.value)) }
    ensures spelled { IfOk result (λ c. IsConstant structure.now before.now c tokens.now) }
{
    let at = Cursor::new(tokens);
    let (text, rest) = new_name(structure, before, at)?;
    let behind = rest.sign(Sign::Equal)?;
    let (value, rest) = literal(behind)?;
    ended(rest)?;
    match name_of(text) {
        Some(name) => Ok(Constant { name, value }),
        None => Err(at.fault(TextFault::Expected(Wanted::Name))),
    }
}

fn sort_named(text: &[u8]) -> Option<Sort>
    ensures { IfSome result (λ s. text.now ≡ sort_text s) }
{
    if text == b"Integer".as_slice() {
        return Some(Sort::Integer);
    }
    if text == b"Boolean".as_slice() {
        return Some(Sort::Boolean);
    }
    if text == b"Pid".as_slice() {
        return Some(Sort::Pid);
    }
    None
}

fn read_sort<'a>(at: Cursor<'a>) -> Read<'a, Sort>
    ensures { IfOk result (λ r. Reads (IsNameOf (sort_text r.0)) at.entry.tokens.now r.1.tokens.now) }
{
    let (text, rest) = at.name(Wanted::Sort)?;
    match sort_named(text) {
        Some(sort) => Ok((sort, rest)),
        None => Err(at.fault(TextFault::UnknownName(Named::Sort))),
    }
}

/// What a variable of the sort is where nothing is said.
fn blank(sort: Sort) -> Value
    ensures value { result ≡ blank sort }
    ensures sort { sort_of result ≡ sort }
{
    match sort {
        Sort::Integer => Value::Integer(0),
        Sort::Boolean => Value::Boolean(false),
        Sort::Pid => Value::Pid(Pid::Null),
    }
}

/// The value at the start, where one stands at the front.
fn initial<'a>(constants: &[Constant], sort: Sort, at: Cursor<'a>) -> Read<'a, Value>
    ensures sort { IfOk result (λ r. sort_of r.0 ≡ sort) }
    ensures spelled { IfOk result (λ r. Reads (IsInitial constants.now sort r.0) at.entry.tokens.now r.1.tokens.now) }
{
    if at.left() == 0 || sort == Sort::Pid {
        return Ok((blank(sort), at));
    }
    let behind = at.sign(Sign::Equal)?;
    let (value, rest) = known_value(constants, behind)?;
    behind.sorted(value.sort(), sort)?;
    Ok((value, rest))
}

fn variable_of<'a>(
    structure: &Structure,
    constants: &[Constant],
    before: &[Variable],
    tokens: &'a [Token<'a>],
) -> Result<Variable, Stopped>
    ensures { IfOk result (λ x. IsVariable structure.now constants.now before.now x tokens.now) }
{
    let at = Cursor::new(tokens);
    let (text, rest) = new_name(structure, constants, at)?;
    if is_variable(before, text) {
        return Err(at.fault(TextFault::TakenName));
    }
    let (sort, rest) = read_sort(rest)?;
    let (value, rest) = initial(constants, sort, rest)?;
    ended(rest)?;
    match name_of(text) {
        Some(name) => Ok(Variable {
            name,
            sort,
            initial: value,
        }),
        None => Err(at.fault(TextFault::Expected(Wanted::Name))),
    }
}

/// A constant from its text, as `unit = 100`, behind those before it.
///
/// # Errors
///
/// The first rule that the text breaks, and where, or want of memory.
pub fn read_constant(
    alloc: Global,
    structure: &Structure,
    before: &[Constant],
    text: &[u8],
) -> Result<Constant, Refusal>
    ensures value { IfOk result (λ c. IsSome (rule.literal c.value)) }
    ensures spelled { IfOk result (λ c. IsText (IsConstant structure.now before.now c) text.now) }
    ensures place { IfErr result (IsWithin text.now) }
{
    let tokens = match tokens_of(alloc, text) {
        Ok(tokens) => tokens,
        Err(refusal) => return Err(refusal),
    };
    let all = tokens.as_slice();
    match constant_of(structure, before, all) {
        Ok(constant) => Ok(constant),
        Err(stopped) => Err(refused(text, all, stopped)),
    }
}

/// A variable from its text, as `level Integer = 40`, behind those before it.
///
/// # Errors
///
/// The first rule that the text breaks, and where, or want of memory.
pub fn read_variable(
    alloc: Global,
    structure: &Structure,
    constants: &[Constant],
    before: &[Variable],
    text: &[u8],
) -> Result<Variable, Refusal>
    ensures sort { IfOk result (λ x. sort_of x.initial ≡ x.sort) }
    ensures spelled { IfOk result (λ x. IsText (IsVariable structure.now constants.now before.now x) text.now) }
    ensures place { IfErr result (IsWithin text.now) }
{
    let tokens = match tokens_of(alloc, text) {
        Ok(tokens) => tokens,
        Err(refusal) => return Err(refusal),
    };
    let all = tokens.as_slice();
    match variable_of(structure, constants, before, all) {
        Ok(variable) => Ok(variable),
        Err(stopped) => Err(refused(text, all, stopped)),
    }
}
