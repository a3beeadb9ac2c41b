//! The transitions of a behaviour, each from its text.
ghost use Rattle.std.specs.Prelude.{◌≡◌, ◌+◌, ◌<◌, ◌≤◌, [], length, map, false, Some, None, IfOk, IfErr, IfSome, position, bytes_eq};
ghost use Rattle.arrayvec.specs.ArrayVec.{array_vec_len};
ghost use Rattle.sdl_listing_body.specs.Sound.{IsSound};
ghost use Rattle.sdl_transition_behaviour.specs.declared.offer.SignalSorts.{SignalSorts};
ghost use Rattle.sdl_listing_expression_text.specs.Meanings as rule;
ghost use Rattle.sdl_listing_expression_text.specs.Spelling.{IsNameOf, Reads};
ghost use Rattle.sdl_listing_body_text.specs.Rows.{IsRowOf, IsDeclared, IsInputRow, IsWithin, IsText, IsSignalName, IsFree, IsComma, IsNextName, AreNames, IsList, IsHead, HasNext, HasMore, HasSort, variable_place, place_assigned, assignment_of, assignments, HasInFront, IsWhole, IsStart, IsInput};

use crate::bodies::read_body;
use crate::places::{Refusal, refused, tokens_of};
use arrayvec::ArrayVec;
use sdl_listing_body::{Body, Row, is_sound};
use sdl_listing_expression::Expr;
use sdl_listing_expression_text::{
    Cursor, MOST_DEPTH, Meanings, Named, Read, Setting, Stopped, TextFault, Wanted,
    place_of_constant, place_of_text, place_of_variable,
};
use sdl_listing_tokens::{Kind, Sign, Token};
use sdl_signal::{SignalId, Sort, StateId};
use sdl_transition_behaviour::SignalSorts;
use std::alloc::{AllocError, Global};

/// Whether a set, a constant or one of these parameters has the name.
fn is_taken(setting: &Setting, names: &[&[u8]], text: &[u8]) -> bool
    ensures set { result ≡ false → rule.set_named setting.now.structure.now text.now ≡ None }
    ensures constant { result ≡ false → position (λ x. bytes_eq x.name.bytes text.now) setting.now.constants.now ≡ None }
    ensures parameter { result ≡ false → position (λ x. bytes_eq x.now text.now) names.now ≡ None }
{
    if setting.set_named(text).is_some() {
        return true;
    }
    if place_of_constant(setting.constants, text).is_some() {
        return true;
    }
    place_of_text(names, text).is_some()
}

/// Sees that a variable of this name has the sort.
fn variable_fits(setting: &Setting, at: Cursor, sort: Sort, text: &[u8]) -> Result<(), Stopped>
    ensures { IfOk result (λ _. IfSome (variable_place setting.now.variables.now.items text.now) (HasSort setting.now.variables.now.items sort)) }
{
    let variables = setting.variables.as_slice();
    let Some(place) = place_of_variable(variables, text) else {
        return Ok(());
    };
    match variables.get(place) {
        Some(variable) => at.sorted(variable.sort, sort),
        None => Ok(()),
    }
}

/// A parameter's name: no set, no constant and no other parameter has it, and a variable with it is of the sort.
fn parameter<'a>(
    setting: &Setting,
    at: Cursor<'a>,
    names: &[&[u8]],
    sort: Sort,
) -> Read<'a, &'a [u8]>
    ensures shorter { IfOk result (λ r. length r.1.tokens.now < length at.entry.tokens.now) }
    ensures free { IfOk result (λ r. IsFree setting.now names.now sort r.0.now) }
    ensures spelled { IfOk result (λ r. Reads (IsNameOf r.0.now) at.entry.tokens.now r.1.tokens.now) }
{
    if let Some(Kind::Word(_)) = at.kind() {
        return Err(at.fault(TextFault::TakenName));
    }
    let (text, rest) = at.name(Wanted::Name)?;
    if is_taken(setting, names, text) {
        return Err(at.fault(TextFault::TakenName));
    }
    variable_fits(setting, at, sort, text)?;
    Ok((text, rest))
}

/// Passes over the comma that stands before a name, but before the first.
fn past_comma<'a>(at: Cursor<'a>, names: &[&[u8]]) -> Result<Cursor<'a>, Stopped>
    ensures shorter { IfOk result (λ r. length r.tokens.now ≤ length at.entry.tokens.now) }
    ensures spelled { IfOk result (λ r. Reads (IsComma names.now) at.entry.tokens.now r.tokens.now) }
{
    match names {
        [] => Ok(at),
        [_, ..] => at.sign(Sign::Comma),
    }
}

/// The name of a parameter of the sort, behind its comma, added to those before.
fn next_name<'a>(
    setting: &Setting,
    at: Cursor<'a>,
    sort: Sort,
    names: &mut ArrayVec<&'a [u8], 4>,
) -> Result<Cursor<'a>, Stopped>
    requires { array_vec_len names.old < 4 }
    ensures shorter { IfOk result (λ r. length r.tokens.now < length at.entry.tokens.now) }
    ensures more { IfOk result (λ _. array_vec_len names.new ≡ array_vec_len names.old + 1) }
    ensures added { IfOk result (λ r. HasNext names.old.items names.new.items (λ name. Reads (IsNextName setting.now names.old.items sort name.now) at.entry.tokens.now r.tokens.now)) }
{
    let before = names.as_slice();
    let behind = past_comma(at, before)?;
    let (name, rest) = parameter(setting, behind, before, sort)?;
    names.push(name);
    Ok(rest)
}

/// The names of the parameters of these sorts that are left of so many, added to those before, up to the bracket that closes them.
fn names_left<'a>(
    setting: &Setting,
    at: Cursor<'a>,
    sorts: &[Sort],
    count: usize,
    names: &mut ArrayVec<&'a [u8], 4>,
) -> Result<Cursor<'a>, Stopped>
    requires { array_vec_len names.old + length sorts.now ≤ 4 }
    ensures shorter { IfOk result (λ r. length r.tokens.now < length at.entry.tokens.now) }
    ensures spelled { IfOk result (λ r. HasMore names.old.items names.new.items (λ more. Reads (AreNames setting.now names.old.items sorts.now more) at.entry.tokens.now r.tokens.now)) }
{
    match sorts {
        [] => {
            if at.has_sign(Sign::Comma) {
                return Err(at.fault(TextFault::WrongCount(count)));
            }
            at.sign(Sign::Close)
        }
        [sort, sorts @ ..] => {
            if at.has_sign(Sign::Close) {
                return Err(at.fault(TextFault::WrongCount(count)));
            }
            let rest = next_name(setting, at, *sort, names)?;
            names_left(setting, rest, sorts, count, names)
        }
    }
}

/// The names of the parameters of these sorts, in brackets, or none.
fn read_names<'a>(
    setting: &Setting,
    at: Cursor<'a>,
    sorts: &[Sort],
    names: &mut ArrayVec<&'a [u8], 4>,
) -> Result<Cursor<'a>, Stopped>
    requires few { length sorts.now ≤ 4 }
    requires empty { names.old.items ≡ [] }
    ensures { IfOk result (λ r. Reads (IsList setting.now sorts.now names.new.items) at.entry.tokens.now r.tokens.now) }
{
    if !at.has_sign(Sign::Open) {
        return Ok(at);
    }
    if sorts.is_empty() {
        return Err(at.fault(TextFault::WrongCount(0)));
    }
    let behind = at.sign(Sign::Open)?;
    let rest = names_left(setting, behind, sorts, sorts.len(), names)?;
    Ok(rest)
}

/// What stands before the colon: the signal, and the names that are added.
fn read_head<'a>(
    setting: &Setting,
    at: Cursor<'a>,
    names: &mut ArrayVec<&'a [u8], 4>,
) -> Read<'a, SignalId>
    requires { names.old.items ≡ [] }
    ensures { IfOk result (λ r. Reads (IsHead setting.now r.0 names.new.items) at.entry.tokens.now r.1.tokens.now) }
{
    let (signal, behind) = read_signal(setting, at)?;
    let rest = read_names(setting, behind, setting.sorts(signal), names)?;
    let rest = rest.sign(Sign::Colon)?;
    Ok((signal, rest))
}

/// The signal at the front.
fn read_signal<'a>(setting: &Setting, at: Cursor<'a>) -> Read<'a, SignalId>
    ensures { IfOk result (λ r. Reads (IsSignalName setting.now r.0) at.entry.tokens.now r.1.tokens.now) }
{
    let (text, rest) = at.name(Wanted::Signal)?;
    match setting.signal(text) {
        Some(signal) => Ok((signal, rest)),
        None => Err(at.fault(TextFault::UnknownName(Named::Signal))),
    }
}

/// The place of the variable that has the name of the parameter.
fn place_assigned(meanings: &Meanings, parameter: usize) -> Option<usize>
    ensures { result ≡ place_assigned meanings.now parameter }
{
    let variables = meanings.setting.variables.as_slice();
    match meanings.names.get(parameter) {
        Some(name) => place_of_variable(variables, name),
        None => None,
    }
}

/// The value of the parameter.
fn parameter_at(sorts: &[Sort], parameter: usize) -> Option<Expr>
    ensures { result ≡ rule.parameter_at sorts.now parameter }
{
    match sorts.get(parameter) {
        Some(sort) => Some(Expr::Parameter(parameter, *sort)),
        None => None,
    }
}

/// The body behind an assignment of the parameter, where a variable has its name.
fn with_parameter(
    alloc: Global,
    meanings: &Meanings,
    parameter: usize,
    body: Body,
) -> Result<Body, AllocError>
    ensures { IfOk result (HasInFront (assignment_of (place_assigned meanings.now parameter) (rule.parameter_at meanings.now.sorts.now parameter)) body) }
{
    let Some(place) = place_assigned(meanings, parameter) else {
        return Ok(body);
    };
    let Some(value) = parameter_at(meanings.sorts, parameter) else {
        return Ok(body);
    };
    let rest = Box::new(alloc, body)?;
    Ok(Body::Assign { place, value, rest })
}

/// The body with an assignment in front for each of the first parameters that has a variable's name.
fn assigned(
    alloc: Global,
    meanings: &Meanings,
    count: usize,
    body: Body,
) -> Result<Body, AllocError>
    ensures { IfOk result (HasInFront (assignments meanings.now count) body) }
{
    if count == 0 {
        return Ok(body);
    }
    let first = with_parameter(alloc, meanings, count - 1, body)?;
    let whole = assigned(alloc, meanings, count - 1, first)?;
    Ok(whole)
}

/// Sees that the text is read to its end, that no fault was kept, and that no way goes on.
fn ended(rest: Cursor) -> Result<(), Stopped>
    ensures { IfOk result (λ _. length rest.entry.tokens.now ≡ 0) }
{
    if rest.left() > 0 {
        return Err(rest.fault(TextFault::Expected(Wanted::Statement)));
    }
    if let Some(late) = rest.late {
        return Err(Stopped::Fault(late));
    }
    if rest.made.is_some() {
        return Err(rest.fault(TextFault::NoEnd));
    }
    Ok(())
}

/// The whole body of a text, with its assignments in front.
fn whole_body(alloc: Global, meanings: &Meanings, at: Cursor) -> Result<Body, Stopped>
    ensures { IfOk result (λ body. IsWhole meanings.now body at.entry.tokens.now) }
{
    let (found, rest) = read_body(alloc, meanings, at, MOST_DEPTH)?;
    ended(rest)?;
    let whole = assigned(alloc, meanings, meanings.names.len(), found)?;
    Ok(whole)
}

fn copied_sorts(sorts: &[Sort]) -> ArrayVec<Sort, 4>
    requires { length sorts.now ≤ 4 }
    ensures { result.items ≡ sorts.now }
{
    let mut copy = ArrayVec::new();
    let _fits = copy.try_extend_from_slice(sorts);
    copy
}

fn variable_sorts(setting: &Setting) -> ArrayVec<Sort, 8>
    ensures { result.items ≡ map (λ x. x.sort) setting.now.variables.now.items }
{
    let mut sorts = ArrayVec::new();
    for variable in setting.variables.as_slice() {
        sorts.push(variable.sort);
    }
    sorts
}

/// The row of a body, where all that it offers has room.
fn sound_row(
    setting: &Setting,
    state: Option<StateId>,
    signal: Option<SignalSorts>,
    body: Body,
    at: Cursor,
) -> Result<Row, Stopped>
    ensures sound { IfOk result IsSound }
    ensures row { IfOk result (IsRowOf setting.now state signal) }
    ensures body { IfOk result (λ row. row.body ≡ body) }
{
    setting.structure.parts_agree();
    let row = Row {
        sets: setting.structure.sets().len() as u32,
        state,
        signal,
        vars: variable_sorts(setting),
        body,
    };
    if is_sound(&row) {
        Ok(row)
    } else {
        Err(at.fault(TextFault::ManyOffered))
    }
}

fn start_row(alloc: Global, setting: &Setting, tokens: &[Token]) -> Result<Row, Stopped>
    ensures sound { IfOk result IsSound }
    ensures row { IfOk result (IsRowOf setting.now None None) }
    ensures spelled { IfOk result (λ row. IsStart setting.now row.body tokens.now) }
{
    let at = Cursor::new(tokens);
    let meanings = Meanings {
        setting: *setting,
        state: None,
        names: &[],
        sorts: &[],
    };
    let body = whole_body(alloc, &meanings, at)?;
    let row = sound_row(setting, None, None, body, at)?;
    Ok(row)
}

/// The signal with the sorts of its parameters.
fn declared(setting: &Setting, id: SignalId) -> SignalSorts
    ensures id { result.id ≡ id }
    ensures sorts { IsDeclared setting.now result }
{
    SignalSorts {
        id,
        sorts: copied_sorts(setting.sorts(id)),
    }
}

fn input_row(
    alloc: Global,
    setting: &Setting,
    state: StateId,
    tokens: &[Token],
) -> Result<Row, Stopped>
    ensures sound { IfOk result IsSound }
    ensures row { IfOk result (IsInputRow setting.now state) }
    ensures spelled { IfOk result (λ row. IfSome row.signal (λ signal. IsInput setting.now state signal.id row.body tokens.now)) }
{
    let at = Cursor::new(tokens);
    let mut names = ArrayVec::new();
    let (signal, rest) = read_head(setting, at, &mut names)?;
    let meanings = Meanings {
        setting: *setting,
        state: Some(state),
        names: names.as_slice(),
        sorts: setting.sorts(signal),
    };
    let body = whole_body(alloc, &meanings, rest)?;
    let signal = declared(setting, signal);
    let row = sound_row(setting, Some(state), Some(signal), body, at)?;
    Ok(row)
}

/// The start transition of a text. It is sound: all of its sorts fit, each way through it ends, and it is within the limits.
///
/// # Errors
///
/// The first rule that the text breaks, and where, or want of memory.
pub fn read_start(alloc: Global, setting: &Setting, text: &[u8]) -> Result<Row, Refusal>
    ensures sound { IfOk result IsSound }
    ensures row { IfOk result (IsRowOf setting.now None None) }
    ensures spelled { IfOk result (λ row. IsText (IsStart setting.now row.body) text.now) }
    ensures place { IfErr result (IsWithin text.now) }
{
    let tokens = match tokens_of(alloc, text) {
        Ok(tokens) => tokens,
        Err(refusal) => return Err(refusal),
    };
    let all = tokens.as_slice();
    match start_row(alloc, setting, all) {
        Ok(row) => Ok(row),
        Err(stopped) => Err(refused(text, all, stopped)),
    }
}

/// The transition of an input's text in the state. It is sound as that of a start.
///
/// # Errors
///
/// The first rule that the text breaks, and where, or want of memory.
pub fn read_input(
    alloc: Global,
    setting: &Setting,
    state: StateId,
    text: &[u8],
) -> Result<Row, Refusal>
    ensures sound { IfOk result IsSound }
    ensures row { IfOk result (IsInputRow setting.now state) }
    ensures spelled { IfOk result (λ row. IfSome row.signal (λ signal. IsText (IsInput setting.now state signal.id row.body) text.now)) }
    ensures place { IfErr result (IsWithin text.now) }
{
    let tokens = match tokens_of(alloc, text) {
        Ok(tokens) => tokens,
        Err(refusal) => return Err(refusal),
    };
    let all = tokens.as_slice();
    match input_row(alloc, setting, state, all) {
        Ok(row) => Ok(row),
        Err(stopped) => Err(refused(text, all, stopped)),
    }
}
