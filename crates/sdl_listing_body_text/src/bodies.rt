//! The bodies of a text, with their decisions.
ghost use Rattle.std.specs.Prelude.{◌≡◌, ◌<◌, ◌≤◌, false, true, length, IfOk};
ghost use Rattle.sdl_listing_expression_text.specs.Spelling.{Reads};
ghost use Rattle.sdl_listing_body_text.specs.Statements.{AreSemicolons, MayFollow, IsApart, InBraces, IsBody, IsStatement, IsBefore, is_braced};

use crate::statements::{
    Assignment, Decision, Output, Statement, read_assignment, read_create, read_end, read_output,
};
use sdl_listing_body::Body;
use sdl_listing_expression_text::{Cursor, Meanings, Read, Stopped, TextFault, Wanted, expression};
use sdl_listing_tokens::{Kind, Reserved, Sign};
use sdl_signal::{SetId, Sort};
use std::alloc::Global;

/// Passes over semicolons.
fn past_semicolons<'a>(at: Cursor<'a>) -> Cursor<'a>
    ensures shorter { length result.tokens.now ≤ length at.entry.tokens.now }
    ensures spelled { Reads AreSemicolons at.entry.tokens.now result.tokens.now }
{
    let mut here = at;
    while let Ok(rest) = here.sign(Sign::Semicolon) {
        here = rest;
    }
    here
}

/// Whether the statement ends with a brace.
fn is_braced(statement: &Statement) -> bool
    ensures { result ≡ is_braced statement.now }
{
    match statement {
        Statement::Output(_) => false,
        Statement::Create(_) => false,
        Statement::Assignment(_) => false,
        Statement::Decision(_) => true,
        Statement::End(_) => false,
    }
}

/// Sees that something may stand behind the statement, which ends here.
fn separated(statement: &Statement, at: Cursor) -> Result<(), Stopped>
    ensures { IfOk result (λ _. MayFollow (is_braced statement.now) at.entry.tokens.now) }
{
    if is_braced(statement) {
        return Ok(());
    }
    if at.has_sign(Sign::Semicolon) {
        return Ok(());
    }
    if at.has_sign(Sign::CloseBrace) {
        return Ok(());
    }
    fresh(at)
}

/// Sees that what stands here is on a new line, where something does.
fn fresh(at: Cursor) -> Result<(), Stopped>
    ensures { IfOk result (λ _. IsApart at.entry.tokens.now) }
{
    let Some((token, _)) = at.next() else {
        return Ok(());
    };
    if token.fresh {
        return Ok(());
    }
    Err(at.fault(TextFault::Expected(Wanted::Separator)))
}

/// Whether a statement begins with the token.
fn begins_statement(kind: Kind) -> bool {
    match kind {
        Kind::Name => true,
        Kind::Word(Reserved::Output) => true,
        Kind::Word(Reserved::Create) => true,
        Kind::Word(Reserved::If) => true,
        Kind::Word(Reserved::Next) => true,
        Kind::Word(Reserved::Stop) => true,
        _ => false,
    }
}

/// Whether a body ends here: at a brace that closes it, or at the end of the text.
fn is_at_end(at: Cursor) -> bool {
    match at.kind() {
        None => true,
        Some(Kind::Sign(Sign::CloseBrace)) => true,
        Some(_) => false,
    }
}

/// Counts a statement at the front, and sees that some way leads to it.
fn begun<'a>(at: Cursor<'a>) -> Result<Cursor<'a>, Stopped>
    ensures { IfOk result (λ r. r.tokens.now ≡ at.entry.tokens.now) }
{
    let is_statement = match at.kind() {
        Some(kind) => begins_statement(kind),
        None => false,
    };
    if !is_statement {
        return Err(at.fault(TextFault::Expected(Wanted::Statement)));
    }
    let counted = at.part()?;
    Ok(counted.reached())
}

/// The place behind the statement, to which no way leads where it is an end.
fn behind<'a>(statement: &Statement, at: Cursor<'a>) -> Cursor<'a>
    ensures { result.tokens.now ≡ at.entry.tokens.now }
{
    match statement {
        Statement::End(_) => at.ended(),
        _ => at,
    }
}

fn with_output(alloc: Global, output: Output, behind: Body) -> Result<Body, Stopped>
    ensures { IfOk result (IsBefore (Statement.Output output) behind) }
{
    let Output {
        signal,
        params,
        to,
        via,
    } = output;
    let rest = Box::new(alloc, behind)?;
    Ok(Body::Output {
        signal,
        params,
        to,
        via,
        rest,
    })
}

fn with_assignment(alloc: Global, assignment: Assignment, behind: Body) -> Result<Body, Stopped>
    ensures { IfOk result (IsBefore (Statement.Assignment assignment) behind) }
{
    let Assignment { place, value } = assignment;
    let rest = Box::new(alloc, behind)?;
    Ok(Body::Assign { place, value, rest })
}

fn with_create(alloc: Global, set: SetId, behind: Body) -> Result<Body, Stopped>
    ensures { IfOk result (IsBefore (Statement.Create set) behind) }
{
    let rest = Box::new(alloc, behind)?;
    Ok(Body::Create { set, rest })
}

fn with_decision(alloc: Global, decision: Decision, behind: Body) -> Result<Body, Stopped>
    ensures { IfOk result (IsBefore (Statement.Decision decision) behind) }
{
    let Decision { condition, yes, no } = decision;
    let yes = Box::new(alloc, yes)?;
    let no = Box::new(alloc, no)?;
    let rest = Box::new(alloc, behind)?;
    Ok(Body::If {
        condition,
        yes,
        no,
        rest,
    })
}

/// The statement with the body behind it.
fn followed(alloc: Global, statement: Statement, behind: Body) -> Result<Body, Stopped>
    ensures { IfOk result (IsBefore statement behind) }
{
    match statement {
        Statement::Output(first) => with_output(alloc, first, behind),
        Statement::Create(set) => with_create(alloc, set, behind),
        Statement::Assignment(first) => with_assignment(alloc, first, behind),
        Statement::Decision(first) => with_decision(alloc, first, behind),
        Statement::End(next) => Ok(Body::End(next)),
    }
}

/// A body, up to a brace that closes it or the end of the text. So many braces and brackets may be opened.
#[cycle(bodies)]
pub fn read_body<'a>(
    alloc: Global,
    meanings: &Meanings,
    at: Cursor<'a>,
    room: usize,
) -> Read<'a, Body>
    ensures shorter { IfOk result (λ r. length r.1.tokens.now ≤ length at.entry.tokens.now) }
    ensures spelled { IfOk result (λ r. Reads (IsBody meanings.now r.0 false) at.entry.tokens.now r.1.tokens.now) }
{
    let first = past_semicolons(at);
    if is_at_end(first) {
        return Ok((Body::Nothing, first));
    }
    let counted = begun(first)?;
    let (statement, rest) = read_statement(alloc, meanings, counted, room)?;
    separated(&statement, rest)?;
    let next = behind(&statement, rest);
    let (others, rest) = read_body(alloc, meanings, next, room)?;
    let body = followed(alloc, statement, others)?;
    Ok((body, rest))
}

/// A statement.
#[cycle(bodies)]
fn read_statement<'a>(
    alloc: Global,
    meanings: &Meanings,
    at: Cursor<'a>,
    room: usize,
) -> Read<'a, Statement>
    ensures shorter { IfOk result (λ r. length r.1.tokens.now < length at.entry.tokens.now) }
    ensures spelled { IfOk result (λ r. Reads (IsStatement meanings.now r.0) at.entry.tokens.now r.1.tokens.now) }
{
    match at.kind() {
        Some(Kind::Word(Reserved::Output)) => {
            let (output, rest) = read_output(alloc, meanings, at, room)?;
            Ok((Statement::Output(output), rest))
        }
        Some(Kind::Word(Reserved::Create)) => {
            let (set, rest) = read_create(meanings, at)?;
            Ok((Statement::Create(set), rest))
        }
        Some(Kind::Word(Reserved::If)) => {
            let (decision, rest) = read_decision(alloc, meanings, at, room)?;
            Ok((Statement::Decision(decision), rest))
        }
        Some(Kind::Name) => {
            let (assignment, rest) = read_assignment(alloc, meanings, at, room)?;
            Ok((Statement::Assignment(assignment), rest))
        }
        _ => {
            let (next, rest) = read_end(meanings, at)?;
            Ok((Statement::End(next), rest))
        }
    }
}

/// A decision.
#[cycle(bodies)]
fn read_decision<'a>(
    alloc: Global,
    meanings: &Meanings,
    at: Cursor<'a>,
    room: usize,
) -> Read<'a, Decision>
    ensures shorter { IfOk result (λ r. length r.1.tokens.now < length at.entry.tokens.now) }
    ensures spelled { IfOk result (λ r. Reads (IsStatement meanings.now (Statement.Decision r.0)) at.entry.tokens.now r.1.tokens.now) }
{
    let behind = at.word(Reserved::If)?;
    let (condition, before) = expression(alloc, meanings, behind, Sort::Boolean, room)?;
    let (yes, behind) = braced(alloc, meanings, before, room)?;
    let other = behind.from_ways(before);
    let (no, rest) = otherwise(alloc, meanings, other, room)?;
    let decision = Decision { condition, yes, no };
    Ok((decision, rest.joined(behind)))
}

/// A body in braces.
#[cycle(bodies)]
fn braced<'a>(alloc: Global, meanings: &Meanings, at: Cursor<'a>, room: usize) -> Read<'a, Body>
    ensures shorter { IfOk result (λ r. length r.1.tokens.now < length at.entry.tokens.now) }
    ensures spelled { IfOk result (λ r. Reads (InBraces (IsBody meanings.now r.0 false)) at.entry.tokens.now r.1.tokens.now) }
{
    let behind = at.sign(Sign::OpenBrace)?;
    if room == 0 {
        return Err(at.fault(TextFault::TooDeep));
    }
    let (inner, rest) = read_body(alloc, meanings, behind, room - 1)?;
    let rest = rest.sign(Sign::CloseBrace)?;
    Ok((inner, rest))
}

/// The other side of a decision, where there is one.
#[cycle(bodies)]
fn otherwise<'a>(alloc: Global, meanings: &Meanings, at: Cursor<'a>, room: usize) -> Read<'a, Body>
    ensures shorter { IfOk result (λ r. length r.1.tokens.now ≤ length at.entry.tokens.now) }
    ensures spelled { IfOk result (λ r. Reads (IsBody meanings.now r.0 true) at.entry.tokens.now r.1.tokens.now) }
{
    if !at.has_word(Reserved::Else) {
        return Ok((Body::Nothing, at));
    }
    let behind = at.word(Reserved::Else)?;
    if !behind.has_word(Reserved::If) {
        let (inner, rest) = braced(alloc, meanings, behind, room)?;
        return Ok((inner, rest));
    }
    let counted = behind.part()?;
    let (decision, rest) = read_decision(alloc, meanings, counted, room)?;
    let whole = with_decision(alloc, decision, Body::Nothing)?;
    Ok((whole, rest))
}
