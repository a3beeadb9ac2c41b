//! The statements of a text, but decisions, without the bodies behind them.
ghost use Rattle.std.specs.Prelude.{◌≡◌, ◌^◌, ◌<◌, ◌≤◌, ◌∷◌, length, Some, IfOk, IfSome};
ghost use Rattle.sdl_listing_expression.specs.Sorted.{sort_in};
ghost use Rattle.sdl_listing_body.specs.Offering.{sorts_of};
ghost use Rattle.sdl_listing_tokens.specs.declared.tokens.Kind.TheVariants as kind;
ghost use Rattle.sdl_listing_expression_text.specs.Meanings as rule;
ghost use Rattle.sdl_listing_expression_text.specs.Spelling.{IsSetName, Reads};
ghost use Rattle.sdl_listing_body_text.specs.Statements.{AreLeft, AreParams, IsGoalText, IsGoal, IsViaText, IsVia, IsOutwardName, IsOutput, IsCreate, IsVariableName, IsAssignment, IsStateText, IsEnd, IsFirst};

use sdl_listing_body::{Body, Goal, Params};
use sdl_listing_expression::{Expr, Word};
use sdl_listing_expression_text::{
    Cursor, Meanings, Named, Read, Stopped, TextFault, Wanted, expression, own_pid, own_word,
    place_of_variable,
};
use sdl_listing_tokens::{Kind, Reserved, Sign};
use sdl_signal::{SetId, SignalId, Sort};
use sdl_transition_behaviour::{Next, Via};
use std::alloc::Global;

/// An output without the body behind it.
#[derive(Drop)]
pub struct Output {
    pub signal: SignalId,
    pub params: Params,
    pub to: Goal,
    pub via: Via,
}

/// An assignment without the body behind it.
#[derive(Drop)]
pub struct Assignment {
    pub place: usize,
    pub value: Expr,
}

/// A decision without the body behind it: its condition and its two sides.
#[derive(Drop)]
pub struct Decision {
    pub condition: Expr,
    pub yes: Body,
    pub no: Body,
}

/// A statement without the body behind it.
#[derive(Drop)]
pub enum Statement {
    Output(Output),
    Create(SetId),
    Assignment(Assignment),
    Decision(Decision),
    End(Next),
}

/// The actual parameters of these sorts that are left of so many, each behind a comma, and the bracket that closes them.
fn params_left<'a>(
    alloc: Global,
    meanings: &Meanings,
    at: Cursor<'a>,
    sorts: &[Sort],
    count: usize,
    room: usize,
) -> Read<'a, Params>
    ensures shorter { IfOk result (λ r. length r.1.tokens.now < length at.entry.tokens.now) }
    ensures sorts { IfOk result (λ r. sorts_of r.0 ≡ sorts.now) }
    ensures spelled { IfOk result (λ r. Reads (AreLeft meanings.now r.0) at.entry.tokens.now r.1.tokens.now) }
{
    match sorts {
        [] => {
            if at.has_sign(Sign::Comma) {
                return Err(at.fault(TextFault::WrongCount(count)));
            }
            let rest = at.sign(Sign::Close)?;
            Ok((Params::Nothing, rest))
        }
        [sort, sorts @ ..] => {
            if at.has_sign(Sign::Close) {
                return Err(at.fault(TextFault::WrongCount(count)));
            }
            let behind = at.sign(Sign::Comma)?;
            let (value, rest) = expression(alloc, meanings, behind, *sort, room)?;
            let (others, rest) = params_left(alloc, meanings, rest, sorts, count, room)?;
            let params = first_param(alloc, value, others)?;
            Ok((params, rest))
        }
    }
}

/// The parameter with the others behind it.
fn first_param(alloc: Global, value: Expr, others: Params) -> Result<Params, Stopped>
    ensures first { IfOk result (IsFirst value others) }
    ensures sorts { IfOk result (λ params. sorts_of params ≡ sort_in value ∷ sorts_of others) }
{
    let rest = Box::new(alloc, others)?;
    Ok(Params::First { value, rest })
}

/// Actual parameters in brackets: one of the sort, and one of each of the others.
fn some_params<'a>(
    alloc: Global,
    meanings: &Meanings,
    at: Cursor<'a>,
    sort: Sort,
    others: &[Sort],
    room: usize,
) -> Read<'a, Params>
    requires { length others.now < 2 ^ 32 }
    ensures shorter { IfOk result (λ r. length r.1.tokens.now < length at.entry.tokens.now) }
    ensures sorts { IfOk result (λ r. sorts_of r.0 ≡ sort ∷ others.now) }
    ensures spelled { IfOk result (λ r. Reads (AreParams meanings.now r.0) at.entry.tokens.now r.1.tokens.now) }
{
    let count = others.len() + 1;
    if !at.has_sign(Sign::Open) {
        return Err(at.fault(TextFault::WrongCount(count)));
    }
    if room == 0 {
        return Err(at.fault(TextFault::TooDeep));
    }
    let behind = at.sign(Sign::Open)?;
    if behind.has_sign(Sign::Close) {
        return Err(behind.fault(TextFault::WrongCount(count)));
    }
    let (value, rest) = expression(alloc, meanings, behind, sort, room - 1)?;
    let (others, rest) = params_left(alloc, meanings, rest, others, count, room - 1)?;
    let params = first_param(alloc, value, others)?;
    Ok((params, rest))
}

/// The actual parameters of an output whose signal has parameters of these sorts.
fn read_params<'a>(
    alloc: Global,
    meanings: &Meanings,
    at: Cursor<'a>,
    sorts: &[Sort],
    room: usize,
) -> Read<'a, Params>
    requires { length sorts.now < 2 ^ 32 }
    ensures shorter { IfOk result (λ r. length r.1.tokens.now ≤ length at.entry.tokens.now) }
    ensures sorts { IfOk result (λ r. sorts_of r.0 ≡ sorts.now) }
    ensures spelled { IfOk result (λ r. Reads (AreParams meanings.now r.0) at.entry.tokens.now r.1.tokens.now) }
{
    match sorts {
        [] => {
            if at.has_sign(Sign::Open) {
                return Err(at.fault(TextFault::WrongCount(0)));
            }
            Ok((Params::Nothing, at))
        }
        [sort, others @ ..] => some_params(alloc, meanings, at, *sort, others, room),
    }
}

/// The set that stands at the front.
fn read_set<'a>(meanings: &Meanings, at: Cursor<'a>) -> Read<'a, SetId>
    ensures shorter { IfOk result (λ r. length r.1.tokens.now < length at.entry.tokens.now) }
    ensures spelled { IfOk result (λ r. Reads (IsSetName meanings.now r.0) at.entry.tokens.now r.1.tokens.now) }
{
    let (text, rest) = at.name(Wanted::Set)?;
    match meanings.setting.set_named(text) {
        Some(set) => Ok((set, rest)),
        None => Err(at.fault(TextFault::UnknownName(Named::Set))),
    }
}

/// Whether a set stands at the front without a bracket behind its name.
fn has_set(meanings: &Meanings, at: Cursor) -> bool {
    let Some((token, rest)) = at.next() else {
        return false;
    };
    match token.kind {
        Kind::Name => {
            !rest.has_sign(Sign::Open) && meanings.setting.set_named(token.text).is_some()
        }
        _ => false,
    }
}

/// The word of a Pid at the front.
fn own_at(at: Cursor) -> Option<Word> {
    match at.kind() {
        Some(Kind::Word(word)) => own_pid(word),
        _ => None,
    }
}

/// The goal that this word of a Pid is.
fn own_goal<'a>(meanings: &Meanings, at: Cursor<'a>, own: Word) -> Read<'a, Goal>
    ensures shorter { IfOk result (λ r. length r.1.tokens.now < length at.entry.tokens.now) }
    ensures spelled { IfOk result (λ r. Reads (IsGoalText meanings.now r.0) at.entry.tokens.now r.1.tokens.now) }
{
    let rest = at.word(own_word(own))?;
    Ok((Goal::Own(own), rest))
}

/// The goal behind `to`.
fn goal_of<'a>(alloc: Global, meanings: &Meanings, at: Cursor<'a>, room: usize) -> Read<'a, Goal>
    ensures shorter { IfOk result (λ r. length r.1.tokens.now < length at.entry.tokens.now) }
    ensures spelled { IfOk result (λ r. Reads (IsGoalText meanings.now r.0) at.entry.tokens.now r.1.tokens.now) }
{
    if let Some(own) = own_at(at) {
        return own_goal(meanings, at, own);
    }
    if has_set(meanings, at) {
        let (set, rest) = read_set(meanings, at)?;
        return Ok((Goal::Set(set), rest));
    }
    let (pid, rest) = expression(alloc, meanings, at, Sort::Pid, room)?;
    Ok((Goal::Pid(pid), rest))
}

fn read_goal<'a>(alloc: Global, meanings: &Meanings, at: Cursor<'a>, room: usize) -> Read<'a, Goal>
    ensures shorter { IfOk result (λ r. length r.1.tokens.now ≤ length at.entry.tokens.now) }
    ensures spelled { IfOk result (λ r. Reads (IsGoal meanings.now r.0) at.entry.tokens.now r.1.tokens.now) }
{
    if !at.has_word(Reserved::To) {
        return Ok((Goal::Anywhere, at));
    }
    let behind = at.word(Reserved::To)?;
    let (to, rest) = goal_of(alloc, meanings, behind, room)?;
    Ok((to, rest))
}

/// A channel, behind its word.
fn channel_via<'a>(meanings: &Meanings, at: Cursor<'a>, signal: SignalId) -> Read<'a, Via>
    ensures shorter { IfOk result (λ r. length r.1.tokens.now < length at.entry.tokens.now) }
    ensures spelled { IfOk result (λ r. Reads (IsViaText meanings.now signal r.0) at.entry.tokens.now r.1.tokens.now) }
{
    let at = at.word(Reserved::Channel)?;
    let (text, rest) = at.name(Wanted::Channel)?;
    match meanings.setting.channel(text) {
        Some(channel) => Ok((Via::Channel(channel), rest)),
        None => Err(at.fault(TextFault::UnknownName(Named::Channel))),
    }
}

fn gate_via<'a>(meanings: &Meanings, at: Cursor<'a>, signal: SignalId) -> Read<'a, Via>
    ensures shorter { IfOk result (λ r. length r.1.tokens.now < length at.entry.tokens.now) }
    ensures spelled { IfOk result (λ r. Reads (IsViaText meanings.now signal r.0) at.entry.tokens.now r.1.tokens.now) }
{
    let (text, rest) = at.name(Wanted::Gate)?;
    let Some(gate) = meanings.setting.gate(text) else {
        return Err(at.fault(TextFault::UnknownName(Named::Gate)));
    };
    if !meanings.setting.lets_out(gate, signal) {
        return Err(at.fault(TextFault::NotOutward));
    }
    Ok((Via::Gate(gate), rest))
}

/// The gate or the channel behind `via`.
fn via_of<'a>(meanings: &Meanings, at: Cursor<'a>, signal: SignalId) -> Read<'a, Via>
    ensures shorter { IfOk result (λ r. length r.1.tokens.now < length at.entry.tokens.now) }
    ensures spelled { IfOk result (λ r. Reads (IsViaText meanings.now signal r.0) at.entry.tokens.now r.1.tokens.now) }
{
    if at.has_word(Reserved::Channel) {
        channel_via(meanings, at, signal)
    } else {
        gate_via(meanings, at, signal)
    }
}

fn read_via<'a>(meanings: &Meanings, at: Cursor<'a>, signal: SignalId) -> Read<'a, Via>
    ensures shorter { IfOk result (λ r. length r.1.tokens.now ≤ length at.entry.tokens.now) }
    ensures spelled { IfOk result (λ r. Reads (IsVia meanings.now signal r.0) at.entry.tokens.now r.1.tokens.now) }
{
    if !at.has_word(Reserved::Via) {
        return Ok((Via::Any, at));
    }
    let behind = at.word(Reserved::Via)?;
    let (via, rest) = via_of(meanings, behind, signal)?;
    Ok((via, rest))
}

/// The signal of an output.
fn outward<'a>(meanings: &Meanings, at: Cursor<'a>) -> Read<'a, SignalId>
    ensures shorter { IfOk result (λ r. length r.1.tokens.now < length at.entry.tokens.now) }
    ensures spelled { IfOk result (λ r. Reads (IsOutwardName meanings.now r.0) at.entry.tokens.now r.1.tokens.now) }
{
    let (text, rest) = at.name(Wanted::Signal)?;
    let Some(signal) = meanings.setting.signal(text) else {
        return Err(at.fault(TextFault::UnknownName(Named::Signal)));
    };
    if !meanings.setting.is_outward(signal) {
        return Err(at.fault(TextFault::NotOutward));
    }
    Ok((signal, rest))
}

/// An output.
pub fn read_output<'a>(
    alloc: Global,
    meanings: &Meanings,
    at: Cursor<'a>,
    room: usize,
) -> Read<'a, Output>
    ensures shorter { IfOk result (λ r. length r.1.tokens.now < length at.entry.tokens.now) }
    ensures spelled { IfOk result (λ r. Reads (IsOutput meanings.now r.0.signal r.0.params r.0.to r.0.via) at.entry.tokens.now r.1.tokens.now) }
{
    let word = at.word(Reserved::Output)?;
    let behind = at.acted(word);
    let (signal, rest) = outward(meanings, behind)?;
    let sorts = meanings.setting.sorts(signal);
    let (params, rest) = read_params(alloc, meanings, rest, sorts, room)?;
    let (to, rest) = read_goal(alloc, meanings, rest, room)?;
    let (via, rest) = read_via(meanings, rest, signal)?;
    let output = Output {
        signal,
        params,
        to,
        via,
    };
    Ok((output, rest))
}

/// A create of an instance of a set in the same block.
pub fn read_create<'a>(meanings: &Meanings, at: Cursor<'a>) -> Read<'a, SetId>
    ensures shorter { IfOk result (λ r. length r.1.tokens.now < length at.entry.tokens.now) }
    ensures spelled { IfOk result (λ r. Reads (IsCreate meanings.now r.0) at.entry.tokens.now r.1.tokens.now) }
{
    let word = at.word(Reserved::Create)?;
    let behind = at.acted(word);
    let (set, rest) = read_set(meanings, behind)?;
    if !meanings.setting.is_beside(set) {
        return Err(behind.fault(TextFault::CreateElsewhere));
    }
    Ok((set, rest.created()))
}

/// The variable of an assignment: its place, and its sort.
#[derive(Clone, Copy)]
struct Target {
    place: usize,
    sort: Sort,
}

fn read_target<'a>(meanings: &Meanings, at: Cursor<'a>) -> Read<'a, Target>
    ensures shorter { IfOk result (λ r. length r.1.tokens.now < length at.entry.tokens.now) }
    ensures spelled { IfOk result (λ r. Reads (IsVariableName meanings.now r.0.place) at.entry.tokens.now r.1.tokens.now) }
{
    let (text, rest) = at.name(Wanted::Statement)?;
    let variables = meanings.setting.variables.as_slice();
    match place_of_variable(variables, text) {
        Some(place) => {
            let sort = variables[place].sort;
            Ok((Target { place, sort }, rest))
        }
        None => Err(at.fault(TextFault::UnknownName(Named::Variable))),
    }
}

/// An assignment, which begins with the name of its variable.
pub fn read_assignment<'a>(
    alloc: Global,
    meanings: &Meanings,
    at: Cursor<'a>,
    room: usize,
) -> Read<'a, Assignment>
    ensures shorter { IfOk result (λ r. length r.1.tokens.now < length at.entry.tokens.now) }
    ensures spelled { IfOk result (λ r. Reads (IsAssignment meanings.now r.0.place r.0.value) at.entry.tokens.now r.1.tokens.now) }
{
    let (target, rest) = read_target(meanings, at)?;
    let behind = rest.sign(Sign::Becomes)?;
    let (value, rest) = expression(alloc, meanings, behind, target.sort, room)?;
    let assignment = Assignment {
        place: target.place,
        value,
    };
    Ok((assignment, rest))
}

/// A next state by its name.
fn named_state<'a>(meanings: &Meanings, at: Cursor<'a>) -> Read<'a, Next>
    ensures shorter { IfOk result (λ r. length r.1.tokens.now < length at.entry.tokens.now) }
    ensures spelled { IfOk result (λ r. Reads (IsStateText meanings.now r.0) at.entry.tokens.now r.1.tokens.now) }
{
    let (text, rest) = at.name(Wanted::State)?;
    match meanings.setting.state(text) {
        Some(state) => Ok((Next::State(state), rest)),
        None => Err(at.fault(TextFault::UnknownName(Named::State))),
    }
}

/// A minus, which is the state of the row.
fn own_state<'a>(meanings: &Meanings, at: Cursor<'a>) -> Read<'a, Next>
    ensures shorter { IfOk result (λ r. length r.1.tokens.now < length at.entry.tokens.now) }
    ensures spelled { IfOk result (λ r. Reads (IsStateText meanings.now r.0) at.entry.tokens.now r.1.tokens.now) }
{
    match meanings.state {
        Some(state) => {
            let rest = at.sign(Sign::Minus)?;
            Ok((Next::State(state), rest))
        }
        None => Err(at.fault(TextFault::Expected(Wanted::State))),
    }
}

/// The state behind `next`.
fn state_of<'a>(meanings: &Meanings, at: Cursor<'a>) -> Read<'a, Next>
    ensures shorter { IfOk result (λ r. length r.1.tokens.now < length at.entry.tokens.now) }
    ensures spelled { IfOk result (λ r. Reads (IsStateText meanings.now r.0) at.entry.tokens.now r.1.tokens.now) }
{
    if at.has_sign(Sign::Minus) {
        own_state(meanings, at)
    } else {
        named_state(meanings, at)
    }
}

/// The end of a body: a stop, or a next state.
pub fn read_end<'a>(meanings: &Meanings, at: Cursor<'a>) -> Read<'a, Next>
    ensures shorter { IfOk result (λ r. length r.1.tokens.now < length at.entry.tokens.now) }
    ensures spelled { IfOk result (λ r. Reads (IsEnd meanings.now r.0) at.entry.tokens.now r.1.tokens.now) }
{
    if at.has_word(Reserved::Stop) {
        let rest = at.word(Reserved::Stop)?;
        return Ok((Next::Stop, rest));
    }
    let behind = at.word(Reserved::Next)?;
    let (next, rest) = state_of(meanings, behind)?;
    Ok((next, rest))
}
