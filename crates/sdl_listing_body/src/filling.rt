//! What a row does, put into a step where it stands.
ghost use Rattle.std.specs.Prelude.{◌≡◌, ◌+◌, ◌<◌, ◌≤◌, [], ◌∷◌, ◌++◌, ◌||◌, false, None, Some, IsTrue, length, slice_set};
ghost use Rattle.arrayvec.specs.ArrayVec.{array_vec_len};
ghost use Rattle.sdl_transition_behaviour.specs.declared.step.Action.TheVariants as action;
ghost use Rattle.sdl_transition_behaviour.specs.Offers.{IsBlank, IsFrameOf, Conforms};
ghost use Rattle.sdl_listing_expression.specs.Scene.{boolean_in, pid_in};
ghost use Rattle.sdl_listing_expression.specs.Values as rule;
ghost use Rattle.sdl_listing_body.specs.Doing.{values_of, params_bend, dest_of, own_dest, goal_bends, signal_of, done_by, doing, doing_of, IsStepOf};
ghost use Rattle.sdl_listing_body.specs.Offering.{sorts_of, offer_of};
ghost use Rattle.sdl_listing_body.specs.Sound.{most_actions, most_going_on, most_params, GoesOnWithin, IsSound};

use crate::syntax::{Body, Goal, Params, Row};
use arrayvec::ArrayVec;
use sdl_listing_expression::{Expr, Word, evaluate};
use sdl_signal::{Pid, Signal, SignalId, Value};
use sdl_transition_behaviour::{Action, Dest, Frame, Next, Step, Via};

fn add_params(
    params: &Params,
    frame: &Frame,
    vars: &[Value],
    values: &mut ArrayVec<Value, 4>,
    bent: &mut bool,
)
    requires { array_vec_len values.old + length (sorts_of params.now) ≤ 4 }
    ensures values { values.new.items ≡ values.old.items ++ values_of (record { frame = frame.now; vars = vars.now }) params.now }
    ensures bent { bent.new ≡ (bent.old || params_bend (record { frame = frame.now; vars = vars.now }) params.now) }
{
    match params {
        Params::Nothing => {}
        Params::First { value, rest } => {
            values.push(evaluate(value, frame, vars, bent));
            add_params(rest, frame, vars, values, bent);
        }
    }
}

/// The signal with its actual parameters.
fn signal(id: SignalId, params: &Params, frame: &Frame, vars: &[Value], bent: &mut bool) -> Signal
    requires { length (sorts_of params.now) ≤ 4 }
    ensures signal { result ≡ signal_of (record { frame = frame.now; vars = vars.now }) id params.now }
    ensures bent { bent.new ≡ (bent.old || params_bend (record { frame = frame.now; vars = vars.now }) params.now) }
{
    let mut values = ArrayVec::new();
    add_params(params, frame, vars, &mut values, bent);
    Signal { id, params: values }
}

fn own(word: Word) -> Dest
    ensures { result ≡ own_dest word }
{
    match word {
        Word::SelfPid => Dest::SelfPid,
        Word::Parent => Dest::Parent,
        Word::Offspring => Dest::Offspring,
        Word::Sender => Dest::Sender,
    }
}

fn pid(value: Value) -> Pid
    ensures { result ≡ pid_in value }
{
    match value {
        Value::Pid(pid) => pid,
        _ => Pid::Null,
    }
}

/// The destination of an output.
fn dest(to: &Goal, frame: &Frame, vars: &[Value], bent: &mut bool) -> Dest
    ensures dest { result ≡ dest_of (record { frame = frame.now; vars = vars.now }) to.now }
    ensures bent { bent.new ≡ (bent.old || goal_bends (record { frame = frame.now; vars = vars.now }) to.now) }
{
    match to {
        Goal::Anywhere => Dest::Anywhere,
        Goal::Own(word) => own(*word),
        Goal::Set(set) => Dest::Set(*set),
        Goal::Pid(e) => Dest::Pid(pid(evaluate(e, frame, vars, bent))),
    }
}

/// Adds an output to the step.
fn output(
    id: SignalId,
    params: &Params,
    to: &Goal,
    via: Via,
    frame: &Frame,
    step: &mut Step,
    bent: &mut bool,
)
    requires room { length step.old.actions.items < 8 }
    requires params { length (sorts_of params.now) ≤ 4 }
    ensures step { step.new ≡ record step.old {
      actions = record {
        items = step.old.actions.items ++ action.Output (signal_of (record { frame = frame.now; vars = step.old.vars.items }) id params.now) (dest_of (record { frame = frame.now; vars = step.old.vars.items }) to.now) via ∷ [];
      };
    } }
    ensures bent { bent.new ≡ ((bent.old || params_bend (record { frame = frame.now; vars = step.old.vars.items }) params.now) || goal_bends (record { frame = frame.now; vars = step.old.vars.items }) to.now) }
{
    let signal = signal(id, params, frame, step.vars.as_slice(), bent);
    let dest = dest(to, frame, step.vars.as_slice(), bent);
    step.actions.push(Action::Output { signal, dest, via });
}

/// The variable at the place takes the value.
#[tactic(auto, using(std::proofs::lemmas::List::set_past))]
fn assign(step: &mut Step, place: usize, value: Value)
    ensures { step.new ≡ record step.old { vars = record { items = slice_set step.old.vars.items place value } } }
{
    if place < step.vars.len() {
        step.vars[place] = value;
    }
}

/// Whether the expression is true.
fn holds(condition: &Expr, frame: &Frame, vars: &[Value], bent: &mut bool) -> bool
    ensures value { result ≡ boolean_in (rule.evaluate (record { frame = frame.now; vars = vars.now }) condition.now) }
    ensures bent { bent.new ≡ (bent.old || rule.bends (record { frame = frame.now; vars = vars.now }) condition.now) }
{
    match evaluate(condition, frame, vars, bent) {
        Value::Boolean(truth) => truth,
        _ => false,
    }
}

/// Adds to the step what the body does, and says whether it came to an end.
fn carry_out(body: &Body, frame: &Frame, step: &mut Step, bent: &mut bool) -> bool
    requires room { length step.old.actions.items + most_actions body.now ≤ 8 }
    requires params { most_params body.now ≤ 4 }
    ensures done { doing_of step.new result bent.new ≡ done_by frame.now body.now (doing_of step.old false bent.old) }
    ensures room { GoesOnWithin result (most_going_on body.now) (length step.old.actions.items) (length step.new.actions.items) }
{
    match body {
        Body::Nothing => false,
        Body::Output {
            signal,
            params,
            to,
            via,
            rest,
        } => {
            output(*signal, params, to, *via, frame, step, bent);
            carry_out(rest, frame, step, bent)
        }
        Body::Create { set, rest } => {
            step.actions.push(Action::Create(*set));
            carry_out(rest, frame, step, bent)
        }
        Body::Assign { place, value, rest } => {
            let value = evaluate(value, frame, step.vars.as_slice(), bent);
            assign(step, *place, value);
            carry_out(rest, frame, step, bent)
        }
        Body::If {
            condition,
            yes,
            no,
            rest,
        } => {
            let taken = if holds(condition, frame, step.vars.as_slice(), bent) {
                yes
            } else {
                no
            };
            if carry_out(taken, frame, step, bent) {
                return true;
            }
            carry_out(rest, frame, step, bent)
        }
        Body::End(next) => {
            step.next = *next;
            true
        }
    }
}

fn copy_variables(frame: &Frame, step: &mut Step)
    requires { step.old.vars.items ≡ [] }
    ensures { step.new ≡ record step.old { vars = frame.now.vars } }
{
    match step.vars.try_extend_from_slice(frame.vars.as_slice()) {
        Ok(()) => {}
        Err(_) => unreachable!(),
    }
}

/// Puts what the row does to the frame into the blank step.
fn put(row: &Row, frame: &Frame, step: &mut Step) -> bool
    requires room { most_actions row.now.body ≤ 8 }
    requires params { most_params row.now.body ≤ 4 }
    requires ends { most_going_on row.now.body ≡ None }
    requires blank { IsBlank step.old }
    ensures step { IsStepOf row.now frame.now step.new }
    ensures bent { result ≡ (doing row.now frame.now).bent }
{
    let mut bent = false;
    copy_variables(frame, step);
    carry_out(&row.body, frame, step, &mut bent);
    bent
}

/// Puts what the row does to the frame into the blank step, where it stands, and says whether a value was bent on the way. A value
/// is bent where it leaves the range of an Integer, or a divisor is 0. No memory is taken.
pub fn fill(row: &Row, frame: &Frame, step: &mut Step) -> bool
    requires sound { IsSound row.now }
    requires frame { IsFrameOf (offer_of row.now) frame.now }
    requires blank { IsBlank step.old }
    ensures step { IsStepOf row.now frame.now step.new }
    ensures bent { result ≡ (doing row.now frame.now).bent }
    ensures conforms { Conforms (offer_of row.now) step.new }
{
    put(row, frame, step)
}
