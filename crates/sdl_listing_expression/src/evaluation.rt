//! The value of an expression.
ghost use Rattle.std.specs.Prelude.{◌≡◌, ◌||◌};
ghost use Rattle.sdl_listing_expression.specs.Values as rule;

use crate::arithmetic::negation;
use crate::syntax::Expr;
use crate::values::{
    boolean, combine, instance, integer, looks_on, own, parameter, pid, serial, sorted, variable,
};
use sdl_signal::{Pid, Value};
use sdl_transition_behaviour::Frame;

/// The value of the expression, of a frame and the variables as they are now. Arithmetic is total: where a value that counts
/// leaves the range of an Integer, or a divisor is 0, the mark is set. No memory is taken.
pub fn evaluate(e: &Expr, frame: &Frame, vars: &[Value], bent: &mut bool) -> Value
    ensures value { result ≡ rule.evaluate (record { frame = frame.now; vars = vars.now }) e.now }
    ensures bent { bent.new ≡ (bent.old || rule.bends (record { frame = frame.now; vars = vars.now }) e.now) }
{
    match e {
        Expr::Integer(number) => Value::Integer(*number),
        Expr::Boolean(truth) => Value::Boolean(*truth),
        Expr::Null => Value::Pid(Pid::Null),
        Expr::Env => Value::Pid(Pid::Env),
        Expr::Own(word) => Value::Pid(own(frame, *word)),
        Expr::Parameter(place, sort) => sorted(*sort, parameter(frame, *place)),
        Expr::Variable(place, sort) => sorted(*sort, variable(vars, *place)),
        Expr::Negated(a) => {
            let number = integer(evaluate(a, frame, vars, bent));
            Value::Integer(negation(number, bent))
        }
        Expr::Not(a) => Value::Boolean(!boolean(evaluate(a, frame, vars, bent))),
        Expr::Serial(a) => Value::Integer(serial(pid(evaluate(a, frame, vars, bent)))),
        Expr::Instance(set, a) => {
            Value::Pid(instance(*set, integer(evaluate(a, frame, vars, bent))))
        }
        Expr::Two(operator, a, b) => {
            let first = evaluate(a, frame, vars, bent);
            if looks_on(*operator, first) {
                let second = evaluate(b, frame, vars, bent);
                combine(*operator, first, second, bent)
            } else {
                Value::Boolean(boolean(first))
            }
        }
        Expr::Choice(condition, yes, no) => {
            let taken = if boolean(evaluate(condition, frame, vars, bent)) {
                yes
            } else {
                no
            };
            evaluate(taken, frame, vars, bent)
        }
    }
}
