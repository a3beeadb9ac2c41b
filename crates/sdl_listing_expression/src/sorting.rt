//! The sorts of expressions.
ghost use Rattle.std.specs.Prelude.{◌≡◌, Some, IsTrue, ◌↔◌, slice_get};
ghost use Rattle.sdl_listing_expression.specs.Sorted.{sort_made, sort_in, Takes, IsSorted};

use crate::syntax::{Expr, Operator};
use sdl_signal::Sort;

fn made(operator: Operator) -> Sort
    ensures { result ≡ sort_made operator }
{
    match operator {
        Operator::Add => Sort::Integer,
        Operator::Subtract => Sort::Integer,
        Operator::Multiply => Sort::Integer,
        Operator::Divide => Sort::Integer,
        Operator::Modulo => Sort::Integer,
        Operator::Remainder => Sort::Integer,
        _ => Sort::Boolean,
    }
}

fn takes(operator: Operator, a: Sort, b: Sort) -> bool
    ensures { IsTrue result ↔ Takes operator a b }
{
    match operator {
        Operator::Equal => a == b,
        Operator::Differs => a == b,
        Operator::And => a == Sort::Boolean && b == Sort::Boolean,
        Operator::Or => a == Sort::Boolean && b == Sort::Boolean,
        Operator::Xor => a == Sort::Boolean && b == Sort::Boolean,
        _ => a == Sort::Integer && b == Sort::Integer,
    }
}

fn has(sorts: &[Sort], place: usize, sort: Sort) -> bool
    ensures { IsTrue result ↔ (slice_get sorts.now place ≡ Some sort) }
{
    match sorts.get(place) {
        Some(own) => *own == sort,
        None => false,
    }
}

/// The sort of the expression. A choice has that of its second part. No memory is taken.
pub fn sort_of(e: &Expr) -> Sort
    ensures { result ≡ sort_in e.now }
{
    match e {
        Expr::Integer(_) => Sort::Integer,
        Expr::Boolean(_) => Sort::Boolean,
        Expr::Null => Sort::Pid,
        Expr::Env => Sort::Pid,
        Expr::Own(_) => Sort::Pid,
        Expr::Parameter(_, sort) => *sort,
        Expr::Variable(_, sort) => *sort,
        Expr::Negated(_) => Sort::Integer,
        Expr::Not(_) => Sort::Boolean,
        Expr::Serial(_) => Sort::Integer,
        Expr::Instance(_, _) => Sort::Pid,
        Expr::Two(operator, _, _) => made(*operator),
        Expr::Choice(_, yes, _) => sort_of(yes),
    }
}

/// Whether each part of the expression has its sort, with parameters and variables of these sorts. Each set that it names is to
/// be among the first `sets`. No memory is taken.
pub fn is_sorted(e: &Expr, sets: u32, params: &[Sort], vars: &[Sort]) -> bool
    ensures { IsTrue result ↔ IsSorted (record { sets = sets; params = params.now; vars = vars.now }) e.now }
{
    match e {
        Expr::Integer(_) => true,
        Expr::Boolean(_) => true,
        Expr::Null => true,
        Expr::Env => true,
        Expr::Own(_) => true,
        Expr::Parameter(place, sort) => has(params, *place, *sort),
        Expr::Variable(place, sort) => has(vars, *place, *sort),
        Expr::Negated(a) => is_sorted(a, sets, params, vars) && sort_of(a) == Sort::Integer,
        Expr::Not(a) => is_sorted(a, sets, params, vars) && sort_of(a) == Sort::Boolean,
        Expr::Serial(a) => is_sorted(a, sets, params, vars) && sort_of(a) == Sort::Pid,
        Expr::Instance(set, a) => {
            set.0 < sets && is_sorted(a, sets, params, vars) && sort_of(a) == Sort::Integer
        }
        Expr::Two(operator, a, b) => {
            is_sorted(a, sets, params, vars)
                && is_sorted(b, sets, params, vars)
                && takes(*operator, sort_of(a), sort_of(b))
        }
        Expr::Choice(condition, yes, no) => {
            is_sorted(condition, sets, params, vars)
                && is_sorted(yes, sets, params, vars)
                && is_sorted(no, sets, params, vars)
                && sort_of(condition) == Sort::Boolean
                && sort_of(yes) == sort_of(no)
        }
    }
}
