//! Expressions of their parts.
ghost use Rattle.std.specs.Prelude.{◌≡◌, IfOk, IfErr};
ghost use Rattle.sdl_listing_expression_text.specs.declared.fault.Stopped.TheVariants as stopped;
ghost use Rattle.sdl_listing_expression_text.specs.Built.{IsNegated, IsInverse, IsSerial, IsInstance, IsJoined, IsChoice};

use crate::fault::Stopped;
use crate::operators::Infix;
use sdl_listing_expression::Expr;
use sdl_signal::SetId;
use std::alloc::Global;

/// The operand with a minus before it.
pub fn negated(alloc: Global, inner: Expr) -> Result<Expr, Stopped>
    ensures built { IfOk result (IsNegated inner) }
    ensures memory { IfErr result (λ e. e ≡ stopped.Memory) }
{
    let inner = Box::new(alloc, inner)?;
    Ok(Expr::Negated(inner))
}

/// The operand with `not` before it.
pub fn inverse(alloc: Global, inner: Expr) -> Result<Expr, Stopped>
    ensures built { IfOk result (IsInverse inner) }
    ensures memory { IfErr result (λ e. e ≡ stopped.Memory) }
{
    let inner = Box::new(alloc, inner)?;
    Ok(Expr::Not(inner))
}

/// The serial number of the instance.
pub fn serial_number(alloc: Global, inner: Expr) -> Result<Expr, Stopped>
    ensures built { IfOk result (IsSerial inner) }
    ensures memory { IfErr result (λ e. e ≡ stopped.Memory) }
{
    let inner = Box::new(alloc, inner)?;
    Ok(Expr::Serial(inner))
}

/// The instance of the set that has this serial number.
pub fn instance(alloc: Global, set: SetId, inner: Expr) -> Result<Expr, Stopped>
    ensures built { IfOk result (IsInstance set inner) }
    ensures memory { IfErr result (λ e. e ≡ stopped.Memory) }
{
    let inner = Box::new(alloc, inner)?;
    Ok(Expr::Instance(set, inner))
}

/// The operator with its two operands, as they stand in the text.
pub fn joined(alloc: Global, found: Infix, left: Expr, right: Expr) -> Result<Expr, Stopped>
    ensures built { IfOk result (IsJoined found left right) }
    ensures memory { IfErr result (λ e. e ≡ stopped.Memory) }
{
    let left = Box::new(alloc, left)?;
    let right = Box::new(alloc, right)?;
    if found.is_turned {
        return Ok(Expr::Two(found.operator, right, left));
    }
    Ok(Expr::Two(found.operator, left, right))
}

/// The second where the first is true, and else the third.
pub fn choice_of(
    alloc: Global,
    condition: Expr,
    on_true: Expr,
    on_false: Expr,
) -> Result<Expr, Stopped>
    ensures built { IfOk result (IsChoice condition on_true on_false) }
    ensures memory { IfErr result (λ e. e ≡ stopped.Memory) }
{
    let condition = Box::new(alloc, condition)?;
    let on_true = Box::new(alloc, on_true)?;
    let on_false = Box::new(alloc, on_false)?;
    Ok(Expr::Choice(condition, on_true, on_false))
}
