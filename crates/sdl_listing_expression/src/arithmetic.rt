//! Arithmetic that is total: what would leave the range of an Integer is the nearest one, and a division by 0 gives 0. Where that
//! bends a value, the mark is set. (This project's own.)
ghost use Rattle.std.specs.Prelude.{◌≡◌, pos, ◌||◌, ◌+ℤ◌, ◌-ℤ◌, ◌*ℤ◌, neg_ℤ, int_div};
ghost use Rattle.sdl_listing_expression.specs.Arithmetic.{bounded, is_outside, is_zero, quotient_of, modulo_of, remainder_of};

/// The sum.
pub fn sum(a: i64, b: i64, bent: &mut bool) -> i64
    ensures value { result ≡ bounded (a +ℤ b) }
    ensures bent { bent.new ≡ (bent.old || is_outside (a +ℤ b)) }
{
    match a.checked_add(b) {
        Some(exact) => exact,
        None => {
            *bent = true;
            a.saturating_add(b)
        }
    }
}

/// The difference.
pub fn difference(a: i64, b: i64, bent: &mut bool) -> i64
    ensures value { result ≡ bounded (a -ℤ b) }
    ensures bent { bent.new ≡ (bent.old || is_outside (a -ℤ b)) }
{
    match a.checked_sub(b) {
        Some(exact) => exact,
        None => {
            *bent = true;
            a.saturating_sub(b)
        }
    }
}

/// The product.
pub fn product(a: i64, b: i64, bent: &mut bool) -> i64
    ensures value { result ≡ bounded (a *ℤ b) }
    ensures bent { bent.new ≡ (bent.old || is_outside (a *ℤ b)) }
{
    match a.checked_mul(b) {
        Some(exact) => exact,
        None => {
            *bent = true;
            a.saturating_mul(b)
        }
    }
}

/// The number with the other sign.
pub fn negation(a: i64, bent: &mut bool) -> i64
    ensures value { result ≡ bounded (neg_ℤ a) }
    ensures bent { bent.new ≡ (bent.old || is_outside (neg_ℤ a)) }
{
    match a.checked_neg() {
        Some(exact) => exact,
        None => {
            *bent = true;
            i64::MAX
        }
    }
}

/// The quotient without its fraction, and 0 of a division by 0.
pub fn quotient(a: i64, b: i64, bent: &mut bool) -> i64
    ensures value { result ≡ quotient_of a b }
    ensures bent { bent.new ≡ (bent.old || is_zero b || is_outside (int_div a b)) }
{
    match a.checked_div(b) {
        Some(exact) => exact,
        None => {
            *bent = true;
            if b == 0 { 0 } else { i64::MAX }
        }
    }
}

/// What is left by the quotient, with the sign of the dividend, and 0 of a division by 0.
pub fn remainder(a: i64, b: i64, bent: &mut bool) -> i64
    ensures value { result ≡ remainder_of a b }
    ensures bent { bent.new ≡ (bent.old || is_zero b) }
{
    match a.checked_rem(b) {
        Some(exact) => exact,
        None => {
            *bent = *bent || b == 0;
            0
        }
    }
}

/// What is left by a quotient that is rounded so that it is not negative, and 0 of a division by 0.
pub fn modulo(a: i64, b: i64, bent: &mut bool) -> i64
    ensures value { result ≡ modulo_of a b }
    ensures bent { bent.new ≡ (bent.old || is_zero b) }
{
    match a.checked_rem_euclid(b) {
        Some(exact) => exact,
        None => {
            *bent = *bent || b == 0;
            0
        }
    }
}
