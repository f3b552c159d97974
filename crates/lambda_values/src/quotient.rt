//! Quotients and remainders of two numbers, and their faults (JLS 17, 15.17.2 and 15.17.3, and `floorDiv` and
//! `floorMod` of `java.lang.Math`).

ghost use Rattle.lambda_values.specs.Operators.{floor_quotient, quotient, remainder};
ghost use Rattle.lambda_values.specs.Operators.{floor_remainder, is_opposite, rounded_down};
ghost use Rattle.lambda_values.specs.Wrap.{wrap};
ghost use Rattle.std.specs.Int.{IsNonZero, w64};
ghost use Rattle.std.specs.Prelude.{◌≡◌, ◌<◌};

use crate::fault::FaultKind;

/// `x / y`.
pub(crate) fn divide(x: i64, y: i64) -> Result<i64, FaultKind>
    ensures { result ≡ quotient x y }
{
    if y == 0 {
        return Err(FaultKind::DivideByZero);
    }
    Ok(x.wrapping_div(y))
}

/// `x % y`.
pub(crate) fn take_remainder(x: i64, y: i64) -> Result<i64, FaultKind>
    ensures { result ≡ remainder x y }
{
    if y == 0 {
        return Err(FaultKind::DivideByZero);
    }
    Ok(x.wrapping_rem(y))
}

/// Whether a remainder other than 0 has not the sign of the divisor.
fn is_opposite(rest: i64, divisor: i64) -> bool
    ensures { result ≡ is_opposite rest divisor }
{
    rest != 0 && (rest < 0) != (divisor < 0)
}

/// A quotient rounded toward zero is one too large if the remainder and the divisor differ in sign.
fn round_down(x: i64, y: i64) -> i64
    requires { IsNonZero w64 y }
    ensures { result ≡ wrap (rounded_down x y) }
{
    let toward_zero = x.wrapping_div(y);
    if is_opposite(x.wrapping_rem(y), y) {
        toward_zero.wrapping_sub(1)
    } else {
        toward_zero
    }
}

/// `Math.floorDiv(x, y)`.
pub(crate) fn floor_divide(x: i64, y: i64) -> Result<i64, FaultKind>
    ensures { result ≡ floor_quotient x y }
{
    if y == 0 {
        return Err(FaultKind::DivideByZero);
    }
    Ok(round_down(x, y))
}

/// `Math.floorMod(x, y)`.
pub(crate) fn take_floor_remainder(x: i64, y: i64) -> Result<i64, FaultKind>
    ensures { result ≡ floor_remainder x y }
{
    if y == 0 {
        return Err(FaultKind::DivideByZero);
    }
    Ok(x.wrapping_sub(round_down(x, y).wrapping_mul(y)))
}
