//! Division by powers of two, by shifts and masks instead of the processor's division.

ghost use Rattle.batch_eval.specs.Powers.{by_power_value, power, with_sign_of};
ghost use Rattle.lambda_values.specs.Operators.{low_six_bits, rounded_down};
ghost use Rattle.lambda_values.specs.Wrap.{wrap};
ghost use Rattle.lambda_values.specs.declared.operator.BinaryOperator.TheVariants as binary_operator;
ghost use Rattle.std.specs.Prelude.{ℕ, ◌≡◌, ◌≢◌, ◌<◌, ◌-◌, ◌^◌, ◌*ℤ◌, pos, MatchOption};

use crate::kernel::Kernel;
use lambda_values::FaultKind;

/// How many powers of two an `i64` can be: 2^0 to 2^62.
const POWERS: u32 = 63;

/// The exponent of a number that is a power of two, from 1 to 2^62.
pub(crate) fn exponent_of(y: i64) -> Option<i64>
    ensures { MatchOption result ((k : ℕ) → k < 63 → y ≢ pos (2 ^ k)) (λ k. y ≡ pos (power k)) }
{
    let exponent = y.trailing_zeros();
    if y > 0 && exponent < POWERS && 1u64 << exponent == y.cast_unsigned() {
        Some(i64::from(exponent))
    } else {
        None
    }
}

/// How far a shift goes (JLS 17, 15.19).
fn distance(exponent: i64) -> u32
    ensures value { result ≡ low_six_bits exponent }
    ensures bound { result < 64 }
{
    (exponent.cast_unsigned() % 64) as u32
}

/// The bits below a power of two.
pub(crate) fn mask(exponent: i64) -> u64
    ensures { result ≡ power exponent - 1 }
{
    (1u64 << distance(exponent)) - 1
}

/// `x` over a power of two, rounded down.
fn shifted_down(x: i64, exponent: i64) -> i64
    ensures { result ≡ rounded_down x (pos (power exponent)) }
{
    x >> distance(exponent)
}

/// `x` without the bits below a power of two.
fn cleared(x: i64, exponent: i64) -> i64
    ensures { result ≡ wrap (rounded_down x (pos (power exponent)) *ℤ pos (power exponent)) }
{
    shifted_down(x, exponent) << distance(exponent)
}

/// A magnitude with the sign of `x`.
pub(crate) fn signed_as(x: i64, magnitude: u64) -> i64
    ensures { result ≡ wrap (with_sign_of x magnitude) }
{
    let positive = magnitude.cast_signed();
    if x < 0 {
        positive.wrapping_neg()
    } else {
        positive
    }
}

/// `x / y`, by the exponent of `y`.
pub(crate) struct DivideByPower;

impl Kernel for DivideByPower {
    ghost value = { by_power_value binary_operator.Divide };

    fn apply(x: i64, exponent: i64) -> Result<i64, FaultKind> {
        Ok(signed_as(x, x.unsigned_abs() >> distance(exponent)))
    }
}

/// `x % y`, by the exponent of `y`.
pub(crate) struct RemainderByPower;

impl Kernel for RemainderByPower {
    ghost value = { by_power_value binary_operator.Remainder };

    fn apply(x: i64, exponent: i64) -> Result<i64, FaultKind> {
        Ok(signed_as(x, x.unsigned_abs() & mask(exponent)))
    }
}

/// `Math.floorDiv(x, y)`, by the exponent of `y`.
pub(crate) struct FloorDivideByPower;

impl Kernel for FloorDivideByPower {
    ghost value = { by_power_value binary_operator.FloorDivide };

    fn apply(x: i64, exponent: i64) -> Result<i64, FaultKind> {
        Ok(shifted_down(x, exponent))
    }
}

/// `Math.floorMod(x, y)`, by the exponent of `y`.
pub(crate) struct FloorRemainderByPower;

impl Kernel for FloorRemainderByPower {
    ghost value = { by_power_value binary_operator.FloorRemainder };

    fn apply(x: i64, exponent: i64) -> Result<i64, FaultKind> {
        Ok(x.wrapping_sub(cleared(x, exponent)))
    }
}
