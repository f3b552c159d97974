//! Division by a number whose reciprocal is known.

ghost use Rattle.batch_eval.specs.Reciprocals.{away, distance as distance_of, natural};
ghost use Rattle.lambda_values.specs.Operators.{binary_value, rounded_down};
ghost use Rattle.lambda_values.specs.Wrap.{wrap};
ghost use Rattle.lambda_values.specs.declared.fault.FaultKind.{FaultKind};
ghost use Rattle.lambda_values.specs.declared.operator.BinaryOperator.TheVariants as binary_operator;
ghost use Rattle.std.specs.Prelude.{ℤ, ◌≡◌, ◌<◌, ◌≤◌, ◌+◌, ◌*◌, ◌-◌, ◌%◌, ◌^◌, Ok, Result, neg_ℤ, unsigned_abs};

use crate::kernel::Kernel;
use crate::power::signed_as;
use crate::reciprocal::{Divisor, HALF};
use lambda_values::FaultKind;

/// How far a number is from 0, or from -1 if it is below 0.
pub(crate) fn distance(x: i64) -> u64
    ensures value { result ≡ distance_of x }
    ensures bound { result < 2 ^ 63 }
    ensures within { result ≤ unsigned_abs x }
{
    if x < 0 {
        (!x).cast_unsigned()
    } else {
        x.cast_unsigned()
    }
}

/// The number that is so far from 0, or from -1 if `x` is below 0.
fn at_distance(x: i64, n: u64) -> i64
    requires { n < 2 ^ 63 }
    ensures { result ≡ away x n }
{
    let above = n.cast_signed();
    if x < 0 { !above } else { above }
}

/// `distance` of `-x`.
fn opposite_distance(x: i64) -> u64
    ensures value { result ≡ distance_of (neg_ℤ x) }
    ensures within { result ≤ unsigned_abs x }
{
    if x > 0 {
        (x - 1).cast_unsigned()
    } else {
        x.unsigned_abs()
    }
}

/// `at_distance` of `-x`.
fn at_opposite_distance(x: i64, n: u64) -> i64
    requires { n < 2 ^ 63 }
    ensures { result ≡ away (neg_ℤ x) n }
{
    let above = n.cast_signed();
    if x > 0 { !above } else { above }
}

/// What is left of a magnitude after a multiple of a short divisor is taken away, if it is less than the divisor: by
/// its lower half alone, so that no product has more than 64 bits.
fn short_rest(n: u64, quotient: u64, divisor: u32) -> u64
    requires least { quotient * divisor ≤ n }
    requires most { n < quotient * divisor + divisor }
    ensures { result ≡ n - quotient * divisor }
{
    (n % HALF).wrapping_sub(quotient % HALF * u64::from(divisor)) % HALF
}

/// What is left of a magnitude.
fn rest<R: Divisor>(n: u64, by: R) -> u64
    requires divides { R.divides by }
    requires n { n ≤ R.most }
    ensures value { result ≡ n % unsigned_abs (R.number by) }
    ensures above { 1 < unsigned_abs (R.number by) }
{
    let divisor = by.number().unsigned_abs();
    let quotient = by.quotient(n);
    if divisor < HALF {
        short_rest(n, quotient, divisor as u32)
    } else {
        n - quotient * divisor
    }
}

/// `x` over a divisor, rounded down.
fn quotient_down<R: Divisor>(x: i64, by: R) -> i64
    requires divides { R.divides by }
    requires within { unsigned_abs x ≤ R.most }
    ensures value { result ≡ wrap (rounded_down x (R.number by)) }
    ensures above { 1 < unsigned_abs (R.number by) }
{
    if by.number() < 0 {
        at_opposite_distance(x, by.quotient(opposite_distance(x)))
    } else {
        at_distance(x, by.quotient(distance(x)))
    }
}

/// The lower 31 bits of a number, which a compiler sees isn't below 0; the second operand isn't looked at.
pub(crate) struct Natural;

impl Kernel for Natural {
    ghost value = { λ x _. Ok (natural x) };

    fn apply(x: i64, _y: i64) -> Result<i64, FaultKind> {
        Ok((x.cast_unsigned() % (1 << 31)).cast_signed())
    }
}

/// An operator whose right operand is a divisor with a reciprocal. It has no fault.
pub(crate) trait Division {
    ghost value: { ℤ → ℤ → Result ℤ FaultKind };

    fn apply<R: Divisor>(x: i64, by: R) -> i64
        requires divides { R.divides by }
        requires within { unsigned_abs x ≤ R.most }
        ensures { Ok result ≡ value x (R.number by) };
}

/// `x / y`, by the reciprocal of `y`.
pub(crate) struct DivideByReciprocal;

impl Division for DivideByReciprocal {
    ghost value = { binary_value binary_operator.Divide };

    fn apply<R: Divisor>(x: i64, by: R) -> i64 {
        let quotient = signed_as(x, by.quotient(x.unsigned_abs()));
        if by.number() < 0 {
            quotient.wrapping_neg()
        } else {
            quotient
        }
    }
}

/// `x % y`, by the reciprocal of `y`.
pub(crate) struct RemainderByReciprocal;

impl Division for RemainderByReciprocal {
    ghost value = { binary_value binary_operator.Remainder };

    fn apply<R: Divisor>(x: i64, by: R) -> i64 {
        signed_as(x, rest(x.unsigned_abs(), by))
    }
}

/// `Math.floorDiv(x, y)`, by the reciprocal of `y`.
pub(crate) struct FloorDivideByReciprocal;

impl Division for FloorDivideByReciprocal {
    ghost value = { binary_value binary_operator.FloorDivide };

    fn apply<R: Divisor>(x: i64, by: R) -> i64 {
        quotient_down(x, by)
    }
}

/// `Math.floorMod(x, y)`, by the reciprocal of `y`.
pub(crate) struct FloorRemainderByReciprocal;

impl Division for FloorRemainderByReciprocal {
    ghost value = { binary_value binary_operator.FloorRemainder };

    fn apply<R: Divisor>(x: i64, by: R) -> i64 {
        x.wrapping_sub(quotient_down(x, by).wrapping_mul(by.number()))
    }
}
