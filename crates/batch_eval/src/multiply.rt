//! Multiplication by a number whose upper half is 0. AVX2 makes it of two products of halves; by any number it takes
//! three.

ghost use Rattle.batch_eval.specs.Lanes.{lower_half as lower_half_of};
ghost use Rattle.lambda_values.specs.Operators.{binary_value};
ghost use Rattle.lambda_values.specs.declared.operator.BinaryOperator.TheVariants as binary_operator;
ghost use Rattle.std.specs.Prelude.{◌≡◌, IsTrue};

use crate::kernel::Kernel;
use crate::reciprocal::HALF;
use lambda_values::{BinaryOperator, FaultKind};

/// The lower 32 bits.
fn lower_half(y: i64) -> i64
    ensures { result ≡ lower_half_of y }
{
    (y.cast_unsigned() % HALF).cast_signed()
}

/// Whether the upper half of a number is 0.
pub(crate) fn is_half(y: i64) -> bool
    ensures { IsTrue result → lower_half_of y ≡ y }
{
    lower_half(y) == y
}

/// `x * y` by the lower half of `y`.
pub(crate) struct MultiplyByHalf;

impl Kernel for MultiplyByHalf {
    ghost value = { λ x y. binary_value binary_operator.Multiply x (lower_half_of y) };

    fn apply(x: i64, y: i64) -> Result<i64, FaultKind> {
        BinaryOperator::Multiply.apply(x, lower_half(y))
    }
}
