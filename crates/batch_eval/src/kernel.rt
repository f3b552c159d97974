//! The operators, each as a type: a loop over lanes is compiled for each of them.

ghost use Rattle.batch_eval.specs.Lanes.{infix_value, known_value};
ghost use Rattle.batch_eval.specs.declared.kernel.TheConstants.{OPERATORS};
ghost use Rattle.lambda_values.specs.declared.fault.FaultKind.{FaultKind};
ghost use Rattle.std.specs.Prelude.{◌≡◌, ℤ, Ok, Result, slice_get};

use crate::flag::flag;
use lambda_values::{BinaryOperator, Comparison, FaultKind, UnaryOperator};
use std::marker::PhantomData;

/// An operator between two numbers.
pub(crate) trait Kernel {
    // The value, or the fault.
    ghost value: { ℤ → ℤ → Result ℤ FaultKind };

    /// The value, or the fault.
    fn apply(x: i64, y: i64) -> Result<i64, FaultKind>
        ensures { result ≡ value x y };
}

/// An operator of an expression. With `Alone`, the second operand isn't looked at.
#[derive(Clone, Copy)]
pub(crate) enum Infix {
    Compute(BinaryOperator),
    Compare(Comparison),
    Alone(UnaryOperator),
}

impl Infix {
    /// The value, or the fault; of a comparison a flag.
    fn apply(self, x: i64, y: i64) -> Result<i64, FaultKind>
        ensures { result ≡ infix_value self x y }
    {
        match self {
            Infix::Compute(operator) => operator.apply(x, y),
            Infix::Compare(comparison) => Ok(flag(comparison.apply(x, y))),
            Infix::Alone(operator) => operator.apply(x),
        }
    }
}

/// A list of operators, by their names.
macro_rules! operators {
    ($($compute:ident)*; $($compare:ident)*; $($alone:ident)*) => {
        [
            $(Infix::Compute(BinaryOperator::$compute),)*
            $(Infix::Compare(Comparison::$compare),)*
            $(Infix::Alone(UnaryOperator::$alone),)*
        ]
    };
}

/// The operators that are types by their place in this list.
const OPERATORS: [Infix; 26] = operators!(
    Add Subtract Multiply Divide Remainder ShiftLeft ShiftRight ShiftRightUnsigned And Xor Or Min Max
    FloorDivide FloorRemainder AddExact SubtractExact MultiplyExact;
    Equal NotEqual Less LessOrEqual;
    Negate Complement Absolute NegateExact
);

/// The operator at a place of the list.
pub(crate) struct Known<const N: usize>;

impl<const N: usize> Kernel for Known<N> {
    ghost value = { known_value (slice_get OPERATORS N) };

    fn apply(x: i64, y: i64) -> Result<i64, FaultKind> {
        match OPERATORS.get(N) {
            Some(operator) => operator.apply(x, y),
            None => Ok(0),
        }
    }
}

pub(crate) type Add = Known<0>;

pub(crate) type Subtract = Known<1>;

pub(crate) type Multiply = Known<2>;

pub(crate) type Divide = Known<3>;

pub(crate) type Remainder = Known<4>;

pub(crate) type ShiftLeft = Known<5>;

pub(crate) type ShiftRight = Known<6>;

pub(crate) type ShiftRightUnsigned = Known<7>;

pub(crate) type And = Known<8>;

pub(crate) type Xor = Known<9>;

pub(crate) type Or = Known<10>;

pub(crate) type Min = Known<11>;

pub(crate) type Max = Known<12>;

pub(crate) type FloorDivide = Known<13>;

pub(crate) type FloorRemainder = Known<14>;

pub(crate) type AddExact = Known<15>;

pub(crate) type SubtractExact = Known<16>;

pub(crate) type MultiplyExact = Known<17>;

pub(crate) type Equal = Known<18>;

pub(crate) type NotEqual = Known<19>;

pub(crate) type Less = Known<20>;

pub(crate) type LessOrEqual = Known<21>;

pub(crate) type Greater = Swapped<Less>;

pub(crate) type GreaterOrEqual = Swapped<LessOrEqual>;

pub(crate) type Negate = Known<22>;

pub(crate) type Complement = Known<23>;

pub(crate) type Absolute = Known<24>;

pub(crate) type NegateExact = Known<25>;

/// `K` with its operands in the other order.
pub(crate) struct Swapped<K: Kernel>(PhantomData<K>);

impl<K: Kernel> Kernel for Swapped<K> {
    ghost value = { λ x y. K.value y x };

    fn apply(x: i64, y: i64) -> Result<i64, FaultKind> {
        K::apply(y, x)
    }
}

/// The first operand as it is; the second one isn't looked at.
pub(crate) struct First;

impl Kernel for First {
    ghost value = { λ x _. Ok x };

    fn apply(x: i64, _y: i64) -> Result<i64, FaultKind> {
        Ok(x)
    }
}
