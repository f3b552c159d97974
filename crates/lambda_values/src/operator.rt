//! The operators of expressions, grouped by their operands and by the type of their result.

ghost use Rattle.lambda_values.specs.Operators.{binary_faults, binary_value, comparison_value, exact};
ghost use Rattle.lambda_values.specs.Operators.{quotient, remainder, unary_faults, unary_value};
ghost use Rattle.lambda_values.specs.Operators.{low_six_bits, shifted_left, shifted_right, shifted_right_unsigned};
ghost use Rattle.std.specs.Int.{w64};
ghost use Rattle.std.specs.Option.{SomeIff};
ghost use Rattle.std.specs.Prelude.{◌≡◌, ◌<◌, ℤ, FitsSigned};

use crate::fault::FaultKind;
use crate::quotient::{divide, floor_divide, take_floor_remainder, take_remainder};

/// An operation on one number.
#[derive(Clone, Copy, PartialEq, Eq)]
pub enum UnaryOperator {
    /// `-x`, wrapping to 64 bits (JLS 17, 15.15.4).
    Negate,
    /// `~x`, each bit flipped (JLS 17, 15.15.5).
    Complement,
    /// `Math.abs(x)`: `Long.MIN_VALUE` stays what it is.
    Absolute,
    /// `Math.negateExact(x)`: `Overflow` for `Long.MIN_VALUE`.
    NegateExact,
}

/// An operation on two numbers.
#[derive(Clone, Copy, PartialEq, Eq)]
pub enum BinaryOperator {
    /// `x + y` and `Long.sum(x, y)`, wrapping to 64 bits (JLS 17, 15.18.2).
    Add,
    /// `x - y`, wrapping to 64 bits (JLS 17, 15.18.2).
    Subtract,
    /// `x * y`, wrapping to 64 bits (JLS 17, 15.17.1).
    Multiply,
    /// `x / y`, rounded toward zero (JLS 17, 15.17.2).
    Divide,
    /// `x % y`, with the sign of `x` (JLS 17, 15.17.3).
    Remainder,
    /// `x << y`, by the low six bits of `y` (JLS 17, 15.19).
    ShiftLeft,
    /// `x >> y`, which keeps the sign, by the low six bits of `y` (JLS 17, 15.19).
    ShiftRight,
    /// `x >>> y`, which fills with zeros, by the low six bits of `y` (JLS 17, 15.19).
    ShiftRightUnsigned,
    /// `x & y`, bit by bit (JLS 17, 15.22.1).
    And,
    /// `x ^ y`, bit by bit (JLS 17, 15.22.1).
    Xor,
    /// `x | y`, bit by bit (JLS 17, 15.22.1).
    Or,
    /// `Math.min(x, y)` and `Long.min(x, y)`.
    Min,
    /// `Math.max(x, y)` and `Long.max(x, y)`.
    Max,
    /// `Math.floorDiv(x, y)`: the quotient rounded down.
    FloorDivide,
    /// `Math.floorMod(x, y)`: the remainder with the sign of `y`.
    FloorRemainder,
    /// `Math.addExact(x, y)`: `Overflow` outside 64 bits.
    AddExact,
    /// `Math.subtractExact(x, y)`: `Overflow` outside 64 bits.
    SubtractExact,
    /// `Math.multiplyExact(x, y)`: `Overflow` outside 64 bits.
    MultiplyExact,
}

/// When an operator has a fault, if at all.
#[derive(Clone, Copy, PartialEq, Eq)]
pub enum Faults {
    /// No operands give a fault.
    Never,
    /// A second operand of 0 gives `DivideByZero`, and no other one a fault.
    ByZero,
    /// A value that 64 bits don't hold gives `Overflow`.
    Overflow,
}

/// A comparison of two numbers (JLS 17, 15.20.1 and 15.21.1).
#[derive(Clone, Copy, PartialEq, Eq)]
pub enum Comparison {
    Equal,
    NotEqual,
    Less,
    LessOrEqual,
    Greater,
    GreaterOrEqual,
}

/// An operation on two booleans that evaluates the right one only if it has to.
#[derive(Clone, Copy, PartialEq, Eq)]
pub enum Connective {
    /// `p && q` (JLS 17, 15.23).
    And,
    /// `p || q` (JLS 17, 15.24).
    Or,
}

/// The value that an exact operation gives, or `Overflow`.
fn or_overflow(value: Option<i64>) -> Result<i64, FaultKind>
    ensures { (z : ℤ) → SomeIff value (FitsSigned w64 z) z → result ≡ exact z }
{
    value.ok_or(FaultKind::Overflow)
}

/// How far a shift goes (JLS 17, 15.19).
fn shift_distance(count: i64) -> u32
    ensures value { result ≡ low_six_bits count }
    ensures bound { result < 64 }
{
    (count.cast_unsigned() % 64) as u32
}

fn shift_left(x: i64, count: i64) -> i64
    ensures { result ≡ shifted_left x count }
{
    x << shift_distance(count)
}

fn shift_right(x: i64, count: i64) -> i64
    ensures { result ≡ shifted_right x count }
{
    x >> shift_distance(count)
}

fn shift_right_unsigned(x: i64, count: i64) -> i64
    ensures { result ≡ shifted_right_unsigned x count }
{
    (x.cast_unsigned() >> shift_distance(count)).cast_signed()
}

impl UnaryOperator {
    /// The value for this operand, or `Overflow`.
    pub fn apply(self, x: i64) -> Result<i64, FaultKind>
        ensures { result ≡ unary_value self x }
    {
        match self {
            UnaryOperator::Negate => Ok(x.wrapping_neg()),
            UnaryOperator::Complement => Ok(!x),
            UnaryOperator::Absolute => Ok(x.wrapping_abs()),
            UnaryOperator::NegateExact => or_overflow(x.checked_neg()),
        }
    }

    /// When the operator has a fault.
    pub fn faults(self) -> Faults
        ensures { result ≡ unary_faults self }
    {
        match self {
            UnaryOperator::Negate | UnaryOperator::Complement | UnaryOperator::Absolute => {
                Faults::Never
            }
            UnaryOperator::NegateExact => Faults::Overflow,
        }
    }
}

impl BinaryOperator {
    /// The value for these operands, or `DivideByZero`, or `Overflow`.
    pub fn apply(self, x: i64, y: i64) -> Result<i64, FaultKind>
        ensures { result ≡ binary_value self x y }
    {
        match self {
            BinaryOperator::Add => Ok(x.wrapping_add(y)),
            BinaryOperator::Subtract => Ok(x.wrapping_sub(y)),
            BinaryOperator::Multiply => Ok(x.wrapping_mul(y)),
            BinaryOperator::Divide => divide(x, y),
            BinaryOperator::Remainder => take_remainder(x, y),
            BinaryOperator::ShiftLeft => Ok(shift_left(x, y)),
            BinaryOperator::ShiftRight => Ok(shift_right(x, y)),
            BinaryOperator::ShiftRightUnsigned => Ok(shift_right_unsigned(x, y)),
            BinaryOperator::And => Ok(x & y),
            BinaryOperator::Xor => Ok(x ^ y),
            BinaryOperator::Or => Ok(x | y),
            BinaryOperator::Min => Ok(x.min(y)),
            BinaryOperator::Max => Ok(x.max(y)),
            BinaryOperator::FloorDivide => floor_divide(x, y),
            BinaryOperator::FloorRemainder => take_floor_remainder(x, y),
            BinaryOperator::AddExact => or_overflow(x.checked_add(y)),
            BinaryOperator::SubtractExact => or_overflow(x.checked_sub(y)),
            BinaryOperator::MultiplyExact => or_overflow(x.checked_mul(y)),
        }
    }

    /// When the operator has a fault.
    pub fn faults(self) -> Faults
        ensures { result ≡ binary_faults self }
    {
        match self {
            BinaryOperator::Add
            | BinaryOperator::Subtract
            | BinaryOperator::Multiply
            | BinaryOperator::ShiftLeft
            | BinaryOperator::ShiftRight
            | BinaryOperator::ShiftRightUnsigned
            | BinaryOperator::And
            | BinaryOperator::Xor
            | BinaryOperator::Or
            | BinaryOperator::Min
            | BinaryOperator::Max => Faults::Never,
            BinaryOperator::Divide
            | BinaryOperator::Remainder
            | BinaryOperator::FloorDivide
            | BinaryOperator::FloorRemainder => Faults::ByZero,
            BinaryOperator::AddExact
            | BinaryOperator::SubtractExact
            | BinaryOperator::MultiplyExact => Faults::Overflow,
        }
    }

    /// About how many additions take as long, if the operator isn't a division. It says how fast a
    /// job runs and never what it gives, so it has no contract.
    pub fn additions(self) -> u32 {
        match self {
            BinaryOperator::Multiply => 2,
            _ => 1,
        }
    }
}

impl Comparison {
    /// Whether the comparison holds.
    pub fn apply(self, x: i64, y: i64) -> bool
        ensures { result ≡ comparison_value self x y }
    {
        match self {
            Comparison::Equal => x == y,
            Comparison::NotEqual => x != y,
            Comparison::Less => x < y,
            Comparison::LessOrEqual => x <= y,
            Comparison::Greater => x > y,
            Comparison::GreaterOrEqual => x >= y,
        }
    }
}
