//! What a sign means, and what the name of a method means.

use lambda_values::{BinaryOperator, Comparison, Connective, UnaryOperator};

/// What a sign between two operands does.
#[derive(Clone, Copy)]
pub(crate) enum SignOperation {
    Compute(BinaryOperator),
    Compare(Comparison),
    Connect(Connective),
    /// A comma separates two operands.
    Separate,
    /// Nothing: the sign stands before an operand only.
    Nothing,
}

/// A method of `Math` or `Long`.
#[derive(Clone, Copy)]
pub(crate) enum Function {
    Unary(UnaryOperator),
    Binary(BinaryOperator),
}
