//! Lambdas as they are kept once they are read.

use crate::expr::{BoolExpr, LongExpr};
use crate::inner::InnerExpr;

/// A lambda over one parameter or two.
#[derive(Drop)]
pub struct Lambda {
    pub body: Body,
}

/// The body of a lambda, by what it was wanted for.
#[derive(Drop)]
pub enum Body {
    Long(LongExpr),
    Bool(BoolExpr),
    Stream(InnerExpr),
    Pair(PairForm),
}

/// Which of these forms the body of a lambda of two parameters `a` and `b` has, parentheses apart.
#[derive(Clone, Copy, Debug, PartialEq, Eq)]
pub enum PairForm {
    /// `a`
    First,
    /// `b`
    Second,
    /// `a + b` and `Long.sum(a, b)`
    Sum,
    /// `a * b`
    Product,
    /// `Math.min(a, b)` and `Long.min(a, b)`
    Min,
    /// `Math.max(a, b)` and `Long.max(a, b)`
    Max,
    /// `a & b`
    And,
    /// `a | b`
    Or,
    /// `a ^ b`
    Xor,
    /// `Math.addExact(a, b)`
    ExactSum,
    /// Every other body.
    Other,
}
