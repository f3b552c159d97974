//! The operators of expressions as they are written.

ghost use Rattle.lambda_expr.specs.Signs.{is_prefix, level, operation_of, sign_of};
ghost use Rattle.std.specs.Prelude.{◌≡◌};

use crate::operation::SignOperation;
use lambda_values::{BinaryOperator, Comparison, Connective};
use stream_tokens::Symbol;

/// A sign before an operand or between two. The comma separates the operands of a call.
#[derive(Clone, Copy)]
pub(crate) enum Sign {
    Comma,
    Or,
    And,
    BitOr,
    BitXor,
    BitAnd,
    Equal,
    NotEqual,
    Less,
    LessOrEqual,
    Greater,
    GreaterOrEqual,
    ShiftLeft,
    ShiftRight,
    ShiftRightUnsigned,
    Add,
    Subtract,
    Multiply,
    Divide,
    Remainder,
    Complement,
    Not,
}

impl Sign {
    /// The sign that a symbol is.
    pub(crate) fn of(symbol: Symbol) -> Option<Sign>
        ensures { result ≡ sign_of symbol }
    {
        let sign = match symbol {
            Symbol::Comma => Sign::Comma,
            Symbol::OrOr => Sign::Or,
            Symbol::AndAnd => Sign::And,
            Symbol::Or => Sign::BitOr,
            Symbol::Xor => Sign::BitXor,
            Symbol::And => Sign::BitAnd,
            Symbol::Equal => Sign::Equal,
            Symbol::NotEqual => Sign::NotEqual,
            Symbol::Less => Sign::Less,
            Symbol::LessOrEqual => Sign::LessOrEqual,
            Symbol::Greater => Sign::Greater,
            Symbol::GreaterOrEqual => Sign::GreaterOrEqual,
            Symbol::ShiftLeft => Sign::ShiftLeft,
            Symbol::ShiftRight => Sign::ShiftRight,
            Symbol::ShiftRightUnsigned => Sign::ShiftRightUnsigned,
            Symbol::Plus => Sign::Add,
            Symbol::Minus => Sign::Subtract,
            Symbol::Star => Sign::Multiply,
            Symbol::Slash => Sign::Divide,
            Symbol::Percent => Sign::Remainder,
            Symbol::Tilde => Sign::Complement,
            Symbol::Bang => Sign::Not,
            _ => return None,
        };
        Some(sign)
    }

    /// How tightly the sign binds between two operands; the comma binds least.
    pub(crate) fn level(self) -> u32
        ensures { result ≡ level self }
    {
        match self {
            Sign::Comma => 0,
            Sign::Or | Sign::Complement | Sign::Not => 2,
            Sign::And => 3,
            Sign::BitOr => 4,
            Sign::BitXor => 5,
            Sign::BitAnd => 6,
            Sign::Equal | Sign::NotEqual => 7,
            Sign::Less | Sign::LessOrEqual | Sign::Greater | Sign::GreaterOrEqual => 8,
            Sign::ShiftLeft | Sign::ShiftRight | Sign::ShiftRightUnsigned => 9,
            Sign::Add | Sign::Subtract => 10,
            Sign::Multiply | Sign::Divide | Sign::Remainder => 11,
        }
    }

    /// Whether the sign may stand before an operand.
    pub(crate) fn is_prefix(self) -> bool
        ensures { result ≡ is_prefix self }
    {
        matches!(
            self,
            Sign::Subtract | Sign::Add | Sign::Complement | Sign::Not
        )
    }

    /// What the sign does between two operands.
    pub(crate) fn operation(self) -> SignOperation
        ensures { result ≡ operation_of self }
    {
        match self {
            Sign::Comma => SignOperation::Separate,
            Sign::Or => SignOperation::Connect(Connective::Or),
            Sign::And => SignOperation::Connect(Connective::And),
            Sign::BitOr => SignOperation::Compute(BinaryOperator::Or),
            Sign::BitXor => SignOperation::Compute(BinaryOperator::Xor),
            Sign::BitAnd => SignOperation::Compute(BinaryOperator::And),
            Sign::Equal => SignOperation::Compare(Comparison::Equal),
            Sign::NotEqual => SignOperation::Compare(Comparison::NotEqual),
            Sign::Less => SignOperation::Compare(Comparison::Less),
            Sign::LessOrEqual => SignOperation::Compare(Comparison::LessOrEqual),
            Sign::Greater => SignOperation::Compare(Comparison::Greater),
            Sign::GreaterOrEqual => SignOperation::Compare(Comparison::GreaterOrEqual),
            Sign::ShiftLeft => SignOperation::Compute(BinaryOperator::ShiftLeft),
            Sign::ShiftRight => SignOperation::Compute(BinaryOperator::ShiftRight),
            Sign::ShiftRightUnsigned => SignOperation::Compute(BinaryOperator::ShiftRightUnsigned),
            Sign::Add => SignOperation::Compute(BinaryOperator::Add),
            Sign::Subtract => SignOperation::Compute(BinaryOperator::Subtract),
            Sign::Multiply => SignOperation::Compute(BinaryOperator::Multiply),
            Sign::Divide => SignOperation::Compute(BinaryOperator::Divide),
            Sign::Remainder => SignOperation::Compute(BinaryOperator::Remainder),
            Sign::Complement | Sign::Not => SignOperation::Nothing,
        }
    }
}
