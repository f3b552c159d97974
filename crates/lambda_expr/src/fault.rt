//! Why a text is no lambda.
ghost use Rattle.std.specs.Prelude.{◌≡◌, Some};
ghost use Rattle.lambda_expr.specs.FaultTexts.{read_fault_text};
ghost use Rattle.lambda_expr.specs.declared.fault.ReadFault.TheVariants.{NoMemory};

use std::alloc::{AllocError, AllocFailed};
use std::fmt;
use std::fmt::{Display, Formatter, Write};
use thiserror::Error;

/// Why a text is not read as a lambda of the want. Numbers 1 to 6, in this order.
#[derive(Clone, Copy, Debug, PartialEq, Eq, Error)]
pub enum ReadFault {
    /// The text is not in the grammar. The column is a byte position from 1: of the first token where the tokens up to
    /// and with it begin no lambda, or one past the last byte.
    Syntax { column: usize },
    /// An operand of the wrong type, or a body that is not of the wanted type.
    WrongType,
    /// A name that is no parameter, and no method or constant of `Math` and `Long`.
    UnknownName,
    /// More than 4,096 tokens, an expression deeper than 64, or a stream of more than 64 operands.
    TooDeep,
    /// A number above 2^63 - 1; 2^63 may stand directly after a unary minus.
    LiteralTooLarge,
    /// An allocation failed.
    NoMemory,
}

impl Display for ReadFault {
    ghost output = { λ fault. Some (read_fault_text fault) };

    fn fmt<W: Write>(&self, f: &mut Formatter<W>) -> fmt::Result {
        match self {
            ReadFault::Syntax { column } => write!(f, "expression syntax at column {column}"),
            ReadFault::WrongType => f.write_str("wrong type"),
            ReadFault::UnknownName => f.write_str("unknown name"),
            ReadFault::TooDeep => f.write_str("too deep"),
            ReadFault::LiteralTooLarge => f.write_str("literal too large"),
            ReadFault::NoMemory => f.write_str("out of memory"),
        }
    }
}

impl From<AllocError> for ReadFault {
    ghost from_gives = { λ _ fault. fault ≡ NoMemory };

    fn from(_error: AllocError) -> ReadFault {
        ReadFault::NoMemory
    }
}

impl<T: Drop> From<AllocFailed<T>> for ReadFault {
    ghost from_gives = { λ _ fault. fault ≡ NoMemory };

    fn from(_error: AllocFailed<T>) -> ReadFault {
        ReadFault::NoMemory
    }
}
