//! Expressions in postfix order.

use crate::lexeme::{ClassName, Name, Numeral, PlainName};
use crate::sign::Sign;

/// What a closing parenthesis ends.
#[derive(Clone, Copy)]
pub(crate) enum Opening {
    Paren,
    Call(ClassName, Name),
}

/// One step of an expression in postfix order: each operand before what it is an operand of.
#[derive(Clone, Copy)]
pub(crate) enum ParseStep {
    Ternary,
    Name(PlainName),
    Number(Numeral),
    Truth(bool),
    /// A reference, by the place of its token.
    Reference(usize),
    /// A cell, by the place of the string that names its column.
    Cell(usize),
    /// A cell of a column with decimal places, by the place of that string and their number.
    DecimalCell(usize, u8),
    /// The place of the item.
    Row,
    Constant(Name),
    Prefix(Sign),
    Binary(Sign),
    Enclose(Opening),
}
