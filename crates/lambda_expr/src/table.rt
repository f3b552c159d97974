//! The table of what a lambda may name in `Math`, `Long` and `LongStream`: one row for each name.

ghost use Rattle.lambda_expr.specs.Members.{is_named, member_among, member_of, rows_in};
ghost use Rattle.lambda_expr.specs.Typing.{constant_of, function_of};
ghost use Rattle.std.specs.Prelude.{◌≡◌};

use self::Member::{Constant, InBoth, InLong, InMath, Source};
use crate::lexeme::{ClassName, Name};
use crate::operation::Function;
use crate::operation::Function::{Binary, Unary};
use crate::source::StreamSource;
use lambda_values::{BinaryOperator, UnaryOperator};

/// What a name is after `Math .`, `Long .` or `LongStream .`.
#[derive(Clone, Copy)]
pub(crate) enum Member {
    /// A method of `Math` alone.
    InMath(Function),
    /// A method of `Long` alone.
    InLong(Function),
    /// A method of both.
    InBoth(Function),
    /// A constant of `Long`.
    Constant(i64),
    /// What makes a stream.
    Source(StreamSource),
    Other,
}

/// The table: a name, and what it is.
const ROWS: [(&'static str, Member); 16] = [
    ("abs", InMath(Unary(UnaryOperator::Absolute))),
    ("negateExact", InMath(Unary(UnaryOperator::NegateExact))),
    ("floorDiv", InMath(Binary(BinaryOperator::FloorDivide))),
    ("floorMod", InMath(Binary(BinaryOperator::FloorRemainder))),
    ("addExact", InMath(Binary(BinaryOperator::AddExact))),
    (
        "subtractExact",
        InMath(Binary(BinaryOperator::SubtractExact)),
    ),
    (
        "multiplyExact",
        InMath(Binary(BinaryOperator::MultiplyExact)),
    ),
    ("min", InBoth(Binary(BinaryOperator::Min))),
    ("max", InBoth(Binary(BinaryOperator::Max))),
    ("sum", InLong(Binary(BinaryOperator::Add))),
    ("MAX_VALUE", Constant(i64::MAX)),
    ("MIN_VALUE", Constant(i64::MIN)),
    ("empty", Source(StreamSource::Empty)),
    ("of", Source(StreamSource::Of)),
    ("range", Source(StreamSource::Range)),
    ("rangeClosed", Source(StreamSource::RangeClosed)),
];

/// Whether a name is this one. Most names differ in length, so it is compared first.
fn is_named(name: &[u8], known: &str) -> bool
    ensures { result ≡ is_named name.now known.now }
{
    name.len() == known.len() && name == known.as_bytes()
}

/// What the first of these rows with this name says.
fn member_among(rows: &[(&'static str, Member)], name: &[u8]) -> Member
    ensures { result ≡ member_among (rows_in rows.now) name.now }
{
    for (known, member) in rows {
        if is_named(name, known) {
            return *member;
        }
    }
    Member::Other
}

/// What a name is after `Math .`, `Long .` or `LongStream .`.
pub(crate) fn member_of(name: &[u8]) -> Member
    ensures { result ≡ member_of name.now }
{
    member_among(&ROWS, name)
}

/// The method that a name after `Math .` or `Long .` calls.
pub(crate) fn function_of(owner: ClassName, name: Name) -> Option<Function>
    ensures { result ≡ function_of owner name }
{
    match name {
        Name::Plain(name) => match (owner, name.member) {
            (ClassName::Math, InMath(call) | InBoth(call)) => Some(call),
            (ClassName::Long, InLong(call) | InBoth(call)) => Some(call),
            _ => None,
        },
        _ => None,
    }
}

/// The constant of `Long` with this name.
pub(crate) fn constant_of(name: Name) -> Option<i64>
    ensures { result ≡ constant_of name }
{
    match name {
        Name::Plain(name) => match name.member {
            Constant(value) => Some(value),
            _ => None,
        },
        _ => None,
    }
}
