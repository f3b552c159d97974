//! What operators make of operands of the right types, and the operands that are single words.

ghost use Rattle.lambda_expr.specs.Elaborating.{typed_of};
ghost use Rattle.lambda_expr.specs.Lexemes.{names_in};
ghost use Rattle.lambda_values.specs.Term as term;
ghost use Rattle.lambda_values.specs.Term.{long_of, truth_of};
ghost use Rattle.lambda_expr.specs.Typing.{long, boolean};
ghost use Rattle.lambda_values.specs.Wrap.{wrap};
ghost use Rattle.job_names.specs.ColumnKeys.{key_of};
ghost use Rattle.std.specs.Prelude.{◌≡◌, IfOk, pos};

use crate::elaborate::{Elaborated, TypedOperand};
use crate::lexeme::reference_name;
use job_names::key_of;
use lambda_values::{
    BinaryOperator, BoolChoice, BoolExpr, BoolPair, Comparison, Connective, LongChoice, LongExpr,
    LongPair, UnaryOperator,
};
use std::alloc::Global;
use stream_tokens::{Bytes, CutText};

/// An operator before a number, or a method of one.
pub(crate) fn unary(alloc: Global, operator: UnaryOperator, operand: LongExpr) -> Elaborated
    ensures { IfOk result (λ o. typed_of o ≡ long (term.unary operator (long_of operand))) }
{
    Ok(TypedOperand::Long(LongExpr::Unary(operator, Box::new(alloc, operand)?)))
}

/// An operator between two numbers, or a method of two.
pub(crate) fn binary(alloc: Global, operator: BinaryOperator, pair: LongPair) -> Elaborated
    ensures { IfOk result (λ o. typed_of o ≡ long (term.binary operator (long_of pair.left) (long_of pair.right))) }
{
    Ok(TypedOperand::Long(LongExpr::Binary(operator, Box::new(alloc, pair)?)))
}

/// A comparison of two numbers.
pub(crate) fn compare(alloc: Global, comparison: Comparison, pair: LongPair) -> Elaborated
    ensures { IfOk result (λ o. typed_of o
        ≡ boolean (term.compare comparison (long_of pair.left) (long_of pair.right))) }
{
    Ok(TypedOperand::Truth(BoolExpr::Compare(comparison, Box::new(alloc, pair)?)))
}

/// `&&` or `||` between two booleans.
pub(crate) fn connect(alloc: Global, connective: Connective, pair: BoolPair) -> Elaborated
    ensures { IfOk result (λ o. typed_of o
        ≡ boolean (term.connect connective (truth_of pair.left) (truth_of pair.right))) }
{
    Ok(TypedOperand::Truth(BoolExpr::Connect(connective, Box::new(alloc, pair)?)))
}

/// `c ? p : q` for two numbers.
pub(crate) fn choose_long(alloc: Global, choice: LongChoice) -> Elaborated
    ensures { IfOk result (λ o. typed_of o
        ≡ long (term.choose (truth_of choice.condition) (long_of choice.chosen) (long_of choice.other))) }
{
    Ok(TypedOperand::Long(LongExpr::Choose(Box::new(alloc, choice)?)))
}

/// `c ? p : q` for two booleans.
pub(crate) fn choose_truth(alloc: Global, choice: BoolChoice) -> Elaborated
    ensures { IfOk result (λ o. typed_of o
        ≡ boolean (term.choose_truth (truth_of choice.condition) (truth_of choice.chosen) (truth_of choice.other))) }
{
    Ok(TypedOperand::Truth(BoolExpr::Choose(Box::new(alloc, choice)?)))
}

/// A number that fits, or 2^63, which is its own negative in 64 bits.
pub(crate) fn number(value: u64) -> TypedOperand
    ensures { typed_of result ≡ long (term.number (wrap (pos value))) }
{
    TypedOperand::Long(LongExpr::Number(value.cast_signed()))
}

/// The reference at a place, by its name without the `$`.
pub(crate) fn reference(alloc: Global, text: &CutText, place: usize) -> Elaborated
    ensures { IfOk result (λ o. typed_of o ≡ long (term.reference (names_in text.now.bytes text.now.tokens place))) }
{
    let name = Bytes::from(Vec::from_slice(alloc, reference_name(text, place))?);
    Ok(TypedOperand::Long(LongExpr::Reference(Box::new(alloc, name)?)))
}

/// The cell of the column that the string at a place names.
pub(crate) fn cell(alloc: Global, text: &CutText, place: usize) -> Elaborated
    ensures { IfOk result (λ o. typed_of o ≡ long (term.cell (names_in text.now.bytes text.now.tokens place))) }
{
    let name = Bytes::from(Vec::from_slice(alloc, reference_name(text, place))?);
    Ok(TypedOperand::Long(LongExpr::Cell(Box::new(alloc, name)?)))
}

/// The cell of the column that the string at a place names, with this number of decimal places.
pub(crate) fn decimal_cell(alloc: Global, text: &CutText, place: usize, places: u8) -> Elaborated
    ensures { IfOk result (λ o. typed_of o
        ≡ long (term.cell (key_of (names_in text.now.bytes text.now.tokens place) places))) }
{
    let key = Bytes::from(key_of(alloc, reference_name(text, place), places)?);
    Ok(TypedOperand::Long(LongExpr::Cell(Box::new(alloc, key)?)))
}
