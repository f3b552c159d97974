//! The expression of a lambda, built from its steps.

ghost use Rattle.lambda_expr.specs.Elaborating.{operands_of, top_typed, typed_of, typed_step, typed_steps};
ghost use Rattle.lambda_expr.specs.Lexemes.{names_in};
ghost use Rattle.lambda_expr.specs.Stacks.{below, stacked};
ghost use Rattle.lambda_expr.specs.Typing.{Typed as shape_type, called_with, long, operated, prefixed, selected};
ghost use Rattle.lambda_values.specs.Term.{long_of};
ghost use Rattle.std.specs.Prelude.{◌≡◌, IfOk, List, [], ◌∷◌, ◌++◌};

use crate::making::{
    binary, cell, choose_long, choose_truth, compare, connect, decimal_cell, number, reference,
    unary,
};
use crate::operation::{Function, SignOperation};
use crate::sign::Sign;
use crate::step::{Opening, ParseStep};
use crate::table::{constant_of, function_of};
use lambda_values::{
    BoolChoice, BoolExpr, BoolPair, LongChoice, LongExpr, LongPair, UnaryOperator,
};
use std::alloc::{AllocError, Global};
use stream_tokens::CutText;

/// What the steps so far have made of an operand.
#[derive(Drop)]
pub(crate) enum TypedOperand {
    Long(LongExpr),
    Truth(BoolExpr),
    /// Two operands that a comma separates.
    Longs(LongPair),
    /// An operand was of the wrong type.
    Untyped,
}

/// An operand, or an allocation failed.
pub(crate) type Elaborated = Result<TypedOperand, AllocError>;

/// The operand on top, or none of any type.
fn pop(stack: &mut Vec<TypedOperand>) -> TypedOperand
    ensures { (ts : List shape_type) → operands_of stack.old.items ≡ stacked ts
        → (typed_of result ≡ top_typed ts) × (operands_of stack.new.items ≡ stacked (below ts)) }
{
    match stack.pop() {
        Some(operand) => operand,
        None => TypedOperand::Untyped,
    }
}

/// A sign before an operand.
fn prefix(alloc: Global, sign: Sign, operand: TypedOperand) -> Elaborated
    ensures { IfOk result (λ o. typed_of o ≡ prefixed sign (typed_of operand)) }
{
    match operand {
        TypedOperand::Long(operand) => match sign {
            Sign::Subtract => unary(alloc, UnaryOperator::Negate, operand),
            Sign::Add => Ok(TypedOperand::Long(operand)),
            Sign::Complement => unary(alloc, UnaryOperator::Complement, operand),
            _ => Ok(TypedOperand::Untyped),
        },
        TypedOperand::Truth(operand) => match sign {
            Sign::Not => Ok(TypedOperand::Truth(BoolExpr::Not(Box::new(alloc, operand)?))),
            _ => Ok(TypedOperand::Untyped),
        },
        _ => Ok(TypedOperand::Untyped),
    }
}

/// Two numbers, and what stands between them.
fn on_longs(alloc: Global, operation: SignOperation, pair: LongPair) -> Elaborated
    ensures { IfOk result (λ o. typed_of o
        ≡ operated (long (long_of pair.left)) (long (long_of pair.right)) operation) }
{
    match operation {
        SignOperation::Compute(operator) => binary(alloc, operator, pair),
        SignOperation::Compare(comparison) => compare(alloc, comparison, pair),
        SignOperation::Separate => Ok(TypedOperand::Longs(pair)),
        _ => Ok(TypedOperand::Untyped),
    }
}

/// Two operands, and what stands between them.
fn operate(
    alloc: Global,
    operation: SignOperation,
    left: TypedOperand,
    right: TypedOperand,
) -> Elaborated
    ensures { IfOk result (λ o. typed_of o ≡ operated (typed_of left) (typed_of right) operation) }
{
    match left {
        TypedOperand::Long(left) => match right {
            TypedOperand::Long(right) => on_longs(alloc, operation, LongPair { left, right }),
            _ => Ok(TypedOperand::Untyped),
        },
        TypedOperand::Truth(left) => match right {
            TypedOperand::Truth(right) => match operation {
                SignOperation::Connect(connective) => {
                    connect(alloc, connective, BoolPair { left, right })
                }
                _ => Ok(TypedOperand::Untyped),
            },
            _ => Ok(TypedOperand::Untyped),
        },
        _ => Ok(TypedOperand::Untyped),
    }
}

/// `c ? p : q`.
fn select(
    alloc: Global,
    condition: TypedOperand,
    chosen: TypedOperand,
    other: TypedOperand,
) -> Elaborated
    ensures { IfOk result (λ o. typed_of o
        ≡ selected (typed_of condition) (typed_of chosen) (typed_of other)) }
{
    let TypedOperand::Truth(condition) = condition else {
        return Ok(TypedOperand::Untyped);
    };
    match chosen {
        TypedOperand::Long(chosen) => match other {
            TypedOperand::Long(other) => choose_long(
                alloc,
                LongChoice {
                    condition,
                    chosen,
                    other,
                },
            ),
            _ => Ok(TypedOperand::Untyped),
        },
        TypedOperand::Truth(chosen) => match other {
            TypedOperand::Truth(other) => choose_truth(
                alloc,
                BoolChoice {
                    condition,
                    chosen,
                    other,
                },
            ),
            _ => Ok(TypedOperand::Untyped),
        },
        _ => Ok(TypedOperand::Untyped),
    }
}

/// A method and its operands.
fn call(alloc: Global, function: Option<Function>, operand: TypedOperand) -> Elaborated
    ensures { IfOk result (λ o. typed_of o ≡ called_with function (typed_of operand)) }
{
    match (function, operand) {
        (Some(Function::Unary(operator)), TypedOperand::Long(operand)) => unary(
            alloc, operator, operand,
        ),
        (Some(Function::Binary(operator)), TypedOperand::Longs(pair)) => {
            binary(alloc, operator, pair)
        }
        _ => Ok(TypedOperand::Untyped),
    }
}

/// What a step makes of the operands on top.
fn follow(
    alloc: Global,
    text: &CutText,
    stack: &mut Vec<TypedOperand>,
    step: ParseStep,
) -> Elaborated
    ensures { (ts : List shape_type) → operands_of stack.old.items ≡ stacked ts
        → IfOk result (λ o. operands_of stack.new.items ++ typed_of o ∷ []
        ≡ stacked (typed_step (names_in text.now.bytes text.now.tokens) step ts)) }
{
    match step {
        ParseStep::Name(name) => Ok(TypedOperand::Long(LongExpr::Parameter(name.number))),
        ParseStep::Reference(place) => reference(alloc, text, place),
        ParseStep::Cell(place) => cell(alloc, text, place),
        ParseStep::DecimalCell(place, places) => decimal_cell(alloc, text, place, places),
        ParseStep::Row => Ok(TypedOperand::Long(LongExpr::Row)),
        ParseStep::Number(numeral) => Ok(number(numeral.value())),
        ParseStep::Truth(value) => Ok(TypedOperand::Truth(BoolExpr::Literal(value))),
        ParseStep::Constant(name) => match constant_of(name) {
            Some(value) => Ok(TypedOperand::Long(LongExpr::Number(value))),
            None => Ok(TypedOperand::Untyped),
        },
        ParseStep::Prefix(sign) => {
            let operand = pop(stack);
            prefix(alloc, sign, operand)
        }
        ParseStep::Binary(sign) => {
            let right = pop(stack);
            let left = pop(stack);
            operate(alloc, sign.operation(), left, right)
        }
        ParseStep::Ternary => {
            let other = pop(stack);
            let chosen = pop(stack);
            let condition = pop(stack);
            select(alloc, condition, chosen, other)
        }
        ParseStep::Enclose(Opening::Paren) => Ok(pop(stack)),
        ParseStep::Enclose(Opening::Call(owner, name)) => {
            let operand = pop(stack);
            call(alloc, function_of(owner, name), operand)
        }
    }
}

/// The expression that steps in postfix order give.
pub(crate) fn elaborate(alloc: Global, text: &CutText, steps: &[ParseStep]) -> Elaborated
    ensures { IfOk result (λ o. typed_of o
        ≡ top_typed (typed_steps (names_in text.now.bytes text.now.tokens) [] steps.now)) }
{
    let mut stack = Vec::new(alloc);
    for step in steps {
        let operand = follow(alloc, text, &mut stack, *step)?;
        stack.push(operand)?;
    }
    Ok(pop(&mut stack))
}
