//! What an expression is refused for, types aside: one pass over its steps.

ghost use Rattle.lambda_expr.specs.Checks.{fit, is_known, signed};
ghost use Rattle.lambda_expr.specs.PairForms.{binary_form, enclosed_form, method_form, name_form};
ghost use Rattle.lambda_expr.specs.PairForms.{sign_form, whole_form};
ghost use Rattle.lambda_expr.specs.Stacks.{below, stacked};
ghost use Rattle.lambda_expr.specs.Summaries.{binary_summary, deeper, enclosed_summary, prefix_summary};
ghost use Rattle.lambda_expr.specs.Summaries.{summary_step, summary_steps, ternary_summary, top_summary};
ghost use Rattle.lambda_expr.specs.declared.check.Summary.{Summary as found};
ghost use Rattle.std.specs.Prelude.{◌≡◌, IfOk, List, [], ◌∷◌, ◌++◌};

use crate::operation::Function;
use crate::sign::Sign;
use crate::step::{Opening, ParseStep};
use crate::table::{constant_of, function_of};
use lambda_values::{BinaryOperator, PairForm};
use std::alloc::{AllocError, Global};

/// How deep an expression may be.
pub(crate) const MAX_DEPTH: u32 = 64;

/// 2^63: the least number that is too large, but may stand directly after a minus.
const TOO_LARGE: u64 = 1 << 63;

/// The numbers of an expression.
#[derive(Clone, Copy)]
pub(crate) enum Literals {
    /// The expression is this number.
    Number(u64),
    /// Whether the numbers fit.
    Fit(bool),
}

/// What an expression is of two parameters.
#[derive(Clone, Copy)]
pub(crate) enum BodyForm {
    /// The two of them as the operands of a call.
    Operands,
    Single(PairForm),
}

/// What the checks find in an expression.
#[derive(Clone, Copy)]
pub(crate) struct Summary {
    pub(crate) literals: Literals,
    /// The depth of the expression, at most 65.
    pub(crate) depth: u32,
    /// Whether each name is the name of a parameter, a method or a constant.
    pub(crate) known: bool,
    pub(crate) form: BodyForm,
}

/// What the checks find in an operand that is a word.
pub(crate) const NOTHING: Summary = Summary {
    literals: Literals::Fit(true),
    depth: 1,
    known: true,
    form: BodyForm::Single(PairForm::Other),
};

/// A name by itself.
fn name_form(number: usize) -> BodyForm
    ensures { result ≡ name_form number }
{
    match number {
        0 => BodyForm::Single(PairForm::First),
        1 => BodyForm::Single(PairForm::Second),
        _ => BodyForm::Single(PairForm::Other),
    }
}

/// A sign between the two parameters.
fn sign_form(sign: Sign) -> BodyForm
    ensures { result ≡ sign_form sign }
{
    match sign {
        Sign::Comma => BodyForm::Operands,
        Sign::Add => BodyForm::Single(PairForm::Sum),
        Sign::Multiply => BodyForm::Single(PairForm::Product),
        Sign::BitAnd => BodyForm::Single(PairForm::And),
        Sign::BitOr => BodyForm::Single(PairForm::Or),
        Sign::BitXor => BodyForm::Single(PairForm::Xor),
        _ => BodyForm::Single(PairForm::Other),
    }
}

fn binary_form(sign: Sign, left: BodyForm, right: BodyForm) -> BodyForm
    ensures { result ≡ binary_form sign left right }
{
    match (left, right) {
        (BodyForm::Single(PairForm::First), BodyForm::Single(PairForm::Second)) => sign_form(sign),
        _ => BodyForm::Single(PairForm::Other),
    }
}

/// A method of the two parameters.
fn method_form(function: Option<Function>) -> BodyForm
    ensures { result ≡ method_form function }
{
    match function {
        Some(Function::Binary(BinaryOperator::Add)) => BodyForm::Single(PairForm::Sum),
        Some(Function::Binary(BinaryOperator::Min)) => BodyForm::Single(PairForm::Min),
        Some(Function::Binary(BinaryOperator::Max)) => BodyForm::Single(PairForm::Max),
        Some(Function::Binary(BinaryOperator::AddExact)) => BodyForm::Single(PairForm::ExactSum),
        _ => BodyForm::Single(PairForm::Other),
    }
}

fn enclosed_form(opening: Opening, operand: BodyForm) -> BodyForm
    ensures { result ≡ enclosed_form opening operand }
{
    match (opening, operand) {
        (Opening::Paren, _) => operand,
        (Opening::Call(owner, name), BodyForm::Operands) => method_form(function_of(owner, name)),
        (Opening::Call(_, _), BodyForm::Single(_)) => BodyForm::Single(PairForm::Other),
    }
}

impl BodyForm {
    /// The form of an expression; operands alone are none.
    pub(crate) fn whole(self) -> PairForm
        ensures { result ≡ whole_form self }
    {
        match self {
            BodyForm::Operands => PairForm::Other,
            BodyForm::Single(form) => form,
        }
    }
}

impl Literals {
    /// Whether the numbers fit into 64 bits.
    pub(crate) fn fit(self) -> bool
        ensures { result ≡ fit self }
    {
        match self {
            Literals::Number(value) => value < TOO_LARGE,
            Literals::Fit(fit) => fit,
        }
    }

    /// The numbers after a sign.
    fn signed(self, sign: Sign) -> Literals
        ensures { result ≡ signed sign self }
    {
        match (sign, self) {
            (Sign::Subtract, Literals::Number(value)) => Literals::Fit(value <= TOO_LARGE),
            _ => Literals::Fit(self.fit()),
        }
    }
}

/// One more, up to 65.
fn deeper(depth: u32) -> u32
    ensures { result ≡ deeper depth }
{
    depth.min(64) + 1
}

fn pop(stack: &mut Vec<Summary>) -> Summary
    ensures { (ss : List found) → stack.old.items ≡ stacked ss
        → (result ≡ top_summary ss) × (stack.new.items ≡ stacked (below ss)) }
{
    stack.pop().unwrap_or(NOTHING)
}

fn prefix(sign: Sign, operand: Summary) -> Summary
    ensures { result ≡ prefix_summary sign operand }
{
    Summary {
        literals: operand.literals.signed(sign),
        depth: deeper(operand.depth),
        known: operand.known,
        form: BodyForm::Single(PairForm::Other),
    }
}

/// What the checks find in two operands and the sign between them.
pub(crate) fn binary(sign: Sign, left: Summary, right: Summary) -> Summary
    ensures { result ≡ binary_summary sign left right }
{
    let depth = left.depth.max(right.depth);
    Summary {
        literals: Literals::Fit(left.literals.fit() && right.literals.fit()),
        depth: if matches!(sign, Sign::Comma) {
            depth
        } else {
            deeper(depth)
        },
        known: left.known && right.known,
        form: binary_form(sign, left.form, right.form),
    }
}

fn ternary(condition: Summary, chosen: Summary, other: Summary) -> Summary
    ensures { result ≡ ternary_summary condition chosen other }
{
    Summary {
        literals: Literals::Fit(
            condition.literals.fit() && (chosen.literals.fit() && other.literals.fit()),
        ),
        depth: deeper(condition.depth.max(chosen.depth.max(other.depth))),
        known: condition.known && (chosen.known && other.known),
        form: BodyForm::Single(PairForm::Other),
    }
}

/// Whether a call is of a method that there is.
fn is_known(opening: Opening) -> bool
    ensures { result ≡ is_known opening }
{
    match opening {
        Opening::Paren => true,
        Opening::Call(owner, name) => function_of(owner, name).is_some(),
    }
}

fn enclose(opening: Opening, operand: Summary) -> Summary
    ensures { result ≡ enclosed_summary opening operand }
{
    Summary {
        literals: Literals::Fit(operand.literals.fit()),
        depth: deeper(operand.depth),
        known: is_known(opening) && operand.known,
        form: enclosed_form(opening, operand.form),
    }
}

/// What a step makes of the operands on top.
fn follow(stack: &mut Vec<Summary>, parameters: usize, step: ParseStep) -> Summary
    ensures { (ss : List found) → stack.old.items ≡ stacked ss
        → stack.new.items ++ result ∷ [] ≡ stacked (summary_step parameters step ss) }
{
    match step {
        ParseStep::Name(name) => Summary {
            known: name.number < parameters,
            form: name_form(name.number),
            ..NOTHING
        },
        ParseStep::Number(number) => Summary {
            literals: Literals::Number(number.value()),
            ..NOTHING
        },
        ParseStep::Truth(_)
        | ParseStep::Reference(_)
        | ParseStep::Cell(_)
        | ParseStep::DecimalCell(_, _)
        | ParseStep::Row => NOTHING,
        ParseStep::Constant(name) => Summary {
            known: constant_of(name).is_some(),
            ..NOTHING
        },
        ParseStep::Prefix(sign) => prefix(sign, pop(stack)),
        ParseStep::Binary(sign) => {
            let right = pop(stack);
            let left = pop(stack);
            binary(sign, left, right)
        }
        ParseStep::Ternary => {
            let other = pop(stack);
            let chosen = pop(stack);
            let condition = pop(stack);
            ternary(condition, chosen, other)
        }
        ParseStep::Enclose(opening) => enclose(opening, pop(stack)),
    }
}

/// What the checks find in the expression that steps in postfix order give.
pub(crate) fn summarize(
    alloc: Global,
    parameters: usize,
    steps: &[ParseStep],
) -> Result<Summary, AllocError>
    ensures { IfOk result (λ summary. summary ≡ top_summary (summary_steps parameters [] steps.now)) }
{
    let mut stack = Vec::new(alloc);
    for step in steps {
        let summary = follow(&mut stack, parameters, *step);
        stack.push(summary)?;
    }
    Ok(pop(&mut stack))
}
