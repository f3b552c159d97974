//! Operators by a number that go into the loop of the next operator.

ghost use Rattle.batch_eval.specs.Batches.{holds};
ghost use Rattle.batch_eval.specs.Lanes.{step_value};
ghost use Rattle.batch_eval.specs.NumberTests.{seen_of};
ghost use Rattle.batch_eval.specs.Powers.{power};
ghost use Rattle.batch_eval.specs.Rooms.{Fits, FitsBoth, FitsTest, size};
ghost use Rattle.lambda_values.specs.Operators.{binary_value, comparison_value, on, remainder};
ghost use Rattle.lambda_values.specs.Earlier.{Numbers};
ghost use Rattle.lambda_values.specs.Term.{compare, long_of, truth_of};
ghost use Rattle.lambda_values.specs.declared.expr.BoolExpr.{size-BoolExpr};
ghost use Rattle.lambda_values.specs.declared.item.Item.{Item};
ghost use Rattle.lambda_values.specs.Value.{long_value, truth_value};
ghost use Rattle.std.specs.Ordering.{int_eq};
ghost use Rattle.std.specs.Prelude.{◌≡◌, ◌<◌, ◌≤◌, ℕ, ℤ, not, pos, true, IfSome, Ok};

use crate::constant::number_in;
use crate::multiply::is_half;
use crate::number_test::{NumberTest, Seen};
use crate::operands::Step;
use crate::power::exponent_of;
use lambda_values::{BinaryOperator, BoolExpr, Comparison, Env, LongExpr, LongPair};

/// An expression without its last operator, and that operator as a step; or the whole expression.
#[derive(Clone, Copy)]
pub(crate) struct LastStep<'a> {
    pub(crate) of: &'a LongExpr,
    pub(crate) step: Step,
}

/// The last operator of an expression as a step, if it is one by a number that has no fault.
pub(crate) fn last_step<'a>(expr: &'a LongExpr, env: &Env) -> LastStep<'a>
    ensures value { (x : Item) → long_value (long_of expr.now) x env.now
        ≡ on (long_value (long_of result.of.now) x env.now) (λ v. Ok (step_value result.step v)) }
    ensures room { (room : ℕ) → Fits (long_of expr.now) room → Fits (long_of result.of.now) room }
    ensures size { size result.of.now ≤ size expr.now }
{
    if let LongExpr::Binary(operator, pair) = expr {
        if let Some(number) = number_in(&pair.right, env) {
            if let Some(step) = step_of(*operator, number) {
                return LastStep {
                    of: &pair.left,
                    step,
                };
            }
        }
    }
    no_step(expr)
}

/// The whole expression, with no step after it.
pub(crate) fn no_step(expr: &LongExpr) -> LastStep<'_>
    ensures of { result.of.now ≡ expr.now }
    ensures step { result.step ≡ Step.Stay }
{
    LastStep {
        of: expr,
        step: Step::Stay,
    }
}

/// An operator by a number as a step, if there is one for it.
fn step_of(operator: BinaryOperator, number: i64) -> Option<Step>
    ensures { IfSome result (λ step. (v : ℤ) → binary_value operator v number ≡ Ok (step_value step v)) }
{
    match operator {
        BinaryOperator::Add => Some(Step::Add(number)),
        BinaryOperator::Subtract => Some(Step::Subtract(number)),
        BinaryOperator::Multiply if is_half(number) => Some(Step::MultiplyByHalf(number)),
        BinaryOperator::ShiftLeft => Some(Step::ShiftLeft(number)),
        BinaryOperator::ShiftRight => Some(Step::ShiftRight(number)),
        BinaryOperator::ShiftRightUnsigned => Some(Step::ShiftRightUnsigned(number)),
        BinaryOperator::And => Some(Step::And(number)),
        BinaryOperator::Xor => Some(Step::Xor(number)),
        BinaryOperator::Or => Some(Step::Or(number)),
        _ => None,
    }
}

/// A test as a comparison of an expression with a number, if it compares two expressions and the right one is a
/// number. The expression is without what the comparison doesn't see.
pub(crate) fn compared_with<'a>(test: &'a BoolExpr, env: &Env) -> Option<(&'a LongExpr, NumberTest)>
    ensures value { IfSome result (λ parts. (x : Item) → truth_value (truth_of test.now) x env.now
        ≡ on (long_value (long_of parts.0.now) x env.now) (λ v. Ok (holds parts.1 v))) }
    ensures room { IfSome result (λ parts. (room : ℕ) → FitsTest (truth_of test.now) room
        → Fits (long_of parts.0.now) room) }
{
    let (comparison, pair) = comparison_of(test)?;
    with_number(comparison, pair, env)
}

/// A comparison of two expressions as one with a number, if the right one is a number. The last operator of the left
/// one is what the comparison sees, if it is an `&` with a number, or a `%` by a power of two that is compared with 0;
/// the expression is without it.
pub(crate) fn with_number<'a>(
    comparison: Comparison,
    pair: &'a LongPair,
    env: &Env,
) -> Option<(&'a LongExpr, NumberTest)>
    ensures value { IfSome result (λ parts. (x : Item)
        → truth_value (compare comparison (long_of pair.now.left) (long_of pair.now.right)) x env.now
        ≡ on (long_value (long_of parts.0.now) x env.now) (λ v. Ok (holds parts.1 v))) }
    ensures room { IfSome result (λ parts. (room : ℕ) → Fits (long_of pair.now.left) room
        → Fits (long_of parts.0.now) room) }
    ensures size { IfSome result (λ parts. size parts.0.now ≤ size pair.now.left) }
{
    let number = number_in(&pair.right, env)?;
    let (of, seen) = seen_by(comparison, &pair.left, number, env);
    Some((of, NumberTest::new(seen, comparison, number)?))
}

/// A test as a comparison of two expressions: one with a `!` before it is the opposite comparison.
pub(crate) fn comparison_of(test: &BoolExpr) -> Option<(Comparison, &LongPair)>
    ensures value { IfSome result (λ parts. (x : Item) (env : Numbers) → truth_value (truth_of test.now) x env
        ≡ truth_value (compare parts.0 (long_of parts.1.now.left) (long_of parts.1.now.right)) x env) }
    ensures room { IfSome result (λ parts. (room : ℕ) → FitsTest (truth_of test.now) room
        → FitsBoth (long_of parts.1.now.left) (long_of parts.1.now.right) room) }
    ensures left { IfSome result (λ parts. size parts.1.now.left < size-BoolExpr test.now) }
    ensures right { IfSome result (λ parts. size parts.1.now.right < size-BoolExpr test.now) }
{
    match test {
        BoolExpr::Compare(comparison, pair) => Some((*comparison, pair)),
        BoolExpr::Not(operand) => {
            let (comparison, pair) = comparison_of(operand)?;
            Some((opposite_of(comparison), pair))
        }
        _ => None,
    }
}

/// The comparison that holds where this one doesn't.
fn opposite_of(comparison: Comparison) -> Comparison
    ensures { (v w : ℤ) → comparison_value result v w ≡ not (comparison_value comparison v w) }
{
    match comparison {
        Comparison::Equal => Comparison::NotEqual,
        Comparison::NotEqual => Comparison::Equal,
        Comparison::Less => Comparison::GreaterOrEqual,
        Comparison::LessOrEqual => Comparison::Greater,
        Comparison::Greater => Comparison::LessOrEqual,
        Comparison::GreaterOrEqual => Comparison::Less,
    }
}

/// Whether a comparison may see not all of an expression: an `&` or a `%` comes last.
pub(crate) fn may_be_masked(expr: &LongExpr) -> bool {
    matches!(
        expr,
        LongExpr::Binary(BinaryOperator::And | BinaryOperator::Remainder, _)
    )
}

/// What a comparison with a number sees of an expression, and this without what is seen.
fn seen_by<'a>(
    comparison: Comparison,
    expr: &'a LongExpr,
    number: i64,
    env: &Env,
) -> (&'a LongExpr, Seen)
    ensures value { (x : Item) → on (long_value (long_of expr.now) x env.now)
        (λ v. Ok (comparison_value comparison v number)) ≡ on (long_value (long_of result.0.now) x env.now)
        (λ v. Ok (comparison_value comparison (seen_of result.1 v) number)) }
    ensures room { (room : ℕ) → Fits (long_of expr.now) room → Fits (long_of result.0.now) room }
    ensures size { size result.0.now ≤ size expr.now }
{
    if number == 0 && tells_zero(comparison) {
        if let Some((dividend, exponent)) = rest_by_power(expr, env) {
            return (dividend, Seen::Rest(exponent));
        }
    }
    unmasked(expr, env)
}

/// Whether a comparison with 0 has one answer for all other numbers.
fn tells_zero(comparison: Comparison) -> bool
    ensures { result ≡ true → (v w : ℤ) → int_eq v (pos 0) ≡ int_eq w (pos 0)
        → comparison_value comparison v (pos 0) ≡ comparison_value comparison w (pos 0) }
{
    match comparison {
        Comparison::Equal => true,
        Comparison::NotEqual => true,
        _ => false,
    }
}

/// The dividend and the exponent of a `%` by a power of two.
fn rest_by_power<'a>(expr: &'a LongExpr, env: &Env) -> Option<(&'a LongExpr, i64)>
    ensures value { IfSome result (λ parts. (x : Item) → long_value (long_of expr.now) x env.now
        ≡ on (long_value (long_of parts.0.now) x env.now) (λ v. remainder v (pos (power parts.1)))) }
    ensures room { IfSome result (λ parts. (room : ℕ) → Fits (long_of expr.now) room
        → Fits (long_of parts.0.now) room) }
    ensures size { IfSome result (λ parts. size parts.0.now ≤ size expr.now) }
{
    let LongExpr::Binary(BinaryOperator::Remainder, pair) = expr else {
        return None;
    };
    let divisor = number_in(&pair.right, env)?;
    let exponent = exponent_of(divisor)?;
    Some((&pair.left, exponent))
}

/// An expression without a last `&` with a number, and what that leaves to see; or the whole expression.
fn unmasked<'a>(expr: &'a LongExpr, env: &Env) -> (&'a LongExpr, Seen)
    ensures value { (x : Item) → long_value (long_of expr.now) x env.now
        ≡ on (long_value (long_of result.0.now) x env.now) (λ v. Ok (seen_of result.1 v)) }
    ensures room { (room : ℕ) → Fits (long_of expr.now) room → Fits (long_of result.0.now) room }
    ensures size { size result.0.now ≤ size expr.now }
{
    let LongExpr::Binary(BinaryOperator::And, pair) = expr else {
        return (expr, Seen::All);
    };
    match number_in(&pair.right, env) {
        Some(mask) => (&pair.left, Seen::Masked(mask)),
        None => (expr, Seen::All),
    }
}
