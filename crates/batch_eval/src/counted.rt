//! Expressions over numbers that count up: their first operators read no register. A chain of sums, differences and
//! products with numbers is one loop, which adds a step at each lane.

ghost use Rattle.batch_eval.specs.Batches.{counted_item, going_up};
ghost use Rattle.batch_eval.specs.Lanes.{Reaches, at, step_value};
ghost use Rattle.lambda_values.specs.Operators.{binary_value};
ghost use Rattle.lambda_values.specs.Term.{long_of};
ghost use Rattle.lambda_values.specs.Value.{long_value};
ghost use Rattle.lambda_values.specs.Wrap.{wrap};
ghost use Rattle.std.specs.Prelude.{◌≡◌, ◌≤◌, ◌+ℤ◌, ℕ, IfSome, Ok, length, pos};

use crate::constant::number_in;
use crate::dispatch::{by_infix, has_shorter_way};
use crate::kernel::{Add, And, Infix, Multiply, Subtract, Xor};
use crate::lanes::{Counting, Number};
use crate::listing::list_numbers;
use crate::multiply::{MultiplyByHalf, is_half};
use crate::operands::{Beside, Held, Step, by_step};
use crate::reached::{Reached, all};
use crate::step::{last_step, no_step};
use lambda_values::{BinaryOperator, Env, LongExpr};

/// The most operators of a progression: a limit, so that a long chain isn't gone through again for each operator.
const OPERATORS_OF_PROGRESSION: u32 = 8;

/// Numbers that go up by a step: the first one, and the step.
#[derive(Clone, Copy)]
struct Progression {
    first: i64,
    by: i64,
}

impl Progression {
    /// What an operator by a number makes of the numbers, if they still go up by a step.
    fn then(self, operator: BinaryOperator, y: i64) -> Option<Progression>
        ensures { IfSome result (λ numbers. (k : ℕ) → binary_value operator (going_up self.first self.by k) y
            ≡ Ok (going_up numbers.first numbers.by k)) }
    {
        match operator {
            BinaryOperator::Add => Some(Progression {
                first: self.first.wrapping_add(y),
                by: self.by,
            }),
            BinaryOperator::Subtract => Some(Progression {
                first: self.first.wrapping_sub(y),
                by: self.by,
            }),
            BinaryOperator::Multiply => Some(Progression {
                first: self.first.wrapping_mul(y),
                by: self.by.wrapping_mul(y),
            }),
            _ => None,
        }
    }
}

/// Whether numbers that go up by a step still do after an operator by a number. It is asked before operands are looked
/// at.
fn keeps_step(operator: BinaryOperator) -> bool {
    matches!(
        operator,
        BinaryOperator::Add | BinaryOperator::Subtract | BinaryOperator::Multiply
    )
}

/// The values of an expression over numbers that count up from this one, if they go up by a step: those of up to
/// `most` operators by numbers.
fn progression_of(expr: &LongExpr, env: &Env, first: i64, most: u32) -> Option<Progression>
    ensures { IfSome result (λ numbers. (origin k : ℕ) → long_value (long_of expr.now)
        (counted_item origin first k) env.now ≡ Ok (going_up numbers.first numbers.by k)) }
{
    if let LongExpr::Parameter(_) = expr {
        return Some(Progression { first, by: 1 });
    }
    let LongExpr::Binary(operator, pair) = expr else {
        return None;
    };
    if !keeps_step(*operator) {
        return None;
    }
    let y = number_in(&pair.right, env)?;
    let numbers = progression_of(&pair.left, env, first, most.checked_sub(1)?)?;
    numbers.then(*operator, y)
}

/// Puts the values of an expression over numbers that count up from this one, at places that count up, into a register,
/// up to the first fault. It is for a chain of operators by numbers. For other expressions the register isn't to be
/// read.
pub(crate) fn eval_counted(
    expr: &LongExpr,
    env: &Env,
    origin: u64,
    first: i64,
    live: usize,
    out: &mut [i64],
) -> Option<Reached>
    requires lanes { live ≤ 1024 }
    requires out { live ≤ length out.old }
    ensures { IfSome result (λ reached. Reaches
        (λ k. long_value (long_of expr.now) (counted_item origin first k) env.now) (at out.new) live reached) }
{
    if let Some(numbers) = progression_of(expr, env, first, OPERATORS_OF_PROGRESSION) {
        list_numbers(numbers.first, numbers.by, live, out);
        return Some(all(live));
    }
    let LongExpr::Binary(operator, pair) = expr else {
        return None;
    };
    let y = number_in(&pair.right, env)?;
    let op = Infix::Compute(*operator);
    let last = if has_shorter_way(op) {
        no_step(&pair.left)
    } else {
        last_step(&pair.left, env)
    };
    if let LongExpr::Parameter(_) = last.of {
        return by_counted(*operator, Counting(first), last.step, y, live, out);
    }
    let before = eval_counted(last.of, env, origin, first, live, out)?;
    let beside = Beside::Number(last.step, y);
    Some(by_infix(op, Held::Out, beside, before.live, out).after(before))
}

/// An operator between numbers that count up, after a step, and a number, if there is a loop for it.
fn by_counted(
    operator: BinaryOperator,
    a: Counting,
    step: Step,
    y: i64,
    live: usize,
    out: &mut [i64],
) -> Option<Reached>
    requires lanes { live ≤ 1024 }
    requires out { live ≤ length out.old }
    ensures { IfSome result (λ reached. Reaches (λ k. binary_value operator (step_value step (wrap (a.0 +ℤ pos k))) y)
        (at out.new) live reached) }
{
    let b = Number(y);
    Some(match operator {
        BinaryOperator::Add => by_step::<Add, Counting, Number>(a, step, b, live, out),
        BinaryOperator::Subtract => by_step::<Subtract, Counting, Number>(a, step, b, live, out),
        BinaryOperator::Multiply if is_half(y) => {
            by_step::<MultiplyByHalf, Counting, Number>(a, step, b, live, out)
        }
        BinaryOperator::Multiply => by_step::<Multiply, Counting, Number>(a, step, b, live, out),
        BinaryOperator::And => by_step::<And, Counting, Number>(a, step, b, live, out),
        BinaryOperator::Xor => by_step::<Xor, Counting, Number>(a, step, b, live, out),
        _ => return None,
    })
}
