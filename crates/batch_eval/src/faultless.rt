//! What is known of expressions and stages before they are evaluated: which stages are maps, which can't have a fault,
//! and what they cost.
//!
//! A cost is about how many additions take as long. It says how fast a job runs and never what it gives, so no clause
//! here names it.

ghost use Rattle.std.specs.Prelude.{◌≡◌, ℤ, ◌∷◌, [], IfSome, IsTrue, Ok, true};
ghost use Rattle.lambda_values.specs.Earlier.{Numbers};
ghost use Rattle.lambda_values.specs.Operators.{binary_value};
ghost use Rattle.lambda_values.specs.Term.{long_of, truth_of};
ghost use Rattle.lambda_values.specs.Value.{long_value};
ghost use Rattle.lambda_values.specs.declared.item.Item.{Item};
ghost use Rattle.trace.specs.Stages.{stage_of, stages_of};
ghost use Rattle.batch_eval.specs.Faultless.{AreFaultless, AreMaps, HasTruths, HasValues};

use crate::constant::constant_in;
use lambda_values::{BinaryOperator, BoolExpr, Faults, LongExpr};
use trace::Stage;

/// What a division by a number costs.
const DIVISION: u32 = 3;

/// Whether all of these stages are maps.
pub fn are_maps(stages: &[Stage]) -> bool
    ensures { IsTrue result → AreMaps (stages_of stages.now) }
{
    match stages.split_first() {
        None => true,
        Some((Stage::Map(_), later)) => are_maps(later),
        Some((Stage::Filter(_) | Stage::FlatMap(_), _)) => false,
    }
}

/// Whether all of these stages are maps and filters that can't have a fault. It takes time for each operator.
pub fn are_faultless(stages: &[Stage]) -> bool
    ensures { IsTrue result → AreFaultless true (stages_of stages.now) }
{
    after_stages(stages, u32::MAX, true).is_some()
}

/// What stages leave of this cost, if all of them are maps and filters that can't have a fault, and name earlier jobs
/// and columns only if `names` is set.
pub fn after_stages(stages: &[Stage], cost: u32, names: bool) -> Option<u32>
    ensures { IfSome result (λ _. AreFaultless names (stages_of stages.now)) }
{
    match stages.split_first() {
        None => Some(cost),
        Some((stage, later)) => {
            let left = after_stage(stage, cost, names)?;
            after_stages(later, left, names)
        }
    }
}

/// What a stage leaves of this cost, if it is a map or a filter that can't have a fault, and names earlier jobs and
/// columns only if `names` is set.
fn after_stage(stage: &Stage, cost: u32, names: bool) -> Option<u32>
    ensures { IfSome result (λ _. AreFaultless names (stage_of stage.now ∷ [])) }
{
    match stage {
        Stage::Map(image) => after_long(image, cost, names),
        Stage::Filter(test) => after_test(test, cost, names),
        Stage::FlatMap(_) => None,
    }
}

/// What an expression leaves of this cost, if it can't have a fault, and names earlier jobs and columns only if
/// `names` is set.
#[cycle(faultless)]
pub(crate) fn after_long(expr: &LongExpr, cost: u32, names: bool) -> Option<u32>
    ensures { IfSome result (λ _. HasValues names (long_of expr.now)) }
{
    match expr {
        LongExpr::Number(_) => Some(cost),
        LongExpr::Parameter(_) => Some(cost),
        LongExpr::Row => Some(cost),
        LongExpr::Reference(_) if names => Some(cost),
        LongExpr::Cell(_) if names => Some(cost),
        LongExpr::Reference(_) | LongExpr::Cell(_) => None,
        _ => after_operator(expr, cost, names),
    }
}

/// What an expression with an operator leaves of this cost, as `after_long` says. Most operands are the parameter or a
/// number: apart from operators they take no call.
#[cycle(faultless)]
fn after_operator(expr: &LongExpr, cost: u32, names: bool) -> Option<u32>
    ensures { IfSome result (λ _. HasValues names (long_of expr.now)) }
{
    match expr {
        LongExpr::Unary(operator, operand) => match operator.faults() {
            Faults::Never => after_long(operand, cost.checked_sub(1)?, names),
            Faults::ByZero | Faults::Overflow => None,
        },
        LongExpr::Binary(operator, pair) => {
            let own = cost_of(*operator, &pair.right)?;
            let left = after_long(&pair.left, cost.checked_sub(own)?, names)?;
            after_long(&pair.right, left, names)
        }
        LongExpr::Choose(choice) => {
            let left = after_test(&choice.condition, cost.checked_sub(1)?, names)?;
            let left = after_long(&choice.chosen, left, names)?;
            after_long(&choice.other, left, names)
        }
        _ => None,
    }
}

/// What a test leaves of this cost, if it can't have a fault, and names earlier jobs and columns only if `names` is
/// set.
#[cycle(faultless)]
pub(crate) fn after_test(test: &BoolExpr, cost: u32, names: bool) -> Option<u32>
    ensures { IfSome result (λ _. HasTruths names (truth_of test.now)) }
{
    match test {
        BoolExpr::Literal(_) => Some(cost),
        BoolExpr::Compare(_, pair) => {
            let left = after_long(&pair.left, cost.checked_sub(1)?, names)?;
            after_long(&pair.right, left, names)
        }
        BoolExpr::Not(operand) => after_test(operand, cost.checked_sub(1)?, names),
        BoolExpr::Connect(_, pair) => {
            let left = after_test(&pair.left, cost.checked_sub(1)?, names)?;
            after_test(&pair.right, left, names)
        }
        BoolExpr::Choose(choice) => {
            let left = after_test(&choice.condition, cost.checked_sub(1)?, names)?;
            let left = after_test(&choice.chosen, left, names)?;
            after_test(&choice.other, left, names)
        }
    }
}

/// What an operator costs, if it has a value at every left operand, with this right one.
fn cost_of(operator: BinaryOperator, right: &LongExpr) -> Option<u32>
    ensures { IfSome result (λ _. (x : Item) (env : Numbers) (v w : ℤ) → long_value (long_of right.now) x env ≡ Ok w
        → (u : ℤ) × (binary_value operator v w ≡ Ok u)) }
{
    match operator.faults() {
        Faults::Never => Some(operator.additions()),
        Faults::ByZero => match constant_in(right) {
            Some(number) if number != 0 => Some(DIVISION),
            _ => None,
        },
        Faults::Overflow => None,
    }
}
