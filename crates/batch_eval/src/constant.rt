//! Operands that are numbers.

ghost use Rattle.lambda_values.specs.Earlier.{Numbers};
ghost use Rattle.lambda_values.specs.Operators.{on, unary_value};
ghost use Rattle.lambda_values.specs.Term.{long_of};
ghost use Rattle.lambda_values.specs.declared.item.Item.{Item};
ghost use Rattle.lambda_values.specs.Value.{long_value};
ghost use Rattle.std.specs.Prelude.{◌≡◌, IfSome, Ok};

use lambda_values::{Env, LongExpr, UnaryOperator};

/// The number of an operator on a number, if it has no fault.
fn applied(operator: UnaryOperator, operand: &LongExpr) -> Option<i64>
    ensures { IfSome result (λ z. (x : Item) (env : Numbers)
        → on (long_value (long_of operand.now) x env) (λ v. unary_value operator v) ≡ Ok z) }
{
    match operand {
        LongExpr::Number(number) => match operator.apply(*number) {
            Ok(value) => Some(value),
            Err(_) => None,
        },
        _ => None,
    }
}

/// The number of an expression that is one, with an operator before it or without: `-7` is a minus and a number.
pub(crate) fn constant_in(expr: &LongExpr) -> Option<i64>
    ensures { IfSome result (λ z. (x : Item) (env : Numbers) → long_value (long_of expr.now) x env ≡ Ok z) }
{
    match expr {
        LongExpr::Number(number) => Some(*number),
        LongExpr::Unary(operator, operand) => applied(*operator, operand),
        _ => None,
    }
}

/// The number of a constant expression or of the earlier job that the expression names.
pub(crate) fn number_in(expr: &LongExpr, env: &Env) -> Option<i64>
    ensures { IfSome result (λ z. (x : Item) → long_value (long_of expr.now) x env.now ≡ Ok z) }
{
    match expr {
        LongExpr::Reference(name) => Some(env.number(name.as_slice()).unwrap_or(0)),
        _ => constant_in(expr),
    }
}
