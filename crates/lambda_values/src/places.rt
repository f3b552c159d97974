//! Whether an expression looks at the place of the item.

ghost use Rattle.lambda_values.specs.Earlier.{Numbers};
ghost use Rattle.lambda_values.specs.Places.{each_is_placeless, inner_is_placeless};
ghost use Rattle.lambda_values.specs.Places.{long_is_placeless, truth_is_placeless};
ghost use Rattle.lambda_values.specs.Streams.{Inner, exprs_of, inner_of, inner_value};
ghost use Rattle.lambda_values.specs.Term.{Long, Truth, long_of, truth_of};
ghost use Rattle.lambda_values.specs.Value.{long_value, truth_value};
ghost use Rattle.lambda_values.specs.declared.item.Item.{Item};
ghost use Rattle.std.specs.Prelude.{◌≡◌, true};

use crate::expr::{BoolExpr, LongExpr};
use crate::inner::InnerExpr;

impl LongExpr {
    /// Whether there is neither `cell` nor `row` in it. One call for each node.
    #[cycle(places)]
    pub fn is_placeless(&self) -> bool
        ensures { result ≡ long_is_placeless (long_of self.now) }
    {
        match self {
            LongExpr::Number(_) | LongExpr::Parameter(_) | LongExpr::Reference(_) => true,
            LongExpr::Cell(_) | LongExpr::Row => false,
            LongExpr::Unary(_, operand) => operand.is_placeless(),
            LongExpr::Binary(_, pair) => pair.left.is_placeless() && pair.right.is_placeless(),
            LongExpr::Choose(choice) => {
                choice.condition.is_placeless()
                    && (choice.chosen.is_placeless() && choice.other.is_placeless())
            }
        }
    }
}

impl BoolExpr {
    /// Whether there is neither `cell` nor `row` in it. One call for each node.
    #[cycle(places)]
    pub fn is_placeless(&self) -> bool
        ensures { result ≡ truth_is_placeless (truth_of self.now) }
    {
        match self {
            BoolExpr::Literal(_) => true,
            BoolExpr::Compare(_, pair) => pair.left.is_placeless() && pair.right.is_placeless(),
            BoolExpr::Not(operand) => operand.is_placeless(),
            BoolExpr::Connect(_, pair) => pair.left.is_placeless() && pair.right.is_placeless(),
            BoolExpr::Choose(choice) => {
                choice.condition.is_placeless()
                    && (choice.chosen.is_placeless() && choice.other.is_placeless())
            }
        }
    }
}

/// Whether there is neither `cell` nor `row` in an expression of a list.
fn are_placeless(exprs: &[LongExpr]) -> bool
    ensures { result ≡ each_is_placeless (exprs_of exprs.now) }
{
    for expr in exprs {
        if !expr.is_placeless() {
            return false;
        }
    }
    true
}

impl InnerExpr {
    /// Whether there is neither `cell` nor `row` in its operands. One call for each node.
    pub fn is_placeless(&self) -> bool
        ensures { result ≡ inner_is_placeless (inner_of self.now) }
    {
        match self {
            InnerExpr::Range(from, to) => from.is_placeless() && to.is_placeless(),
            InnerExpr::RangeClosed(from, to) => from.is_placeless() && to.is_placeless(),
            InnerExpr::Of(operands) => are_placeless(operands.exprs()),
        }
    }
}

/// What an expression without `cell` and `row` gives doesn't depend on the place of the item, nor on the table.
pub fn values_decide()
    ensures number { (e : Long) (x y : Item) (a b : Numbers) → x.value ≡ y.value → a.earlier ≡ b.earlier →
        long_is_placeless e ≡ true → long_value e x a ≡ long_value e y b }
    ensures boolean { (e : Truth) (x y : Item) (a b : Numbers) → x.value ≡ y.value → a.earlier ≡ b.earlier →
        truth_is_placeless e ≡ true → truth_value e x a ≡ truth_value e y b }
    ensures stream { (g : Inner) (x y : Item) (a b : Numbers) → x.value ≡ y.value → a.earlier ≡ b.earlier →
        inner_is_placeless g ≡ true → inner_value g x a ≡ inner_value g y b }
{}
