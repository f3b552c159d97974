//! Expressions of a lambda, as they are evaluated for each item.

ghost use Rattle.lambda_values.specs.Term.{long_of, truth_of};
ghost use Rattle.lambda_values.specs.Value.{long_value, truth_value};
ghost use Rattle.std.specs.Prelude.{◌≡◌};

use crate::env::Env;
use crate::fault::FaultKind;
use crate::item::Item;
use crate::operator::{BinaryOperator, Comparison, Connective, UnaryOperator};
use stream_tokens::Bytes;

/// An expression whose value is a number of 64 bits.
#[cycle(ast)]
#[derive(Drop)]
pub enum LongExpr {
    Number(i64),
    /// A parameter by its number: 0, or 1 for the second one of a pair.
    Parameter(usize),
    /// The number of the earlier job with this name: `$name`.
    Reference(Box<Bytes>),
    /// The cell of the item's row in the column with this name: `cell("name")`.
    Cell(Box<Bytes>),
    /// The place of the item: `row()`.
    Row,
    Unary(UnaryOperator, Box<LongExpr>),
    Binary(BinaryOperator, Box<LongPair>),
    Choose(Box<LongChoice>),
}

/// Two numbers, from left to right.
#[cycle(ast)]
#[derive(Drop)]
pub struct LongPair {
    pub left: LongExpr,
    pub right: LongExpr,
}

/// `c ? p : q` (JLS 17, 15.25) for two numbers.
#[cycle(ast)]
#[derive(Drop)]
pub struct LongChoice {
    pub condition: BoolExpr,
    pub chosen: LongExpr,
    pub other: LongExpr,
}

/// An expression whose value is a boolean.
#[cycle(ast)]
#[derive(Drop)]
pub enum BoolExpr {
    Literal(bool),
    Compare(Comparison, Box<LongPair>),
    /// `!p` (JLS 17, 15.15.6).
    Not(Box<BoolExpr>),
    Connect(Connective, Box<BoolPair>),
    Choose(Box<BoolChoice>),
}

/// Two booleans, from left to right.
#[cycle(ast)]
#[derive(Drop)]
pub struct BoolPair {
    pub left: BoolExpr,
    pub right: BoolExpr,
}

/// `c ? p : q` for two booleans.
#[cycle(ast)]
#[derive(Drop)]
pub struct BoolChoice {
    pub condition: BoolExpr,
    pub chosen: BoolExpr,
    pub other: BoolExpr,
}

impl LongExpr {
    /// The value at a number by itself, as `eval_at` gives it for an item at place 0. For other programs.
    pub fn eval(&self, x: i64, env: &Env) -> Result<i64, FaultKind>
        ensures { result ≡ long_value (long_of self.now) (record { origin = 0; value = x }) env.now }
    {
        self.eval_at(Item::alone(x), env)
    }

    /// The value at an item, or the first fault from left to right (JLS 17, 15.7). `env` holds the numbers of earlier
    /// jobs under their names, and the table of the item's row. One call for each node that is evaluated, and for a
    /// name a comparison with each name up to its own; it takes no memory.
    #[cycle(eval)]
    pub fn eval_at(&self, x: Item, env: &Env) -> Result<i64, FaultKind>
        ensures { result ≡ long_value (long_of self.now) x env.now }
    {
        match self {
            LongExpr::Number(number) => Ok(*number),
            LongExpr::Parameter(_) => Ok(x.value),
            LongExpr::Reference(name) => Ok(env.number(name.as_slice()).unwrap_or(0)),
            LongExpr::Cell(name) => Ok(env.cell(name.as_slice(), x.origin)),
            LongExpr::Row => Ok(x.row()),
            LongExpr::Unary(operator, operand) => {
                let value = operand.eval_at(x, env)?;
                operator.apply(value)
            }
            LongExpr::Binary(operator, pair) => {
                let left = pair.left.eval_at(x, env)?;
                let right = pair.right.eval_at(x, env)?;
                operator.apply(left, right)
            }
            LongExpr::Choose(choice) => {
                if choice.condition.eval_at(x, env)? {
                    choice.chosen.eval_at(x, env)
                } else {
                    choice.other.eval_at(x, env)
                }
            }
        }
    }
}

impl BoolExpr {
    /// The boolean at a number by itself, as `eval_at` gives it for an item at place 0. For other programs.
    pub fn eval(&self, x: i64, env: &Env) -> Result<bool, FaultKind>
        ensures { result ≡ truth_value (truth_of self.now) (record { origin = 0; value = x }) env.now }
    {
        self.eval_at(Item::alone(x), env)
    }

    /// The boolean at an item, or the first fault from left to right (JLS 17, 15.7). `&&`, `||` and `? :` evaluate only
    /// what they need. It takes no memory.
    #[cycle(eval)]
    pub fn eval_at(&self, x: Item, env: &Env) -> Result<bool, FaultKind>
        ensures { result ≡ truth_value (truth_of self.now) x env.now }
    {
        match self {
            BoolExpr::Literal(value) => Ok(*value),
            BoolExpr::Compare(comparison, pair) => {
                let left = pair.left.eval_at(x, env)?;
                let right = pair.right.eval_at(x, env)?;
                Ok(comparison.apply(left, right))
            }
            BoolExpr::Not(operand) => Ok(!operand.eval_at(x, env)?),
            BoolExpr::Connect(Connective::And, pair) => {
                if pair.left.eval_at(x, env)? {
                    pair.right.eval_at(x, env)
                } else {
                    Ok(false)
                }
            }
            BoolExpr::Connect(Connective::Or, pair) => {
                if pair.left.eval_at(x, env)? {
                    Ok(true)
                } else {
                    pair.right.eval_at(x, env)
                }
            }
            BoolExpr::Choose(choice) => {
                if choice.condition.eval_at(x, env)? {
                    choice.chosen.eval_at(x, env)
                } else {
                    choice.other.eval_at(x, env)
                }
            }
        }
    }
}
