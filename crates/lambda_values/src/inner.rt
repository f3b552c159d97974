//! Inner streams: what `flatMap` puts in the place of an item.

ghost use Rattle.lambda_values.specs.Streams.{distance, each_value, exprs_of, inner_of, inner_value};
ghost use Rattle.lambda_values.specs.Streams.{inner_values, through, run_or_listed, run_values, up_from};
ghost use Rattle.lambda_values.specs.Term.{long_of};
ghost use Rattle.std.specs.Prelude.{◌≡◌, ◌+◌, ◌<◌, ◌≤◌, ◌^◌, ℕ, Err, IfErr, IfNone, IfOk, IfSome, Ok, length, nat_le};

use crate::env::Env;
use crate::expr::LongExpr;
use crate::fault::FaultKind;
use crate::item::Item;
use crate::operands::Operands;
use crate::run::Run;
use arrayvec::ArrayVec;

/// How many values an inner stream may have.
const MAX_VALUES: u64 = 1 << 62;

/// An expression whose value is a stream of numbers.
#[derive(Drop)]
pub enum InnerExpr {
    /// `LongStream.range(from, to)`.
    Range(LongExpr, LongExpr),
    /// `LongStream.rangeClosed(from, to)`.
    RangeClosed(LongExpr, LongExpr),
    /// `LongStream.of(..)`; with no operands `LongStream.empty()`.
    Of(Operands),
}

/// The values of `LongStream.of` in an inner stream: up to 64.
pub type ListedValues = ArrayVec<i64, 64>;

/// The values of an inner stream.
#[derive(Drop)]
pub enum Inner {
    /// Integers in a row; at most 2^62.
    Range(Run),
    Values(ListedValues),
}

/// The integers from the first up to, not with, the second one.
pub fn range(from: i64, to: i64) -> Result<Run, FaultKind>
    ensures ok { IfOk result (λ run. up_from from (distance from to) ≡ Ok (run_values run)) }
    ensures fault { IfErr result (λ kind. up_from from (distance from to) ≡ Err kind) }
{
    let count = if from < to { to.abs_diff(from) } else { 0 };
    if count > MAX_VALUES {
        return Err(FaultKind::SourceTooLong);
    }
    Ok(Run { first: from, count })
}

/// The integers from the first up to and with the second one.
pub fn closed_range(from: i64, to: i64) -> Result<Run, FaultKind>
    ensures ok { IfOk result (λ run. up_from from (through from to) ≡ Ok (run_values run)) }
    ensures fault { IfErr result (λ kind. up_from from (through from to) ≡ Err kind) }
{
    if to < from {
        return Ok(Run {
            first: from,
            count: 0,
        });
    }
    let gap = to.abs_diff(from);
    if gap >= MAX_VALUES {
        return Err(FaultKind::SourceTooLong);
    }
    Ok(Run {
        first: from,
        count: gap + 1,
    })
}

/// The values of expressions in a list, or the first fault.
fn list_values(
    operands: &Operands,
    x: Item,
    env: &Env,
    listed: &mut ListedValues,
) -> Result<(), FaultKind>
    ensures ok { IfOk result (λ _. each_value (exprs_of operands.now.exprs.items) x env.now ≡ Ok listed.new.items) }
    ensures fault { IfErr result (λ kind. each_value (exprs_of operands.now.exprs.items) x env.now ≡ Err kind) }
{
    listed.clear();
    for expr in operands.exprs() {
        listed.push(expr.eval_at(x, env)?);
    }
    Ok(())
}

impl InnerExpr {
    /// The values at a number by itself, or the first fault from left to right; `SourceTooLong` for a range
    /// of more than 2^62. It takes no memory.
    ///
    /// For other programs: `streamrun` evaluates into a list that it keeps, by `eval_into`.
    pub fn eval(&self, x: i64, env: &Env) -> Result<Inner, FaultKind>
        ensures ok { IfOk result (λ inner.
            inner_value (inner_of self.now) (record { origin = 0; value = x }) env.now ≡ Ok (inner_values inner)) }
        ensures fault { IfErr result (λ kind.
            inner_value (inner_of self.now) (record { origin = 0; value = x }) env.now ≡ Err kind) }
    {
        let mut listed = ArrayVec::new();
        match self.eval_into(Item::alone(x), env, &mut listed)? {
            Some(run) => Ok(Inner::Range(run)),
            None => Ok(Inner::Values(listed)),
        }
    }

    /// The values at an item for a caller that keeps a list from item to item: the integers in a row, or none if
    /// the values are in the list.
    pub fn eval_into(
        &self,
        x: Item,
        env: &Env,
        listed: &mut ListedValues,
    ) -> Result<Option<Run>, FaultKind>
        ensures ok { IfOk result (λ run. inner_value (inner_of self.now) x env.now
            ≡ Ok (run_or_listed run listed.new.items)) }
        ensures fault { IfErr result (λ kind. inner_value (inner_of self.now) x env.now ≡ Err kind) }
    {
        match self {
            InnerExpr::Range(from, to) => {
                let from = from.eval_at(x, env)?;
                let to = to.eval_at(x, env)?;
                Ok(Some(range(from, to)?))
            }
            InnerExpr::RangeClosed(from, to) => {
                let from = from.eval_at(x, env)?;
                let to = to.eval_at(x, env)?;
                Ok(Some(closed_range(from, to)?))
            }
            InnerExpr::Of(operands) => {
                list_values(operands, x, env, listed)?;
                Ok(None)
            }
        }
    }
}
