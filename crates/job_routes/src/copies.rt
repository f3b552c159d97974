//! Copies of stages that keep the places of items.

ghost use Rattle.std.specs.Prelude.{◌≡◌, ◌∷◌, ◌++◌, [], IfOk, IfSome, true};
ghost use Rattle.lambda_values.specs.Term.{long_of, truth_of};
ghost use Rattle.trace.specs.Stages.{stage_of, stages_of};
ghost use Rattle.job_routes.specs.Searches.{IsCopy, keep_places};

use crate::numbered_stages::NumberedStages;
use lambda_values::{BoolChoice, BoolExpr, BoolPair, LongChoice, LongExpr, LongPair};
use std::alloc::Global;
use stream_tokens::Bytes;
use trace::{NoMemory, Stage};

/// A copy of a name.
fn name_copy(alloc: Global, name: &Bytes) -> Result<Bytes, NoMemory>
    ensures { IfOk result (λ copy. copy ≡ name.now) }
{
    Ok(Bytes::from(Vec::from_slice(alloc, name.as_slice())?))
}

/// A copy of an expression whose value is a number.
#[cycle(copies)]
pub(crate) fn long_copy(alloc: Global, expr: &LongExpr) -> Result<LongExpr, NoMemory>
    ensures { IfOk result (λ copy. long_of copy ≡ long_of expr.now) }
{
    match expr {
        LongExpr::Number(number) => Ok(LongExpr::Number(*number)),
        LongExpr::Parameter(number) => Ok(LongExpr::Parameter(*number)),
        LongExpr::Reference(name) => {
            let name = name_copy(alloc, name)?;
            Ok(LongExpr::Reference(Box::new(alloc, name)?))
        }
        LongExpr::Cell(name) => {
            let name = name_copy(alloc, name)?;
            Ok(LongExpr::Cell(Box::new(alloc, name)?))
        }
        LongExpr::Row => Ok(LongExpr::Row),
        LongExpr::Unary(operator, operand) => {
            let operand = long_copy(alloc, operand)?;
            Ok(LongExpr::Unary(*operator, Box::new(alloc, operand)?))
        }
        LongExpr::Binary(operator, pair) => {
            let left = long_copy(alloc, &pair.left)?;
            let right = long_copy(alloc, &pair.right)?;
            let pair = Box::new(alloc, LongPair { left, right })?;
            Ok(LongExpr::Binary(*operator, pair))
        }
        LongExpr::Choose(choice) => {
            let condition = truth_copy(alloc, &choice.condition)?;
            let chosen = long_copy(alloc, &choice.chosen)?;
            let other = long_copy(alloc, &choice.other)?;
            let choice = LongChoice {
                condition,
                chosen,
                other,
            };
            Ok(LongExpr::Choose(Box::new(alloc, choice)?))
        }
    }
}

/// A copy of an expression whose value is a boolean.
#[cycle(copies)]
pub(crate) fn truth_copy(alloc: Global, expr: &BoolExpr) -> Result<BoolExpr, NoMemory>
    ensures { IfOk result (λ copy. truth_of copy ≡ truth_of expr.now) }
{
    match expr {
        BoolExpr::Literal(value) => Ok(BoolExpr::Literal(*value)),
        BoolExpr::Compare(comparison, pair) => {
            let left = long_copy(alloc, &pair.left)?;
            let right = long_copy(alloc, &pair.right)?;
            let pair = Box::new(alloc, LongPair { left, right })?;
            Ok(BoolExpr::Compare(*comparison, pair))
        }
        BoolExpr::Not(operand) => {
            let operand = truth_copy(alloc, operand)?;
            Ok(BoolExpr::Not(Box::new(alloc, operand)?))
        }
        BoolExpr::Connect(connective, pair) => {
            let left = truth_copy(alloc, &pair.left)?;
            let right = truth_copy(alloc, &pair.right)?;
            let pair = Box::new(alloc, BoolPair { left, right })?;
            Ok(BoolExpr::Connect(*connective, pair))
        }
        BoolExpr::Choose(choice) => {
            let condition = truth_copy(alloc, &choice.condition)?;
            let chosen = truth_copy(alloc, &choice.chosen)?;
            let other = truth_copy(alloc, &choice.other)?;
            let choice = BoolChoice {
                condition,
                chosen,
                other,
            };
            Ok(BoolExpr::Choose(Box::new(alloc, choice)?))
        }
    }
}

/// A copy of a map or a filter; none of a `flatMap`.
fn stage_copy(alloc: Global, stage: &Stage) -> Result<Option<Stage>, NoMemory>
    ensures copy { IfOk result (λ found. IfSome found (λ copy. stage_of copy ≡ stage_of stage.now)) }
    ensures places { IfOk result (λ found. IfSome found (λ _. keep_places (stage_of stage.now ∷ []) ≡ true)) }
{
    match stage {
        Stage::Map(image) => Ok(Some(Stage::Map(long_copy(alloc, image)?))),
        Stage::Filter(test) => Ok(Some(Stage::Filter(truth_copy(alloc, test)?))),
        Stage::FlatMap(_) => Ok(None),
    }
}

/// Adds copies of these stages, as long as they are maps and filters. Whether all of them are.
fn add_copies(alloc: Global, from: &[Stage], to: &mut Vec<Stage>) -> Result<bool, NoMemory>
    ensures copies { IfOk result (λ all. all ≡ true
        → stages_of to.new.items ≡ stages_of to.old.items ++ stages_of from.now) }
    ensures places { IfOk result (λ all. all ≡ true → keep_places (stages_of from.now) ≡ true) }
{
    let Some((stage, later)) = from.split_first() else {
        return Ok(true);
    };
    let Some(copy) = stage_copy(alloc, stage)? else {
        return Ok(false);
    };
    to.push(copy)?;
    add_copies(alloc, later, to)
}

impl NumberedStages {
    /// A copy of these stages, if all of them are maps and filters.
    pub(crate) fn copy(&self, alloc: Global) -> Result<Option<NumberedStages>, NoMemory>
        ensures { IfOk result (λ found. IfSome found (IsCopy self.now)) }
    {
        let mut list = Vec::new(alloc);
        if !add_copies(alloc, &self.list, &mut list)? {
            return Ok(None);
        }
        Ok(Some(NumberedStages {
            first: self.first,
            list,
        }))
    }
}
