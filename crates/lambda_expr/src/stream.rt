//! Lambdas to a stream: what their operands are refused for, and the stream that they give.

ghost use Rattle.lambda_expr.specs.BodyReading.{found_in, no_operands, step_numbers};
ghost use Rattle.lambda_expr.specs.Grammar.{Shape};
ghost use Rattle.lambda_expr.specs.Judging.{IsJudged};
ghost use Rattle.lambda_expr.specs.Lexemes.{names_in};
ghost use Rattle.lambda_expr.specs.Refusals.{lambda_of, stream_verdict};
ghost use Rattle.lambda_expr.specs.SourceReading.{each_postfix, steps_of};
ghost use Rattle.lambda_expr.specs.Sources.{Takes};
ghost use Rattle.lambda_expr.specs.StreamChecks.{stream_of};
ghost use Rattle.lambda_values.specs.Streams.{exprs_of, inner_of};
ghost use Rattle.std.specs.Prelude.{◌≡◌, ◌<◌, ◌≤◌, IfNone, IfOk, IfSome, List, Ok, length, option_map};

use crate::check::{MAX_DEPTH, NOTHING, Summary, binary, summarize};
use crate::elaborate::{TypedOperand, elaborate};
use crate::fault::ReadFault;
use crate::sign::Sign;
use crate::source::StreamSource;
use crate::step::ParseStep;
use lambda_values::{Body, InnerExpr, Lambda, LongExpr, Operands};
use std::alloc::{AllocError, Global};
use stream_tokens::CutText;

/// What the checks find in operands, from their steps.
fn check(alloc: Global, operands: &[Vec<ParseStep>]) -> Result<Summary, AllocError>
    ensures { IfOk result (λ checks. checks ≡ found_in no_operands (steps_of operands.now)) }
{
    let mut checks = Summary {
        depth: 0,
        ..NOTHING
    };
    for operand in operands {
        checks = binary(Sign::Comma, checks, summarize(alloc, 1, operand)?);
    }
    Ok(checks)
}

/// The numbers that operands are, from their steps; none if one of them is no number.
fn numbers(
    alloc: Global,
    text: &CutText,
    operands: &[Vec<ParseStep>],
) -> Result<Option<Vec<LongExpr>>, AllocError>
    ensures { IfOk result (λ exprs. option_map (λ exprs. exprs_of exprs.items) exprs
        ≡ step_numbers (names_in text.now.bytes text.now.tokens) (steps_of operands.now)) }
{
    let mut exprs = Vec::new(alloc);
    for operand in operands {
        match elaborate(alloc, text, operand)? {
            TypedOperand::Long(expr) => exprs.push(expr)?,
            _ => return Ok(None),
        }
    }
    Ok(Some(exprs))
}

/// The stream of a source and its operands; none if there are more than 64.
fn stream_of(source: StreamSource, mut operands: Vec<LongExpr>) -> Option<InnerExpr>
    ensures some { Takes source (length operands.items)
        → IfSome result (λ inner. Some (inner_of inner) ≡ stream_of source (exprs_of operands.items)) }
    ensures none { Takes source (length operands.items) → IfNone result (64 < length operands.items) }
{
    match source {
        StreamSource::Range => {
            let to = operands.pop()?;
            let from = operands.pop()?;
            Some(InnerExpr::Range(from, to))
        }
        StreamSource::RangeClosed => {
            let to = operands.pop()?;
            let from = operands.pop()?;
            Some(InnerExpr::RangeClosed(from, to))
        }
        StreamSource::Of | StreamSource::Empty => Some(InnerExpr::Of(Operands::new(operands)?)),
    }
}

/// The lambda of a source and its operands.
fn streamed(source: StreamSource, operands: Vec<LongExpr>) -> Result<Lambda, ReadFault>
    ensures { Takes source (length operands.items) → length operands.items ≤ 64
        → IsJudged (lambda_of (stream_of source (exprs_of operands.items))) result }
{
    match stream_of(source, operands) {
        Some(inner) => Ok(Lambda {
            body: Body::Stream(inner),
        }),
        None => Err(ReadFault::TooDeep),
    }
}

/// The lambda, or the first refusal: of its numbers, its depth, its names, its types.
pub(crate) fn judge_stream(
    alloc: Global,
    text: &CutText,
    source: StreamSource,
    operands: &[Vec<ParseStep>],
) -> Result<Lambda, ReadFault>
    ensures { (es : List Shape) → Takes source (length es) → steps_of operands.now ≡ each_postfix es
        → IsJudged (stream_verdict (names_in text.now.bytes text.now.tokens) source es) result }
{
    let checks = check(alloc, operands)?;
    if !checks.literals.fit() {
        return Err(ReadFault::LiteralTooLarge);
    }
    if checks.depth >= MAX_DEPTH || operands.len() > Operands::MAX {
        return Err(ReadFault::TooDeep);
    }
    if !checks.known {
        return Err(ReadFault::UnknownName);
    }
    match numbers(alloc, text, operands)? {
        Some(exprs) => streamed(source, exprs),
        None => Err(ReadFault::WrongType),
    }
}
