//! Lambdas, read from a text.

ghost use Rattle.lambda_expr.specs.BodyReading.{AreSteps};
ghost use Rattle.lambda_expr.specs.Grammar.{Shape, postfix};
ghost use Rattle.lambda_expr.specs.Heads.{ALambda, BodyShape};
ghost use Rattle.lambda_expr.specs.Judging.{IsJudged, IsWritten};
ghost use Rattle.lambda_expr.specs.Codes.{IsStop};
ghost use Rattle.lambda_expr.specs.Elaborating.{typed_of};
ghost use Rattle.lambda_expr.specs.Lexemes.{names_in};
ghost use Rattle.lambda_values.specs.Lambda.{body_of};
ghost use Rattle.lambda_expr.specs.Refusals.{IsRefused, IsRefusedWithin, SpellsLambda, SpellsLambdaWithin};
ghost use Rattle.lambda_expr.specs.Refusals.{expression_verdict, verdict};
ghost use Rattle.lambda_expr.specs.Refusals.{wanted as specs_wanted};
ghost use Rattle.std.specs.Prelude.{◌≡◌, ◌≢◌, [], Err, IfErr, IfOk, Ok};

use crate::body::{BodySteps, parse_body};
use crate::check::{MAX_DEPTH, summarize};
use crate::elaborate::{TypedOperand, elaborate};
use crate::fault::ReadFault;
use crate::head::{parameters, parse_head};
use crate::lexeme::Lexemes;
use crate::parse::{ParseStop, Parsed};
use crate::step::ParseStep;
use crate::stream::judge_stream;
use crate::want::Want;
use lambda_values::{Body, Lambda, PairForm};
use std::alloc::Global;
use stream_tokens::{CutText, cut};

/// How many tokens a lambda may have.
const MAX_TOKENS: usize = 4096;

/// Reads the words of a lambda: its body in steps, or where the words stop.
fn parse_lambda(alloc: Global, words: &Lexemes, want: Want) -> Parsed<BodySteps>
    ensures ok { IfOk result (λ body. IsWritten want words.now body) }
    ensures stops { IfErr result (λ stop. IsStop (ALambda want) words.now stop) }
{
    match parse_head(want, words) {
        Ok(count) => match parse_body(alloc, want, &words.after(count)) {
            Ok(body) => Ok(body),
            Err(ParseStop::At(place)) => Err(ParseStop::At(count + place)),
            Err(ParseStop::NoMemory) => Err(ParseStop::NoMemory),
        },
        Err(place) => Err(ParseStop::At(place)),
    }
}

/// The lambda that is wanted, if the operand has its type.
fn wanted(want: Want, operand: TypedOperand, form: PairForm) -> Result<Lambda, ReadFault>
    ensures ok { IfOk result (λ lambda. specs_wanted want (typed_of operand) form ≡ Ok (body_of lambda.body)) }
    ensures refused { IfErr result (λ fault. (fault ≡ ReadFault.WrongType)
        × (specs_wanted want (typed_of operand) form ≡ Err ReadFault.WrongType)) }
{
    let body = match (want, operand) {
        (Want::Long, TypedOperand::Long(expr)) => Body::Long(expr),
        (Want::Bool, TypedOperand::Truth(expr)) => Body::Bool(expr),
        (Want::Pair, TypedOperand::Long(_)) => Body::Pair(form),
        _ => return Err(ReadFault::WrongType),
    };
    Ok(Lambda { body })
}

/// The lambda of an expression, or the first refusal: of its numbers, its depth, its names, its types.
fn judge_expression(
    alloc: Global,
    text: &CutText,
    steps: &[ParseStep],
    want: Want,
) -> Result<Lambda, ReadFault>
    ensures { (e : Shape) → steps.now ≡ postfix e
        → IsJudged (expression_verdict want (names_in text.now.bytes text.now.tokens) e) result }
{
    let summary = summarize(alloc, parameters(want), steps)?;
    if !summary.literals.fit() {
        return Err(ReadFault::LiteralTooLarge);
    }
    if summary.depth > MAX_DEPTH {
        return Err(ReadFault::TooDeep);
    }
    if !summary.known {
        return Err(ReadFault::UnknownName);
    }
    let operand = elaborate(alloc, text, steps)?;
    wanted(want, operand, summary.form.whole())
}

/// The lambda, or the first refusal.
fn judge(alloc: Global, text: &CutText, body: &BodySteps, want: Want) -> Result<Lambda, ReadFault>
    ensures { (shape : BodyShape) → AreSteps shape body.now
        → IsJudged (verdict want (names_in text.now.bytes text.now.tokens) shape) result }
{
    match body {
        BodySteps::Expression(steps) => judge_expression(alloc, text, steps, want),
        BodySteps::Stream(source, operands) => judge_stream(alloc, text, *source, operands),
    }
}

/// Reads a lambda of the wanted kind (JLS 17, 15.27) from a text that was cut already, as a part of a job's text is.
/// The text may have cells and rows, as `cell("name")`, `cell("name", 2)` and `row()`, or not. It refuses as
/// `read_lambda` does, and columns count from the text's first byte.
pub fn read_lambda_within(
    alloc: Global,
    text: &CutText,
    want: Want,
    cells: bool,
) -> Result<Lambda, ReadFault>
    ensures ok { IfOk result (λ lambda. SpellsLambdaWithin cells text.now.bytes want lambda) }
    ensures refused { IfErr result (λ fault. IsRefusedWithin cells text.now.bytes want fault) }
    ensures memory { IfErr result (λ fault. fault ≡ ReadFault.NoMemory → text.now.bytes ≢ []) }
{
    if text.bytes().is_empty() {
        return Err(ReadFault::Syntax { column: 1 });
    }
    if text.len() > MAX_TOKENS {
        return Err(ReadFault::TooDeep);
    }
    match parse_lambda(alloc, &Lexemes::of(text, cells), want) {
        Ok(body) => judge(alloc, text, &body, want),
        Err(ParseStop::At(place)) => Err(ReadFault::Syntax {
            column: text.column(place),
        }),
        Err(ParseStop::NoMemory) => Err(ReadFault::NoMemory),
    }
}

/// Reads a lambda of the wanted kind (JLS 17, 15.27).
///
/// Refusals, the first that applies: `TooDeep` for more than 4,096 tokens, `Syntax`, `LiteralTooLarge`, `TooDeep` for a
/// body deeper than 64 or a stream of more than 64 operands, `UnknownName`, `WrongType`. If an allocation failed, the
/// answer may be `NoMemory`; the empty text takes no memory.
///
/// For other programs: `streamrun` reads tokens that were cut before, by `read_lambda_within`.
pub fn read_lambda(alloc: Global, text: &[u8], want: Want) -> Result<Lambda, ReadFault>
    ensures ok { IfOk result (λ lambda. SpellsLambda text.now want lambda) }
    ensures refused { IfErr result (λ fault. IsRefused text.now want fault) }
    ensures memory { IfErr result (λ fault. fault ≡ ReadFault.NoMemory → text.now ≢ []) }
{
    let tokens = cut(alloc, text)?;
    read_lambda_within(alloc, &CutText::of(text, &tokens), want, false)
}
