//! The body of a lambda: an expression, or a source of an inner stream and its operands.

ghost use Rattle.lambda_expr.specs.BodyReading.{IsBodyOf};
ghost use Rattle.lambda_expr.specs.Codes.{IsStop};
ghost use Rattle.lambda_expr.specs.Heads.{ABody};
ghost use Rattle.std.specs.Prelude.{IfErr, IfOk};

use crate::lexeme::Lexemes;
use crate::parse::{ParseStop, Parsed, parse};
use crate::source::{StreamSource, parse_operands, parse_source};
use crate::step::ParseStep;
use crate::want::Want;
use std::alloc::Global;

/// A body in steps.
#[derive(Drop)]
pub(crate) enum BodySteps {
    Expression(Vec<ParseStep>),
    /// A source, and the steps of each operand.
    Stream(StreamSource, Vec<Vec<ParseStep>>),
}

/// Reads a body that gives a stream.
fn parse_stream(alloc: Global, words: &Lexemes) -> Parsed<BodySteps>
    ensures ok { IfOk result (λ body. IsBodyOf Want.Stream words.now body) }
    ensures stops { IfErr result (λ stop. IsStop (ABody Want.Stream) words.now stop) }
{
    match parse_source(words) {
        Ok(opened) => match parse_operands(alloc, opened.source, &words.after(opened.count)) {
            Ok(operands) => Ok(BodySteps::Stream(opened.source, operands)),
            Err(ParseStop::At(place)) => Err(ParseStop::At(opened.count + place)),
            Err(ParseStop::NoMemory) => Err(ParseStop::NoMemory),
        },
        Err(place) => Err(ParseStop::At(place)),
    }
}

/// Reads a body that is wanted: its steps, or where its words stop.
pub(crate) fn parse_body(alloc: Global, want: Want, words: &Lexemes) -> Parsed<BodySteps>
    ensures ok { IfOk result (λ body. IsBodyOf want words.now body) }
    ensures stops { IfErr result (λ stop. IsStop (ABody want) words.now stop) }
{
    match want {
        Want::Stream => parse_stream(alloc, words),
        _ => match parse(alloc, words) {
            Ok(steps) => Ok(BodySteps::Expression(steps)),
            Err(stop) => Err(stop),
        },
    }
}
