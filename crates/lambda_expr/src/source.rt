//! The sources of inner streams, and the reader of their operands.

ghost use Rattle.lambda_expr.specs.Codes.{IsStop};
ghost use Rattle.lambda_expr.specs.SourceReading.{ArePosted, IsFront, IsNoNext, Next, Operands, Says};
ghost use Rattle.lambda_expr.specs.SourceReading.{TakesMore, named_at, stream_at};
ghost use Rattle.lambda_expr.specs.Sources.{Takes};
ghost use Rattle.std.specs.Prelude.{◌≡◌, ◌≤◌, IfErr, IfOk, drop};

use crate::lexeme::{Lexeme, Lexemes, Name};
use crate::parse::{ParseStop, Parsed, parse};
use crate::sign::Sign;
use crate::step::ParseStep;
use crate::table::Member;
use std::alloc::Global;

/// A method that gives a stream.
#[derive(Clone, Copy)]
pub(crate) enum StreamSource {
    Range,
    RangeClosed,
    Of,
    Empty,
}

/// The front of a body: a source and the parenthesis that opens.
#[derive(Clone, Copy)]
pub(crate) struct Opened {
    pub(crate) source: StreamSource,
    /// How many words it has.
    pub(crate) count: usize,
}

impl StreamSource {
    /// Whether it has this number of operands.
    fn takes(self, count: usize) -> bool
        ensures { Says result (Takes self count) }
    {
        match self {
            StreamSource::Range | StreamSource::RangeClosed => count == 2,
            StreamSource::Of => true,
            StreamSource::Empty => count == 0,
        }
    }

    /// Whether one more operand may follow after this number of them.
    fn takes_more(self, count: usize) -> bool
        ensures { Says result (TakesMore self count) }
    {
        match self {
            StreamSource::Range | StreamSource::RangeClosed => count < 2,
            StreamSource::Of => true,
            StreamSource::Empty => false,
        }
    }
}

/// The name of a source and the parenthesis that opens, from a place on.
#[tactic(auto, using(crate::proofs::SourceLemmas::named_there))]
fn parse_name(words: &Lexemes, at: usize) -> Result<Opened, usize>
    requires { at ≤ 2 }
    ensures { result ≡ named_at at (drop at words.now) }
{
    match words.at(at) {
        Lexeme::Name(Name::Plain(name)) => match (name.member, words.at(at + 1)) {
            (Member::Source(source), Lexeme::Open) => Ok(Opened {
                source,
                count: at + 2,
            }),
            (Member::Source(_), _) => Err(at + 1),
            _ => Err(at),
        },
        _ => Err(at),
    }
}

/// Reads the front of a body that gives a stream, or where the words stop.
pub(crate) fn parse_source(words: &Lexemes) -> Result<Opened, usize>
    ensures { result ≡ stream_at words.now }
{
    match (words.at(0), words.at(1)) {
        (Lexeme::Name(Name::LongStream), Lexeme::Dot) => parse_name(words, 2),
        (Lexeme::Name(Name::LongStream), _) => Err(1),
        _ => parse_name(words, 0),
    }
}

/// An operand and the place of the word that ends it.
#[derive(Drop)]
struct SourceOperand {
    steps: Vec<ParseStep>,
    end: usize,
}

/// The operand that words begin with.
fn parse_part(alloc: Global, words: &Lexemes) -> Parsed<SourceOperand>
    ensures ok { IfOk result (λ part. IsFront words.now part.steps.items part.end) }
    ensures stops { IfErr result (λ stop. IsNoNext words.now stop) }
{
    let count = words.len();
    match parse(alloc, words) {
        Ok(_) => Err(ParseStop::At(count)),
        Err(ParseStop::NoMemory) => Err(ParseStop::NoMemory),
        Err(ParseStop::At(end)) => {
            if end >= count {
                return Err(ParseStop::At(count));
            }
            match parse(alloc, &words.before(end)) {
                Ok(steps) => Ok(SourceOperand { steps, end }),
                Err(ParseStop::NoMemory) => Err(ParseStop::NoMemory),
                Err(ParseStop::At(_)) => Err(ParseStop::At(end)),
            }
        }
    }
}

/// The operands from the first one on, which is no parenthesis.
fn parse_parts(alloc: Global, source: StreamSource, words: &Lexemes) -> Parsed<Vec<Vec<ParseStep>>>
    requires { TakesMore source 0 }
    ensures ok { IfOk result (λ parts. ArePosted source words.now parts.items) }
    ensures stops { IfErr result (λ stop. IsStop (Next source 0) words.now stop) }
{
    let count = words.len();
    let mut parts = Vec::new(alloc);
    let mut at = 0;
    while at < count {
        let part = match parse_part(alloc, &words.after(at)) {
            Ok(part) => part,
            Err(ParseStop::At(place)) => return Err(ParseStop::At(at + place)),
            Err(ParseStop::NoMemory) => return Err(ParseStop::NoMemory),
        };
        let end = at + part.end;
        parts.push(part.steps)?;
        match words.at(end) {
            Lexeme::Sign(Sign::Comma) => {
                if !source.takes_more(parts.len()) {
                    return Err(ParseStop::At(end));
                }
                at = end + 1;
            }
            Lexeme::Close => {
                if !source.takes(parts.len()) {
                    return Err(ParseStop::At(end));
                }
                if end + 1 < count {
                    return Err(ParseStop::At(end + 1));
                }
                return Ok(parts);
            }
            _ => return Err(ParseStop::At(end)),
        }
    }
    Err(ParseStop::At(count))
}

/// Reads the operands of a source and the parenthesis that closes, or where the words stop.
pub(crate) fn parse_operands(
    alloc: Global,
    source: StreamSource,
    words: &Lexemes,
) -> Parsed<Vec<Vec<ParseStep>>>
    ensures ok { IfOk result (λ parts. ArePosted source words.now parts.items) }
    ensures stops { IfErr result (λ stop. IsStop (Operands source) words.now stop) }
{
    if matches!(words.at(0), Lexeme::Close) {
        if !source.takes(0) {
            return Err(ParseStop::At(0));
        }
        if words.len() > 1 {
            return Err(ParseStop::At(1));
        }
        return Ok(Vec::new(alloc));
    }
    if !source.takes_more(0) {
        return Err(ParseStop::At(0));
    }
    parse_parts(alloc, source, words)
}
