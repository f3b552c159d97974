//! The head of a lambda: its parameters and the arrow.

ghost use Rattle.lambda_expr.specs.HeadReading.{AreTried, IsMatched, IsTried};
ghost use Rattle.lambda_expr.specs.Heads.{heads, mark_of, parameters};
ghost use Rattle.std.specs.Prelude.{◌≡◌};

use self::HeadMark::{Arrow, Close, Comma, LowerLong, Open, Parameter};
use crate::lexeme::{Lexeme, Lexemes, Name};
use crate::sign::Sign;
use crate::want::Want;

/// What a word of a head has to be.
#[derive(Clone, Copy, PartialEq, Eq)]
pub(crate) enum HeadMark {
    Open,
    /// The parameter of this number, from 0.
    Parameter(usize),
    LowerLong,
    Comma,
    Close,
    Arrow,
}

/// `x ->`
const BARE: [HeadMark; 2] = [Parameter(0), Arrow];

/// `(x) ->`
const ENCLOSED: [HeadMark; 4] = [Open, Parameter(0), Close, Arrow];

/// `(long x) ->`
const TYPED: [HeadMark; 5] = [Open, LowerLong, Parameter(0), Close, Arrow];

/// `(a, b) ->`
const PAIR: [HeadMark; 6] = [Open, Parameter(0), Comma, Parameter(1), Close, Arrow];

/// `(long a, long b) ->`
const TYPED_PAIR: [HeadMark; 8] = [
    Open,
    LowerLong,
    Parameter(0),
    Comma,
    LowerLong,
    Parameter(1),
    Close,
    Arrow,
];

/// What a word is in a head: a name is a parameter by its number.
fn mark_of(word: Lexeme) -> Option<HeadMark>
    ensures { result ≡ mark_of word }
{
    match word {
        Lexeme::Name(Name::Plain(name)) => Some(Parameter(name.number)),
        Lexeme::Name(Name::LowerLong) => Some(LowerLong),
        Lexeme::Open => Some(Open),
        Lexeme::Sign(Sign::Comma) => Some(Comma),
        Lexeme::Close => Some(Close),
        Lexeme::Arrow => Some(Arrow),
        _ => None,
    }
}

/// How many parameters a lambda has.
pub(crate) fn parameters(want: Want) -> usize
    ensures { result ≡ parameters want }
{
    match want {
        Want::Pair => 2,
        _ => 1,
    }
}

/// How many words fit the pattern, from the first on.
fn matched(pattern: &[HeadMark], words: &Lexemes) -> usize
    ensures { IsMatched pattern.now words.now result }
{
    for at in 0..pattern.len() {
        if mark_of(words.at(at)) != Some(pattern[at]) {
            return at;
        }
    }
    pattern.len()
}

/// The length of the pattern if the words begin with it, else what another one gives, at least as far.
fn tried(pattern: &[HeadMark], words: &Lexemes, other: Result<usize, usize>) -> Result<usize, usize>
    ensures { IsTried pattern.now words.now other result }
{
    let count = matched(pattern, words);
    if count == pattern.len() {
        return Ok(count);
    }
    match other {
        Ok(length) => Ok(length),
        Err(at) => Err(count.max(at)),
    }
}

/// Reads a head: the number of its words, or the place at which the words stop.
pub(crate) fn parse_head(want: Want, words: &Lexemes) -> Result<usize, usize>
    ensures { AreTried (heads want) words.now result }
{
    match want {
        Want::Pair => {
            let typed = tried(&TYPED_PAIR, words, Err(0));
            tried(&PAIR, words, typed)
        }
        _ => {
            let typed = tried(&TYPED, words, Err(0));
            let enclosed = tried(&ENCLOSED, words, typed);
            tried(&BARE, words, enclosed)
        }
    }
}
