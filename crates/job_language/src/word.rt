//! The words of a job: what its tokens are to the grammar.
ghost use Rattle.std.specs.Prelude.{◌≡◌, ◌≤◌, ◌<◌, ◌+◌, length, get_or, drop, slice_range, IfSome};
ghost use Rattle.std.specs.Prelude.{option_map, ◌∷◌, []};
ghost use Rattle.stream_tokens.specs.declared.token.Token.{Token as token};
ghost use Rattle.stream_tokens.specs.CutTexts.{between};
ghost use Rattle.lambda_expr.specs.Words.{bad};
ghost use Rattle.lambda_expr.specs.CodeWords.{word_of, words_in};
ghost use Rattle.job_language.specs.Table.{fits, has_words, name_in, places_in, string_in};
ghost use Rattle.job_language.specs.Calls.{bracket_of, nest};

use crate::operation::Param;
use job_names::places_of;
use lambda_expr::{Word, is_number, word_at};
use stream_tokens::{CutText, Symbol};

/// What a word is to the nesting of parentheses.
#[derive(Clone, Copy, PartialEq, Eq)]
pub enum Bracket {
    Open,
    Close,
    Comma,
    Plain,
}

fn bracket_of(word: Word) -> Bracket
    ensures { result ≡ bracket_of (word_of word.entry) }
{
    match word {
        Word::Sign(Symbol::Open) => Bracket::Open,
        Word::Sign(Symbol::Close) => Bracket::Close,
        Word::Sign(Symbol::Comma) => Bracket::Comma,
        _ => Bracket::Plain,
    }
}

/// What the word at a place is to the nesting of parentheses.
pub fn bracket_at(text: &CutText, place: usize) -> Bracket
    ensures { result ≡ bracket_of (get_or (words_in text.now) place bad) }
{
    bracket_of(word_at(text, place))
}

/// How many parentheses are open after a word; `None` if it closes one that isn't open, or is a comma
/// outside them.
pub fn nest(depth: usize, bracket: Bracket) -> Option<usize>
    requires { depth < usize.MAX }
    ensures value { result ≡ nest depth bracket }
    ensures bound { IfSome result (λ after. after ≤ depth + 1) }
{
    match bracket {
        Bracket::Open => Some(depth + 1),
        Bracket::Close => depth.checked_sub(1),
        Bracket::Comma => (depth > 0).then_some(depth),
        Bracket::Plain => Some(depth),
    }
}

/// The part of a call from one place up to, not with, another, counted from the word after its parenthesis. No token is
/// copied.
pub fn part<'a>(text: &CutText<'a>, opened: usize, from: usize, to: usize) -> CutText<'a>
    requires in_order { from ≤ to }
    requires in_range { opened + 1 + to < length text.now.tokens }
    ensures words { words_in result ≡ slice_range (drop (opened + 1) (words_in text.now)) from to }
    ensures text { (d : token) → result ≡ between text.now (get_or text.now.tokens (opened + from) d)
        (get_or text.now.tokens (opened + 1 + to) d) (opened + from) (opened + 1 + to) }
    ensures len { length text.now.tokens ≤ usize.MAX }
{
    // Read for their contracts: these are the tokens of the text, and their number is a `usize`.
    let _bytes = text.bytes();
    let _count = text.len();
    text.between(opened + from, opened + 1 + to)
}

fn has_words(text: &CutText) -> bool
    ensures { result ≡ has_words (words_in text.now) }
{
    match text.len() {
        0 => false,
        _ => true,
    }
}

/// Whether words may stand as a part of a call.
pub fn fits(param: Param, text: &CutText) -> bool
    ensures { result ≡ fits param (words_in text.now) }
{
    match param {
        Param::Number => is_number(text),
        Param::Text => string_in(text).is_some(),
        Param::Places => places_in(text).is_some(),
        Param::Name => name_in(text).is_some(),
        Param::Long | Param::Bool | Param::Stream | Param::Operator => has_words(text),
    }
}

fn string_of<'a>(word: Word<'a>) -> Option<&'a [u8]>
    ensures { option_map (λ w. w.now) result ≡ string_in (word_of word.entry ∷ []) }
{
    match word {
        Word::Text(string) => Some(string),
        _ => None,
    }
}

/// The string that words are.
pub fn string_in<'a>(text: &CutText<'a>) -> Option<&'a [u8]>
    ensures { option_map (λ w. w.now) result ≡ string_in (words_in text.now) }
{
    match text.len() {
        1 => string_of(word_at(text, 0)),
        _ => None,
    }
}

/// The number of decimal places that a word is.
fn places_word(word: Word) -> Option<u8>
    ensures { result ≡ places_in (word_of word.entry ∷ []) }
{
    match word {
        Word::Number(digits) => places_of(digits),
        _ => None,
    }
}

/// The number of decimal places that words are.
pub fn places_in(text: &CutText) -> Option<u8>
    ensures { result ≡ places_in (words_in text.now) }
{
    match text.len() {
        1 => places_word(word_at(text, 0)),
        _ => None,
    }
}

/// The name that a word is.
pub fn name_of<'a>(word: Word<'a>) -> Option<&'a [u8]>
    ensures { option_map (λ w. w.now) result ≡ name_in (word_of word.entry ∷ []) }
{
    match word {
        Word::Name(name) => Some(name),
        _ => None,
    }
}

/// The name that words are.
pub fn name_in<'a>(text: &CutText<'a>) -> Option<&'a [u8]>
    ensures { option_map (λ w. w.now) result ≡ name_in (words_in text.now) }
{
    match text.len() {
        1 => name_of(word_at(text, 0)),
        _ => None,
    }
}
