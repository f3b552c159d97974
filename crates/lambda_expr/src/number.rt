//! Numbers as they are written, and the value of each.

ghost use Rattle.lambda_expr.specs.CodeWords.{word_of, words_in};
ghost use Rattle.lambda_expr.specs.NumberReading.{front, front_of_constant, is_digits, is_limit};
ghost use Rattle.lambda_expr.specs.NumberWords.{digits_value, in_64_bits, is_number, limit_value, number_read};
ghost use Rattle.lambda_expr.specs.NumberWords.{number_value, signed};
ghost use Rattle.lambda_expr.specs.Numbers.{IsNumberRefused, SpellsNumber};
ghost use Rattle.lambda_expr.specs.Numerals.{is_numeral, numeral_value};
ghost use Rattle.lambda_expr.specs.Tokens.{StandIn};
ghost use Rattle.lambda_expr.specs.Words.{Word as meant, bad, words_of};
ghost use Rattle.std.specs.Int.{w64};
ghost use Rattle.std.specs.Option.{SomeIff};
ghost use Rattle.std.specs.Prelude.{◌≡◌, ◌∷◌, [], FitsSigned, IfErr, IfOk, List, get_or, length};
ghost use Rattle.std.specs.Prelude.{min, option_map};
ghost use Rattle.stream_tokens.specs.CutTexts.{column};
ghost use Rattle.stream_tokens.specs.Tokens.{StandInOrder};

use crate::fault::ReadFault;
use crate::word::{Word, is_dot, is_minus, is_owner, word_at, word_for};
use stream_tokens::{CutText, Token};

/// Whether a number of these bytes may be in a grammar: two or more digits don't begin with 0, since a number like that
/// is octal in JLS 17, 3.10.1. It takes no memory.
pub fn may_stand(number: &[u8]) -> bool
    ensures { result ≡ is_numeral number.now }
{
    match number {
        [] => false,
        [b'0', second, ..] => !second.is_ascii_digit(),
        _ => true,
    }
}

/// The value of a number's digits, or the greatest `u64` if it is above that. The mark `L` or `l` after
/// them is skipped. It takes no memory.
pub(crate) fn numeral_value(number: &[u8]) -> u64
    ensures { result ≡ min (numeral_value number.now) u64.MAX }
{
    let mut value: u64 = 0;
    for byte in number {
        if !byte.is_ascii_digit() {
            return value;
        }
        value = value
            .saturating_mul(10)
            .saturating_add(u64::from(*byte - b'0'));
    }
    value
}

/// The value of digits, after a minus or without one, if it has 64 bits.
fn value_of(is_negative: bool, digits: &[u8]) -> Option<i64>
    ensures fits { let value = signed is_negative (numeral_value digits.now) in
        SomeIff result (FitsSigned w64 value) value }
    ensures value { result ≡ in_64_bits (signed is_negative (numeral_value digits.now)) }
{
    let size = numeral_value(digits);
    if is_negative {
        0i64.checked_sub_unsigned(size)
    } else {
        0i64.checked_add_unsigned(size)
    }
}

/// The value of digits that may stand in a grammar, after a minus or without one.
fn digits_value(is_negative: bool, word: Word) -> Option<Option<i64>>
    ensures { result ≡ option_map in_64_bits (digits_value is_negative (word_of word.entry)) }
{
    match word {
        Word::Number(digits) if may_stand(digits) => Some(value_of(is_negative, digits)),
        _ => None,
    }
}

/// The value of `MAX_VALUE` and of `MIN_VALUE`.
fn limit_value(word: Word) -> Option<Option<i64>>
    ensures { result ≡ option_map in_64_bits (limit_value (word_of word.entry)) }
{
    match word {
        Word::Name(name) if name == b"MAX_VALUE".as_slice() => Some(Some(i64::MAX)),
        Word::Name(name) if name == b"MIN_VALUE".as_slice() => Some(Some(i64::MIN)),
        _ => None,
    }
}

fn is_digits(word: Word) -> bool
    ensures { result ≡ is_digits (word_of word.entry) }
{
    match word {
        Word::Number(digits) => may_stand(digits),
        _ => false,
    }
}

fn is_limit(word: Word) -> bool
    ensures { result ≡ is_limit (word_of word.entry) }
{
    match word {
        Word::Name(name) => name == b"MAX_VALUE".as_slice() || name == b"MIN_VALUE".as_slice(),
        _ => false,
    }
}

fn is_negative(minus: Word, word: Word) -> bool
    ensures { result ≡ is_number (word_of minus.entry ∷ word_of word.entry ∷ []) }
{
    is_minus(minus) && is_digits(word)
}

fn is_constant(owner: Word, dot: Word, word: Word) -> bool
    ensures { result ≡ is_number (word_of owner.entry ∷ word_of dot.entry ∷ word_of word.entry ∷ []) }
{
    is_owner(owner) && is_dot(dot) && is_limit(word)
}

/// Whether the words of a text are a number. Its value isn't worked out.
pub fn is_number(text: &CutText) -> bool
    ensures { result ≡ is_number (words_in text.now) }
{
    match text.len() {
        1 => is_digits(word_at(text, 0)),
        2 => is_negative(word_at(text, 0), word_at(text, 1)),
        3 => is_constant(word_at(text, 0), word_at(text, 1), word_at(text, 2)),
        _ => false,
    }
}

fn negative(minus: Word, word: Word) -> Option<Option<i64>>
    ensures { result
        ≡ option_map in_64_bits (number_value (word_of minus.entry ∷ word_of word.entry ∷ [])) }
{
    if is_minus(minus) {
        digits_value(true, word)
    } else {
        None
    }
}

fn constant(owner: Word, dot: Word, word: Word) -> Option<Option<i64>>
    ensures { result ≡ option_map in_64_bits
        (number_value (word_of owner.entry ∷ word_of dot.entry ∷ word_of word.entry ∷ [])) }
{
    if is_owner(owner) && is_dot(dot) {
        limit_value(word)
    } else {
        None
    }
}

/// The number that words are, if they are one: digits, a minus and digits, `Long.MAX_VALUE` or
/// `Long.MIN_VALUE`. The inner `None` is of a number outside 64 bits. These are the first three words of `count`, with
/// bad ones for those that are missing.
fn number_in(count: usize, first: Word, second: Word, third: Word) -> Option<Option<i64>>
    ensures { (ws : List meant) → count ≡ length ws → word_of first.entry ≡ get_or ws 0 bad
        → word_of second.entry ≡ get_or ws 1 bad → word_of third.entry ≡ get_or ws 2 bad
        → result ≡ option_map in_64_bits (number_value ws) }
{
    match count {
        1 => digits_value(false, first),
        2 => negative(first, second),
        3 => constant(first, second, third),
        _ => None,
    }
}

/// The value of the number that the words of a text are; `None` if it is outside 64 bits, or they are no number. It
/// takes no memory.
pub fn number_read(text: &CutText) -> Option<i64>
    ensures { result ≡ number_read (words_in text.now) }
{
    number_in(
        text.len(),
        word_at(text, 0),
        word_at(text, 1),
        word_at(text, 2),
    )
    .flatten()
}

/// Where a token begins, or the end where there is none: a byte position from 1.
fn column_of(text: &[u8], tokens: &[Token], place: usize) -> usize
    requires { StandIn text.now tokens.now }
    ensures { result ≡ column text.now tokens.now place }
{
    match tokens.get(place) {
        Some(token) => token.from + 1,
        None => text.len() + 1,
    }
}

/// The word of the token at a place, a bad one if there is none.
fn token_word<'a>(text: &'a [u8], tokens: &[Token], place: usize) -> Word<'a>
    requires { StandIn text.now tokens.now }
    ensures { word_of result ≡ get_or (words_of text.now tokens.now) place bad }
{
    if place >= tokens.len() {
        return Word::Bad;
    }
    let token = tokens[place];
    word_for(token.kind, token.text(text))
}

/// How many of three words some number begins with.
fn front(first: Word, second: Word, third: Word) -> usize
    ensures { result ≡ front (word_of first.entry) (word_of second.entry) (word_of third.entry) }
{
    if is_digits(first) {
        1
    } else if is_minus(first) {
        if is_digits(second) { 2 } else { 1 }
    } else if is_owner(first) {
        front_of_constant(second, third)
    } else {
        0
    }
}

/// How many words of a constant stand there, if the first one does.
fn front_of_constant(second: Word, third: Word) -> usize
    ensures { result ≡ front_of_constant (word_of second.entry) (word_of third.entry) }
{
    if !is_dot(second) {
        1
    } else if is_limit(third) {
        3
    } else {
        2
    }
}

/// The value of a number: digits, a minus and digits, `Long.MAX_VALUE` or `Long.MIN_VALUE`. The tokens
/// are a part of the tokens that were cut from the text.
///
/// `LiteralTooLarge` for a value outside 64 bits, `Syntax` for tokens that are no number. It takes no
/// memory.
///
/// For other programs: `streamrun` reads numbers by `number_read`.
#[tactic(auto, using(stream_tokens::proofs::CutLemmas::order_in_range))]
pub fn read_number(text: &[u8], tokens: &[Token]) -> Result<i64, ReadFault>
    requires { StandInOrder 0 tokens.now (length text.now) }
    ensures ok { IfOk result (λ number. SpellsNumber text.now tokens.now number) }
    ensures refused { IfErr result (λ fault. IsNumberRefused text.now tokens.now fault) }
{
    let first = token_word(text, tokens, 0);
    let second = token_word(text, tokens, 1);
    let third = token_word(text, tokens, 2);
    match number_in(tokens.len(), first, second, third) {
        Some(Some(value)) => Ok(value),
        Some(None) => Err(ReadFault::LiteralTooLarge),
        None => Err(ReadFault::Syntax {
            column: column_of(text, tokens, front(first, second, third)),
        }),
    }
}
