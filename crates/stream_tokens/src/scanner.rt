//! Cutting a text into tokens.
ghost use Rattle.std.specs.Prelude.{◌≡◌, ◌<◌, ◌≤◌, ◌+◌, ℕ, List, IfOk, OnErr};
ghost use Rattle.std.specs.Prelude.{length, slice_index, All, true, false, not};
ghost use Rattle.std.specs.List.{list_all, prefix_len};
ghost use Rattle.std.specs.Char.{is_ascii_digit};
ghost use Rattle.stream_tokens.specs.declared.token.Token.{Token as token};
ghost use Rattle.stream_tokens.specs.Bytes.{is_blank, is_name_start, is_name_byte, is_long_mark, ends_text};
ghost use Rattle.stream_tokens.specs.Tokens.{AreTokensOf, IsLongest, IsFirstToken, StandInOrder};

use crate::NoMemory;
use crate::symbol::symbol_front;
use crate::token::{Token, TokenKind};
use std::alloc::Global;

/// The token at the front of a text: its kind, and how many bytes it has.
#[derive(Clone, Copy)]
struct Front {
    kind: TokenKind,
    len: usize,
}

/// A byte that begins no token, by itself.
const BAD: Front = Front {
    kind: TokenKind::Bad,
    len: 1,
};

/// A space or a tab.
pub fn is_blank(byte: u8) -> bool
    ensures { result ≡ is_blank byte }
{
    byte == b' ' || byte == b'\t'
}

fn is_name_start(byte: u8) -> bool
    ensures { result ≡ is_name_start byte }
{
    byte.is_ascii_alphabetic() || byte == b'_'
}

fn is_name_byte(byte: u8) -> bool
    ensures { result ≡ is_name_byte byte }
{
    byte.is_ascii_alphanumeric() || byte == b'_'
}

fn is_long_mark(byte: u8) -> bool
    ensures { result ≡ is_long_mark byte }
{
    byte == b'L' || byte == b'l'
}

fn ends_text(byte: u8) -> bool
    ensures { result ≡ ends_text byte }
{
    byte == b'"' || byte == b'\\' || byte == b'\r' || byte == b'\n'
}

/// How many name bytes stand at the front.
fn name_bytes(text: &[u8]) -> usize
    ensures value { result ≡ prefix_len is_name_byte text.now }
    ensures in_range { result ≤ length text.now }
{
    text.iter().take_while(|byte| is_name_byte(**byte)).count()
}

/// How many digits stand at the front.
fn digits(text: &[u8]) -> usize
    ensures value { result ≡ prefix_len is_ascii_digit text.now }
    ensures in_range { result ≤ length text.now }
{
    text.iter().take_while(|byte| byte.is_ascii_digit()).count()
}

/// How many bytes at the front may stand inside a string.
fn inside_bytes(text: &[u8]) -> usize
    ensures value { result ≡ prefix_len (λ b. not (ends_text b)) text.now }
    ensures in_range { result ≤ length text.now }
{
    text.iter().take_while(|byte| !ends_text(**byte)).count()
}

/// How many bytes the number at the front has.
fn number_len(text: &[u8]) -> usize
    requires no_name { is_name_start (slice_index text.now 0) ≡ false }
    requires digit { is_ascii_digit (slice_index text.now 0) ≡ true }
    ensures { IsLongest text.now TokenKind.Number result }
{
    let digits = digits(text);
    if digits < text.len() && is_long_mark(text[digits]) {
        digits + 1
    } else {
        digits
    }
}

/// What a quote begins: a string, or a bad byte.
fn string_front(text: &[u8]) -> Front
    requires some { 0 < length text.now }
    requires quote { slice_index text.now 0 ≡ 34 }
    ensures { IsFirstToken text.now result.kind result.len }
{
    let inside = inside_bytes(&text[1..]);
    if inside + 1 < text.len() && text[inside + 1] == b'"' {
        Front {
            kind: TokenKind::String,
            len: inside + 2,
        }
    } else {
        BAD
    }
}

/// What a dollar sign begins: a reference, or a bad byte.
fn reference_front(text: &[u8]) -> Front
    requires some { 0 < length text.now }
    requires dollar { slice_index text.now 0 ≡ 36 }
    ensures { IsFirstToken text.now result.kind result.len }
{
    let name = &text[1..];
    if !name.is_empty() && is_name_start(name[0]) {
        Front {
            kind: TokenKind::Reference,
            len: name_bytes(name) + 1,
        }
    } else {
        BAD
    }
}

/// The token at the front of a text that begins with no blank.
fn first_token(text: &[u8]) -> Front
    requires some { 0 < length text.now }
    requires solid { is_blank (slice_index text.now 0) ≡ false }
    ensures { IsFirstToken text.now result.kind result.len }
{
    let first = text[0];
    if is_name_start(first) {
        Front {
            kind: TokenKind::Name,
            len: name_bytes(text),
        }
    } else if first.is_ascii_digit() {
        Front {
            kind: TokenKind::Number,
            len: number_len(text),
        }
    } else if first == b'"' {
        string_front(text)
    } else if first == b'$' {
        reference_front(text)
    } else {
        match symbol_front(text) {
            Some(symbol) => Front {
                kind: TokenKind::Symbol(symbol),
                len: symbol.spelling().len(),
            },
            None => BAD,
        }
    }
}

/// The tokens of a text, from left to right, the longest first. Every byte string is cut: a byte that
/// begins no token is a token of kind `Bad`, and spaces and tabs stand between tokens.
///
/// Takes memory for the vector alone, and time in proportion to the text. The one error is that an
/// allocation failed; a text of blanks alone takes no memory.
pub fn cut(alloc: Global, text: &[u8]) -> Result<Vec<Token>, NoMemory>
    ensures tokens { IfOk result (λ tokens. AreTokensOf tokens.items text.now) }
    ensures in_order { IfOk result (λ tokens. StandInOrder 0 tokens.items (length text.now)) }
    ensures in_range { IfOk result (λ tokens. All (λ t. (t.from < t.to) × (t.to ≤ length text.now)) tokens.items) }
    ensures memory { OnErr result (list_all is_blank text.now ≡ false) }
{
    let mut tokens = Vec::new(alloc);
    let mut at = 0;
    while at < text.len() {
        if is_blank(text[at]) {
            at += 1;
        } else {
            let front = first_token(&text[at..]);
            let to = at + front.len;
            tokens.push(Token {
                kind: front.kind,
                from: at,
                to,
            })?;
            at = to;
        }
    }
    Ok(tokens)
}

/// A text has one list of tokens.
pub fn one_cut()
    ensures { (text : List ℕ) (a b : List token) → AreTokensOf a text → AreTokensOf b text → a ≡ b }
{}

/// The tokens of a text stand one after the other, within it.
pub fn tokens_stand_in_order()
    ensures { (text : List ℕ) (tokens : List token) → AreTokensOf tokens text → StandInOrder 0 tokens (length text) }
{}
