//! A text, or a part of one, with its tokens.
ghost use Rattle.std.specs.Prelude.{◌≡◌, ◌<◌, ◌≤◌, ℕ, List, length, get_or, slice_range};
ghost use Rattle.stream_tokens.specs.declared.token.Token.{Token as token};
ghost use Rattle.stream_tokens.specs.Tokens.{AreTokensOf, CutBetween, token_text};
ghost use Rattle.stream_tokens.specs.CutTexts.{shifted, between, column};

use crate::token::{Token, TokenKind};
use std::marker::Model;

/// A text, or a part of one, with its tokens. Contracts see its bytes and its tokens, with
/// positions counted from its first byte, and know that these are the tokens of these bytes.
#[derive(Drop)]
pub struct CutText<'a> {
    text: &'a [u8],
    tokens: &'a [Token],
    from: usize,
    to: usize,
}

impl<'a> Model for CutText<'a> {
    ghost use Rattle.stream_tokens.specs.CutTexts.{TokenizedText};

    ghost Value = { TokenizedText };

    ghost use Rattle.stream_tokens.specs.CutFields.{tokenized, IsCut};

    ghost view = { tokenized };

    ghost invariant = { IsCut };
}

/// Token `place`.
fn token_at(tokens: &[Token], place: usize) -> Token
    requires { place < length tokens.now }
    ensures { (d : token) → result ≡ get_or tokens.now place d }
{
    tokens[place]
}

/// The tokens from `from` up to, not with, `to`.
fn tokens_of(tokens: &[Token], from: usize, to: usize) -> &[Token]
    requires in_order { from ≤ to }
    requires in_range { to ≤ length tokens.now }
    ensures { result.now ≡ slice_range tokens.now from to }
{
    &tokens[from..to]
}

impl<'a> CutText<'a> {
    /// A whole text with its tokens, as `cut` gives them.
    pub fn of(text: &'a [u8], tokens: &'a [Token]) -> CutText<'a>
        requires { AreTokensOf tokens.now text.now }
        ensures bytes { result.bytes ≡ text.now }
        ensures tokens { result.tokens ≡ tokens.now }
    {
        CutText {
            text,
            tokens,
            from: 0,
            to: text.len(),
        }
    }

    /// The bytes of the text.
    pub fn bytes(&self) -> &'a [u8]
        ensures bytes { result.now ≡ self.now.bytes }
        ensures tokens { AreTokensOf self.now.tokens self.now.bytes }
    {
        &self.text[self.from..self.to]
    }

    /// The number of tokens.
    pub fn len(&self) -> usize
        ensures { result ≡ length self.now.tokens }
    {
        self.tokens.len()
    }

    /// The kind of a token.
    pub fn kind(&self, place: usize) -> TokenKind
        requires { place < length self.now.tokens }
        ensures { (d : token) → result ≡ (get_or self.now.tokens place d).kind }
    {
        token_at(self.tokens, place).kind
    }

    /// The bytes of a token.
    pub fn word(&self, place: usize) -> &'a [u8]
        requires { place < length self.now.tokens }
        ensures { (d : token)
            → result.now ≡ token_text self.now.bytes (get_or self.now.tokens place d) }
    {
        token_at(self.tokens, place).text(self.text)
    }

    /// The part between two tokens, without either; no byte or token is copied.
    pub fn between(&self, opened: usize, closed: usize) -> CutText<'a>
        requires in_order { opened < closed }
        requires in_range { closed < length self.now.tokens }
        ensures { (d : token) → result ≡ between self.now (get_or self.now.tokens opened d)
            (get_or self.now.tokens closed d) opened closed }
    {
        CutText {
            text: self.text,
            tokens: tokens_of(self.tokens, opened + 1, closed),
            from: token_at(self.tokens, opened).to,
            to: token_at(self.tokens, closed).from,
        }
    }

    /// Where a token begins: a byte position from 1. At `len()` and above, one past the end of the
    /// text.
    pub fn column(&self, place: usize) -> usize
        ensures { result ≡ column self.now.bytes self.now.tokens place }
    {
        match self.tokens.get(place) {
            Some(token) => token.from - self.from + 1,
            None => self.to - self.from + 1,
        }
    }
}

/// The tokens of a part of a text are the tokens of its bytes.
pub fn tokens_of_a_part()
    ensures { (text : List ℕ) (a b : ℕ) (ts : List token) → b ≤ length text → CutBetween text a ts b
        → AreTokensOf (shifted a ts) (slice_range text a b) }
{}
