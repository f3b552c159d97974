//! What a token is, and its text.
ghost use Rattle.std.specs.Prelude.{◌≡◌, ◌≤◌, length};
ghost use Rattle.stream_tokens.specs.Tokens.{token_text};

use crate::symbol::Symbol;

/// What a token is.
#[derive(Clone, Copy, Debug, PartialEq, Eq)]
pub enum TokenKind {
    /// A letter or `_`, then letters, digits and `_`.
    Name,
    /// Digits, and at most one `L` or `l` after them.
    Number,
    /// A string: a quote, any bytes but a quote, a backslash, CR and LF, and a quote.
    String,
    /// `$` directly followed by a name.
    Reference,
    /// One of the symbols.
    Symbol(Symbol),
    /// A byte that begins no other token, by itself.
    Bad,
}

/// A token: what it is, and where it stands in its text, from `from` up to but not including `to`.
#[derive(Clone, Copy, Debug, PartialEq, Eq)]
pub struct Token {
    pub kind: TokenKind,
    pub from: usize,
    pub to: usize,
}

impl Token {
    /// The bytes of the token in the text that it was cut from.
    pub fn text<'a>(&self, text: &'a [u8]) -> &'a [u8]
        requires in_order { self.now.from ≤ self.now.to }
        requires in_range { self.now.to ≤ length text.now }
        ensures { result.now ≡ token_text text.now self.now }
    {
        &text[self.from..self.to]
    }
}
