//! The words of a text: what its tokens are to a grammar.
ghost use Rattle.std.specs.Prelude.{◌≡◌, ◌≤◌, get_or, length};
ghost use Rattle.lambda_expr.specs.CodeWords.{word_of, words_in};
ghost use Rattle.lambda_expr.specs.NumberWords.{is_dot, is_minus, is_owner};
ghost use Rattle.lambda_expr.specs.Words.{bad, word_for};

use stream_tokens::{CutText, Symbol, TokenKind};

/// A token with its bytes, or its symbol.
#[derive(Clone, Copy)]
pub enum Word<'a> {
    Name(&'a [u8]),
    Number(&'a [u8]),
    Text(&'a [u8]),
    Reference(&'a [u8]),
    Sign(Symbol),
    Bad,
}

/// The word of a token of this kind with these bytes.
pub(crate) fn word_for(kind: TokenKind, bytes: &[u8]) -> Word<'_>
    ensures { word_of result ≡ word_for kind bytes.now }
{
    match kind {
        TokenKind::Name => Word::Name(bytes),
        TokenKind::Number => Word::Number(bytes),
        TokenKind::String => Word::Text(bytes),
        TokenKind::Reference => Word::Reference(bytes),
        TokenKind::Symbol(symbol) => Word::Sign(symbol),
        TokenKind::Bad => Word::Bad,
    }
}

/// The word at a place of a text, a bad one if there is none.
pub fn word_at<'a>(text: &CutText<'a>, place: usize) -> Word<'a>
    ensures word { word_of result ≡ get_or (words_in text.now) place bad }
    ensures len { length text.now.tokens ≤ usize.MAX }
{
    if place >= text.len() {
        return Word::Bad;
    }
    word_for(text.kind(place), text.word(place))
}

/// Whether a word is a minus.
pub(crate) fn is_minus(word: Word) -> bool
    ensures { result ≡ is_minus (word_of word.entry) }
{
    matches!(word, Word::Sign(Symbol::Minus))
}

/// Whether a word is a dot.
pub(crate) fn is_dot(word: Word) -> bool
    ensures { result ≡ is_dot (word_of word.entry) }
{
    matches!(word, Word::Sign(Symbol::Dot))
}

/// Whether a word is the class that the constants belong to.
pub(crate) fn is_owner(word: Word) -> bool
    ensures { result ≡ is_owner (word_of word.entry) }
{
    match word {
        Word::Name(name) => name == b"Long".as_slice(),
        _ => false,
    }
}
