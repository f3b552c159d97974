//! What the tokens of a text are to the grammar of lambdas.

ghost use Rattle.lambda_expr.specs.Lexemes.{between_quotes, first_name, is_reserved, is_taken, lexeme_of};
ghost use Rattle.lambda_expr.specs.Lexemes.{lexemes_of, name_of, names_in, number_lexeme, numeral_of, order_of};
ghost use Rattle.lambda_expr.specs.Lexemes.{reference_name, symbol_lexeme, value_in};
ghost use Rattle.lambda_expr.specs.Numerals.{numeral_value};
ghost use Rattle.lambda_expr.specs.CodeWords.{word_of, words_in};
ghost use Rattle.std.specs.Prelude.{◌≡◌, ◌≤◌, ◌-◌, ◌^◌, drop, get_or, length, min, option_copied, take};

use crate::number::{may_stand, numeral_value};
use crate::sign::Sign;
use crate::table::{Member, member_of};
use crate::word::{Word, word_at};
use job_names::places_of;
use std::marker::Model;
use stream_tokens::{CutText, Symbol};

/// A class whose methods and constants a lambda may name.
#[derive(Clone, Copy)]
pub(crate) enum ClassName {
    Math,
    Long,
}

/// A name that a parameter may have.
#[derive(Clone, Copy)]
pub(crate) struct PlainName {
    /// 0 for the first name of the text that a parameter may have, 1 for the second one that differs,
    /// 2 for any other.
    pub(crate) number: usize,
    pub(crate) member: Member,
}

/// A name.
#[derive(Clone, Copy)]
pub(crate) enum Name {
    Plain(PlainName),
    ClassName(ClassName),
    /// `true` and `false`.
    Truth(bool),
    /// `long`.
    LowerLong,
    /// `LongStream`.
    LongStream,
    /// `cell`, in a text that may have cells and rows.
    Cell,
    /// `row`, in a text that may have cells and rows.
    Row,
}

/// A number as it is written.
#[derive(Clone, Copy)]
pub(crate) enum Numeral {
    /// One that may be a number of decimal places: 0 to 18, in digits alone.
    Places(u8),
    /// Any other one by its value, or by the greatest `u64` if that is less.
    Value(u64),
}

/// What a token is to the grammar.
#[derive(Clone, Copy)]
pub(crate) enum Lexeme {
    Open,
    Name(Name),
    Number(Numeral),
    /// A reference, by the place of its token.
    Reference(usize),
    /// A string, by the place of its token, in a text that may have cells and rows.
    Text(usize),
    Sign(Sign),
    Close,
    Dot,
    Question,
    Colon,
    Arrow,
    Other,
}

/// Which of the names of a text this one is, if these are the first two: 0, 1, or 2 for any other.
fn order_of(first: Option<&[u8]>, second: Option<&[u8]>, name: &[u8]) -> usize
    ensures { result ≡ order_of (option_copied first.entry) (option_copied second.entry) name.now }
{
    if Some(name) == first {
        0
    } else if Some(name) == second {
        1
    } else {
        2
    }
}

/// A name of a text, if these are the first two that a parameter may have.
fn name_of(cells: bool, first: Option<&[u8]>, second: Option<&[u8]>, name: &[u8]) -> Name
    ensures { result ≡ name_of cells (option_copied first.entry) (option_copied second.entry) name.now }
{
    if name == b"Math".as_slice() {
        Name::ClassName(ClassName::Math)
    } else if name == b"Long".as_slice() {
        Name::ClassName(ClassName::Long)
    } else if name == b"LongStream".as_slice() {
        Name::LongStream
    } else if name == b"long".as_slice() {
        Name::LowerLong
    } else if name == b"true".as_slice() {
        Name::Truth(true)
    } else if name == b"false".as_slice() {
        Name::Truth(false)
    } else if cells && name == b"cell".as_slice() {
        Name::Cell
    } else if cells && name == b"row".as_slice() {
        Name::Row
    } else {
        Name::Plain(PlainName {
            number: order_of(first, second, name),
            member: member_of(name),
        })
    }
}

fn symbol_lexeme(symbol: Symbol) -> Lexeme
    ensures { result ≡ symbol_lexeme symbol }
{
    match symbol {
        Symbol::Arrow => Lexeme::Arrow,
        Symbol::Open => Lexeme::Open,
        Symbol::Close => Lexeme::Close,
        Symbol::Dot => Lexeme::Dot,
        Symbol::Question => Lexeme::Question,
        Symbol::Colon => Lexeme::Colon,
        _ => match Sign::of(symbol) {
            Some(sign) => Lexeme::Sign(sign),
            None => Lexeme::Other,
        },
    }
}

impl Numeral {
    /// The numeral that a word is.
    fn of(number: &[u8]) -> Numeral
        ensures numeral { result ≡ numeral_of number.now }
        ensures value { value_in result ≡ min (numeral_value number.now) (2 ^ 64 - 1) }
    {
        match places_of(number) {
            Some(places) => Numeral::Places(places),
            None => Numeral::Value(numeral_value(number)),
        }
    }

    /// Its value.
    pub(crate) fn value(self) -> u64
        ensures { result ≡ value_in self }
    {
        match self {
            Numeral::Places(places) => u64::from(places),
            Numeral::Value(value) => value,
        }
    }
}

fn number_lexeme(number: &[u8]) -> Lexeme
    ensures { result ≡ number_lexeme number.now }
{
    if may_stand(number) {
        Lexeme::Number(Numeral::of(number))
    } else {
        Lexeme::Other
    }
}

/// The lexeme of the word at a place, if these are the first two names that a parameter may have.
fn lexeme_of(
    cells: bool,
    first: Option<&[u8]>,
    second: Option<&[u8]>,
    at: usize,
    word: Word,
) -> Lexeme
    ensures { result
        ≡ lexeme_of cells (option_copied first.entry) (option_copied second.entry) at (word_of word.entry) }
{
    match word {
        Word::Name(name) => Lexeme::Name(name_of(cells, first, second, name)),
        Word::Number(number) => number_lexeme(number),
        Word::Reference(_) => Lexeme::Reference(at),
        Word::Text(_) if cells => Lexeme::Text(at),
        Word::Sign(symbol) => symbol_lexeme(symbol),
        _ => Lexeme::Other,
    }
}

/// Whether no parameter has this name.
fn is_reserved(cells: bool, name: &[u8]) -> bool
    ensures { result ≡ is_reserved cells name.now }
{
    cells && (name == b"cell".as_slice() || name == b"row".as_slice())
        || name == b"Math".as_slice()
        || name == b"Long".as_slice()
        || name == b"LongStream".as_slice()
        || name == b"long".as_slice()
        || name == b"true".as_slice()
        || name == b"false".as_slice()
}

/// The first name of a text that a parameter may have, apart from one that is taken.
fn first_name<'a>(cells: bool, text: &CutText<'a>, taken: Option<&[u8]>) -> Option<&'a [u8]>
    ensures { option_copied result ≡ first_name cells (option_copied taken.entry) (words_in text.now) }
{
    for at in 0..text.len() {
        if let Word::Name(name) = word_at(text, at) {
            if !is_reserved(cells, name) && Some(name) != taken {
                return Some(name);
            }
        }
    }
    None
}

/// The lexemes of a part of a text, from `from` up to, not with, `to`. Contracts see their list.
#[derive(Drop)]
pub(crate) struct Lexemes<'a> {
    text: &'a CutText<'a>,
    /// Whether the text may have cells and rows.
    cells: bool,
    /// The first two names of the text that a parameter may have.
    first: Option<&'a [u8]>,
    second: Option<&'a [u8]>,
    from: usize,
    to: usize,
}

impl<'a> Model for Lexemes<'a> {
    ghost use Rattle.std.specs.Prelude.{List};
    ghost use Rattle.lambda_expr.specs.declared.lexeme.Lexeme.{Lexeme as lexeme};
    ghost use Rattle.lambda_expr.specs.LexemeParts.{part_of, IsPart};

    ghost Value = { List lexeme };

    ghost view = { part_of };

    ghost invariant = { IsPart };
}

impl<'a> Lexemes<'a> {
    /// The lexemes of a text, which may have cells and rows or not.
    pub(crate) fn of(text: &'a CutText<'a>, cells: bool) -> Lexemes<'a>
        ensures { result ≡ lexemes_of cells text.now.bytes text.now.tokens }
    {
        let first = first_name(cells, text, None);
        Lexemes {
            text,
            cells,
            first,
            second: first_name(cells, text, first),
            from: 0,
            to: text.len(),
        }
    }

    /// How many there are.
    pub(crate) fn len(&self) -> usize
        ensures { result ≡ length self.now }
    {
        self.to - self.from
    }

    /// The lexeme at a place, `Other` past the last one.
    pub(crate) fn at(&self, place: usize) -> Lexeme
        ensures { result ≡ get_or self.now place Lexeme.Other }
    {
        if place >= self.len() {
            return Lexeme::Other;
        }
        let at = self.from + place;
        lexeme_of(
            self.cells,
            self.first,
            self.second,
            at,
            word_at(self.text, at),
        )
    }

    /// Those from a place on.
    pub(crate) fn after(&self, count: usize) -> Lexemes<'a>
        requires { count ≤ length self.now }
        ensures lexemes { result ≡ drop count self.now }
        ensures len { length self.now ≤ usize.MAX }
    {
        Lexemes {
            from: self.from + count,
            ..*self
        }
    }

    /// Those up to a place.
    pub(crate) fn before(&self, end: usize) -> Lexemes<'a>
        requires { end ≤ length self.now }
        ensures { result ≡ take end self.now }
    {
        Lexemes {
            to: self.from + end,
            ..*self
        }
    }
}

/// The bytes between the quotes of a string.
fn between_quotes(string: &[u8]) -> &[u8]
    ensures { result.now ≡ between_quotes string.now }
{
    match string {
        [_, name @ .., _] => name,
        _ => b"".as_slice(),
    }
}

/// The name of a reference, without its `$`, or that in a string; no bytes of another word.
fn name_after_sign<'a>(word: Word<'a>) -> &'a [u8]
    ensures { result.now ≡ reference_name (word_of word.entry) }
{
    match word {
        Word::Reference([_, name @ ..]) => name,
        Word::Text(string) => between_quotes(string),
        _ => b"".as_slice(),
    }
}

/// The name of the reference at a place, without its `$`, or that in a string; no bytes if there is none.
pub(crate) fn reference_name<'a>(text: &CutText<'a>, place: usize) -> &'a [u8]
    ensures { result.now ≡ names_in text.now.bytes text.now.tokens place }
{
    name_after_sign(word_at(text, place))
}
