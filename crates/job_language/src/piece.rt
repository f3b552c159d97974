//! The pieces of a job after its `=`: calls, and what stands between them.
ghost use Rattle.std.specs.Prelude.{◌≡◌, ◌≤◌, ◌<◌, ◌+◌, ◌∷◌, List, IfOk, MatchOption, Some, None, length, get_or, drop};
ghost use Rattle.lambda_expr.specs.Words.{Word as meant, named, sign, bad};
ghost use Rattle.job_language.specs.Table.{name_of};
ghost use Rattle.lambda_expr.specs.CodeWords.{word_of, words_in};
ghost use Rattle.job_language.specs.Shapes.{mark_of_symbol, width, is_open, operation_in};
ghost use Rattle.job_language.specs.Shapes.{IsNoPiece, IsPieceRead, IsMarkOf};

use crate::call::read_call;
use crate::operation::{Operation, Role, operation_of};
use crate::params::role_of;
use lambda_expr::{Word, word_at};
use std::alloc::{AllocError, Global};
use stream_tokens::{CutText, Symbol};

/// What a piece of a job is to its reader.
#[derive(Clone, Copy, PartialEq, Eq)]
pub enum Mark {
    /// A call, or the beginning of a `concat`.
    Call(Role),
    /// `LongStream`.
    Owner,
    Comma,
    Close,
    Dot,
    Semicolon,
}

/// A call of a job, by the places of its words.
#[derive(Drop)]
pub struct WrittenCall {
    pub operation: Operation,
    /// The place of its opening parenthesis.
    pub opened: usize,
    /// Where each part ends, counted from the word after the parenthesis.
    pub ends: Vec<usize>,
}

/// A piece as it is read: what it is to the reader, the place after it, and its call.
#[derive(Drop)]
pub struct ReadPiece {
    pub mark: Mark,
    pub to: usize,
    pub call: Option<WrittenCall>,
}

fn mark_of_symbol(symbol: Symbol) -> Option<Mark>
    ensures { result ≡ mark_of_symbol symbol }
{
    match symbol {
        Symbol::Comma => Some(Mark::Comma),
        Symbol::Close => Some(Mark::Close),
        Symbol::Dot => Some(Mark::Dot),
        Symbol::Semicolon => Some(Mark::Semicolon),
        _ => None,
    }
}

/// Whether a word is an opening parenthesis.
fn is_open(word: Word) -> bool
    ensures { result ≡ is_open (word_of word.entry) }
{
    matches!(word, Word::Sign(Symbol::Open))
}

/// How many words a call with these ends has after its opening parenthesis.
fn width(ends: &[usize], most: usize) -> usize
    requires { width ends.now ≤ most }
    ensures { result ≡ width ends.now }
{
    match ends.len() {
        0 => 1,
        len => ends[len - 1] + 1,
    }
}

/// The call, or the beginning of a `concat`, whose name and parenthesis stand there.
fn call_piece(
    alloc: Global,
    operation: Operation,
    text: &CutText,
    at: usize,
) -> Result<Option<ReadPiece>, AllocError>
    requires in_range { at + 1 < length text.now.tokens }
    requires name { get_or (words_in text.now) at bad ≡ named (name_of operation) }
    requires open { get_or (words_in text.now) (at + 1) bad ≡ sign Symbol.Open }
    ensures { IfOk result (λ found. MatchOption found (IsNoPiece (drop at (words_in text.now)))
        (λ piece. IsPieceRead (words_in text.now) at piece)) }
{
    let len = text.len();
    let role = role_of(operation);
    if role == Role::Concatenation {
        return Ok(Some(ReadPiece {
            mark: Mark::Call(role),
            to: at + 2,
            call: None,
        }));
    }
    let Some(ends) = read_call(alloc, operation, text, at + 1)? else {
        return Ok(None);
    };
    let to = at + 2 + width(&ends, len);
    Ok(Some(ReadPiece {
        mark: Mark::Call(role),
        to,
        call: Some(WrittenCall {
            operation,
            opened: at + 1,
            ends,
        }),
    }))
}

/// The mark of a word that is a piece by itself, if it names no operation.
fn mark_of_word(word: Word) -> Option<Mark>
    requires { operation_in (word_of word) ≡ None }
    ensures { MatchOption result ((ws : List meant) → IsNoPiece (word_of word.entry ∷ ws))
        (λ mark. IsMarkOf (word_of word.entry) mark) }
{
    match word {
        Word::Sign(symbol) => mark_of_symbol(symbol),
        Word::Name(name) => (name == b"LongStream".as_slice()).then_some(Mark::Owner),
        _ => None,
    }
}

/// The operation that a word names.
fn operation_in(word: Word) -> Option<Operation>
    ensures { result ≡ operation_in (word_of word.entry) }
{
    match word {
        Word::Name(name) => operation_of(name),
        _ => None,
    }
}

/// The piece that is one word.
fn word_piece(text: &CutText, at: usize) -> Option<ReadPiece>
    requires in_range { at < length text.now.tokens }
    requires other { operation_in (get_or (words_in text.now) at bad) ≡ None }
    ensures { MatchOption result (IsNoPiece (drop at (words_in text.now)))
        (λ piece. IsPieceRead (words_in text.now) at piece) }
{
    match mark_of_word(word_at(text, at)) {
        Some(mark) => Some(ReadPiece {
            mark,
            to: at + 1,
            call: None,
        }),
        None => None,
    }
}

/// The piece that stands there, if one does.
pub fn piece_at(alloc: Global, text: &CutText, at: usize) -> Result<Option<ReadPiece>, AllocError>
    requires { at < length text.now.tokens }
    ensures { IfOk result (λ found. MatchOption found (IsNoPiece (drop at (words_in text.now)))
        (λ piece. IsPieceRead (words_in text.now) at piece)) }
{
    match operation_in(word_at(text, at)) {
        Some(operation) => {
            if is_open(word_at(text, at + 1)) {
                call_piece(alloc, operation, text, at)
            } else {
                Ok(None)
            }
        }
        None => Ok(word_piece(text, at)),
    }
}
