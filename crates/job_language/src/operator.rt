//! The operators of `prefix` and `reduce`: the table of how they are written.
ghost use Rattle.std.specs.Prelude.{◌≡◌, ◌∷◌, [], option_map};
ghost use Rattle.job_language.specs.Operators.{op_named, op_method, in_math, in_long};
ghost use Rattle.job_language.specs.Operators.{is_add_exact, method_in, spelled_op};
ghost use Rattle.lambda_expr.specs.CodeWords.{word_of, words_in};

use crate::word::name_in;
use lambda_expr::{Word, word_at};
use reduce_ops::Op;
use stream_tokens::{CutText, Symbol};

/// The operator with this name.
fn op_named(name: &[u8]) -> Option<Op>
    ensures { result ≡ op_named name.now }
{
    if name == b"sum".as_slice() {
        Some(Op::Sum)
    } else if name == b"product".as_slice() {
        Some(Op::Product)
    } else if name == b"min".as_slice() {
        Some(Op::Min)
    } else if name == b"max".as_slice() {
        Some(Op::Max)
    } else if name == b"and".as_slice() {
        Some(Op::And)
    } else if name == b"or".as_slice() {
        Some(Op::Or)
    } else if name == b"xor".as_slice() {
        Some(Op::Xor)
    } else if name == b"affine".as_slice() {
        Some(Op::Affine)
    } else if name == b"first".as_slice() {
        Some(Op::First)
    } else if name == b"last".as_slice() {
        Some(Op::Last)
    } else {
        None
    }
}

/// Whether `Math` has the operator as a method.
fn in_math(op: Op) -> bool
    ensures { result ≡ in_math op }
{
    matches!(op, Op::Min | Op::Max)
}

/// Whether `Long` has the operator as a method.
fn in_long(op: Op) -> bool
    ensures { result ≡ in_long op }
{
    matches!(op, Op::Sum | Op::Min | Op::Max)
}

/// The operator that is the method `OWNER::NAME`.
fn op_method(owner: &[u8], name: &[u8]) -> Option<Op>
    ensures { result ≡ op_method owner.now name.now }
{
    if owner == b"Long".as_slice() {
        op_named(name).filter(|op| in_long(*op))
    } else if owner == b"Math".as_slice() {
        op_named(name).filter(|op| in_math(*op))
    } else {
        None
    }
}

fn method_of<'a>(owner: Word<'a>, colons: Word<'a>, name: Word<'a>) -> Option<(&'a [u8], &'a [u8])>
    ensures { option_map (λ m. (m.0.now, m.1.now)) result
        ≡ method_in (word_of owner.entry ∷ word_of colons.entry ∷ word_of name.entry ∷ []) }
{
    match owner {
        Word::Name(owner) => match colons {
            Word::Sign(Symbol::DoubleColon) => match name {
                Word::Name(name) => Some((owner, name)),
                _ => None,
            },
            _ => None,
        },
        _ => None,
    }
}

/// The owner and the name of a method `OWNER::NAME`.
fn method_in<'a>(text: &CutText<'a>) -> Option<(&'a [u8], &'a [u8])>
    ensures { option_map (λ m. (m.0.now, m.1.now)) result ≡ method_in (words_in text.now) }
{
    match text.len() {
        3 => method_of(word_at(text, 0), word_at(text, 1), word_at(text, 2)),
        _ => None,
    }
}

/// The operator that words name, if they are a name or a method; the inner `None` if no operator is
/// called so.
pub fn spelled_op(text: &CutText) -> Option<Option<Op>>
    ensures { result ≡ spelled_op (words_in text.now) }
{
    match name_in(text) {
        Some(name) => Some(op_named(name)),
        None => match method_in(text) {
            Some((owner, name)) => Some(op_method(owner, name)),
            None => None,
        },
    }
}

/// Whether words are `Math::addExact`, the addition of exact sums.
pub fn is_add_exact(text: &CutText) -> bool
    ensures { result ≡ is_add_exact (words_in text.now) }
{
    match method_in(text) {
        Some((owner, name)) => owner == b"Math".as_slice() && name == b"addExact".as_slice(),
        None => false,
    }
}
