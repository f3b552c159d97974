//! Calls: an operation, and the parts between its parentheses.
ghost use Rattle.std.specs.Prelude.{◌≡◌, ◌<◌, ◌+◌, List, length, drop, IfOk, MatchOption};
ghost use Rattle.lambda_expr.specs.Words.{Word as meant};
ghost use Rattle.job_language.specs.declared.operation.Operation.{Operation as operation};
ghost use Rattle.job_language.specs.Calls.{Call as call};
ghost use Rattle.lambda_expr.specs.CodeWords.{words_in};
ghost use Rattle.job_language.specs.Splitting.{reads, start, pieces, fits_from, IsSplit, IsReadAs};
ghost use Rattle.job_language.specs.Splitting.{IsNoCallOf, AreEnds, IsOpen, Completes};

use crate::operation::Operation;
use crate::params::{allows, param_of};
use crate::word::{Bracket, bracket_at, fits, nest, part};
use std::alloc::{AllocError, Global};
use stream_tokens::CutText;

/// The places where the parts of a call end, in the words after its opening parenthesis; the last ends
/// at the closing one. One walk, whatever the operation is. `None` if the call isn't closed.
fn split(alloc: Global, text: &CutText, opened: usize) -> Result<Option<Vec<usize>>, AllocError>
    requires { opened < length text.now.tokens }
    ensures { let ws = drop (opened + 1) (words_in text.now) in
        IfOk result (λ found. MatchOption found (IsOpen (reads start ws)) (λ ends. IsSplit ws ends.items)) }
{
    let mut ends = Vec::new(alloc);
    let mut depth = 0;
    let count = text.len() - opened - 1;
    for at in 0..count {
        let bracket = bracket_at(text, opened + 1 + at);
        match nest(depth, bracket) {
            Some(after) => depth = after,
            None => {
                if bracket == Bracket::Close {
                    if at == 0 {
                        return Ok(Some(ends));
                    }
                    ends.push(at)?;
                    return Ok(Some(ends));
                }
                ends.push(at)?;
            }
        }
    }
    Ok(None)
}

/// Whether each of the parts that end there is what the row says.
fn fit(operation: Operation, text: &CutText, opened: usize, ends: &[usize]) -> bool
    requires opened { opened < length text.now.tokens }
    requires ends { AreEnds 0 ends.now (length (drop (opened + 1) (words_in text.now))) }
    ensures { result ≡ fits_from operation (length ends.now) 0
        (pieces (drop (opened + 1) (words_in text.now)) 0 ends.now) }
{
    let mut from = 0;
    for at in 0..ends.len() {
        let to = ends[at];
        let part = part(text, opened, from, to);
        if !fits(param_of(operation, ends.len(), at), &part) {
            return false;
        }
        from = to + 1;
    }
    true
}

/// The places where the parts of a call end, in the words after its opening parenthesis. `None` if
/// they don't complete a call of this operation.
pub fn read_call(
    alloc: Global,
    operation: Operation,
    text: &CutText,
    opened: usize,
) -> Result<Option<Vec<usize>>, AllocError>
    requires { opened < length text.now.tokens }
    ensures { let ws = drop (opened + 1) (words_in text.now) in
        IfOk result (λ found. MatchOption found (IsNoCallOf operation ws)
        (λ ends. IsReadAs operation ws ends.items)) }
{
    match split(alloc, text, opened)? {
        None => Ok(None),
        Some(ends) => {
            if !allows(operation, ends.len()) {
                return Ok(None);
            }
            if !fit(operation, text, opened, &ends) {
                return Ok(None);
            }
            Ok(Some(ends))
        }
    }
}

/// A call is completed in one way.
pub fn one_call()
    ensures { (c d : call) (r s ws : List meant) → c.operation ≡ d.operation
        → Completes c r ws → Completes d s ws → (c ≡ d) × (r ≡ s) }
{}
