//! What the parts of a job are refused for, and where they stand.
ghost use Rattle.std.specs.Prelude.{◌≡◌, ◌<◌, ◌+◌, length, get_or, []};
ghost use Rattle.lambda_expr.specs.CodeWords.{words_in};
ghost use Rattle.job_language.specs.Splitting.{AreEnds};
ghost use Rattle.job_language.specs.Arguments.{argument_text};
ghost use Rattle.job_language.specs.Shapes.{StandsIn, call_in, placed_in, start_before};
ghost use Rattle.job_language.specs.Causes.{first_cause, when, name_causes, inside_quotes};
ghost use Rattle.job_language.specs.Scopes.{scope_of};

use crate::fault::Cause;
use crate::piece::WrittenCall;
use crate::scope::{Scope, given};
use crate::word::part;
use stream_tokens::CutText;

/// How many bytes a name may have.
const MAX_NAME: usize = 64;

/// Why a job can't have this name.
pub fn name_cause(scope: Scope, name: &[u8]) -> Option<Cause>
    ensures { result ≡ first_cause (name_causes (scope_of scope.entry) name.now) }
{
    if name.len() > MAX_NAME {
        return Some(Cause::TooLong);
    }
    if given(scope.jobs, name).is_some() {
        return Some(Cause::SameName);
    }
    None
}

/// The cause, if what it is a cause of holds.
pub fn when(holds: bool, cause: Cause) -> Option<Cause>
    ensures { result ≡ when holds cause }
{
    if holds { Some(cause) } else { None }
}

/// Where part `place` begins, in the words after the parenthesis.
fn part_start(ends: &[usize], place: usize, most: usize) -> usize
    requires in_range { place < length ends.now }
    requires in_order { AreEnds 0 ends.now most }
    ensures { result ≡ start_before 0 ends.now place }
{
    if place == 0 {
        return 0;
    }
    ends[place - 1] + 1
}

/// A part of a call, with its tokens. Nothing is cut or copied.
pub fn part_of<'a>(text: &CutText<'a>, call: &WrittenCall, place: usize) -> CutText<'a>
    requires stands { StandsIn (words_in text.now) call.now }
    requires in_range { place < length call.now.ends.items }
    ensures words { words_in result ≡ get_or (call_in (words_in text.now) call.now).parts place [] }
    ensures last { place + 1 ≡ length call.now.ends.items
        → result ≡ argument_text text.now (placed_in (words_in text.now) call.now) }
{
    let ends = call.ends.as_slice();
    let from = part_start(ends, place, text.len());
    part(text, call.opened, from, ends[place])
}

/// The bytes of a string token between its quotes; none of fewer than two bytes.
pub fn inside_quotes(text: &[u8]) -> &[u8]
    ensures { result.now ≡ inside_quotes text.now }
{
    if text.len() < 2 {
        return &text[..0];
    }
    &text[1..text.len() - 1]
}
