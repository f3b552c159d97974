//! One job, read from its text.
ghost use Rattle.std.specs.Prelude.{◌≡◌, ◌≢◌, ◌≤◌, List, IfErr, IfOk, Ok, Err, length};
ghost use Rattle.stream_tokens.specs.Tokens.{AreTokensOf};
ghost use Rattle.lambda_expr.specs.Words.{Word as meant};
ghost use Rattle.job_language.specs.declared.fault.Cause.TheVariants.{NoMemory};
ghost use Rattle.lambda_expr.specs.CodeWords.{words_in};
ghost use Rattle.job_language.specs.Grammar.{Job as meant_job, IsJob};
ghost use Rattle.job_language.specs.Shapes.{calls_in, all_placed, AreCallsIn, one_if_source};
ghost use Rattle.job_language.specs.Shapes.{begins_with_column, has_one_column, sources_in, first_name};
ghost use Rattle.job_language.specs.Causes.{has_later_call, when};
ghost use Rattle.job_language.specs.Jobs.{job_of};
ghost use Rattle.job_language.specs.Scopes.{scope_of};
ghost use Rattle.job_language.specs.Verdicts.{IsRead};
ghost use Rattle.job_language.specs.Parts.{Answers, causes_before};

use crate::causes::{name_cause, when};
use crate::fault::Cause;
use crate::job::Job;
use crate::operation::{Operation, Role};
use crate::params::{role_of, version_of_call};
use crate::parts::read_parts;
use crate::piece::WrittenCall;
use crate::scope::Scope;
use crate::shape::parse_job;
use crate::word::name_of;
use lambda_expr::word_at;
use std::alloc::Global;
use stream_tokens::{CutText, cut};

/// How many bytes the text of a job may have.
const MAX_BYTES: usize = 65_536;
/// How many plain sources a job may have; each source inside `concat` counts.
const MAX_SOURCES: usize = 8;

fn one_if_source(role: Role) -> usize
    ensures value { result ≡ one_if_source role }
    ensures bound { result ≤ 1 }
{
    match role {
        Role::Source => 1,
        _ => 0,
    }
}

/// How many of the calls are sources.
fn sources_in(calls: &[WrittenCall]) -> usize
    ensures { (ws : List meant) → result ≡ sources_in (calls_in ws calls.now) }
{
    let mut count = 0;
    for call in calls {
        count += one_if_source(role_of(call.operation));
    }
    count
}

/// Whether one of the calls is of a later version than this.
fn has_later_call(version: u8, calls: &[WrittenCall]) -> bool
    ensures { (ws : List meant) → result ≡ has_later_call version (calls_in ws calls.now) }
{
    for call in calls {
        if version < version_of_call(call.operation, call.ends.as_slice().len()) {
            return true;
        }
    }
    false
}

/// Why a job with these calls is none of this version.
fn version_cause(version: u8, calls: &[WrittenCall]) -> Option<Cause>
    ensures { (ws : List meant) → result ≡ when (has_later_call version (calls_in ws calls.now)) Cause.Syntax }
{
    when(has_later_call(version, calls), Cause::Syntax)
}

/// The name that a text begins with.
fn first_name<'a>(text: &CutText<'a>) -> &'a [u8]
    ensures { result.now ≡ first_name (words_in text.now) }
{
    name_of(word_at(text, 0)).unwrap_or(&[])
}

/// Why a job is refused before its calls are read.
fn early_cause(scope: Scope, text: &CutText, calls: &[WrittenCall]) -> Option<Cause>
    requires { AreCallsIn (words_in text.now) (all_placed (words_in text.now) calls.now) }
    ensures { (j : meant_job) → IsJob (words_in text.now) j
        → result ≡ causes_before (scope_of scope.entry) j }
{
    if let Some(cause) = version_cause(scope.version, calls) {
        return Some(cause);
    }
    if let Some(cause) = name_cause(scope, first_name(text)) {
        return Some(cause);
    }
    if sources_in(calls) > MAX_SOURCES {
        return Some(Cause::TooLong);
    }
    None
}

fn begins_with_column(calls: &[WrittenCall]) -> bool
    ensures { (ws : List meant) → result ≡ begins_with_column (calls_in ws calls.now) }
{
    match calls {
        [call, ..] => call.operation == Operation::Column,
        [] => false,
    }
}

/// Whether the one source among the calls is a column, so that the items are rows.
fn goes_over_rows(calls: &[WrittenCall]) -> bool
    ensures { (ws : List meant) → result ≡ has_one_column (calls_in ws calls.now) }
{
    sources_in(calls) == 1 && begins_with_column(calls)
}

/// Reads a job from its text and tokens.
fn read_cut<'c>(alloc: Global, scope: Scope<'_, 'c>, text: &CutText) -> Result<Job<'c>, Cause>
    requires short { length text.now.bytes ≤ 65536 }
    requires tokens { AreTokensOf text.now.tokens text.now.bytes }
    ensures { Answers job_of (IsRead (scope_of scope.entry) text.now.bytes) result }
{
    let Some(calls) = parse_job(alloc, text)? else {
        return Err(Cause::Syntax);
    };
    if let Some(cause) = early_cause(scope, text, &calls) {
        return Err(cause);
    }
    let scope = Scope {
        rows: goes_over_rows(&calls),
        ..scope
    };
    read_parts(alloc, scope, text, first_name(text), &calls)
}

/// Reads a job from its text: its lines, joined by spaces. Each argument is read once, in order of writing.
///
/// `TooLong` for more than 65,536 bytes, `Syntax` if the text is no job, else the first cause in order of writing.
/// Takes memory for the tokens and what is kept of the job, and time in proportion to the bytes of
/// the text and of the names of the scope. If an allocation failed, the answer may be `NoMemory`, but not if the text
/// is too long.
pub fn read_job<'c>(alloc: Global, scope: Scope<'_, 'c>, text: &[u8]) -> Result<Job<'c>, Cause>
    ensures ok { IfOk result (λ job. IsRead (scope_of scope.entry) text.now (Ok (job_of job))) }
    ensures refused { IfErr result (λ cause. cause ≢ NoMemory
        → IsRead (scope_of scope.entry) text.now (Err cause)) }
    ensures memory { IfErr result (λ cause. cause ≡ NoMemory → length text.now ≤ 65536) }
{
    if text.len() > MAX_BYTES {
        return Err(Cause::TooLong);
    }
    let tokens = cut(alloc, text)?;
    read_cut(alloc, scope, &CutText::of(text, &tokens))
}
