//! The answers over a table, of the answers over its parts.

ghost use Rattle.std.specs.Prelude.{◌≡◌, ◌≢◌, ◌⊎◌, ◌≤◌, ◌<◌, ◌+◌, ◌^◌, ℕ, [], List, Some, None, IfOk, IfErr};
ghost use Rattle.columns.specs.TableForms.{AbstractForm};
ghost use Rattle.job_language.specs.Jobs.{AbstractJob, jobs_of, names_of};
ghost use Rattle.job_meaning.specs.FileAnswers.{meaning_of};
ghost use Rattle.report_merge.specs.Apart.{IsRefusal, IsRefusedAt, first_apart, first_unpaired};
ghost use Rattle.report_merge.specs.Cuts.{IsCut};
ghost use Rattle.report_merge.specs.Mergeable.{first_unmergeable};
ghost use Rattle.report_merge.specs.Merging.{answers_beside, as_one, first_part, merged, part_of};
ghost use Rattle.report_merge.specs.Merging.{parts_of, rows_in, with_fallbacks};

use crate::fault::MergeFault;
use crate::joining::{answer_beside, with_fallback};
use crate::part::PartAnswers;
use job_language::Job;
use job_meaning::Answer;
use std::alloc::Global;

/// How many rows a table may have.
const MAX_ROWS: u64 = 4_611_686_018_427_387_904;

/// The answers over rows, which are `before`, and over the part after them, which has this number, job by job.
fn answers_beside(
    alloc: Global,
    jobs: &[Job],
    before: u64,
    left: Vec<Answer>,
    number: usize,
    right: &PartAnswers,
) -> Result<Vec<Answer>, MergeFault>
    requires { before + right.now.rows ≤ 2 ^ 62 }
    ensures ok { IfOk result (λ both.
        answers_beside (jobs_of jobs.now) before right.now.rows left.items right.now.answers.items ≡ Some both.items) }
    ensures refused { IfErr result (λ fault. fault ≢ MergeFault.NoMemory →
        answers_beside (jobs_of jobs.now) before right.now.rows left.items right.now.answers.items ≡ None) }
    ensures at { IfErr result (IsRefusedAt number (before + right.now.rows) (first_apart 0 (jobs_of jobs.now) before
        right.now.rows left.items right.now.answers.items)) }
{
    let others = right.answers.as_slice();
    let mut both = Vec::new(alloc);
    let mut job = 0;
    for answer in left {
        if job >= jobs.len() {
            return Err(MergeFault::Part { part: number, job });
        }
        if job >= others.len() {
            return Err(MergeFault::Part { part: number, job });
        }
        match answer_beside(alloc, &jobs[job], before, right.rows, answer, &others[job])? {
            Some(answer) => both.push(answer)?,
            None => return Err(MergeFault::Part { part: number, job }),
        }
        job += 1;
    }
    if job < jobs.len() {
        return Err(MergeFault::Part { part: number, job });
    }
    if job < others.len() {
        return Err(MergeFault::Part { part: number, job });
    }
    Ok(both)
}

/// Two parts side by side as one; the right one has this number.
fn as_one(
    alloc: Global,
    jobs: &[Job],
    left: PartAnswers,
    number: usize,
    right: PartAnswers,
) -> Result<PartAnswers, MergeFault>
    ensures ok { IfOk result (λ both.
        as_one (jobs_of jobs.now) (part_of left) (part_of right) ≡ Some (part_of both)) }
    ensures refused { IfErr result (λ fault. fault ≢ MergeFault.NoMemory →
        as_one (jobs_of jobs.now) (part_of left) (part_of right) ≡ None) }
    ensures sum { IfOk result (λ both. both.rows ≡ left.rows + right.rows) }
    ensures at { IfErr result (IsRefusedAt number (left.rows + right.rows) (first_apart 0 (jobs_of jobs.now)
        left.rows right.rows left.answers.items right.answers.items)) }
{
    if left.rows > MAX_ROWS || right.rows > MAX_ROWS - left.rows {
        return Err(MergeFault::TooManyRows);
    }
    let rows = left.rows + right.rows;
    let answers = answers_beside(alloc, jobs, left.rows, left.answers, number, &right)?;
    Ok(PartAnswers { rows, answers })
}

/// The answers after each `onFault`, of the part with this number.
fn with_fallbacks(
    alloc: Global,
    jobs: &[Job],
    answers: Vec<Answer>,
    number: usize,
) -> Result<Vec<Answer>, MergeFault>
    ensures ok { IfOk result (λ all. with_fallbacks (jobs_of jobs.now) answers.items ≡ Some all.items) }
    ensures refused { IfErr result (λ fault. fault ≢ MergeFault.NoMemory →
        with_fallbacks (jobs_of jobs.now) answers.items ≡ None) }
    ensures at { IfErr result (IsRefusedAt number 0 (first_unpaired 0 (jobs_of jobs.now) answers.items)) }
{
    let mut all = Vec::new(alloc);
    let mut job = 0;
    for answer in answers {
        if job >= jobs.len() {
            return Err(MergeFault::Part { part: number, job });
        }
        all.push(with_fallback(&jobs[job], answer))?;
        job += 1;
    }
    if job < jobs.len() {
        return Err(MergeFault::Part { part: number, job });
    }
    Ok(all)
}

/// The first part, if it has no more rows than a table.
fn first_part(part: PartAnswers) -> Result<PartAnswers, MergeFault>
    ensures ok { IfOk result (λ first. first_part (part_of part) ≡ Some (part_of first)) }
    ensures refused { IfErr result (λ fault. first_part (part_of part) ≡ None) }
    ensures rows { IfErr result (λ fault. (fault ≡ MergeFault.TooManyRows) × (2 ^ 62 < part.rows)) }
{
    if part.rows > MAX_ROWS {
        return Err(MergeFault::TooManyRows);
    }
    Ok(part)
}

/// The answers of all parts as one, after each `onFault`.
fn merged(alloc: Global, jobs: &[Job], parts: Vec<PartAnswers>) -> Result<Vec<Answer>, MergeFault>
    ensures ok { IfOk result (λ answers. merged (jobs_of jobs.now) (parts_of parts.items) ≡ Some answers.items) }
    ensures refused { IfErr result (λ fault. fault ≢ MergeFault.NoMemory →
        merged (jobs_of jobs.now) (parts_of parts.items) ≡ None) }
    ensures says { IfErr result (IsRefusal (jobs_of jobs.now) (parts_of parts.items)) }
{
    let mut whole: Option<PartAnswers> = None;
    let mut number = 0usize;
    for part in parts {
        whole = match whole {
            None => Some(first_part(part)?),
            Some(left) => Some(as_one(alloc, jobs, left, number, part)?),
        };
        number = number.saturating_add(1);
    }
    match whole {
        None => Err(MergeFault::NoPart),
        Some(all) => with_fallbacks(alloc, jobs, all.answers, 0),
    }
}

/// The answers over a table, of the answers over its parts, in their order. The jobs are read with columns
/// without cells, and `first_unmergeable` finds none of them.
///
/// A part is asked for the jobs without the `onFault` of those over a column. Sums and counts are added and wrapped to
/// 64 bits, numbers are folded by the operator, arrays joined; a find or a match is decided by the first part that
/// decides it, and the first part with a fault gives the fault, its item counted over the whole table.
/// Takes time linear in the values of all arrays, and memory for the values of each joined array.
pub fn merge(
    alloc: Global,
    jobs: &[Job],
    parts: Vec<PartAnswers>,
) -> Result<Vec<Answer>, MergeFault>
    ensures ok { IfOk result (λ answers.
        merged (jobs_of jobs.now) (parts_of parts.items) ≡ Some answers.items) }
    ensures refused { IfErr result (λ fault. fault ≢ MergeFault.NoMemory →
        merged (jobs_of jobs.now) (parts_of parts.items) ≡ None) }
    // The part that a refusal names is the first one whose answers can't be merged with those before it.
    ensures says { IfErr result (IsRefusal (jobs_of jobs.now) (parts_of parts.items)) }
    // If the answers of each part are what the jobs mean over its rows, the answers are what they mean over all rows,
    // whichever form all are read in.
    ensures whole { IfOk result (λ answers. (form : AbstractForm) (newest : ℕ) (bytes : List ℕ)
        (whole : List AbstractJob) → first_unmergeable (jobs_of jobs.now) ≡ None
        → IsCut form newest bytes (jobs_of jobs.now) (parts_of parts.items) whole
        → (answers.items ≡ meaning_of whole) × (names_of (jobs_of jobs.now) ≡ names_of whole)) }
    // With at least one part, and 2^62 rows at most, only an allocation that fails refuses the parts of a cut.
    ensures never { IfErr result (λ fault. (form : AbstractForm) (newest : ℕ) (bytes : List ℕ)
        (whole : List AbstractJob) → first_unmergeable (jobs_of jobs.now) ≡ None
        → IsCut form newest bytes (jobs_of jobs.now) (parts_of parts.items) whole
        → fault ≢ MergeFault.NoMemory
        → (parts_of parts.items ≡ []) ⊎ (2 ^ 62 < rows_in (parts_of parts.items))) }
{
    merged(alloc, jobs, parts)
}
