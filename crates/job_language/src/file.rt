//! Whole files of jobs.
ghost use Rattle.std.specs.Prelude.{◌≡◌, ◌≢◌, All, Ok, Err, IfOk, IfErr, OnOk};
ghost use Rattle.stream_tokens.specs.Forms.{IsName};
ghost use Rattle.stream_tokens.specs.JobTexts.{job_texts_of, job_texts_within};
ghost use Rattle.stream_tokens.specs.TextsLeft.{HasText};
ghost use Rattle.job_language.specs.Files.{IsNext, IsRefused, IsRefusedWithin, SpellsJobs, SpellsJobsWithin};
ghost use Rattle.job_language.specs.FileSteps.{IsNextJob, IsNextFault};
ghost use Rattle.job_language.specs.Jobs.{job_of, jobs_of, names_of};

use crate::fault::{Cause, JobFault};
use crate::job::Job;
use crate::read::read_job;
use crate::scope::Scope;
use std::alloc::Global;
use stream_tokens::{JobText, JobTexts, version_within};
use tables::Columns;

/// How many jobs a file may have.
const MAX_JOBS: usize = 256;

/// The job of a text of this version below these jobs, or its cause. Of the 257th nothing is read.
fn read_below<'c>(
    alloc: Global,
    version: u8,
    columns: &'c Columns,
    jobs: &[Job<'c>],
    text: &[u8],
) -> Result<Job<'c>, Cause>
    ensures ok { IfOk result
        (λ job. IsNext version columns.now (jobs_of jobs.now) text.now (Ok (job_of job))) }
    ensures name { IfOk result (λ job. IsName job.name) }
    ensures refused { IfErr result (λ cause. cause ≢ Cause.NoMemory
        → IsNext version columns.now (jobs_of jobs.now) text.now (Err cause)) }
{
    if jobs.len() >= MAX_JOBS {
        return Err(Cause::TooLong);
    }
    let scope = Scope {
        version,
        rows: false,
        jobs,
        columns,
    };
    read_job(alloc, scope, text)
}

/// Reads one more text below these jobs, and puts its job after them.
fn read_next<'c>(
    alloc: Global,
    version: u8,
    columns: &'c Columns,
    jobs: &mut Vec<Job<'c>>,
    text: &JobText,
) -> Result<(), JobFault>
    ensures ok { OnOk result
        (IsNextJob version columns.now (jobs_of jobs.old.items) text.now (jobs_of jobs.new.items)) }
    ensures names { OnOk result (All IsName (names_of (jobs_of jobs.old.items))
        → All IsName (names_of (jobs_of jobs.new.items))) }
    ensures refused { IfErr result (λ fault. fault.cause ≢ Cause.NoMemory
        → IsNextFault version columns.now (jobs_of jobs.old.items) text.now fault) }
    ensures memory { IfErr result (λ fault. fault.cause ≡ Cause.NoMemory → fault.line ≡ 0) }
{
    match read_below(alloc, version, columns, jobs, text.text.as_slice()) {
        Ok(job) => Ok(jobs.push(job)?),
        Err(cause) => Err(JobFault::at(text.line, cause)),
    }
}

/// The jobs of a file, or the first fault in file order.
///
/// Each job is checked whole before the next one, and the 257th is refused unread. A job may name the jobs above it and
/// these columns, whose cells it borrows. A file is of version 2 if its first line that isn't skipped is `version 2`.
/// Takes time linear in the bytes, and compares each name with each earlier one. A text of one line isn't copied.
pub fn read_jobs<'c>(
    alloc: Global,
    bytes: &[u8],
    columns: &'c Columns,
) -> Result<Vec<Job<'c>>, JobFault>
    ensures ok { IfOk result (λ jobs. SpellsJobs bytes.now columns.now (jobs_of jobs.items)) }
    ensures names { IfOk result (λ jobs. All IsName (names_of (jobs_of jobs.items))) }
    ensures refused { IfErr result (λ fault. fault.cause ≢ Cause.NoMemory
        → IsRefused bytes.now columns.now fault) }
    ensures memory { IfErr result (λ fault. fault.cause ≡ Cause.NoMemory → fault.line ≡ 0) }
    ensures texts { IfErr result (λ fault. fault.cause ≡ Cause.NoMemory
        → HasText (job_texts_of bytes.now)) }
{
    read_jobs_within(alloc, bytes, columns, 2)
}

/// The jobs of a file, or the first fault in file order, as `read_jobs` gives them, where the newest version of the
/// language is this. With 3, a file whose first line that isn't skipped is `version 3` is of version 3.
pub fn read_jobs_within<'c>(
    alloc: Global,
    bytes: &[u8],
    columns: &'c Columns,
    newest: u8,
) -> Result<Vec<Job<'c>>, JobFault>
    ensures ok { IfOk result (λ jobs. SpellsJobsWithin newest bytes.now columns.now (jobs_of jobs.items)) }
    ensures names { IfOk result (λ jobs. All IsName (names_of (jobs_of jobs.items))) }
    ensures refused { IfErr result (λ fault. fault.cause ≢ Cause.NoMemory
        → IsRefusedWithin newest bytes.now columns.now fault) }
    ensures memory { IfErr result (λ fault. fault.cause ≡ Cause.NoMemory → fault.line ≡ 0) }
    ensures texts { IfErr result (λ fault. fault.cause ≡ Cause.NoMemory
        → HasText (job_texts_within newest bytes.now)) }
{
    let version = version_within(newest, bytes);
    let mut texts = JobTexts::within(newest, bytes);
    let mut jobs = Vec::new(alloc);
    while let Some(text) = texts.next_text(alloc)? {
        read_next(alloc, version, columns, &mut jobs, &text)?;
    }
    Ok(jobs)
}
