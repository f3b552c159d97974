//! The report of a whole table, from the reports of its parts.
ghost use Rattle.std.specs.Prelude.{◌≡◌, ◌≢◌, ◌<◌, ℕ, [], All, IfErr, IfOk, List, None, length, slice_index_or};
ghost use Rattle.job_language.specs.Jobs.{jobs_of, names_of};
ghost use Rattle.merge_run.specs.declared.part_report.PartReport.{PartReport as meant_report};
ghost use Rattle.merge_run.specs.Merged.{ArePossible, AreReportsOf, IsMerged, IsMergeOf, IsMergeRefusal, IsRefusalOf};
ghost use Rattle.merge_run.specs.Merged.{HasNoReport, called};
ghost use Rattle.merge_run.specs.Small.{ArePartsSmall};
ghost use Rattle.report.specs.Named.{IsNamed, IsText};
ghost use Rattle.report.specs.Reports.{report_in};
ghost use Rattle.report_merge.specs.Mergeable.{first_unmergeable};
ghost use Rattle.report_merge.specs.Merging.{parts_of};
ghost use Rattle.run_settings.specs.SettingsParts.{newest_in};
ghost use Rattle.stream_tokens.specs.Forms.{IsName};

use crate::fault::{PartCause, ReportMergeFault};
use crate::named_columns::columns_named;
use crate::part_answers::{ReportFault, read_answers};
use crate::part_report::PartReport;
use job_language::{Cause, Job, read_jobs_within};
use job_meaning::Answer;
use report::{NoMemory, json, text};
use report_merge::{
    MergeFault as AnswersFault, PartAnswers, first_impossible, first_unmergeable, merge,
};
use run_settings::{Form, Language};
use std::alloc::Global;
use stream_tokens::Bytes;

/// The report of the jobs of a file of this language over a table, from the reports over its parts, in their order.
///
/// The bytes of a part are dropped once its answers are read: then all answers are in memory, and the report.
pub fn merged_report(
    alloc: Global,
    jobs: &[u8],
    language: Language,
    parts: Vec<PartReport>,
    form: Form,
) -> Result<Vec<u8>, ReportMergeFault>
    ensures ok { IfOk result (λ report. IsMerged (newest_in language) jobs.now parts.items form report.items) }
    ensures refused { IfErr result (λ fault. IsMergeRefusal (newest_in language) jobs.now parts.items fault) }
{
    let columns = columns_named(alloc, language.newest(), jobs)?;
    let jobs = match read_jobs_within(alloc, jobs, &columns, language.newest()) {
        Ok(jobs) => jobs,
        Err(fault) if fault.cause == Cause::NoMemory => return Err(ReportMergeFault::NoMemory),
        Err(fault) => return Err(ReportMergeFault::Jobs { line: fault.line }),
    };
    merged_of(alloc, &jobs, parts, form)
}

/// The report of these jobs, which were read over columns without cells, if all can be merged.
fn merged_of(
    alloc: Global,
    jobs: &[Job],
    parts: Vec<PartReport>,
    form: Form,
) -> Result<Vec<u8>, ReportMergeFault>
    requires { All IsName (names_of (jobs_of jobs.now)) }
    ensures ok { IfOk result (λ report. (newest : ℕ)
        → IsMergeOf newest (jobs_of jobs.now) parts.items form report.items) }
    ensures refused { IfErr result (λ fault. IsRefusalOf (jobs_of jobs.now) parts.items fault) }
{
    match first_unmergeable(alloc, jobs)? {
        Some((job, cause)) => Err(ReportMergeFault::Unmergeable {
            job: name_at(alloc, jobs, job)?,
            cause,
        }),
        None => report_of(alloc, jobs, parts, form),
    }
}

/// The report of these jobs, all of which can be merged.
fn report_of(
    alloc: Global,
    jobs: &[Job],
    parts: Vec<PartReport>,
    form: Form,
) -> Result<Vec<u8>, ReportMergeFault>
    requires names { All IsName (names_of (jobs_of jobs.now)) }
    requires mergeable { first_unmergeable (jobs_of jobs.now) ≡ None }
    ensures ok { IfOk result (λ report. (newest : ℕ)
        → IsMergeOf newest (jobs_of jobs.now) parts.items form report.items) }
    ensures refused { IfErr result (λ fault. IsRefusalOf (jobs_of jobs.now) parts.items fault) }
{
    let names = names_in(alloc, jobs)?;
    let parts = answers_of(alloc, jobs, &names, parts)?;
    let answers = match merge(alloc, jobs, parts) {
        Ok(answers) => answers,
        Err(fault) => return Err(fault_of(alloc, jobs, fault)?),
    };
    Ok(printed(alloc, &names, &answers, form)?)
}

/// The report of answers in this form.
fn printed(
    alloc: Global,
    names: &[Bytes],
    answers: &[Answer],
    form: Form,
) -> Result<Vec<u8>, NoMemory>
    requires paired { length names.now ≡ length answers.now }
    requires named { All (IsNamed names.now) answers.now }
    requires text { All IsText names.now }
    ensures { IfOk result (λ report. report.items ≡ report_in form names.now answers.now) }
{
    match form {
        Form::Text => text(alloc, names, answers),
        Form::Json => json(alloc, names, answers),
    }
}

/// The answers of each part, and how many rows it has. Each can be the answer of its job.
fn answers_of(
    alloc: Global,
    jobs: &[Job],
    names: &[Bytes],
    parts: Vec<PartReport>,
) -> Result<Vec<PartAnswers>, ReportMergeFault>
    requires named { All IsName names.now }
    requires names { names.now ≡ names_of (jobs_of jobs.now) }
    ensures read { IfOk result (λ found. AreReportsOf names.now parts.items (parts_of found.items)) }
    ensures named { IfOk result (λ found. All (λ part. All (IsNamed names.now) part.answers.items) found.items) }
    ensures small { IfOk result (λ found. ArePartsSmall names.now (parts_of found.items)) }
    ensures possible { IfOk result (λ found. ArePossible (jobs_of jobs.now) (parts_of found.items)) }
    ensures refused { IfErr result (λ fault. IsRefusalOf (jobs_of jobs.now) parts.items fault) }
{
    let mut found = Vec::new(alloc);
    for part in parts {
        let answers = match read_answers(alloc, names, &part.bytes) {
            Ok(answers) => answers,
            Err(fault) => return Err(part_fault(alloc, jobs, found.len(), fault)?),
        };
        let rows = part.rows;
        let read = PartAnswers { rows, answers };
        if let Some(job) = first_impossible(alloc, jobs, &read)? {
            let job = name_at(alloc, jobs, job)?;
            let cause = PartCause::Impossible { job };
            return Err(ReportMergeFault::Part {
                part: found.len(),
                cause,
            });
        }
        found.push(read)?;
    }
    Ok(found)
}

/// The names of jobs, copied.
fn names_in(alloc: Global, jobs: &[Job]) -> Result<Vec<Bytes>, NoMemory>
    ensures { IfOk result (λ names. names.items ≡ names_of (jobs_of jobs.now)) }
{
    let mut names = Vec::new(alloc);
    for job in jobs {
        names.push(copied(alloc, &job.name)?)?;
    }
    Ok(names)
}

/// A copy of bytes.
fn copied(alloc: Global, bytes: &Bytes) -> Result<Bytes, NoMemory>
    ensures { IfOk result (λ copy. copy ≡ bytes.now) }
{
    Ok(Bytes::from(Vec::from_slice(alloc, bytes.as_slice())?))
}

/// The name of a job, for a message; of a job that isn't there it is empty.
fn name_at(alloc: Global, jobs: &[Job], job: usize) -> Result<Bytes, NoMemory>
    ensures { IfOk result (λ name. name ≡ slice_index_or (names_of (jobs_of jobs.now)) job []) }
{
    match jobs.get(job) {
        Some(job) => copied(alloc, &job.name),
        None => Ok(Bytes::from(Vec::new(alloc))),
    }
}

/// Why a part has no report of the jobs.
fn part_fault(
    alloc: Global,
    jobs: &[Job],
    part: usize,
    fault: ReportFault,
) -> Result<ReportMergeFault, NoMemory>
    requires { (job : ℕ) → fault ≡ ReportFault.OtherJobs job → job < length (names_of (jobs_of jobs.now)) }
    ensures { IfOk result (λ refusal. (reports : List meant_report)
        → (fault ≢ ReportFault.NoMemory → HasNoReport (jobs_of jobs.now) reports part)
        → IsRefusalOf (jobs_of jobs.now) reports refusal) }
{
    let cause = match fault {
        ReportFault::NoMemory => return Ok(ReportMergeFault::NoMemory),
        ReportFault::NoReport => PartCause::NoReport,
        ReportFault::MoreJobs => PartCause::MoreJobs,
        ReportFault::OtherJobs { job } => PartCause::Missing {
            job: name_at(alloc, jobs, job)?,
        },
    };
    Ok(ReportMergeFault::Part { part, cause })
}

/// Why the answers of the parts aren't merged.
fn fault_of(alloc: Global, jobs: &[Job], fault: AnswersFault) -> Result<ReportMergeFault, NoMemory>
    ensures { IfOk result (λ found. found ≡ called (names_of (jobs_of jobs.now)) fault) }
{
    Ok(match fault {
        AnswersFault::NoPart => ReportMergeFault::NoPart,
        AnswersFault::TooManyRows => ReportMergeFault::TooManyRows,
        AnswersFault::NoMemory => ReportMergeFault::NoMemory,
        AnswersFault::Part { part, job } => ReportMergeFault::Part {
            part,
            cause: PartCause::Differs {
                job: name_at(alloc, jobs, job)?,
            },
        },
    })
}
