//! A run of the program: from its open files to the merged report, and the exit status.

ghost use Rattle.std.specs.Prelude.{◌≡◌, ℕ, ⊤, IfErr, IfOk, Result};
ghost use Rattle.counted_io.specs.FailureCounts.{HasRisen};
ghost use Rattle.merge_run.specs.Merged.{IsMerged};
ghost use Rattle.merge_run.specs.Run.{AreReports, HasFailed, IsAnswered, IsGiven, IsWhole, MergeInput, Says};
ghost use Rattle.merge_run.specs.Run.{counts_of, status_after};
ghost use Rattle.merge_run.specs.declared.running.MergeRunFault.{MergeRunFault as meant_fault};

use crate::fault::ReportMergeFault;
use crate::merging::merged_report;
use crate::part_report::PartReport;
use crate::telling::status_after;
use counted_io::{CountedRead, CountedWrite, ReadAllFault, WriteFault, read_all_of, write_all_of};
use run_settings::{Form, Language};
use std::alloc::{AllocFailed, Global};
use std::io::Write;

/// The open file of a part's report.
#[derive(Drop)]
pub struct PartFile<R> {
    /// How many rows the part has, the header aside.
    pub rows: u64,
    /// The report as JSON, still to be read.
    pub file: R,
}

/// What is asked of a run, and the paths of its files, for messages.
#[derive(Drop)]
pub struct MergeAsked<'a> {
    pub form: Form,
    /// The newest version of job files that is read.
    pub language: Language,
    /// The path of the job file.
    pub jobs: &'a str,
    /// The paths of the reports, in the order of the parts.
    pub reports: &'a [&'a str],
}

/// Why a run didn't write all of a merged report.
#[derive(Debug, Drop)]
pub(crate) enum MergeRunFault {
    /// The job file can't be read.
    JobsRead,
    /// The report with this index, from 0, can't be read.
    ReportRead { part: usize },
    /// There is no merged report.
    Merge(ReportMergeFault),
    /// A write failed, after this many bytes.
    Write { written: u64 },
    /// An allocation failed.
    NoMemory,
}

impl<T: Drop> From<AllocFailed<T>> for MergeRunFault {
    ghost from_gives = { λ _ fault. fault ≡ meant_fault.NoMemory };

    fn from(_: AllocFailed<T>) -> MergeRunFault {
        MergeRunFault::NoMemory
    }
}

/// Reads the report of a part.
fn read_report<R: CountedRead>(
    alloc: Global,
    part: &mut PartFile<R>,
) -> Result<PartReport, ReadAllFault>
    ensures rows { IfOk result (λ report. report.rows ≡ part.old.rows) }
    ensures whole { IfOk result (λ report. IsWhole (R.remaining part.old.file) report.bytes.items) }
    ensures failed { IfErr result (λ fault. fault ≡ ReadAllFault.Failed
        → HasRisen (R.failures part.old.file) (R.failures part.new.file)) }
{
    let rows = part.rows;
    let bytes = read_all_of(alloc, &mut part.file)?;
    Ok(PartReport { rows, bytes })
}

/// Reads the reports of the parts, in their order.
fn read_reports<R: CountedRead>(
    alloc: Global,
    parts: &mut [PartFile<R>],
) -> Result<Vec<PartReport>, MergeRunFault>
    ensures ok { IfOk result (λ reports. AreReports R.remaining parts.old reports.items) }
    // It is no fault of a merge; and however often other files have failed, this one has.
    ensures says { IfErr result (Says (λ input. ⊥)) }
    ensures failed { IfErr result (λ fault. (jobs jobs_after writer writer_after : ℕ) → HasFailed
        (counts_of R.failures jobs parts.old writer) (counts_of R.failures jobs_after parts.new writer_after) fault) }
{
    let mut reports = Vec::new(alloc);
    for part in 0..parts.len() {
        match read_report(alloc, &mut parts[part]) {
            Ok(report) => reports.push(report)?,
            Err(ReadAllFault::NoMemory) => return Err(MergeRunFault::NoMemory),
            Err(ReadAllFault::Failed) => return Err(MergeRunFault::ReportRead { part }),
        }
    }
    Ok(reports)
}

/// The merged report of what the files hold.
fn merged_from<J: CountedRead, R: CountedRead>(
    alloc: Global,
    asked: &MergeAsked<'_>,
    jobs: &mut J,
    parts: &mut [PartFile<R>],
) -> Result<Vec<u8>, MergeRunFault>
    ensures ok { IfOk result (λ report. (input : MergeInput)
        × IsGiven R.remaining (J.remaining jobs.old) parts.old asked.now input
        × IsMerged input.newest input.jobs input.reports input.form report.items) }
    ensures says { IfErr result (Says (IsGiven R.remaining (J.remaining jobs.old) parts.old asked.now)) }
    ensures failed { IfErr result (λ fault. (writer writer_after : ℕ) → HasFailed
        (counts_of R.failures (J.failures jobs.old) parts.old writer)
        (counts_of R.failures (J.failures jobs.new) parts.new writer_after) fault) }
{
    let bytes = match read_all_of(alloc, jobs) {
        Ok(bytes) => bytes,
        Err(ReadAllFault::NoMemory) => return Err(MergeRunFault::NoMemory),
        Err(ReadAllFault::Failed) => return Err(MergeRunFault::JobsRead),
    };
    let reports = read_reports(alloc, parts)?;
    match merged_report(alloc, &bytes, asked.language, reports, asked.form) {
        Ok(report) => Ok(report),
        Err(fault) => Err(MergeRunFault::Merge(fault)),
    }
}

/// Reads the job file and then the reports of the parts, and writes the report of the whole table.
fn run<J: CountedRead, R: CountedRead, W: CountedWrite>(
    alloc: Global,
    asked: &MergeAsked<'_>,
    jobs: &mut J,
    parts: &mut [PartFile<R>],
    writer: &mut W,
) -> Result<(), MergeRunFault>
    ensures answered { IsAnswered (IsGiven R.remaining (J.remaining jobs.old) parts.old asked.now)
        (W.contents writer.old) (W.contents writer.new) result }
    ensures failed { IfErr result (HasFailed
        (counts_of R.failures (J.failures jobs.old) parts.old (W.failures writer.old))
        (counts_of R.failures (J.failures jobs.new) parts.new (W.failures writer.new))) }
{
    let report = merged_from(alloc, asked, jobs, parts)?;
    match write_all_of(writer, &report) {
        Ok(()) => Ok(()),
        Err(WriteFault { written }) => Err(MergeRunFault::Write { written }),
    }
}

/// Reads the job file and then the reports of the parts, in their order, writes the report of the whole table, and
/// answers the program's exit status. After a fault its line is written to `lines`.
pub fn ended_run<J: CountedRead, R: CountedRead, W: CountedWrite, L: Write>(
    alloc: Global,
    asked: &MergeAsked<'_>,
    jobs: &mut J,
    parts: &mut [PartFile<R>],
    writer: &mut W,
    lines: &mut L,
) -> u8
    // The status is the status after an answer of a run over these files and this writer.
    ensures { (answer : Result ⊤ meant_fault) × (result ≡ status_after answer)
        × IsAnswered (IsGiven R.remaining (J.remaining jobs.old) parts.old asked.now)
        (W.contents writer.old) (W.contents writer.new) answer
        × IfErr answer (HasFailed
        (counts_of R.failures (J.failures jobs.old) parts.old (W.failures writer.old))
        (counts_of R.failures (J.failures jobs.new) parts.new (W.failures writer.new))) }
{
    let answer = run(alloc, asked, jobs, parts, writer);
    status_after(&answer, asked, lines)
}
