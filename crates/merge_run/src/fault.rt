//! Why reports of parts aren't merged.

ghost use Rattle.std.specs.Prelude.{◌≡◌, IfOk, Some};
ghost use Rattle.merge_run.specs.FaultTexts.{merge_text, part_text};
ghost use Rattle.merge_run.specs.declared.fault.ReportMergeFault.TheVariants.{NoMemory};

use report_merge::Unmergeable;
use std::alloc::{AllocError, AllocFailed};
use std::fmt;
use std::fmt::{Display, Formatter, Write};
use stream_tokens::Bytes;
use thiserror::Error;

/// Why there is no report of the whole. The message names no file.
#[derive(Debug, Drop, Error)]
pub enum ReportMergeFault {
    /// The job file is refused at this line.
    Jobs { line: u64 },
    /// The job with this name can't be merged.
    Unmergeable { job: Bytes, cause: Unmergeable },
    /// There is no report.
    NoPart,
    /// The part with this index, from 0, has no report of these jobs.
    Part { part: usize, cause: PartCause },
    /// The parts have more rows than a table may have.
    TooManyRows,
    /// An allocation failed.
    NoMemory,
}

/// Why a part has no report of the jobs.
#[derive(Debug, Drop, Error)]
pub enum PartCause {
    /// The bytes aren't what `streamrun` writes as JSON.
    NoReport,
    /// The answer of the job with this name isn't where it has to be.
    Missing { job: Bytes },
    /// There are more answers than jobs.
    MoreJobs,
    /// The job with this name has an answer that it can't have over the rows of the part.
    Impossible { job: Bytes },
    /// The job with this name, which reads no column, has another answer than in the parts before.
    Differs { job: Bytes },
}

impl Display for ReportMergeFault {
    ghost output = { λ fault. Some (merge_text fault) };

    fn fmt<W: Write>(&self, f: &mut Formatter<W>) -> fmt::Result {
        match self {
            ReportMergeFault::Jobs { line } => {
                write!(f, "line {line} is refused; streamrun says why")
            }
            ReportMergeFault::Unmergeable { job, cause } => {
                write!(f, "{} can't be merged: {cause}", text_of(job)?)
            }
            ReportMergeFault::NoPart => f.write_str("there is no report"),
            ReportMergeFault::Part { part, cause } => write!(f, "report at index {part}: {cause}"),
            ReportMergeFault::TooManyRows => f.write_str("more rows than a table has"),
            ReportMergeFault::NoMemory => f.write_str("out of memory"),
        }
    }
}

impl Display for PartCause {
    ghost output = { λ cause. Some (part_text cause) };

    fn fmt<W: Write>(&self, f: &mut Formatter<W>) -> fmt::Result {
        match self {
            PartCause::NoReport => f.write_str("no report of streamrun --json"),
            PartCause::Missing { job } => write!(f, "no answer of {} at its place", text_of(job)?),
            PartCause::MoreJobs => f.write_str("more answers than jobs"),
            PartCause::Impossible { job } => write!(f, "{} can't have this answer", text_of(job)?),
            PartCause::Differs { job } => {
                write!(
                    f,
                    "{} has another answer than in the reports before",
                    text_of(job)?
                )
            }
        }
    }
}

/// The text of a name. Each name of a job is ASCII; other bytes, if they aren't UTF-8, can't be displayed.
fn text_of(name: &Bytes) -> Result<&str, fmt::Error>
    ensures { IfOk result (λ text. text.now ≡ name.now) }
{
    match str::from_utf8(name.as_slice()) {
        Ok(text) => Ok(text),
        Err(_) => Err(fmt::Error),
    }
}

impl From<AllocError> for ReportMergeFault {
    ghost from_gives = { λ _ fault. fault ≡ NoMemory };

    fn from(_: AllocError) -> ReportMergeFault {
        ReportMergeFault::NoMemory
    }
}

impl<T: Drop> From<AllocFailed<T>> for ReportMergeFault {
    ghost from_gives = { λ _ fault. fault ≡ NoMemory };

    fn from(_: AllocFailed<T>) -> ReportMergeFault {
        ReportMergeFault::NoMemory
    }
}
