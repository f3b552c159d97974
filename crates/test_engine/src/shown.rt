//! Answers as text, and the plans of files of jobs.

use columns::{Columns, read_columns};
use counted_io::Counted;
use job_language::read_jobs;
use job_meaning::{Answer, Values};
use job_plan::Plan;
use lambda_values::FaultKind;
use std::alloc::{AllocError, Global};
use trace::Fault;

/// The columns of a file. It fails if the file is refused.
pub(crate) fn columns_of(alloc: Global, file: &str) -> Result<Columns, AllocError> {
    match read_columns(alloc, &mut Counted::new(file.as_bytes())) {
        Ok(columns) => Ok(columns),
        Err(_) => Err(AllocError),
    }
}

/// The plan of the jobs of a file. It fails if the file is refused.
pub(crate) fn plan_of<'c>(
    alloc: Global,
    file: &[u8],
    columns: &'c Columns,
) -> Result<Plan<'c>, AllocError> {
    match read_jobs(alloc, file, columns) {
        Ok(jobs) => Plan::of(alloc, jobs, 4),
        Err(_) => Err(AllocError),
    }
}

/// The values of an array as Java prints them.
fn shown_values(alloc: Global, values: &Values) -> Result<String, AllocError> {
    let values = values.to_vec(alloc)?;
    format!(in alloc; "{:?}", values.as_slice())
}

/// A fault as a report has it.
fn shown_fault(alloc: Global, fault: &Fault) -> Result<String, AllocError> {
    let kind = match fault.kind {
        FaultKind::DivideByZero => "divide-by-zero",
        FaultKind::Overflow => "overflow",
        FaultKind::OutOfArray => "out-of-array",
        FaultKind::SourceTooLong => "source-too-long",
    };
    match fault.origin {
        Some(item) => format!(in alloc; "fault {kind} stage {} item {item}", fault.stage),
        None => format!(in alloc; "fault {kind} stage {} item -", fault.stage),
    }
}

/// An answer as a report has it, but that one which is unusable has the number of the other job.
pub(crate) fn shown(alloc: Global, answer: &Answer) -> Result<String, AllocError> {
    match answer {
        Answer::Number(number) => format!(in alloc; "{number}"),
        Answer::Truth(truth) => format!(in alloc; "{truth}"),
        Answer::Optional(None) => format!(in alloc; "OptionalLong.empty"),
        Answer::Optional(Some(number)) => format!(in alloc; "OptionalLong[{number}]"),
        Answer::Array(values) => shown_values(alloc, values),
        Answer::Fault(fault) => shown_fault(alloc, fault),
        Answer::Unusable(job) => format!(in alloc; "unusable {job}"),
    }
}
