//! Which jobs can't be merged, and why.

ghost use Rattle.std.specs.List.{list_all};
ghost use Rattle.job_language.specs.Places.{stage_is_placeless, terminal_is_placeless};
ghost use Rattle.job_language.specs.Jobs.{job_of, job_stage_of, job_stages_of, jobs_of};
ghost use Rattle.job_language.specs.Jobs.{source_of, sources_of, terminal_of};
ghost use Rattle.std.specs.Prelude.{◌≡◌, [], take, IfOk, Some};
ghost use Rattle.report_merge.specs.FaultTexts.{unmergeable_text};
ghost use Rattle.job_meaning.specs.Names.{names_in_job};
ghost use Rattle.report_merge.specs.Mergeable.{are_items, cause_below, column_cause, first_unmergeable};
ghost use Rattle.report_merge.specs.Mergeable.{has_column_job, is_column, is_column_job, job_is_placeless};
ghost use Rattle.report_merge.specs.Mergeable.{is_over_column, is_single, reads_column, terminal_cause};

use find_ops::FindTerminal;
use job_language::{Job, JobStage, PlainSource, Terminal};
use job_meaning::names_in_job;
use reduce_ops::Op;
use slice_ops::Slice;
use std::alloc::Global;
use std::fmt;
use std::fmt::{Display, Formatter, Write};
use stream_tokens::Bytes;
use thiserror::Error;
use trace::{NoMemory, Stage};

/// Why a job can't be merged. The jobs are read with columns without cells.
#[derive(Clone, Copy, Debug, PartialEq, Eq, Error)]
pub enum Unmergeable {
    /// It has several sources, and one of them is a column, or empty.
    Concat,
    /// It is over a column, and has a `limit`, `skip`, `takeWhile`, `dropWhile`, `prefix`, `sorted` or `distinct`.
    Stage,
    /// It is over a column, and one of its lambdas has a `cell` or a `row()`: a part counts its rows from 0.
    Row,
    /// It is over a column, and its terminal is an exact sum, `reduce(0, Math::addExact)`.
    ExactSum,
    /// It is over a column, and folds from a number that isn't the operator's identity. No file that is
    /// read has a job like that.
    NoIdentity,
    /// It names a job that is over a column, by `$NAME` or `result(NAME)`.
    NamesMerged,
}

impl Display for Unmergeable {
    ghost output = { λ cause. Some (unmergeable_text cause) };

    fn fmt<W: Write>(&self, f: &mut Formatter<W>) -> fmt::Result {
        f.write_str(match self {
            Unmergeable::Concat => "concat with a column",
            Unmergeable::Stage => "a stage over a column that isn't map, filter or flatMap",
            Unmergeable::Row => "a lambda over a column with cell or row()",
            Unmergeable::ExactSum => "an exact sum of a column",
            Unmergeable::NoIdentity => "a fold of a column from a number that is no identity",
            Unmergeable::NamesMerged => "it names a job over a column",
        })
    }
}

/// Whether a source is a column, which has no cells here. A source that is written without values counts as one too.
fn is_column(source: &PlainSource) -> bool
    ensures { result ≡ is_column (source_of source.now) }
{
    match source {
        PlainSource::Values(values) => values.is_empty(),
        PlainSource::Column(cells) => cells.is_empty(),
        PlainSource::Range { .. } | PlainSource::RangeClosed { .. } | PlainSource::Result(_) => {
            false
        }
    }
}

/// Whether one of the sources is a column.
fn reads_column(sources: &[PlainSource]) -> bool
    ensures { result ≡ reads_column (sources_of sources.now) }
{
    for source in sources {
        if is_column(source) {
            return true;
        }
    }
    false
}

/// Whether a job is over a column.
pub(crate) fn is_over_column(job: &Job) -> bool
    ensures { result ≡ is_over_column (job_of job.now) }
{
    reads_column(&job.sources)
}

/// Whether there is one source and no more.
fn is_single(sources: &[PlainSource]) -> bool
    ensures { result ≡ is_single (sources_of sources.now) }
{
    matches!(sources, [_])
}

/// Whether each stage looks at one item at a time.
fn are_items(stages: &[JobStage]) -> bool
    ensures { result ≡ are_items (job_stages_of stages.now) }
{
    for stage in stages {
        match stage {
            JobStage::Item(_) => {}
            JobStage::Slice(_) | JobStage::Prefix { .. } | JobStage::Sorted | JobStage::Distinct =>
                return false,
        }
    }
    true
}

/// Whether the lambda of a stage, if it has one, has neither a `cell` nor a `row()`.
fn stage_is_placeless(stage: &JobStage) -> bool
    ensures { result ≡ stage_is_placeless (job_stage_of stage.now) }
{
    match stage {
        JobStage::Item(Stage::Map(expr)) => expr.is_placeless(),
        JobStage::Item(Stage::Filter(test)) => test.is_placeless(),
        JobStage::Item(Stage::FlatMap(inner)) => inner.is_placeless(),
        JobStage::Slice(Slice::TakeWhile(test) | Slice::DropWhile(test)) => test.is_placeless(),
        JobStage::Slice(Slice::Limit(_) | Slice::Skip(_)) | JobStage::Prefix { .. } => true,
        JobStage::Sorted | JobStage::Distinct => true,
    }
}

/// Whether each of several stages is one like that.
fn are_placeless(stages: &[JobStage]) -> bool
    ensures { result ≡ list_all stage_is_placeless (job_stages_of stages.now) }
{
    for stage in stages {
        if !stage_is_placeless(stage) {
            return false;
        }
    }
    true
}

/// Whether the lambda of a terminal, if it has one, has neither a `cell` nor a `row()`.
fn terminal_is_placeless(terminal: &Terminal) -> bool
    ensures { result ≡ terminal_is_placeless (terminal_of terminal.now) }
{
    match terminal {
        Terminal::Find(
            FindTerminal::AnyMatch(test)
            | FindTerminal::AllMatch(test)
            | FindTerminal::NoneMatch(test),
        ) => test.is_placeless(),
        _ => true,
    }
}

/// Whether no lambda of a job has a `cell` or a `row()`.
fn job_is_placeless(job: &Job) -> bool
    ensures { result ≡ job_is_placeless (job_of job.now) }
{
    are_placeless(&job.stages) && terminal_is_placeless(&job.terminal)
}

/// Why a fold from this number can't be merged.
fn fold_cause(op: Op, number: i64) -> Option<Unmergeable>
    ensures { result ≡ terminal_cause (Rattle.job_language.specs.Jobs.reduce_from number op) }
{
    match op.identity() {
        Some(identity) if identity == number => None,
        _ => Some(Unmergeable::NoIdentity),
    }
}

/// Why a job over a column with this terminal can't be merged.
fn terminal_cause(terminal: &Terminal) -> Option<Unmergeable>
    ensures { result ≡ terminal_cause (terminal_of terminal.now) }
{
    match terminal {
        Terminal::ExactSum => Some(Unmergeable::ExactSum),
        Terminal::ReduceFrom { identity, op } => fold_cause(*op, *identity),
        _ => None,
    }
}

/// Why a job over a column can't be merged.
fn column_cause(job: &Job) -> Option<Unmergeable>
    ensures { result ≡ column_cause (job_of job.now) }
{
    if !is_single(&job.sources) {
        return Some(Unmergeable::Concat);
    }
    if !are_items(&job.stages) {
        return Some(Unmergeable::Stage);
    }
    if !job_is_placeless(job) {
        return Some(Unmergeable::Row);
    }
    terminal_cause(&job.terminal)
}

/// Whether one of these jobs with this name is over a column.
fn is_column_job(jobs: &[Job], name: &[u8]) -> bool
    ensures { result ≡ is_column_job (jobs_of jobs.now) name.now }
{
    for job in jobs {
        if is_over_column(job) && job.name.as_slice() == name {
            return true;
        }
    }
    false
}

/// Whether a job with one of these names is over a column.
fn has_column_job(jobs: &[Job], names: &[Bytes]) -> bool
    ensures { result ≡ has_column_job (jobs_of jobs.now) names.now }
{
    for name in names {
        if is_column_job(jobs, name.as_slice()) {
            return true;
        }
    }
    false
}

/// Why a job below these can't be merged.
fn cause_below(alloc: Global, above: &[Job], job: &Job) -> Result<Option<Unmergeable>, NoMemory>
    ensures { IfOk result (λ cause. cause ≡ cause_below (jobs_of above.now) (job_of job.now)) }
{
    let names = names_in_job(alloc, job)?;
    if has_column_job(above, &names) {
        return Ok(Some(Unmergeable::NamesMerged));
    }
    if is_over_column(job) {
        return Ok(column_cause(job));
    }
    Ok(None)
}

/// The index of the first job that can't be merged, from 0, and why. The jobs are read with columns without cells.
pub fn first_unmergeable(
    alloc: Global,
    jobs: &[Job],
) -> Result<Option<(usize, Unmergeable)>, NoMemory>
    ensures { IfOk result (λ found. found ≡ first_unmergeable (jobs_of jobs.now)) }
{
    for place in 0..jobs.len() {
        if let Some(cause) = cause_below(alloc, &jobs[..place], &jobs[place])? {
            return Ok(Some((place, cause)));
        }
    }
    Ok(None)
}
