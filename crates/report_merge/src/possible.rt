//! Which answers a job can have over this many rows.

ghost use Rattle.std.specs.Prelude.{◌≡◌, ◌≤◌, length, IfOk};
ghost use Rattle.find_ops.specs.Finds.{find_of};
ghost use Rattle.job_language.specs.Jobs.{job_of, job_stage_of, job_stages_of, jobs_of, terminal_of};
ghost use Rattle.job_meaning.specs.FileAnswers.{first_unusable, found, job_found, jobs_found};
ghost use Rattle.report_merge.specs.Merging.{part_of};
ghost use Rattle.report_merge.specs.Possible.{array_fits, can_answer, count_fits, first_impossible, flattens};
ghost use Rattle.report_merge.specs.Possible.{found_fits, is_fallback, is_flat_map, is_unusable_by, items_from};
ghost use Rattle.report_merge.specs.Possible.{may_come, most_items, named_answers, number_fits, optional_fits};
ghost use Rattle.report_merge.specs.Possible.{truth_fits, value_can, value_fits};

use crate::joining::fallback_of;
use crate::part::PartAnswers;
use crate::stage_faults::fault_can;
use crate::unmergeable::is_over_column;
use find_ops::FindTerminal;
use job_language::{Job, JobStage, Terminal};
use job_meaning::{Answer, Values, names_in_job};
use std::alloc::Global;
use stream_tokens::Bytes;
use trace::{NoMemory, Stage};

/// How many items a source has at most that is no column.
const MAX_ITEMS: u64 = 4_611_686_018_427_387_904;

/// Whether a stage is a `flatMap`.
fn is_flat_map(stage: &JobStage) -> bool
    ensures { result ≡ is_flat_map (job_stage_of stage.now) }
{
    match stage {
        JobStage::Item(Stage::FlatMap(_)) => true,
        JobStage::Item(Stage::Map(_) | Stage::Filter(_)) => false,
        JobStage::Slice(_) | JobStage::Prefix { .. } => false,
        JobStage::Sorted | JobStage::Distinct => false,
    }
}

/// Whether one of the stages is a `flatMap`.
fn flattens(stages: &[JobStage]) -> bool
    ensures { result ≡ flattens (job_stages_of stages.now) }
{
    for stage in stages {
        if is_flat_map(stage) {
            return true;
        }
    }
    false
}

/// How many items the source of a job has at most.
pub(crate) fn items_from(job: &Job, rows: u64) -> u64
    ensures { result ≡ items_from (job_of job.now) rows }
{
    if is_over_column(job) { rows } else { MAX_ITEMS }
}

/// How many items come to the terminal at most, if the rows say it.
fn most_items(job: &Job, rows: u64) -> Option<u64>
    ensures { result ≡ most_items (job_of job.now) rows }
{
    let items = items_from(job, rows);
    if flattens(&job.stages) && 0 < items {
        return None;
    }
    Some(items)
}

/// Whether this many items may come.
fn may_come(count: u64, most: Option<u64>) -> bool
    ensures { result ≡ may_come count most }
{
    match most {
        None => true,
        Some(most) => count <= most,
    }
}

/// Whether a fold can give this answer, which without items gives its first number.
fn number_fits(most: Option<u64>, first: i64, answer: &Answer) -> bool
    ensures { result ≡ number_fits most first answer.now }
{
    match answer {
        Answer::Number(number) => may_come(1, most) || *number == first,
        _ => false,
    }
}

/// Whether a count can be this answer.
fn count_fits(most: Option<u64>, answer: &Answer) -> bool
    ensures { result ≡ count_fits most answer.now }
{
    match (most, answer) {
        (None, Answer::Number(_)) => true,
        (Some(most), Answer::Number(count)) => 0 <= *count && count.unsigned_abs() <= most,
        _ => false,
    }
}

/// Whether a number that may be missing can be this answer.
fn optional_fits(most: Option<u64>, answer: &Answer) -> bool
    ensures { result ≡ optional_fits most answer.now }
{
    match answer {
        Answer::Optional(value) => value.is_none() || may_come(1, most),
        _ => false,
    }
}

/// How many values there are; no memory holds more than a `usize` counts.
fn count_of(values: &Values) -> Result<usize, NoMemory>
    ensures { IfOk result (λ count. count ≡ length values.now) }
{
    let mut count = 0usize;
    let pieces = values.pieces();
    for piece in pieces {
        count = count.checked_add(piece.len()).ok_or(NoMemory)?;
    }
    Ok(count)
}

/// Whether an array can be this answer.
fn array_fits(most: Option<u64>, answer: &Answer) -> Result<bool, NoMemory>
    ensures { IfOk result (λ fits. fits ≡ array_fits most answer.now) }
{
    match answer {
        Answer::Array(values) => {
            let count = count_of(values)?;
            Ok(may_come(count as u64, most))
        }
        _ => Ok(false),
    }
}

/// Whether a match can give this answer, which without items gives `first`.
fn truth_fits(most: Option<u64>, first: bool, answer: &Answer) -> bool
    ensures { result ≡ truth_fits most first answer.now }
{
    match answer {
        Answer::Truth(truth) => *truth == first || may_come(1, most),
        _ => false,
    }
}

/// Whether a find can give this answer.
fn found_fits(most: Option<u64>, find: &FindTerminal, answer: &Answer) -> bool
    ensures { result ≡ found_fits most (find_of find.now) answer.now }
{
    match find {
        FindTerminal::First => optional_fits(most, answer),
        FindTerminal::AnyMatch(_) => truth_fits(most, false, answer),
        FindTerminal::AllMatch(_) | FindTerminal::NoneMatch(_) => truth_fits(most, true, answer),
    }
}

/// Whether a terminal can give this value if at most this many items come.
fn value_fits(terminal: &Terminal, most: Option<u64>, answer: &Answer) -> Result<bool, NoMemory>
    ensures { IfOk result (λ fits. fits ≡ value_fits (terminal_of terminal.now) most answer.now) }
{
    match terminal {
        Terminal::Sum | Terminal::ExactSum => Ok(number_fits(most, 0, answer)),
        Terminal::Count => Ok(count_fits(most, answer)),
        Terminal::Min | Terminal::Max | Terminal::Reduce(_) => Ok(optional_fits(most, answer)),
        Terminal::ReduceFrom { identity, .. } => Ok(number_fits(most, *identity, answer)),
        Terminal::ToArray => array_fits(most, answer),
        Terminal::Find(find) => Ok(found_fits(most, find, answer)),
    }
}

/// Whether an answer is the number that a job gives after a fault.
fn is_fallback(fallback: &Option<Answer>, answer: &Answer) -> bool
    ensures { result ≡ is_fallback fallback.now answer.now }
{
    match (fallback, answer) {
        (Some(Answer::Number(fallback)), Answer::Number(number)) => *fallback == *number,
        _ => false,
    }
}

/// Whether a job can have this value as its answer.
fn value_can(job: &Job, rows: u64, answer: &Answer) -> Result<bool, NoMemory>
    ensures { IfOk result (λ can. can ≡ value_can (job_of job.now) rows answer.now) }
{
    let most = most_items(job, rows);
    if value_fits(&job.terminal, most, answer)? {
        return Ok(true);
    }
    if is_over_column(job) {
        return Ok(false);
    }
    Ok(is_fallback(&fallback_of(job), answer))
}

/// Whether an answer is unusable because of the job at this place.
fn is_unusable_by(place: usize, answer: &Answer) -> bool
    ensures { result ≡ is_unusable_by place answer.now }
{
    match answer {
        Answer::Unusable(other) => place == *other,
        _ => false,
    }
}

/// The place of the first job with this name, if its answer can't be used.
fn unusable_named(jobs: &[Job], answers: &[Answer], name: &[u8]) -> Option<usize>
    requires { length jobs.now ≤ length answers.now }
    ensures { result ≡ first_unusable
        (job_found name.now (found (named_answers (jobs_of jobs.now) answers.now) name.now)) }
{
    for place in 0..jobs.len() {
        if jobs[place].name.as_slice() == name {
            if answers[place].is_usable() {
                return None;
            }
            return Some(place);
        }
    }
    None
}

/// The place of the first job with one of these names whose answer can't be used.
fn first_unusable(jobs: &[Job], answers: &[Answer], names: &[Bytes]) -> Option<usize>
    requires { length jobs.now ≤ length answers.now }
    ensures { result ≡ first_unusable (jobs_found (named_answers (jobs_of jobs.now) answers.now) names.now) }
{
    for name in names {
        if let Some(place) = unusable_named(jobs, answers, name.as_slice()) {
            return Some(place);
        }
    }
    None
}

/// Whether this can be the answer of the job over this many rows, after these answers of the jobs above it.
fn can_answer(
    alloc: Global,
    above: &[Job],
    answers: &[Answer],
    job: &Job,
    rows: u64,
    answer: &Answer,
) -> Result<bool, NoMemory>
    requires { length above.now ≤ length answers.now }
    ensures { IfOk result (λ can. can
        ≡ can_answer (named_answers (jobs_of above.now) answers.now) (job_of job.now) rows answer.now) }
{
    let names = names_in_job(alloc, job)?;
    if let Some(place) = first_unusable(above, answers, &names) {
        return Ok(is_unusable_by(place, answer));
    }
    if value_can(job, rows, answer)? {
        return Ok(true);
    }
    Ok(fault_can(job, rows, answer))
}

/// The index of the first job, from 0, whose answer over a part can't be its own: of another kind than its terminal
/// gives, of more items than its rows give, a fault that none of its stages has, or `Unusable` where no job that it
/// names is. Jobs over a column were asked without their `onFault`, and are read with columns without cells.
pub fn first_impossible(
    alloc: Global,
    jobs: &[Job],
    part: &PartAnswers,
) -> Result<Option<usize>, NoMemory>
    ensures { IfOk result (λ place. place ≡ first_impossible (jobs_of jobs.now) (part_of part.now)) }
{
    let answers = part.answers.as_slice();
    for place in 0..jobs.len() {
        if place >= answers.len() {
            return Ok(None);
        }
        let above = &jobs[..place];
        let before = &answers[..place];
        if !can_answer(
            alloc,
            above,
            before,
            &jobs[place],
            part.rows,
            &answers[place],
        )? {
            return Ok(Some(place));
        }
    }
    Ok(None)
}
