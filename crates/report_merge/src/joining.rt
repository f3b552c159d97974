//! Two answers of a job, over rows and over the rows after them, as one.

ghost use Rattle.std.specs.Prelude.{◌≡◌, ◌≤◌, ◌^◌, ◌+◌, ◌++◌, if◌then◌else◌, Some, None, IfOk, option_map};
ghost use Rattle.find_ops.specs.Finds.{find_of};
ghost use Rattle.job_language.specs.Jobs.{find as find_terminal, job_of, terminal_of};
ghost use Rattle.job_meaning.specs.declared.answer.Answer.TheVariants as answer;
ghost use Rattle.job_meaning.specs.Walks.{fallback_of, instead_of_fault, number_as};
ghost use Rattle.report_merge.specs.Merging.{answer_beside, arrays_joined, asks_first, beside, either_or_both};
ghost use Rattle.report_merge.specs.Merging.{founds_joined, is_decided, is_final, is_within, joined, moved};
ghost use Rattle.report_merge.specs.Merging.{numbers_joined, optionals_joined, right_fault, same_answer};
ghost use Rattle.report_merge.specs.Merging.{with_fallback};
ghost use Rattle.std.specs.Cmp.Lexicographic.{pointwise};
ghost use Rattle.std.specs.Ordering.{int_eq};

use crate::unmergeable::is_over_column;
use find_ops::FindTerminal;
use job_language::{Job, Terminal};
use job_meaning::{Answer, Values};
use reduce_ops::Op;
use std::alloc::Global;
use trace::{Fault, NoMemory};

/// Whether a boolean is what an item decides.
fn is_decided(terminal: &Terminal, truth: bool) -> bool
    ensures { result ≡ is_decided (terminal_of terminal.now) truth }
{
    match terminal {
        Terminal::Find(FindTerminal::AnyMatch(_)) => truth,
        Terminal::Find(FindTerminal::AllMatch(_) | FindTerminal::NoneMatch(_)) => !truth,
        _ => false,
    }
}

/// Whether a terminal asks for the first item.
fn asks_first(terminal: &Terminal) -> bool
    ensures { result ≡ asks_first (terminal_of terminal.now) }
{
    matches!(terminal, Terminal::Find(FindTerminal::First))
}

/// Whether no later part changes the answer.
fn is_final(answer: &Answer, terminal: &Terminal) -> bool
    ensures { result ≡ is_final answer.now (terminal_of terminal.now) }
{
    match answer {
        Answer::Number(_) | Answer::Array(_) => false,
        Answer::Truth(truth) => is_decided(terminal, *truth),
        Answer::Optional(value) => asks_first(terminal) && value.is_some(),
        Answer::Fault(_) | Answer::Unusable(_) => true,
    }
}

/// The fault of the right part, counted over both; none if its item is no row of that part.
fn right_fault(before: u64, rows: u64, fault: Fault) -> Option<Answer>
    requires { before + rows ≤ 2 ^ 62 }
    ensures { result ≡ right_fault before rows fault }
{
    match fault.origin {
        None => Some(Answer::Fault(fault)),
        Some(place) if place < rows => Some(Answer::Fault(Fault {
            kind: fault.kind,
            stage: fault.stage,
            origin: Some(before + place),
        })),
        Some(_) => None,
    }
}

/// Two numbers by the operator's table.
fn numbers_joined(op: Op, left: &Answer, right: &Answer) -> Option<Answer>
    ensures { result ≡ numbers_joined op left.now right.now }
{
    match (left, right) {
        (Answer::Number(left), Answer::Number(right)) => {
            let number = op.apply(*left, *right);
            Some(Answer::Number(number))
        }
        _ => None,
    }
}

/// Two numbers that may be missing.
fn either_or_both(op: Op, left: Option<i64>, right: Option<i64>) -> Option<i64>
    ensures { result ≡ either_or_both op left right }
{
    match (left, right) {
        (Some(left), Some(right)) => Some(op.apply(left, right)),
        (Some(left), None) => Some(left),
        (None, right) => right,
    }
}

/// Two optionals by the operator's table.
fn optionals_joined(op: Op, left: &Answer, right: &Answer) -> Option<Answer>
    ensures { result ≡ optionals_joined op left.now right.now }
{
    match (left, right) {
        (Answer::Optional(left), Answer::Optional(right)) => {
            Some(Answer::Optional(either_or_both(op, *left, *right)))
        }
        _ => None,
    }
}

/// What the right part found after the left one found nothing.
fn founds_joined(find: &FindTerminal, left: &Answer, right: &Answer) -> Option<Answer>
    ensures { result ≡ founds_joined (find_of find.now) left.now right.now }
{
    match (find, left, right) {
        (FindTerminal::First, Answer::Optional(_), Answer::Optional(value)) => {
            Some(Answer::Optional(*value))
        }
        (
            FindTerminal::AnyMatch(_) | FindTerminal::AllMatch(_) | FindTerminal::NoneMatch(_),
            Answer::Truth(_),
            Answer::Truth(truth),
        ) => Some(Answer::Truth(*truth)),
        _ => None,
    }
}

/// Values and then others, which are copied.
fn values_joined(alloc: Global, left: Values, right: &Values) -> Result<Values, NoMemory>
    ensures { IfOk result (λ values. values ≡ left ++ right.now) }
{
    let mut values = left.into_vec(alloc)?;
    let pieces = right.pieces();
    for piece in pieces {
        values.extend_from_slice(piece)?;
    }
    Values::from_vec(values)
}

/// Two arrays, one after the other.
fn arrays_joined(alloc: Global, left: Answer, right: &Answer) -> Result<Option<Answer>, NoMemory>
    ensures { IfOk result (λ both. both ≡ arrays_joined left right.now) }
{
    match (left, right) {
        (Answer::Array(left), Answer::Array(right)) => {
            Ok(Some(Answer::Array(values_joined(alloc, left, right)?)))
        }
        _ => Ok(None),
    }
}

/// Two answers without a fault; the left one isn't final.
fn joined(
    alloc: Global,
    terminal: &Terminal,
    left: Answer,
    right: &Answer,
) -> Result<Option<Answer>, NoMemory>
    ensures { IfOk result (λ both. both ≡ joined (terminal_of terminal.now) left right.now) }
{
    match terminal {
        Terminal::Sum | Terminal::Count => Ok(numbers_joined(Op::Sum, &left, right)),
        Terminal::Min => Ok(optionals_joined(Op::Min, &left, right)),
        Terminal::Max => Ok(optionals_joined(Op::Max, &left, right)),
        Terminal::Reduce(op) => Ok(optionals_joined(*op, &left, right)),
        Terminal::ReduceFrom { op, .. } => Ok(numbers_joined(*op, &left, right)),
        Terminal::ToArray => arrays_joined(alloc, left, right),
        Terminal::Find(find) => Ok(founds_joined(find, &left, right)),
        Terminal::ExactSum => Ok(None),
    }
}

/// The answer over rows, which are `before`, and over the `rows` after them.
fn beside(
    alloc: Global,
    terminal: &Terminal,
    before: u64,
    rows: u64,
    left: Answer,
    right: &Answer,
) -> Result<Option<Answer>, NoMemory>
    requires { before + rows ≤ 2 ^ 62 }
    ensures { IfOk result (λ both. both ≡ beside (terminal_of terminal.now) before rows left right.now) }
{
    if is_final(&left, terminal) {
        return Ok(Some(left));
    }
    match right {
        Answer::Fault(fault) => Ok(right_fault(before, rows, *fault)),
        _ => joined(alloc, terminal, left, right),
    }
}

/// Whether two arrays are equal. Those in several pieces are copied.
fn same_values(alloc: Global, left: &Values, right: &Values) -> Result<bool, NoMemory>
    ensures { IfOk result (λ same. same ≡ pointwise int_eq left.now right.now) }
{
    if let (Some(left), Some(right)) = (left.as_slice(), right.as_slice()) {
        return Ok(left == right);
    }
    let left = left.to_vec(alloc)?;
    let right = right.to_vec(alloc)?;
    Ok(left.as_slice() == right.as_slice())
}

/// Whether two answers are equal.
fn same_answer(alloc: Global, left: &Answer, right: &Answer) -> Result<bool, NoMemory>
    ensures { IfOk result (λ same. same ≡ same_answer left.now right.now) }
{
    match (left, right) {
        (Answer::Number(left), Answer::Number(right)) => Ok(left == right),
        (Answer::Truth(left), Answer::Truth(right)) => Ok(left == right),
        (Answer::Optional(left), Answer::Optional(right)) => Ok(left == right),
        (Answer::Array(left), Answer::Array(right)) => same_values(alloc, left, right),
        (Answer::Fault(left), Answer::Fault(right)) => Ok(left == right),
        (Answer::Unusable(left), Answer::Unusable(right)) => Ok(left == right),
        _ => Ok(false),
    }
}

/// The answer of a job over rows and over the rows after them.
pub(crate) fn answer_beside(
    alloc: Global,
    job: &Job,
    before: u64,
    rows: u64,
    left: Answer,
    right: &Answer,
) -> Result<Option<Answer>, NoMemory>
    requires { before + rows ≤ 2 ^ 62 }
    ensures { IfOk result (λ both. both ≡ answer_beside (job_of job.now) before rows left right.now) }
{
    if !is_over_column(job) {
        let same = same_answer(alloc, &left, right)?;
        return Ok(if same { Some(left) } else { None });
    }
    beside(alloc, &job.terminal, before, rows, left, right)
}

/// What a terminal gives whose number after a fault is this.
fn number_as(terminal: &Terminal, number: i64) -> Option<Answer>
    ensures { result ≡ number_as (terminal_of terminal.now) number }
{
    match terminal {
        Terminal::Sum | Terminal::Count | Terminal::ReduceFrom { .. } | Terminal::ExactSum => {
            Some(Answer::Number(number))
        }
        Terminal::Min | Terminal::Max | Terminal::Reduce(_) | Terminal::Find(FindTerminal::First) =>
            Some(Answer::Optional(Some(number))),
        Terminal::ToArray
        | Terminal::Find(
            FindTerminal::AnyMatch(_) | FindTerminal::AllMatch(_) | FindTerminal::NoneMatch(_),
        ) => None,
    }
}

/// What a job gives after a fault, if it says so.
pub(crate) fn fallback_of(job: &Job) -> Option<Answer>
    ensures { result ≡ fallback_of (job_of job.now) }
{
    match job.on_fault {
        Some(number) => number_as(&job.terminal, number),
        None => None,
    }
}

/// This answer, or what the job gives after a fault.
fn without_fault(job: &Job, answer: Answer) -> Answer
    ensures { result ≡ instead_of_fault (fallback_of (job_of job.now)) answer }
{
    match (fallback_of(job), answer) {
        (Some(fallback), Answer::Fault(_)) => fallback,
        (_, answer) => answer,
    }
}

/// The answer of a job over a column after its `onFault`.
pub(crate) fn with_fallback(job: &Job, answer: Answer) -> Answer
    ensures { result ≡ with_fallback (job_of job.now) answer }
{
    if is_over_column(job) {
        return without_fault(job, answer);
    }
    answer
}
