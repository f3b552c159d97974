//! Which faults the stages of a job can have.

ghost use Rattle.std.specs.Prelude.{◌≡◌};
ghost use Rattle.find_ops.specs.Finds.{find_of};
ghost use Rattle.job_language.specs.Jobs.{job_of, job_stage_of, job_stages_of, terminal_of};
ghost use Rattle.report_merge.specs.Possible.{fault_can, fault_fits, find_can, is_at_item, later_can, of_lambda};
ghost use Rattle.report_merge.specs.Possible.{of_stream, source_can, stage_can, terminal_can};

use crate::joining::fallback_of;
use crate::possible::items_from;
use crate::unmergeable::is_over_column;
use find_ops::FindTerminal;
use job_language::{Job, JobStage, Terminal};
use job_meaning::Answer;
use lambda_values::FaultKind;
use slice_ops::Slice;
use trace::{Fault, Stage};

/// Whether a lambda that gives a number or a boolean can have this fault.
fn of_lambda(kind: FaultKind) -> bool
    ensures { result ≡ of_lambda kind }
{
    match kind {
        FaultKind::DivideByZero | FaultKind::Overflow => true,
        FaultKind::OutOfArray | FaultKind::SourceTooLong => false,
    }
}

/// Whether a lambda that gives a stream can have this fault.
fn of_stream(kind: FaultKind) -> bool
    ensures { result ≡ of_stream kind }
{
    match kind {
        FaultKind::DivideByZero | FaultKind::Overflow | FaultKind::SourceTooLong => true,
        FaultKind::OutOfArray => false,
    }
}

/// Whether a fault is at an item, which is one of this many.
fn is_at_item(items: u64, origin: Option<u64>) -> bool
    ensures { result ≡ is_at_item items origin }
{
    match origin {
        None => false,
        Some(place) => place < items,
    }
}

/// Whether a stage can have this fault.
fn stage_can(stage: &JobStage, items: u64, fault: Fault) -> bool
    ensures { result ≡ stage_can (job_stage_of stage.now) items fault }
{
    match stage {
        JobStage::Item(Stage::FlatMap(_)) => of_stream(fault.kind)
            && is_at_item(items, fault.origin),
        JobStage::Item(Stage::Map(_) | Stage::Filter(_))
        | JobStage::Slice(Slice::TakeWhile(_) | Slice::DropWhile(_)) => {
            of_lambda(fault.kind) && is_at_item(items, fault.origin)
        }
        JobStage::Slice(Slice::Limit(_) | Slice::Skip(_)) => false,
        JobStage::Sorted | JobStage::Distinct => false,
        JobStage::Prefix { positions, .. } => {
            positions.is_some()
                && (matches!(fault.kind, FaultKind::OutOfArray) && fault.origin.is_none())
        }
    }
}

/// Whether a find can have this fault.
fn find_can(find: &FindTerminal, items: u64, fault: Fault) -> bool
    ensures { result ≡ find_can (find_of find.now) items fault }
{
    match find {
        FindTerminal::First => false,
        FindTerminal::AnyMatch(_) | FindTerminal::AllMatch(_) | FindTerminal::NoneMatch(_) => {
            of_lambda(fault.kind) && is_at_item(items, fault.origin)
        }
    }
}

/// Whether a terminal can have this fault.
fn terminal_can(terminal: &Terminal, items: u64, fault: Fault) -> bool
    ensures { result ≡ terminal_can (terminal_of terminal.now) items fault }
{
    match terminal {
        Terminal::Find(find) => find_can(find, items, fault),
        Terminal::ExactSum => {
            matches!(fault.kind, FaultKind::Overflow) && is_at_item(items, fault.origin)
        }
        _ => false,
    }
}

/// Whether the source of a job can have this fault.
fn source_can(job: &Job, fault: Fault) -> bool
    ensures { result ≡ source_can (job_of job.now) fault }
{
    !is_over_column(job)
        && (matches!(fault.kind, FaultKind::SourceTooLong) && fault.origin.is_none())
}

/// Whether the stage after this many of these, or the terminal after the last, can have this fault.
fn later_can(
    stages: &[JobStage],
    terminal: &Terminal,
    items: u64,
    place: usize,
    fault: Fault,
) -> bool
    ensures { result ≡ later_can (job_stages_of stages.now) (terminal_of terminal.now) items place fault }
{
    match stages.get(place) {
        Some(stage) => stage_can(stage, items, fault),
        None => place == stages.len() && terminal_can(terminal, items, fault),
    }
}

/// Whether a stage of a job, its source or its terminal can have this fault.
fn fault_fits(job: &Job, rows: u64, fault: Fault) -> bool
    ensures { result ≡ fault_fits (job_of job.now) rows fault }
{
    if fault.stage == 0 {
        return source_can(job, fault);
    }
    let items = items_from(job, rows);
    let place = (fault.stage - 1) as usize;
    later_can(&job.stages, &job.terminal, items, place, fault)
}

/// Whether a job can have this fault as its answer.
pub(crate) fn fault_can(job: &Job, rows: u64, answer: &Answer) -> bool
    ensures { result ≡ fault_can (job_of job.now) rows answer.now }
{
    match answer {
        Answer::Fault(fault) => {
            let stays = is_over_column(job) || fallback_of(job).is_none();
            stays && fault_fits(job, rows, *fault)
        }
        _ => false,
    }
}
