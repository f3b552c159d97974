//! The names of the jobs that a job names.

ghost use Rattle.std.specs.Prelude.{◌≡◌, ◌++◌, IfOk};
ghost use Rattle.trace.specs.Stages.{stage_of};
ghost use Rattle.slice_ops.specs.Slices.{slice_of};
ghost use Rattle.find_ops.specs.Finds.{find_of};
ghost use Rattle.job_language.specs.Jobs.{job_of, job_stage_of, job_stages_of, sources_of, terminal_of};
ghost use Rattle.job_meaning.specs.Names.{all_source_names, all_stage_names, find_names, job_stage_names};
ghost use Rattle.job_meaning.specs.Names.{names_in_job, slice_names, stage_names, terminal_names};

use find_ops::FindTerminal;
use job_language::{Job, JobStage, PlainSource, Terminal};
use slice_ops::Slice;
use std::alloc::Global;
use stream_tokens::Bytes;
use trace::{NoMemory, Stage};

/// Adds the names of a stage that looks at one item at a time.
fn push_item_stage(alloc: Global, stage: &Stage, names: &mut Vec<Bytes>) -> Result<(), NoMemory>
    ensures { IfOk result (λ _. names.new.items ≡ names.old.items ++ stage_names (stage_of stage.now)) }
{
    match stage {
        Stage::Map(image) => image.push_names(alloc, names),
        Stage::Filter(test) => test.push_names(alloc, names),
        Stage::FlatMap(inner) => inner.push_names(alloc, names),
    }
}

/// Adds the names of a stage that looks at a whole walk.
fn push_slice(alloc: Global, slice: &Slice, names: &mut Vec<Bytes>) -> Result<(), NoMemory>
    ensures { IfOk result (λ _. names.new.items ≡ names.old.items ++ slice_names (slice_of slice.now)) }
{
    match slice {
        Slice::Limit(_) | Slice::Skip(_) => Ok(()),
        Slice::TakeWhile(test) | Slice::DropWhile(test) => test.push_names(alloc, names),
    }
}

/// Adds the names of a stage.
fn push_stage(alloc: Global, stage: &JobStage, names: &mut Vec<Bytes>) -> Result<(), NoMemory>
    ensures { IfOk result (λ _. names.new.items ≡ names.old.items ++ job_stage_names (job_stage_of stage.now)) }
{
    match stage {
        JobStage::Item(stage) => push_item_stage(alloc, stage, names),
        JobStage::Slice(slice) => push_slice(alloc, slice, names),
        JobStage::Prefix { .. } | JobStage::Sorted | JobStage::Distinct => Ok(()),
    }
}

/// Adds the names of stages, one stage after the other.
fn push_stages(alloc: Global, stages: &[JobStage], names: &mut Vec<Bytes>) -> Result<(), NoMemory>
    ensures { IfOk result (λ _. names.new.items ≡ names.old.items ++ all_stage_names (job_stages_of stages.now)) }
{
    for stage in stages {
        push_stage(alloc, stage, names)?;
    }
    Ok(())
}

/// Adds the names of a find or a match.
fn push_find(alloc: Global, find: &FindTerminal, names: &mut Vec<Bytes>) -> Result<(), NoMemory>
    ensures { IfOk result (λ _. names.new.items ≡ names.old.items ++ find_names (find_of find.now)) }
{
    match find {
        FindTerminal::First => Ok(()),
        FindTerminal::AnyMatch(test)
        | FindTerminal::AllMatch(test)
        | FindTerminal::NoneMatch(test) => test.push_names(alloc, names),
    }
}

/// Adds the names of a terminal.
fn push_terminal(alloc: Global, terminal: &Terminal, names: &mut Vec<Bytes>) -> Result<(), NoMemory>
    ensures { IfOk result (λ _. names.new.items ≡ names.old.items ++ terminal_names (terminal_of terminal.now)) }
{
    match terminal {
        Terminal::Find(find) => push_find(alloc, find, names),
        _ => Ok(()),
    }
}

/// Adds the names of sources, one source after the other.
fn push_sources(
    alloc: Global,
    sources: &[PlainSource],
    names: &mut Vec<Bytes>,
) -> Result<(), NoMemory>
    ensures { IfOk result (λ _. names.new.items ≡ names.old.items ++ all_source_names (sources_of sources.now)) }
{
    for source in sources {
        if let PlainSource::Result(name) = source {
            let copy = Vec::from_slice(alloc, name.as_slice())?;
            names.push(Bytes::from(copy))?;
        }
    }
    Ok(())
}

/// The names of the earlier jobs that a job names, in order of writing, each as often as it is written.
pub fn names_in_job(alloc: Global, job: &Job) -> Result<Vec<Bytes>, NoMemory>
    ensures { IfOk result (λ names. names.items ≡ names_in_job (job_of job.now)) }
{
    let mut names = Vec::new(alloc);
    push_sources(alloc, &job.sources, &mut names)?;
    push_stages(alloc, &job.stages, &mut names)?;
    push_terminal(alloc, &job.terminal, &mut names)?;
    Ok(names)
}
