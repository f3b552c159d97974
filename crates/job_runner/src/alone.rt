//! One job on one thread.
ghost use Rattle.std.specs.Prelude.{◌≡◌, ◌<◌, ◌≤◌, ℕ, IfNone, IfOk, IfSome};

use crate::NoMemory;
use crate::earlier::Earlier;
use crate::legs::{Begun, JobLegs};
use crate::piece::{LegInput, Piece};
use early_stop::Never;
use std::alloc::Global;
use worker_pool::Gate;

/// Walks a whole leg as one piece.
fn walk_whole<S: JobLegs>(
    alloc: Global,
    jobs: &S,
    job: usize,
    leg: usize,
    input: LegInput<'_, '_, S::Source, S::Given, Earlier<'_, S>>,
    scratch: &mut S::Scratch,
) -> Result<S::Part, NoMemory>
    requires job { job < S.run.jobs }
    requires leg { leg ≤ S.run.last job }
    requires first { IfNone input.source (leg ≡ 0) }
    requires source { IfSome input.source (λ source. S.run.is_source job leg source.now) }
    requires size { input.size ≡ S.run.size job leg }
    requires given { S.run.is_given job input.given.now }
    ensures { IfOk result (λ part. S.run.stands_for job leg 0 (S.run.size job leg) part) }
{
    let all = Piece::all(job, leg, input.size);
    jobs.leaf(alloc, all, input, scratch, &mut Never)
}

/// Walks all legs of a job, each as one piece. `size` is how many positions the job's source has.
fn walk_alone<'x, S: JobLegs>(
    alloc: Global,
    jobs: &S,
    job: usize,
    given: &'x S::Given,
    size: u64,
    earlier: &'x Earlier<'_, S>,
) -> Result<S::Answer, NoMemory>
    requires job { job < S.run.jobs }
    requires given { S.run.is_given job given.now }
    requires size { size ≡ S.run.size job 0 }
    ensures { IfOk result (λ answer. S.run.is_answer job answer) }
{
    let last = jobs.last_leg(job);
    let mut scratch = jobs.scratch(alloc);
    let mut size = size;
    let mut source = None;
    for leg in 0..last {
        let input = LegInput {
            source: source.as_ref(),
            size,
            given,
            earlier,
        };
        let part = walk_whole(alloc, jobs, job, leg, input, &mut scratch)?;
        let next = jobs.next_source(alloc, job, leg, part, given)?;
        size = next.size;
        source = Some(next.source);
    }
    let input = LegInput {
        source: source.as_ref(),
        size,
        given,
        earlier,
    };
    let part = walk_whole(alloc, jobs, job, last, input, &mut scratch)?;
    jobs.answer(alloc, job, part, input, &mut scratch)
}

/// Works a job out after the jobs before it. It calls the gate before the walk, once for all of the job's source, and
/// after the answer.
pub(crate) fn answer_alone<S: JobLegs, G: Gate>(
    alloc: Global,
    gate: &G,
    jobs: &S,
    job: usize,
    earlier: &Earlier<'_, S>,
) -> Result<S::Answer, NoMemory>
    requires job { job < S.run.jobs }
    ensures { IfOk result (λ answer. S.run.is_answer job answer) }
{
    let answer = match jobs.given(alloc, job, earlier)? {
        Begun::Walk { given, size } => {
            gate.at_leaf(job, 0, size);
            walk_alone(alloc, jobs, job, &given, size, earlier)?
        }
        Begun::Known(answer) => answer,
    };
    gate.at_answer(job);
    Ok(answer)
}
