//! The earlier jobs that a job names.

ghost use Rattle.std.specs.Prelude.{◌≡◌, ◌<◌, length, IfOk, IfSome};
ghost use Rattle.job_language.specs.Jobs.{job_of};
ghost use Rattle.job_meaning.specs.Names.{names_in_job, place_of};
ghost use Rattle.job_plan.specs.Plans.{plan_names, all_placed};

use crate::plan::{JobPlan, Named};
use job_language::Job;
use job_meaning::names_in_job;
use std::alloc::Global;
use trace::NoMemory;

/// The place of the first of these jobs with this name. It compares the names from the first on.
#[tactic(auto, using(crate::proofs::NameLemmas::placed_at))]
pub(crate) fn place_of(jobs: &[JobPlan], name: &[u8]) -> Option<usize>
    ensures value { result ≡ place_of (plan_names jobs.now) name.now }
    ensures few { IfSome result (λ place. place < length jobs.now) }
{
    jobs.iter().position(|job| job.name.as_slice() == name)
}

/// The earlier jobs that a job names, in order of writing. A name that none of these has is left out.
pub(crate) fn named_in(alloc: Global, job: &Job, before: &[JobPlan]) -> Result<Vec<Named>, NoMemory>
    ensures { IfOk result (λ named. named.items ≡ all_placed (plan_names before.now) (names_in_job (job_of job.now))) }
{
    let mut named = Vec::new(alloc);
    for name in names_in_job(alloc, job)? {
        if let Some(job) = place_of(before, name.as_slice()) {
            named.push(Named { name, job })?;
        }
    }
    Ok(named)
}
