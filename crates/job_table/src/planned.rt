//! The jobs of a plan, and their run.
ghost use Rattle.std.specs.Prelude.{◌≡◌, ◌<◌, List, [], codes, length, IfOk, Some};
ghost use Rattle.job_plan.specs.declared.plan.JobPlan.{JobPlan as job_plan};
ghost use Rattle.job_plan.specs.Plans.{plan_in, planned_meaning, plans_in};
ghost use Rattle.job_table.specs.PlanLegs.{one_plan, plan_at};

use job_meaning::Answer;
use job_plan::{JobPlan, Plan};
use job_runner::{NoMemory, run_all};
use run_settings::Settings;
use std::alloc::Global;
use std::fmt;
use std::fmt::{Display, Formatter, Write};
use std::marker::{Brand, PhantomData};
use std::sync::Wait;
use std::thread::Threads;
use thiserror::Error;
use worker_pool::Gate;

/// The jobs that a run is over, as they are kept. Whoever makes `PlanJobs` picks them: `run_jobs`, or a caller with a
/// pool of its own.
pub trait PlanBrand {
    ghost jobs: { List job_plan };
}

impl PlanBrand for Brand {
    ghost jobs = { [] };
}

/// The jobs of a plan, as a run takes them.
#[derive(Drop)]
pub struct PlanJobs<'a, 'c, P: PlanBrand> {
    pub(crate) plan: &'a Plan<'c>,
    of: PhantomData<P>,
    ghost planned: { plan.now.jobs.items ≡ P.jobs } by { one_plan plan.now.jobs.items P.jobs },
}

impl<'a, 'c, P: PlanBrand> PlanJobs<'a, 'c, P> {
    /// The jobs of this plan. It takes no memory.
    pub fn of(plan: &'a Plan<'c>) -> PlanJobs<'a, 'c, P>
        requires planned { plan.now.jobs.items ≡ P.jobs }
    {
        PlanJobs {
            plan,
            of: PhantomData,
        }
    }

    /// The job with this number.
    pub(crate) fn job(&self, job: usize) -> &'a JobPlan<'c>
        requires { job < length (plans_in P.jobs) }
        ensures { plan_in result.now ≡ plan_at (plans_in P.jobs) job }
    {
        &self.plan.jobs[job]
    }

    /// The job with this number, borrowed for as long as these jobs are.
    pub(crate) fn own(&self, job: usize) -> &JobPlan<'c>
        requires { job < length (plans_in P.jobs) }
        ensures { plan_in result.now ≡ plan_at (plans_in P.jobs) job }
    {
        self.job(job)
    }

    /// The answer of a job as it is kept: in one piece, if a later job goes over its array, so that each of that one's
    /// leaves reads it in place.
    pub(crate) fn for_later_jobs(
        &self,
        alloc: Global,
        job: usize,
        answer: Answer,
    ) -> Result<Answer, NoMemory>
        ensures { IfOk result (λ kept. kept ≡ answer) }
    {
        if self.plan.lends(job) {
            return answer.in_one_piece(alloc);
        }
        Ok(answer)
    }
}

/// The answers of the jobs of a plan, by a run whose types know of the plan.
fn run_as<P: PlanBrand + Send + Sync, H: Threads + Wait + Sync, G: Gate + Sync>(
    rt: &H,
    alloc: Global,
    plan: &Plan<'_>,
    settings: Settings,
    gate: &G,
) -> Result<Vec<Answer>, NoMemory>
    requires planned { plan.now.jobs.items ≡ P.jobs }
    ensures { IfOk result (λ answers. answers.items ≡ planned_meaning (plans_in plan.now.jobs.items)) }
{
    let jobs = PlanJobs::<P>::of(plan);
    run_all(rt, alloc, &jobs, settings, gate)
}

/// Why a run has no answers. Number 1.
#[derive(Clone, Copy, Debug, PartialEq, Eq, Error)]
pub enum RunFault {
    /// An allocation failed.
    NoMemory,
}

impl Display for RunFault {
    ghost output = { λ _. Some (codes "out of memory") };

    fn fmt<W: Write>(&self, f: &mut Formatter<W>) -> fmt::Result {
        match self {
            RunFault::NoMemory => f.write_str("out of memory"),
        }
    }
}

/// The answers of the jobs of a plan, in file order, worked out by no more workers than the settings say.
///
/// Each leaf is entered at the gate. A piece of at most `threshold` items is never cut, unless the settings are
/// adaptive. An answer that no task left is worked out by the caller, which enters the gate once, for all of the job's
/// source. A job begins when the jobs that it names have ended.
pub fn run_jobs<H: Threads + Wait + Sync, G: Gate + Sync>(
    rt: &H,
    alloc: Global,
    plan: &Plan<'_>,
    settings: &Settings,
    gate: &G,
) -> Result<Vec<Answer>, RunFault>
    ensures { IfOk result (λ answers. answers.items ≡ planned_meaning (plans_in plan.now.jobs.items)) }
{
    match run_as::<Brand, H, G>(rt, alloc, plan, *settings, gate) {
        Ok(answers) => Ok(answers),
        Err(_refused) => Err(RunFault::NoMemory),
    }
}
