//! The routes of jobs: what a run walks.

ghost use Rattle.std.specs.Prelude.{◌≡◌, ◌&&◌, [], false, IfOk, is_some, length};
ghost use Rattle.job_language.specs.Jobs.{job_of, jobs_of, names_of, sources_of};
ghost use Rattle.job_meaning.specs.FileAnswers.{meaning_of};
ghost use Rattle.job_meaning.specs.Walks.{instead_of_fault};
ghost use Rattle.job_plan.specs.Owned.{takes_arrays};
ghost use Rattle.job_routes.specs.Legs.{leg_in, leg_at};

use crate::lent_arrays::lent_arrays;
use crate::likely::likely_size;
use crate::likely_values::{values_of_any, values_of_some};
use crate::named::has_array;
use crate::names::named_in;
use job_language::{Job, PlainSource};
use job_meaning::Answer;
use job_routes::{Fallback, Leg, PlaceSide, Route, fallback_of, route_of};
use lambda_values::Env;
use std::alloc::Global;
use stream_tokens::Bytes;
use tables::Columns;
use trace::NoMemory;

/// An earlier job that a job names.
#[derive(Drop)]
pub struct Named {
    pub name: Bytes,
    /// The place of the earlier job in the file, from 0.
    pub job: usize,
}

/// The route of a job. Its first leg goes over positions of the job's sources, and so does the next one after a search;
/// each further one goes over positions of what the prefix at the end of the leg before it gives, and the last one
/// gives the answer.
#[derive(Drop)]
pub struct JobPlan<'c> {
    pub name: Bytes,
    /// The earlier jobs that it names, `result(NAME)` or `$NAME`, in order of writing, repeated where they are
    /// repeated.
    pub named: Vec<Named>,
    /// How many positions its first leg has, as far as it is known before a run. For the array of an earlier job it
    /// takes this number of that job. No answer depends on it.
    pub likely_size: u64,
    /// How many values an item of its first leg becomes, if that is known before a run. No answer depends on it.
    first_values: Option<u64>,
    pub sources: Vec<PlainSource<'c>>,
    /// Which positions the next leg goes over, if the first one is a search.
    pub search: Option<PlaceSide>,
    /// The legs that end in prefixes, and a search before them.
    pub scans: Vec<Leg>,
    pub last: Leg,
    /// What the job gives after a fault, if anything.
    pub fallback: Option<Fallback>,
    /// The columns whose rows the items are, if lambdas may have cells of them.
    pub table: Option<&'c Columns>,
    ghost own: { is_some search && takes_arrays (sources_of sources.items) ≡ false },
}

/// The routes of the jobs of a file, in file order.
#[derive(Drop)]
pub struct Plan<'c> {
    pub jobs: Vec<JobPlan<'c>>,
    /// Whether a later job goes over the array of the job at a place. It is empty if no job goes over an array. No
    /// answer depends on it.
    pub lent: Vec<bool>,
}

impl<'c> Plan<'c> {
    ghost use Rattle.job_plan.specs.Plans.{AreRoutes, plan_names, planned_meaning, plans_in};

    /// The routes of jobs, with the earlier jobs that they name. A name that no earlier job has is left out.
    ///
    /// `limit` goes before maps, and so does `skip` if these can't have a fault. So they select positions of what their
    /// leg goes over, and a run cuts what they leave. A `reduce` that keeps the first value becomes `findFirst`, which
    /// ends there, if its leg has no other slices, and only maps and filters that can't have a fault. Before `limit(0)`
    /// nothing is walked. Stages that may have a fault keep their numbers. If the first leg of a job has one other
    /// slice, and there are more workers than jobs, a search for the place where it cuts may come before it, so that
    /// all workers share it.
    ///
    /// The jobs are moved; after a refused allocation they are dropped. Takes time and memory for each stage, and each
    /// name in a job is compared with the names of the jobs before.
    pub fn of(alloc: Global, jobs: Vec<Job<'c>>, workers: u64) -> Result<Plan<'c>, NoMemory>
        ensures routes { IfOk result (λ plan.
            AreRoutes [] (plans_in plan.jobs.items) (jobs_of jobs.entry.items)) }
        ensures meaning { IfOk result (λ plan.
            planned_meaning (plans_in plan.jobs.items) ≡ meaning_of (jobs_of jobs.entry.items)) }
        ensures names { IfOk result (λ plan. plan_names plan.jobs.items ≡ names_of (jobs_of jobs.entry.items)) }
    {
        let to_spare = (jobs.len() as u64) < workers;
        let mut plans = Vec::new(alloc);
        for job in jobs {
            let plan = JobPlan::of(alloc, job, &plans, to_spare)?;
            plans.push(plan)?;
        }
        let lent = lent_arrays(alloc, &plans)?;
        Ok(Plan { jobs: plans, lent })
    }
}

impl<'c> JobPlan<'c> {
    ghost use Rattle.job_plan.specs.Plans.{IsRoute, plan_in, plan_names};

    /// The route of a job after these.
    fn of(
        alloc: Global,
        job: Job<'c>,
        before: &[JobPlan<'c>],
        to_spare: bool,
    ) -> Result<JobPlan<'c>, NoMemory>
        ensures ok { IfOk result (λ plan. IsRoute (plan_names before.now) (plan_in plan) (job_of job.entry)) }
    {
        let named = named_in(alloc, &job, before)?;
        let Job {
            name,
            sources,
            stages,
            terminal,
            on_fault,
            table,
        } = job;
        let fallback = fallback_of(&terminal, on_fault);
        let Route {
            search,
            scans,
            last,
        } = route_of(alloc, stages, terminal, !has_array(&sources), to_spare)?;
        let first = scans.first().unwrap_or(&last);
        let likely_size = likely_size(&sources, first.window, before);
        let stages = &first.last.stages.list;
        let first_values = if named.is_empty() {
            let env = Env::over(alloc, table);
            values_of_some(stages, &sources, first.window.from, likely_size, &env)
        } else {
            values_of_any(stages)
        };
        Ok(JobPlan {
            name,
            named,
            likely_size,
            first_values,
            sources,
            search,
            scans,
            last,
            fallback,
            table,
        })
    }

    /// The name of the job. Nothing is copied.
    pub fn into_name(self) -> Bytes
        ensures { result ≡ self.entry.name }
    {
        self.name
    }

    /// The number of the leg that gives the answer.
    pub fn last_leg(&self) -> usize
        ensures { result ≡ length (plan_in self.now).legs.scans }
    {
        self.scans.len()
    }

    /// The leg with this number, from 0; a number after the last one's is the last one's.
    pub fn leg(&self, number: usize) -> &Leg
        ensures { leg_in result.now ≡ leg_at number (plan_in self.now).legs }
    {
        if number < self.scans.len() {
            &self.scans[number]
        } else {
            &self.last
        }
    }

    /// How many values an item of the leg with this number becomes, if that is known before a run.
    pub fn values_of_leg(&self, number: usize) -> Option<u64> {
        if number == 0 {
            self.first_values
        } else {
            values_of_any(&self.leg(number).last.stages.list)
        }
    }

    /// The answer of the job, by what its segments give: the fallback instead of a fault, if the job has one.
    pub fn without_fault(&self, given: Answer) -> Answer
        ensures { result ≡ instead_of_fault (plan_in self.now).fallback given }
    {
        let Some(fallback) = self.fallback else {
            return given;
        };
        match given {
            Answer::Fault(_) => fallback.answer(),
            _ => given,
        }
    }
}
