//! The answers of earlier jobs that the jobs of a plan take.
ghost use Rattle.std.specs.Prelude.{◌≡◌, ◌<◌, ◌++◌, ℕ, true, length, List, map, slice_get, Some, None, IfErr, IfOk};
ghost use Rattle.std.specs.Prelude.{if◌then◌else◌};
ghost use Rattle.std.specs.Option.{option_map};
ghost use Rattle.job_language.specs.Jobs.{source_of, sources_of, values};
ghost use Rattle.job_meaning.specs.FileAnswers.{EarlierJob, all_put_in, array_named, first_unusable, numbered};
ghost use Rattle.job_meaning.specs.FileAnswers.{numbers_of, put_in};
ghost use Rattle.lambda_values.specs.Earlier.{table_in};
ghost use Rattle.job_meaning.specs.Walks.{array_of, number_of};
ghost use Rattle.job_plan.specs.Plans.{job_at, jobs_at, plan_in, plans_in};
ghost use Rattle.job_meaning.specs.declared.answer.Answer.{Answer as answers};
ghost use Rattle.job_table.specs.PlanLegs.{answer_of, answers_before, chain_at, plan_at, size_at};

use crate::plan_parts::positions;
use crate::planned::{PlanBrand, PlanJobs};
use job_language::PlainSource;
use job_meaning::Answer;
use job_plan::{JobPlan, Named, Source};
use job_runner::{EarlierAnswers, NoMemory};
use lambda_values::Env;
use std::alloc::Global;
use stream_tokens::Bytes;
use tables::Columns;

/// The different jobs among those that a job names, and that come before it.
pub(crate) fn different(
    alloc: Global,
    job: usize,
    named: &[Named],
) -> Result<Vec<usize>, NoMemory> {
    let mut jobs = Vec::new(alloc);
    if named.is_empty() {
        return Ok(jobs);
    }
    let mut is_named = Vec::new(alloc);
    is_named.resize(job, false)?;
    for name in named {
        if let Some(known) = is_named.get_mut(name.job) {
            if !*known {
                *known = true;
                jobs.push(name.job)?;
            }
        }
    }
    Ok(jobs)
}

/// Adds the number of an answer under a name, if it is one.
fn push_number(
    alloc: Global,
    name: &Bytes,
    answer: &Answer,
    numbers: &mut Env,
) -> Result<(), NoMemory>
    ensures number { IfOk result (λ _. numbers.new.earlier
        ≡ numbers.old.earlier ++ numbered name.now (number_of answer.now)) }
    ensures table { IfOk result (λ _. numbers.new.table ≡ numbers.old.table) }
{
    let Some(number) = answer.number() else {
        return Ok(());
    };
    let copy = Vec::from_slice(alloc, name.as_slice())?;
    numbers.push(Bytes::from(copy), number)?;
    Ok(())
}

/// The array of an answer, as a source: borrowed if it lies in one piece, as each one does that a run has made for
/// later jobs, and else copied.
fn array_source(alloc: Global, answer: &Answer) -> Result<PlainSource<'_>, NoMemory>
    ensures { IfOk result (λ source. source_of source ≡ values (array_of answer.now)) }
{
    let Some(array) = answer.array() else {
        return Ok(PlainSource::Column(&[]));
    };
    match array.as_slice() {
        Some(slice) => Ok(PlainSource::Column(slice)),
        None => Ok(PlainSource::Values(array.to_vec(alloc)?)),
    }
}

impl<'a, 'c, P: PlanBrand> PlanJobs<'a, 'c, P> {
    /// The answer of a job that another one names, if it comes before that one.
    fn named_answer<'e, E: EarlierAnswers<Answer>>(
        &self,
        job: usize,
        named: usize,
        earlier: &'e E,
    ) -> Result<Option<&'e Answer>, NoMemory>
        requires job { job < length (plans_in P.jobs) }
        requires earlier { (j : ℕ) (a : answers) → E.is_answer j a → a ≡ answer_of (plans_in P.jobs) j }
        ensures { IfOk result (λ found. option_map (λ a. a.now) found
            ≡ slice_get (answers_before (plans_in P.jobs) job) named) }
    {
        if named >= job {
            return Ok(None);
        }
        match earlier.answer(named) {
            Some(answer) => Ok(Some(answer)),
            None => Err(NoMemory),
        }
    }

    /// Adds the number of a job that another one names. `false` if its answer can't be used.
    fn take_number<E: EarlierAnswers<Answer>>(
        &self,
        alloc: Global,
        job: usize,
        name: &Named,
        earlier: &E,
        numbers: &mut Env,
    ) -> Result<bool, NoMemory>
        requires job { job < length (plans_in P.jobs) }
        requires earlier { (j : ℕ) (a : answers) → E.is_answer j a → a ≡ answer_of (plans_in P.jobs) j }
        ensures usable { IfOk result (λ usable. (later : List EarlierJob) → first_unusable
            (job_at name.now (slice_get (answers_before (plans_in P.jobs) job) name.now.job) ++ later)
            ≡ (if usable then first_unusable later else Some name.now.job)) }
        ensures number { IfOk result (λ usable. usable ≡ true → (later : List EarlierJob)
            → numbers.new.earlier ++ numbers_of later ≡ numbers.old.earlier ++ numbers_of
            (job_at name.now (slice_get (answers_before (plans_in P.jobs) job) name.now.job) ++ later)) }
        ensures table { IfOk result (λ _. numbers.new.table ≡ numbers.old.table) }
    {
        let Some(answer) = self.named_answer(job, name.job, earlier)? else {
            return Ok(true);
        };
        if !answer.is_usable() {
            return Ok(false);
        }
        push_number(alloc, &name.name, answer, numbers)?;
        Ok(true)
    }

    /// The numbers that a job takes of the jobs that it names, or the first of these jobs, in order of writing, whose
    /// answer can't be used.
    pub(crate) fn numbers<E: EarlierAnswers<Answer>>(
        &self,
        alloc: Global,
        job: usize,
        named: &[Named],
        table: Option<&'c Columns>,
        earlier: &E,
    ) -> Result<Result<Env<'c>, usize>, NoMemory>
        requires job { job < length (plans_in P.jobs) }
        requires earlier { (j : ℕ) (a : answers) → E.is_answer j a → a ≡ answer_of (plans_in P.jobs) j }
        ensures usable { IfOk result (λ found. IfOk found (λ env.
            (first_unusable (jobs_at (answers_before (plans_in P.jobs) job) named.now) ≡ None)
            × (env.earlier ≡ numbers_of (jobs_at (answers_before (plans_in P.jobs) job) named.now))
            × (env.table ≡ table_in table.entry))) }
        ensures unusable { IfOk result (λ found. IfErr found (λ place.
            first_unusable (jobs_at (answers_before (plans_in P.jobs) job) named.now) ≡ Some place)) }
    {
        let mut numbers = Env::over(alloc, table);
        for name in named {
            if !self.take_number(alloc, job, name, earlier, &mut numbers)? {
                return Ok(Err(name.job));
            }
        }
        Ok(Ok(numbers))
    }

    /// The array of the first of these jobs with this name, as a source. It compares the names from the first on; those
    /// of the sources come first.
    fn array<'e, E: EarlierAnswers<Answer>>(
        &self,
        alloc: Global,
        job: usize,
        named: &[Named],
        name: &[u8],
        earlier: &'e E,
    ) -> Result<PlainSource<'e>, NoMemory>
        requires job { job < length (plans_in P.jobs) }
        requires earlier { (j : ℕ) (a : answers) → E.is_answer j a → a ≡ answer_of (plans_in P.jobs) j }
        ensures { IfOk result (λ array. source_of array
            ≡ values (array_named (jobs_at (answers_before (plans_in P.jobs) job) named.now) name.now)) }
    {
        for other in named {
            if other.name.as_slice() != name {
                continue;
            }
            if let Some(answer) = self.named_answer(job, other.job, earlier)? {
                return array_source(alloc, answer);
            }
        }
        Ok(PlainSource::Column(&[]))
    }

    /// A source; `result(NAME)` becomes the array of the job with that name among these. Values are borrowed.
    fn put_source<'x, E: EarlierAnswers<Answer>>(
        &self,
        alloc: Global,
        job: usize,
        named: &[Named],
        source: &'x PlainSource<'c>,
        earlier: &'x E,
    ) -> Result<PlainSource<'x>, NoMemory>
        requires job { job < length (plans_in P.jobs) }
        requires earlier { (j : ℕ) (a : answers) → E.is_answer j a → a ≡ answer_of (plans_in P.jobs) j }
        ensures { IfOk result (λ put. source_of put
            ≡ put_in (jobs_at (answers_before (plans_in P.jobs) job) named.now) (source_of source.now)) }
    {
        match source {
            PlainSource::Range { from, to } => Ok(PlainSource::Range {
                from: *from,
                to: *to,
            }),
            PlainSource::RangeClosed { from, to } => Ok(PlainSource::RangeClosed {
                from: *from,
                to: *to,
            }),
            PlainSource::Values(values) => Ok(PlainSource::Column(values)),
            PlainSource::Column(cells) => Ok(PlainSource::Column(cells)),
            PlainSource::Result(name) => self.array(alloc, job, named, name.as_slice(), earlier),
        }
    }

    /// The sources of a job; each `result(NAME)` becomes the array of that job.
    pub(crate) fn put_sources<'x, E: EarlierAnswers<Answer>>(
        &self,
        alloc: Global,
        job: usize,
        plan: &'x JobPlan<'c>,
        earlier: &'x E,
    ) -> Result<Vec<PlainSource<'x>>, NoMemory>
        requires job { job < length (plans_in P.jobs) }
        requires earlier { (j : ℕ) (a : answers) → E.is_answer j a → a ≡ answer_of (plans_in P.jobs) j }
        ensures { IfOk result (λ sources. sources_of sources.items
            ≡ all_put_in (jobs_at (answers_before (plans_in P.jobs) job) plan.now.named.items)
            (sources_of plan.now.sources.items)) }
    {
        let mut sources = Vec::new(alloc);
        for source in &plan.sources {
            let put = self.put_source(alloc, job, &plan.named, source, earlier)?;
            sources.push(put)?;
        }
        Ok(sources)
    }

    /// How many positions the first leg of a job has: none if its walk goes through slices, which makes it one piece.
    pub(crate) fn first_size<E: EarlierAnswers<Answer>>(
        &self,
        alloc: Global,
        job: usize,
        plan: &JobPlan<'c>,
        earlier: &E,
    ) -> Result<u64, NoMemory>
        requires job { job < length (plans_in P.jobs) }
        requires earlier { (j : ℕ) (a : answers) → E.is_answer j a → a ≡ answer_of (plans_in P.jobs) j }
        requires plan { plan_in plan.now ≡ plan_at (plans_in P.jobs) job }
        ensures { IfOk result (λ size. size ≡ size_at (chain_at (plans_in P.jobs) job) 0) }
    {
        let first = plan.leg(0);
        if !plan.takes_arrays() {
            return Ok(positions(first, Source::of_sources(&plan.sources)));
        }
        let sources = self.put_sources(alloc, job, plan, earlier)?;
        Ok(positions(first, Source::of_sources(&sources)))
    }
}
