//! The places in which tasks leave sources and answers for others.
ghost use Rattle.std.specs.Prelude.{◌≡◌, ◌+◌, ◌-◌, ◌^◌, ◌<◌, ◌≤◌, ℕ, length, IfNone, IfOk, IfSome};
ghost use Rattle.job_runner.specs.Runs.{first_word, pair_at};

use crate::NoMemory;
use crate::legs::JobLegs;
use crate::piece::{LegInput, NextSource};
use once_cell::race::OnceBox;
use std::alloc::Global;
use std::marker::PhantomData;
use std::sync::{OnceLock, RwLock, RwLockReadGuard};
use worker_pool::Gate;

/// What a leg after the first one goes over, with its number of positions and the numbers of its job and of the leg.
#[derive(Drop)]
pub struct KeptSource<S: JobLegs> {
    pub(crate) job: usize,
    pub(crate) leg: usize,
    pub(crate) source: S::Source,
    pub(crate) size: u64,
    pub(crate) of: PhantomData<S>,
    ghost is: { S.run.is_source job leg source } by { S.run.one_source job leg source },
    ghost long: { size ≡ S.run.size job leg },
}

/// The place of a source, held so that nobody empties it.
pub(crate) type HeldSource<'w, S> = RwLockReadGuard<'w, Option<KeptSource<S>>>;

/// The inputs of a job from the answers that it names, with its number and how many positions its first leg has.
#[derive(Drop)]
pub struct KeptGiven<S: JobLegs> {
    pub(crate) job: usize,
    pub(crate) given: S::Given,
    pub(crate) size: u64,
    pub(crate) of: PhantomData<S>,
    ghost is: { S.run.is_given job given } by { S.run.one_given job given },
    ghost long: { size ≡ S.run.size job 0 },
}

/// A job's answer, with the number of the job.
#[derive(Drop)]
pub struct KeptAnswer<S: JobLegs> {
    pub(crate) job: usize,
    pub(crate) answer: S::Answer,
    pub(crate) of: PhantomData<S>,
    ghost is: { S.run.is_answer job answer } by { S.run.one_answer job answer },
}

/// The places of one job: for what it takes of earlier answers, for the source of each leg but the first, and for the
/// answer. `first` is the number of its first leg among all legs of the run. A source lies in its place until its leg
/// has ended.
#[derive(Drop)]
pub struct JobPlaces<S: JobLegs> {
    pub(crate) job: usize,
    pub(crate) first: u64,
    /// Nobody waits for it, so it is no `OnceLock`: to set one is a call of the system.
    pub(crate) given: OnceBox<KeptGiven<S>>,
    pub(crate) sources: Vec<RwLock<Option<KeptSource<S>>>>,
    pub(crate) answer: OnceLock<KeptAnswer<S>>,
    ghost first_is: { first < 2 ^ 64 - 1 → first ≡ first_word S.run.last job },
}

/// The empty places of a job whose last leg has this number.
fn places_of_job<S: JobLegs>(
    alloc: Global,
    job: usize,
    last: usize,
    first: u64,
) -> Result<JobPlaces<S>, NoMemory>
    requires { first < 2 ^ 64 - 1 → first ≡ first_word S.run.last job }
    ensures { IfOk result (λ places. length places.sources.items ≡ last) }
{
    let mut sources = Vec::new(alloc);
    for _leg in 0..last {
        sources.push(RwLock::new(None))?;
    }
    Ok(JobPlaces {
        job,
        first,
        given: OnceBox::new(alloc),
        sources,
        answer: OnceLock::new(),
    })
}

/// The number of the first leg of the next job, if it is small enough; else the greatest u64.
fn first_of_next<S: JobLegs>(job: usize, last: usize, first: u64) -> u64
    requires last { last ≡ S.run.last job }
    requires first { first < 2 ^ 64 - 1 → first ≡ first_word S.run.last job }
    ensures { result < 2 ^ 64 - 1 → result ≡ first_word S.run.last (job + 1) }
{
    first.saturating_add(last as u64).saturating_add(1)
}

/// The number of a leg among all legs of the run, if it is known; else the greatest u32.
pub(crate) fn word_of<S: JobLegs>(places: &[JobPlaces<S>], job: usize, leg: usize) -> u32
    requires job { job < S.run.jobs }
    requires leg { leg ≤ S.run.last job }
    ensures { result < 2 ^ 32 - 1 → pair_at S.run.last S.run.jobs result ≡ (job, leg) }
{
    match places.get(job) {
        Some(of_job) if of_job.job == job => word_after(of_job.first, leg),
        _ => u32::MAX,
    }
}

/// The number of a word this far after the first one, if there may be one; else the greatest u32.
fn word_after(first: u64, leg: usize) -> u32
    ensures { result < 2 ^ 32 - 1 → (result ≡ first + leg) × (first < 2 ^ 64 - 1) }
{
    let word = first.saturating_add(leg as u64);
    word.min(u64::from(u32::MAX)) as u32
}

/// The empty places of all jobs.
pub(crate) fn empty_places<S: JobLegs>(
    alloc: Global,
    jobs: &S,
) -> Result<Vec<JobPlaces<S>>, NoMemory>
    ensures { IfOk result (λ places. length places.items ≡ S.run.jobs) }
{
    let mut places = Vec::new(alloc);
    let mut first = 0;
    for job in 0..jobs.jobs() {
        let last = jobs.last_leg(job);
        places.push(places_of_job(alloc, job, last, first)?)?;
        first = first_of_next::<S>(job, last, first);
    }
    Ok(places)
}

/// The place for the source of a leg. The first leg has none.
fn source_place<S: JobLegs>(
    places: &[JobPlaces<S>],
    job: usize,
    leg: usize,
) -> Option<&RwLock<Option<KeptSource<S>>>> {
    let before = leg.checked_sub(1)?;
    places.get(job)?.sources.get(before)
}

/// Puts the source of a leg into its place; `None` empties the place, and frees what lay there. Nothing changes if the
/// leg is the first one, which has no place, or while a reader holds the place.
pub(crate) fn put_source<S: JobLegs>(
    places: &[JobPlaces<S>],
    job: usize,
    leg: usize,
    source: Option<KeptSource<S>>,
) {
    let Some(place) = source_place(places, job, leg) else {
        return;
    };
    if let Some(mut held) = place.try_write() {
        *held = source;
    }
}

/// Leaves the source of a leg in its place. If it has none, or a reader holds the place, the source is dropped.
pub(crate) fn keep_source<S: JobLegs>(
    places: &[JobPlaces<S>],
    job: usize,
    leg: usize,
    next: NextSource<S::Source>,
)
    requires source { S.run.is_source job leg next.source }
    requires size { next.size ≡ S.run.size job leg }
{
    let NextSource { source, size } = next;
    let kept = KeptSource {
        job,
        leg,
        source,
        size,
        of: PhantomData,
    };
    put_source(places, job, leg, Some(kept));
}

/// Holds the place of a leg's source, if it has one: the first leg has none. It doesn't wait.
pub(crate) fn hold_source<S: JobLegs>(
    places: &[JobPlaces<S>],
    job: usize,
    leg: usize,
) -> Option<HeldSource<'_, S>> {
    source_place(places, job, leg)?.try_read()
}

/// The source of a leg, if it lies in this place.
fn source_in<'w, S: JobLegs>(
    held: &'w HeldSource<'_, S>,
    job: usize,
    leg: usize,
) -> Option<&'w KeptSource<S>>
    ensures { IfSome result (λ kept. (kept.now.job ≡ job) × (kept.now.leg ≡ leg)) }
{
    match held.as_ref() {
        Some(kept) if kept.job == job && kept.leg == leg => Some(kept),
        _ => None,
    }
}

/// What a leg is walked with, if it is there. `held` is the place of its source, if it has one.
pub(crate) fn input_of<'s, 'i, S: JobLegs, E>(
    kept: &'i KeptGiven<S>,
    held: Option<&'s HeldSource<'_, S>>,
    earlier: &'i E,
    leg: usize,
) -> Option<LegInput<'s, 'i, S::Source, S::Given, E>>
    ensures first { IfSome result (λ input. IfNone input.source (leg ≡ 0)) }
    ensures source { IfSome result (λ input. IfSome input.source
        (λ source. S.run.is_source kept.now.job leg source.now)) }
    ensures size { IfSome result (λ input. input.size ≡ S.run.size kept.now.job leg) }
    ensures given { IfSome result (λ input. S.run.is_given kept.now.job input.given.now) }
{
    let KeptGiven {
        job,
        given,
        size,
        ..
    } = kept;
    if leg == 0 {
        return Some(LegInput {
            source: None,
            size: *size,
            given,
            earlier,
        });
    }
    let KeptSource { source, size, .. } = source_in(held?, *job, leg)?;
    Some(LegInput {
        source: Some(source),
        size: *size,
        given,
        earlier,
    })
}

/// Leaves what a job takes of earlier answers in its place, and how many positions its first leg has. After a refused
/// allocation the place stays empty.
pub(crate) fn keep_given<S: JobLegs>(
    alloc: Global,
    places: &[JobPlaces<S>],
    job: usize,
    given: S::Given,
    size: u64,
)
    requires given { S.run.is_given job given }
    requires size { size ≡ S.run.size job 0 }
{
    let Some(of_job) = places.get(job) else {
        return;
    };
    let kept = KeptGiven {
        job,
        given,
        size,
        of: PhantomData,
    };
    if let Ok(kept) = Box::new(alloc, kept) {
        let _ = of_job.given.set(kept);
    }
}

/// What a job takes of earlier answers, if it was left in its place.
pub(crate) fn kept_given<S: JobLegs>(places: &[JobPlaces<S>], job: usize) -> Option<&KeptGiven<S>>
    ensures { IfSome result (λ kept. kept.now.job ≡ job) }
{
    match places.get(job)?.given.get() {
        Some(kept) if kept.job == job => Some(kept),
        _ => None,
    }
}

/// How many positions a leg has, if what it goes over is there.
pub(crate) fn size_of<S: JobLegs>(places: &[JobPlaces<S>], job: usize, leg: usize) -> Option<u64>
    ensures { IfSome result (λ size. size ≡ S.run.size job leg) }
{
    if leg == 0 {
        return Some(kept_given(places, job)?.size);
    }
    let held = hold_source(places, job, leg)?;
    Some(source_in(&held, job, leg)?.size)
}

/// Leaves the answer of a job in its place, and calls the gate.
pub(crate) fn keep_answer<S: JobLegs, G: Gate>(
    places: &[JobPlaces<S>],
    gate: &G,
    job: usize,
    answer: S::Answer,
)
    requires { S.run.is_answer job answer }
{
    if let Some(of_job) = places.get(job) {
        let _ = of_job.answer.try_set(KeptAnswer {
            job,
            answer,
            of: PhantomData,
        });
    }
    gate.at_answer(job);
}

/// The answer of a job, if it was left in its place.
pub(crate) fn kept_answer<S: JobLegs>(places: &[JobPlaces<S>], job: usize) -> Option<&S::Answer>
    ensures { IfSome result (λ answer. S.run.is_answer job answer.now) }
{
    match places.get(job)?.answer.get() {
        Some(kept) if kept.job == job => Some(&kept.answer),
        _ => None,
    }
}

/// Takes the answer of a job out of its places, if it was left there.
pub(crate) fn answer_in<S: JobLegs>(places: JobPlaces<S>, job: usize) -> Option<S::Answer>
    ensures { IfSome result (λ answer. S.run.is_answer job answer) }
{
    match places.answer.into_inner() {
        Some(kept) if kept.job == job => Some(kept.answer),
        _ => None,
    }
}
