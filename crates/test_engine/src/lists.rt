//! Jobs that copy lists of numbers. They stand outside the tests, since definitions name them.
ghost use Rattle.std.specs.Prelude.{◌≡◌, ◌<◌, ◌≤◌, ℕ, ℤ, true, List, [], length, map, slice_index_or, IfOk, IfSome, ⊤};
ghost use Rattle.std.specs.Coded.{Unit-prop};
ghost use Rattle.job_runner.specs.Cuts.{IsPiece};
ghost use Rattle.test_engine.specs.Lists.{EndsAtOnce, JobLast, slice, walk_of};
ghost use Rattle.test_engine.specs.ListLaws.{one_list};

use early_stop::Stop;
use job_runner::{
    Begun, CutPiece, EarlierAnswers, JobLegs, LegInput, NextSource, NoMemory, Piece, run_all,
};
use run_settings::Settings;
use std::alloc::Global;
use std::marker::{Brand, PhantomData};
use std::sync::Wait;
use std::sync::atomic::AtomicU64;
use std::sync::atomic::Ordering::SeqCst;
use std::thread::Threads;
use trace::{End, Fault};
use worker_pool::Gate;

/// The numbers of each job of a run.
pub trait JobNumbers {
    ghost jobs: { ℕ };

    ghost numbers: { ℕ → List ℤ };
}

impl JobNumbers for Brand {
    ghost jobs = { 0 };

    ghost numbers = { λ _. [] };
}

/// Jobs, each with a list of numbers. Each leg of a job copies the list; the job with the number k has k % 3 + 1 of
/// them.
#[derive(Drop)]
pub struct Lists<'a, P: JobNumbers> {
    pub(crate) lists: &'a [Vec<i64>],
    /// How many leaves are refused memory: the first ones.
    pub(crate) refusals: AtomicU64,
    pub(crate) of: PhantomData<P>,
    ghost planned: { (length lists.now ≡ P.jobs)
        × ((j : ℕ) → slice_index_or (map (λ v. v.items) lists.now) j [] ≡ P.numbers j) },
}

impl<'a, P: JobNumbers> Lists<'a, P> {
    fn list(&self, job: usize) -> &[i64]
        ensures { result.now ≡ P.numbers job }
    {
        match self.lists.get(job) {
            Some(list) => list.as_slice(),
            None => &[],
        }
    }

    /// Whether the next leaf is refused memory.
    fn refuses(&self) -> bool {
        let left = self.refusals.load(SeqCst);
        self.refusals.store(left.saturating_sub(1), SeqCst);
        left > 0
    }

    fn numbers<'b>(&'b self, job: usize, source: Option<&'b Vec<i64>>) -> &'b [i64]
        requires { IfSome source (λ list. list.now.items ≡ P.numbers job) }
        ensures { result.now ≡ P.numbers job }
    {
        match source {
            Some(list) => list.as_slice(),
            None => self.list(job),
        }
    }
}

impl<'a, P: JobNumbers + Sync> JobLegs for Lists<'a, P> {
    type Part = Vec<i64>;

    type Source = Vec<i64>;

    type Answer = Vec<i64>;

    type Given = ();

    type Scratch = ();

    type Outcome = End;

    ghost run = { record {
      jobs = P.jobs;
      last = JobLast;
      size = λ job _. length (P.numbers job);
      goes_over = λ job _. walk_of (P.numbers job);
      gives = λ _ _ walk. walk.ending;
      stands_for = λ job _ from to part. part.items ≡ slice (P.numbers job) from to;
      is_caught = λ job _ _ _. EndsAtOnce (P.numbers job);
      is_source = λ job _ source. source.items ≡ P.numbers job;
      is_answer = λ job answer. answer.items ≡ P.numbers job;
      is_given = λ _ _. ⊤;
      one_source = λ job _ source. one_list source.items (P.numbers job);
      one_answer = λ job answer. one_list answer.items (P.numbers job);
      one_given = λ _ _. Unit-prop;
    } };

    fn jobs(&self) -> usize {
        self.lists.len()
    }

    fn last_leg(&self, job: usize) -> usize {
        job % 3
    }

    fn names(&self, alloc: Global, _job: usize) -> Result<Vec<usize>, NoMemory> {
        Ok(Vec::new(alloc))
    }

    fn likely_size(&self, job: usize, _leg: usize) -> u64 {
        self.list(job).len() as u64
    }

    fn likely_values(&self, _job: usize, _leg: usize) -> Option<u64> {
        Some(1)
    }

    fn given<E: EarlierAnswers<Vec<i64>>>(
        &self,
        _alloc: Global,
        job: usize,
        _earlier: &E,
    ) -> Result<Begun<(), Vec<i64>>, NoMemory> {
        let size = self.list(job).len() as u64;
        Ok(Begun::Walk { given: (), size })
    }

    fn scratch(&self, _alloc: Global) {}

    /// Never called: no place decides how a list without a fault ends.
    #[tactic(auto, using(crate::proofs::Walks::no_place_decides))]
    fn left_out(&self, alloc: Global, _piece: Piece, _given: &()) -> Vec<i64> {
        Vec::new(alloc)
    }

    fn is_settled(&self, _piece: Piece, _part: &Vec<i64>) -> bool {
        false
    }

    fn fault(&self, _piece: Piece, _given: &(), _part: &Vec<i64>) -> Option<Fault> {
        None
    }

    /// No list has a fault.
    fn answer_instead(&self, _job: usize) -> Vec<i64> {
        unreachable!()
    }

    fn leaf<E: EarlierAnswers<Vec<i64>>, W: Stop>(
        &self,
        alloc: Global,
        piece: Piece,
        input: LegInput<'_, '_, Vec<i64>, (), E>,
        _scratch: &mut (),
        _stop: &mut W,
    ) -> Result<Vec<i64>, NoMemory>
        requires piece { IsPiece P.jobs (λ job. JobLast job)
            (λ job _. length (P.numbers job)) piece.job piece.leg piece.from piece.to }
        requires source { IfSome input.source (λ list. list.now.items ≡ P.numbers piece.job) }
        ensures { IfOk result (λ part. part.items ≡ slice (P.numbers piece.job) piece.from piece.to) }
    {
        if self.refuses() {
            return Err(NoMemory);
        }
        let numbers = self.numbers(piece.job, input.source);
        numbers[piece.from as usize..piece.to as usize].to_vec(alloc)
    }

    #[tactic(auto, using(crate::proofs::Slices::slices_join))]
    fn merge(cut: CutPiece, left: Vec<i64>, right: Vec<i64>) -> Result<Vec<i64>, NoMemory>
        requires within { (cut.from < cut.middle) × (cut.middle < cut.to) }
        requires left { left.items ≡ slice (P.numbers cut.job) cut.from cut.middle }
        requires right { right.items ≡ slice (P.numbers cut.job) cut.middle cut.to }
        ensures { IfOk result (λ part. part.items ≡ slice (P.numbers cut.job) cut.from cut.to) }
    {
        let mut all = left;
        let mut more = right;
        all.append(&mut more)?;
        Ok(all)
    }

    #[tactic(auto, using(crate::proofs::Slices::whole_slice))]
    fn next_source(
        &self,
        _alloc: Global,
        _job: usize,
        _leg: usize,
        part: Vec<i64>,
        _given: &(),
    ) -> Result<NextSource<Vec<i64>>, NoMemory> {
        let size = part.len() as u64;
        Ok(NextSource { source: part, size })
    }

    #[tactic(auto, using(crate::proofs::Slices::whole_slice))]
    fn answer<E: EarlierAnswers<Vec<i64>>>(
        &self,
        _alloc: Global,
        job: usize,
        part: Vec<i64>,
        _input: LegInput<'_, '_, Vec<i64>, (), E>,
        _scratch: &mut (),
    ) -> Result<Vec<i64>, NoMemory>
        requires part { part.items ≡ slice (P.numbers job) 0 (length (P.numbers job)) }
        ensures { IfOk result (λ answer. answer.items ≡ P.numbers job) }
    {
        Ok(part)
    }
}

fn copies_as<P: JobNumbers + Send + Sync, H: Threads + Wait + Sync, G: Gate + Sync>(
    rt: &H,
    alloc: Global,
    lists: &[Vec<i64>],
    refusals: u64,
    settings: Settings,
    gate: &G,
) -> Result<Vec<Vec<i64>>, NoMemory>
    requires planned { (length lists.now ≡ P.jobs)
        × ((j : ℕ) → slice_index_or (map (λ v. v.items) lists.now) j [] ≡ P.numbers j) }
    ensures { IfOk result (λ v. map (λ a. a.items) v.items ≡ map (λ a. a.items) lists.now) }
{
    let jobs = Lists::<P> {
        lists,
        refusals: AtomicU64::new(refusals),
        of: PhantomData,
    };
    run_all(rt, alloc, &jobs, settings, gate)
}

/// Copies of all lists. The first `refusals` leaves are refused memory.
pub fn copies<H: Threads + Wait + Sync, G: Gate + Sync>(
    rt: &H,
    alloc: Global,
    lists: &[Vec<i64>],
    refusals: u64,
    settings: Settings,
    gate: &G,
) -> Result<Vec<Vec<i64>>, NoMemory>
    ensures { IfOk result (λ v. map (λ a. a.items) v.items ≡ map (λ a. a.items) lists.now) }
{
    copies_as::<Brand, H, G>(rt, alloc, lists, refusals, settings, gate)
}
