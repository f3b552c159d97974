//! Arrivals at the start nodes of jobs, and the jobs that may begin by them.
ghost use Rattle.std.specs.Prelude.{◌≡◌, ◌<◌, ◌+◌, ◌-◌, ◌++◌, ◌∷◌, ℕ, [], drop, length};
ghost use Rattle.completer_tree.specs.Trees.{table_id_of};
ghost use Rattle.job_runner.specs.Waits.{nodes_in};
ghost use Rattle.job_runner.specs.Tasks.{kept_at, node_at, CanArrive, HasKept};

use crate::cut::CutPiece;
use crate::start::{Start, Waiting};
use crate::task::{JobSeat, RunBrand, UnopenedJobs};
use completer_tree::Tree;
use completion_core::END;
use pending_count::{Counts, Fits, Seat};
use std::marker::PhantomData;

/// The counts of a run, and the start nodes of its jobs.
#[derive(Drop)]
pub struct RunNodes<V, K: Fits<V, Tag = CutPiece>, R: RunBrand> {
    pub(crate) counts: Counts<V, K>,
    /// The last job's first.
    pub(crate) starts: Vec<Start>,
    pub(crate) of: PhantomData<R>,
    ghost table: { table_id_of counts ≡ R.table },
    ghost count: { length starts.items ≡ R.jobs },
    ghost started: { (j : ℕ) → (R.start j ≡ node_at starts.items (R.jobs - 1 - j))
        × (R.keeps j ≡ kept_at starts.items (R.jobs - 1 - j)) },
}

impl<V, K: Fits<V, Tag = CutPiece>, R: RunBrand> RunNodes<V, K, R> {
    /// The start node of a job.
    pub(crate) fn start(&self, job: usize) -> &Start
        requires job { job < R.jobs }
        ensures { (result.now.node ≡ R.start job) × (result.now.onward.items ≡ R.keeps job) }
    {
        &self.starts[self.starts.len() - 1 - job]
    }

    /// The jobs that wait for a job.
    pub(crate) fn waiting_for(&self, job: usize) -> &[Waiting]
        requires job { job < R.jobs }
        ensures { R.keeps job ≡ nodes_in result.now ++ 0 ∷ [] }
    {
        &self.start(job).waiting
    }

    /// Arrives at the start node of a job, along the path of that node alone: the next one on the way is arrived at
    /// once the job has left its answer. If it is the last arrival, the job may begin. The arrival at END of a job that
    /// needs no start node stays: it is what the job has.
    fn arrive_at(&self, seat: Seat<V, K>, job: usize) -> Option<JobSeat<V, K, R>>
        requires job { job < R.jobs }
        requires can { CanArrive R.table R.jobs R.start R.keeps job seat }
    {
        let node = self.start(job).node;
        if node == END {
            let lone = JobSeat {
                seat,
                job,
                of: PhantomData,
            };
            return Some(lone);
        }
        let path = [node];
        let tree = Tree::new(&self.counts, &[]);
        let (seat, finished) = tree.propagate_completion(seat, &path);
        if finished == 0 {
            return None;
        }
        let begun = JobSeat {
            seat,
            job,
            of: PhantomData,
        };
        Some(begun)
    }

    /// Opens the last job that isn't opened. `Some` if the job names no other one, so that it may begin.
    pub(crate) fn open_one(
        &self,
        unopened: UnopenedJobs<V, K, R>,
    ) -> (UnopenedJobs<V, K, R>, Option<JobSeat<V, K, R>>)
        requires some_left { 0 < unopened.jobs }
        ensures { result.0.jobs ≡ unopened.jobs - 1 }
    {
        let UnopenedJobs { seat, jobs, of } = unopened;
        let share = seat.credit() / jobs as u64;
        let job = jobs - 1;
        let node = self.start(job).node;
        let (seat, part) = self.counts.split(seat, node, 1, share);
        let rest = UnopenedJobs {
            seat,
            jobs: job,
            of,
        };
        (rest, self.arrive_at(part, job))
    }

    /// Arrives at the start node of the job at this position of those that wait, with an equal part of the credit.
    /// `Some` if that job may begin.
    pub(crate) fn free_next(
        &self,
        seat: Seat<V, K>,
        waiting: &[Waiting],
        at: usize,
    ) -> (Seat<V, K>, Option<JobSeat<V, K, R>>)
        requires at { at < length waiting.now }
        requires has { HasKept R.table R.jobs R.start R.keeps (nodes_in (drop at waiting.now) ++ 0 ∷ []) seat }
        ensures { HasKept R.table R.jobs R.start R.keeps (nodes_in (drop (at + 1) waiting.now) ++ 0 ∷ []) result.0 }
    {
        let next = waiting[at];
        let share = seat.credit() / (waiting.len() - at) as u64;
        if next.job >= self.starts.len() || self.start(next.job).node != next.node {
            return (seat, None);
        }
        let (seat, part) = self.counts.split(seat, next.node, 1, share);
        (seat, self.arrive_at(part, next.job))
    }
}
