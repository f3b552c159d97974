//! What happens when a leg is complete: the next one begins, or the job ends and those that wait for it begin.
ghost use Rattle.std.specs.Prelude.{◌≡◌, ◌<◌, ◌≤◌, ◌+◌, ◌^◌, IfSome, IfOk};
ghost use Rattle.job_runner.specs.Cuts.{StandsWhole};

use crate::NoMemory;
use crate::cut::{LegPart, Merged, TableKept, TablePart};
use crate::earlier::Earlier;
use crate::legs::{Begun, JobLegs};
use crate::places::{
    KeptGiven, hold_source, input_of, keep_answer, keep_given, keep_source, kept_given, put_source,
    size_of,
};
use crate::task::{
    FinishedLeg, JobSeat, RunBrand, TableFinishedLeg, TableJobSeat, TableTask, Task,
};
use crate::tools::TableTools;
use crate::work::{JobWork, TableWork};
use worker_pool::{Gate, Spawn};

/// The answer of a job, of the part of its whole last leg.
fn last_answer<S: JobLegs, R: RunBrand>(
    work: &TableWork<S, R>,
    kept: &KeptGiven<S>,
    leg: usize,
    part: S::Part,
    scratch: &mut S::Scratch,
) -> Result<S::Answer, NoMemory>
    requires known { kept.now.job < S.run.jobs }
    requires last { leg ≡ S.run.last kept.now.job }
    requires part { S.run.stands_for kept.now.job leg 0 (S.run.size kept.now.job leg) part }
    ensures { IfOk result (λ answer. S.run.is_answer kept.now.job answer) }
{
    let held = hold_source(&work.places, kept.job, leg);
    let earlier = Earlier::in_places(&work.places);
    let Some(input) = input_of(kept, held.as_ref(), &earlier, leg) else {
        return Err(NoMemory);
    };
    work.jobs.answer(work.alloc, kept.job, part, input, scratch)
}

impl<'a, S: JobLegs, R: RunBrand> JobWork<'a, S, TablePart<S>, TableKept<S>, R> {
    /// Leaves the job's inputs from earlier jobs in its place, or its answer, if there is nothing to walk.
    fn prepare<G: Gate>(&self, gate: &G, job: usize)
        requires { job < R.jobs }
    {
        match self
            .jobs
            .given(self.alloc, job, &Earlier::in_places(&self.places))
        {
            Ok(Begun::Walk { given, size }) => {
                keep_given(self.alloc, &self.places, job, given, size)
            },
            Ok(Begun::Known(answer)) => keep_answer(&self.places, gate, job, answer),
            Err(_refused) => {}
        }
    }

    /// Leaves the source of the next leg in its place, and frees that of this one. `Some` is the next leg, with its
    /// number of positions.
    fn leave_source(
        &self,
        job: usize,
        leg: usize,
        part: S::Part,
        given: &S::Given,
    ) -> Option<(usize, u64)>
        requires known { (job < S.run.jobs) × (leg < S.run.last job) }
        requires next { leg + 1 < 2 ^ 64 }
        requires given { S.run.is_given job given.now }
        requires part { S.run.stands_for job leg 0 (S.run.size job leg) part }
        ensures { IfSome result (λ next. (next.0 ≤ S.run.last job) × (next.1 ≡ S.run.size job next.0)) }
    {
        put_source(&self.places, job, leg, None);
        let Ok(next) = self.jobs.next_source(self.alloc, job, leg, part, given) else {
            return None;
        };
        let size = next.size;
        keep_source(&self.places, job, leg + 1, next);
        Some((leg + 1, size))
    }

    /// Leaves what the part of a whole leg gives in its place, and frees the source of the leg. `Some` is the next leg,
    /// with its number of positions.
    fn leave_part<G: Gate>(
        &self,
        gate: &G,
        job: usize,
        leg: usize,
        part: S::Part,
        scratch: &mut S::Scratch,
    ) -> Option<(usize, u64)>
        requires known { (job < S.run.jobs) × (leg ≤ S.run.last job) }
        requires part { S.run.stands_for job leg 0 (S.run.size job leg) part }
        ensures { IfSome result (λ next. (next.0 ≤ S.run.last job) × (next.1 ≡ S.run.size job next.0)) }
    {
        let kept = kept_given(&self.places, job)?;
        if leg < self.jobs.last_leg(job) {
            return self.leave_source(job, leg, part, &kept.given);
        }
        if let Ok(answer) = last_answer(self, kept, leg, part, scratch) {
            keep_answer(&self.places, gate, job, answer);
        }
        put_source(&self.places, job, leg, None);
        None
    }

    /// Leaves what comes of a whole leg, as `leave_part` does.
    fn leave<G: Gate>(
        &self,
        gate: &G,
        job: usize,
        leg: usize,
        part: TablePart<S>,
        scratch: &mut S::Scratch,
    ) -> Option<(usize, u64)>
        requires known { (job < S.run.jobs) × (leg ≤ S.run.last job) }
        requires part { StandsWhole S.run (λ x. x.found) job leg part }
        ensures { IfSome result (λ next. (next.0 ≤ S.run.last job) × (next.1 ≡ S.run.size job next.0)) }
    {
        let Ok(LegPart { found, of: _ }) = part else {
            return None;
        };
        match found {
            Merged::Part(part) => self.leave_part(gate, job, leg, part, scratch),
            Merged::Caught => {
                let answer = self.jobs.answer_instead(job);
                keep_answer(&self.places, gate, job, answer);
                put_source(&self.places, job, leg, None);
                None
            }
        }
    }

    /// Ends one leg after the other, while this worker has the last part of one. `Some` if the job is over, `None` if
    /// others have the rest of a leg.
    fn end_legs<G: Gate, P: Spawn<TableTask<S, R>>>(
        &self,
        first: Option<TableFinishedLeg<S, R>>,
        tools: &mut TableTools<'_, S, R, G, P>,
    ) -> Option<TableJobSeat<S, R>>
        requires { IfSome first (λ whole.
            StandsWhole S.run (λ x. x.found) whole.job.job whole.leg whole.part) }
    {
        let mut ended = first;
        for _ in 0..u64::MAX {
            let Some(FinishedLeg { job, leg, part }) = ended else {
                return None;
            };
            match self.leave(tools.gate, job.job, leg, part, &mut tools.scratch) {
                Some((next, size)) => ended = self.begin(job, next, size, tools),
                None => return Some(job),
            }
        }
        None
    }

    /// Begins a job, and ends its legs as `end_legs` does.
    fn run_job<G: Gate, P: Spawn<TableTask<S, R>>>(
        &self,
        begun: TableJobSeat<S, R>,
        tools: &mut TableTools<'_, S, R, G, P>,
    ) -> Option<TableJobSeat<S, R>> {
        self.prepare(tools.gate, begun.job);
        let Some(size) = size_of(&self.places, begun.job, 0) else {
            return Some(begun);
        };
        let first = self.begin(begun, 0, size, tools);
        self.end_legs(first, tools)
    }

    /// Runs a task. `Some` if its job is over then.
    fn run_task<G: Gate, P: Spawn<TableTask<S, R>>>(
        &self,
        task: TableTask<S, R>,
        tools: &mut TableTools<'_, S, R, G, P>,
    ) -> Option<TableJobSeat<S, R>> {
        match task {
            Task::Begin(begun) => self.run_job(begun, tools),
            Task::Walk(side) => {
                let whole = self.walk(side, tools);
                self.end_legs(whole, tools)
            }
        }
    }
}

impl<'a, S: JobLegs, R: RunBrand> JobWork<'a, S, TablePart<S>, TableKept<S>, R> {
    /// Arrives for a job that is over at the start nodes of the jobs that wait for it, and settles it. One of the jobs
    /// that may begin now comes back, and the others go to the pool.
    #[cycle(over)]
    #[tactic(auto, using(crate::proofs::SeatLemmas::begin_waiting, crate::proofs::SeatLemmas::ends_kept))]
    fn end_job<G: Gate, P: Spawn<TableTask<S, R>>>(
        &self,
        over: TableJobSeat<S, R>,
        tools: &mut TableTools<'_, S, R, G, P>,
        depth: usize,
    ) -> Option<TableJobSeat<S, R>> {
        let JobSeat { seat, job, of: _ } = over;
        let waiting = self.nodes.waiting_for(job);
        let mut seat = seat;
        let mut next = None;
        for at in 0..waiting.len() {
            let (rest, freed) = self.nodes.free_next(seat, waiting, at);
            seat = rest;
            if let Some(freed) = freed {
                if let Some(other) = next.replace(freed) {
                    self.hand_over(other, tools, depth);
                }
            }
        }
        let _ = self.nodes.counts.settle(seat);
        next
    }

    /// Gives a job that may begin to the pool. If the pool has no room, it is run here; `depth` is how many more jobs
    /// may be run so, one inside the other.
    #[cycle(over)]
    fn hand_over<G: Gate, P: Spawn<TableTask<S, R>>>(
        &self,
        begun: TableJobSeat<S, R>,
        tools: &mut TableTools<'_, S, R, G, P>,
        depth: usize,
    ) {
        if let Err(task) = tools.spawn.push(Task::Begin(begun)) {
            if depth > 0 {
                self.take(task, tools, depth - 1);
            } else {
                drop(task);
            }
        }
    }

    /// Runs a task, and what comes after it on this worker: a job that is over is ended, and one that may begin then
    /// is run, and so on. `depth` is for `hand_over`.
    #[cycle(over)]
    pub(crate) fn take<G: Gate, P: Spawn<TableTask<S, R>>>(
        &self,
        task: TableTask<S, R>,
        tools: &mut TableTools<'_, S, R, G, P>,
        depth: usize,
    ) {
        let mut task = task;
        for _ in 0..u64::MAX {
            let Some(job) = self.run_task(task, tools) else {
                return;
            };
            let Some(next) = self.end_job(job, tools, depth) else {
                return;
            };
            task = Task::Begin(next);
        }
    }
}
