//! The jobs of a plan as what a run is over, leg by leg.
ghost use Rattle.std.specs.Prelude.{◌≡◌, ◌<◌, ℕ, length, IfNone, IfOk, IfSome};
ghost use Rattle.job_meaning.specs.declared.answer.Answer.{Answer as answers};
ghost use Rattle.job_plan.specs.Plans.{plans_in};
ghost use Rattle.job_runner.specs.Cuts.{IsPieceOf, Stands};
ghost use Rattle.job_runner.specs.Runs.{DecidesIn};
ghost use Rattle.job_table.specs.PlanLegs.{IsTaken, PartStands, answer_of, chain_at, given_at, last_leg, run_of};
ghost use Rattle.job_table.specs.PlanLegs.{size_at};

use crate::plan_names::different;
use crate::plan_parts::{catches, job_answer, likely_size, next_walk, positions};
use crate::planned::{PlanBrand, PlanJobs};
use batch_eval::Registers;
use early_stop::{Never, Stop};
use job_meaning::Answer;
use job_plan::{Given, Part, Source, unwalked};
use job_routes::Outcome;
use job_runner::{Begun, CutPiece, EarlierAnswers, JobLegs, LegInput, NextSource, NoMemory, Piece};
use lambda_values::Env;
use std::alloc::Global;
use trace::Fault;

impl<'a, 'c, P: PlanBrand> JobLegs for PlanJobs<'a, 'c, P> {
    type Part = Part<'a>;

    type Source = Given<'a, 'c>;

    type Answer = Answer;

    type Given = Env<'c>;

    type Scratch = Registers;

    type Outcome = Outcome<'a>;

    ghost run = { run_of (plans_in P.jobs) };

    fn jobs(&self) -> usize {
        self.plan.jobs.len()
    }

    fn names(&self, alloc: Global, job: usize) -> Result<Vec<usize>, NoMemory> {
        different(alloc, job, &self.job(job).named)
    }

    fn likely_size(&self, job: usize, leg: usize) -> u64 {
        likely_size(self.job(job), leg)
    }

    fn likely_values(&self, job: usize, leg: usize) -> Option<u64> {
        self.job(job).values_of_leg(leg)
    }

    fn given<E: EarlierAnswers<Answer>>(
        &self,
        alloc: Global,
        job: usize,
        earlier: &E,
    ) -> Result<Begun<Env<'c>, Answer>, NoMemory> {
        let plan = self.job(job);
        match self.numbers(alloc, job, &plan.named, plan.table, earlier)? {
            Ok(given) => {
                let size = self.first_size(alloc, job, plan, earlier)?;
                Ok(Begun::Walk { given, size })
            }
            Err(unusable) => Ok(Begun::Known(Answer::Unusable(unusable))),
        }
    }

    fn last_leg(&self, job: usize) -> usize {
        self.job(job).last_leg()
    }

    fn scratch(&self, alloc: Global) -> Registers {
        Registers::new(alloc)
    }

    fn left_out(&self, alloc: Global, piece: Piece, given: &Env) -> Part<'a> {
        unwalked(alloc, self.job(piece.job).leg(piece.leg), given)
    }

    fn is_settled(&self, piece: Piece, part: &Part<'a>) -> bool {
        part.settles(piece.from)
    }

    fn fault(&self, piece: Piece, _given: &Env, part: &Part<'a>) -> Option<Fault> {
        if catches(self.job(piece.job), piece.leg) {
            part.fold_fault()
        } else {
            None
        }
    }

    fn answer_instead(&self, job: usize) -> Answer {
        match self.job(job).fallback {
            Some(instead) => instead.answer(),
            None => unreachable!(),
        }
    }

    fn leaf<E: EarlierAnswers<Answer>, W: Stop>(
        &self,
        alloc: Global,
        piece: Piece,
        input: LegInput<'_, '_, Given<'a, 'c>, Env<'c>, E>,
        registers: &mut Registers,
        stop: &mut W,
    ) -> Result<Part<'a>, NoMemory>
        requires stop { (c : ℕ) → W.decides stop.old c
            → DecidesIn (run_of (plans_in P.jobs)) piece.job piece.leg c }
        requires piece { IsPieceOf (run_of (plans_in P.jobs)) piece }
        requires first { IfNone input.source (piece.leg ≡ 0) }
        requires source { IfSome input.source (λ walk. walk.now
            ≡ given_at (chain_at (plans_in P.jobs) piece.job) piece.leg) }
        requires given { IsTaken (plans_in P.jobs) piece.job input.given.now }
        requires earlier { (j : ℕ) (a : answers) → E.is_answer j a → a ≡ answer_of (plans_in P.jobs) j }
        ensures { IfOk result (λ part. Stands (run_of (plans_in P.jobs)) piece part) }
    {
        self.part(alloc, piece, input, registers, Some(stop))
    }

    fn merge(_cut: CutPiece, left: Part<'a>, right: Part<'a>) -> Result<Part<'a>, NoMemory> {
        match left.merge(right) {
            Ok(part) => Ok(part),
            Err(_parts) => Err(NoMemory),
        }
    }

    fn next_source(
        &self,
        alloc: Global,
        job: usize,
        leg: usize,
        part: Part<'a>,
        given: &Env,
    ) -> Result<NextSource<Given<'a, 'c>>, NoMemory> {
        let last = self.last_leg(job);
        prove!(leg < last);
        let next = self.job(job).leg(leg + 1);
        let source = next_walk(alloc, self.job(job), leg, part, given)?;
        let size = positions(next, Source::of_given(&source));
        Ok(NextSource { source, size })
    }

    fn answer<E: EarlierAnswers<Answer>>(
        &self,
        alloc: Global,
        job: usize,
        part: Part<'a>,
        input: LegInput<'_, '_, Given<'a, 'c>, Env<'c>, E>,
        registers: &mut Registers,
    ) -> Result<Answer, NoMemory>
        requires job { job < length (plans_in P.jobs) }
        requires first { IfNone input.source (last_leg (chain_at (plans_in P.jobs) job).legs ≡ 0) }
        requires source { IfSome input.source (λ walk. walk.now ≡ given_at (chain_at (plans_in P.jobs) job)
            (last_leg (chain_at (plans_in P.jobs) job).legs)) }
        requires size { input.size ≡ size_at (chain_at (plans_in P.jobs) job)
            (last_leg (chain_at (plans_in P.jobs) job).legs) }
        requires given { IsTaken (plans_in P.jobs) job input.given.now }
        requires earlier { (j : ℕ) (a : answers) → E.is_answer j a → a ≡ answer_of (plans_in P.jobs) j }
        requires part { PartStands (chain_at (plans_in P.jobs) job)
            (last_leg (chain_at (plans_in P.jobs) job).legs) 0
            (size_at (chain_at (plans_in P.jobs) job) (last_leg (chain_at (plans_in P.jobs) job).legs)) part }
        ensures { IfOk result (λ answer. answer ≡ answer_of (plans_in P.jobs) job) }
    {
        let plan = self.job(job);
        if let Some(answer) = job_answer(alloc, plan, part, input.given)? {
            return self.for_later_jobs(alloc, job, answer);
        }
        let all = Piece {
            job,
            leg: plan.last_leg(),
            from: 0,
            to: input.size,
        };
        let again = self.part::<E, Never>(alloc, all, input, registers, None)?;
        match job_answer(alloc, plan, again, input.given)? {
            Some(answer) => Ok(answer),
            None => unreachable!(),
        }
    }
}
