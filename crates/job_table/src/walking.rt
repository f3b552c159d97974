//! A piece of a leg of a job of a plan, with the sources of the job or what the leg before gave.
ghost use Rattle.std.specs.Prelude.{◌≡◌, ℕ, false, true, IfNone, IfOk, IfSome};
ghost use Rattle.job_meaning.specs.declared.answer.Answer.{Answer as answers};
ghost use Rattle.job_plan.specs.Parts.{may_search};
ghost use Rattle.job_plan.specs.Plans.{plans_in};
ghost use Rattle.job_runner.specs.Cuts.{IsPieceOf, Stands};
ghost use Rattle.job_runner.specs.Runs.{DecidesIn};
ghost use Rattle.job_table.specs.PlanLegs.{IsTaken, answer_of, chain_at, given_at, run_of, size_at};

use crate::plan_parts::walked_piece;
use crate::planned::{PlanBrand, PlanJobs};
use batch_eval::Registers;
use early_stop::Stop;
use job_meaning::Answer;
use job_plan::{Given, Part, Source, Walked};
use job_runner::{EarlierAnswers, LegInput, NoMemory, Piece};
use lambda_values::Env;
use std::alloc::Global;

impl<'a, 'c, P: PlanBrand> PlanJobs<'a, 'c, P> {
    /// The part of a piece. Without `stop` the piece is all of its leg, and is walked in one go from its first item on,
    /// so that `job_answer` gives an answer.
    pub(crate) fn part<E: EarlierAnswers<Answer>, W: Stop>(
        &self,
        alloc: Global,
        piece: Piece,
        input: LegInput<'_, '_, Given<'a, 'c>, Env<'c>, E>,
        registers: &mut Registers,
        stop: Option<&mut W>,
    ) -> Result<Part<'a>, NoMemory>
        requires stop { IfSome stop (λ known. (c : ℕ) → W.decides known.now c
            → DecidesIn (run_of (plans_in P.jobs)) piece.job piece.leg c) }
        requires piece { IsPieceOf (run_of (plans_in P.jobs)) piece }
        requires all { IfNone stop ((piece.from ≡ 0)
            × (piece.to ≡ size_at (chain_at (plans_in P.jobs) piece.job) piece.leg)) }
        requires first { IfNone input.source (piece.leg ≡ 0) }
        requires source { IfSome input.source (λ walk. walk.now
            ≡ given_at (chain_at (plans_in P.jobs) piece.job) piece.leg) }
        requires given { IsTaken (plans_in P.jobs) piece.job input.given.now }
        requires earlier { (j : ℕ) (a : answers) → E.is_answer j a → a ≡ answer_of (plans_in P.jobs) j }
        ensures stands { IfOk result (λ part. Stands (run_of (plans_in P.jobs)) piece part) }
        ensures kind { IfNone stop.entry (IfOk result (λ part. may_search part ≡ false)) }
    {
        let plan = self.job(piece.job);
        let env = input.given;
        match input.source {
            Some(walk) => {
                let source = Source::of_given(walk);
                let walked = Walked { source, env };
                walked_piece(alloc, plan, piece, walked, registers, stop)
            }
            None if plan.takes_arrays() => {
                let own = self.own(piece.job);
                let sources = self.put_sources(alloc, piece.job, own, input.earlier)?;
                let source = Source::of_put(&sources);
                let walked = Walked { source, env };
                walked_piece(alloc, plan, piece, walked, registers, stop)
            }
            None => {
                let source = Source::of_sources(&plan.sources);
                let walked = Walked { source, env };
                walked_piece(alloc, plan, piece, walked, registers, stop)
            }
        }
    }
}
