//! The legs of one job of a plan: how a piece is walked, and what comes of a whole leg.
ghost use Rattle.std.specs.Prelude.{◌≡◌, ◌≢◌, ◌+◌, ◌<◌, ◌≤◌, ℕ, false, true};
ghost use Rattle.std.specs.Prelude.{None, IfNone, IfOk, IfSome, is_some};
ghost use Rattle.early_stop.specs.Decisive.{Decides};
ghost use Rattle.job_routes.specs.Legs.{leg_in, leg_at, legs_answer};
ghost use Rattle.job_plan.specs.Parts.{may_search, walk_in};
ghost use Rattle.job_plan.specs.Plans.{plan_in};
ghost use Rattle.prefix_walks.specs.Pieces.{IsNotAfter};
ghost use Rattle.job_meaning.specs.Walks.{instead_of_fault, source_walk};
ghost use Rattle.job_language.specs.Jobs.{sources_of};
ghost use Rattle.job_table.specs.PlanLegs.{AbstractChain, PartStands, given_at, gives_at, last_leg};
ghost use Rattle.job_table.specs.PlanLegs.{positions_of, search_at, size_at, upto, walk_at, walk_size};

use batch_eval::Registers;
use early_stop::Stop;
use job_meaning::Answer;
use job_plan::{Given, JobPlan, Part, Source, Walked, leaf_until, streamed};
use job_routes::{Leg, PlaceSide};
use job_runner::{NoMemory, Piece};
use lambda_values::Env;
use prefix_walks::{GivenWalk, Window};
use std::alloc::Global;
use trace::End;

/// How many positions a leg has for a run, if it is given this.
pub(crate) fn positions(leg: &Leg, given: Source) -> u64
    ensures { result ≡ positions_of (leg_in leg.now) (walk_in given.entry) }
{
    if leg.streams() {
        0
    } else {
        given.of_leg(leg).size()
    }
}

/// How many positions a leg of a job has for a run, as far as that is known before it.
pub fn likely_size(plan: &JobPlan, leg: usize) -> u64 {
    if plan.leg(leg).streams() {
        0
    } else {
        plan.likely_size
    }
}

/// Where a piece ends, if that isn't the end of its source.
fn end_of(piece: Piece, source: &Source) -> Option<u64>
    requires ordered { piece.from ≤ piece.to }
    ensures ordered { IsNotAfter piece.from result }
    ensures end { result ≡ upto (walk_size (walk_in source.now)) piece.to }
{
    if piece.to == source.size() {
        None
    } else {
        Some(piece.to)
    }
}

/// Walks a piece of a leg, as far as it matters. Without `stop`, or if the leg goes through slices, the piece is all
/// of the leg, and is walked in one go from its first item on.
pub(crate) fn walked_piece<'a, W: Stop>(
    alloc: Global,
    plan: &'a JobPlan,
    piece: Piece,
    walked: Walked<'_, 'a, '_, '_>,
    registers: &mut Registers,
    stop: Option<&mut W>,
) -> Result<Part<'a>, NoMemory>
    requires ordered { piece.from ≤ piece.to }
    ensures stands { (chain : AbstractChain) → chain.legs ≡ (plan_in plan.now).legs
        → chain.numbers ≡ walked.entry.env.now
        → walk_in walked.entry.source ≡ given_at chain piece.leg → piece.to ≤ size_at chain piece.leg
        → IfNone stop.entry ((piece.from ≡ 0) × (piece.to ≡ size_at chain piece.leg))
        → IfSome stop.entry (λ known. (c : ℕ) → W.decides known.now c
        → Decides (gives_at chain piece.leg) (walk_at chain piece.leg) c)
        → IfOk result (λ part. PartStands chain piece.leg piece.from piece.to part) }
    ensures kind { IfNone stop.entry (IfOk result (λ part. may_search part ≡ false)) }
{
    let leg = plan.leg(piece.leg);
    let source = walked.source.of_leg(leg);
    let env = walked.env;
    let walked = Walked { source, env };
    let Some(stop) = stop else {
        return streamed(alloc, leg, walked, registers);
    };
    if !leg.streams() {
        let window = Window {
            from: piece.from,
            to: end_of(piece, &walked.source),
        };
        return leaf_until(alloc, leg, walked, window, registers, stop);
    }
    streamed(alloc, leg, walked, registers)
}

/// Which positions the next leg goes over, if this leg of a job is a search.
fn search_at(plan: &JobPlan, leg: usize) -> Option<PlaceSide>
    ensures { result ≡ search_at leg (plan_in plan.now).legs }
{
    if leg == 0 { plan.search } else { None }
}

/// What the next leg goes over, of the part of a whole leg. A search is over the job's own sources.
pub(crate) fn next_walk<'a, 'c>(
    alloc: Global,
    plan: &'a JobPlan<'c>,
    leg: usize,
    part: Part<'a>,
    env: &Env,
) -> Result<Given<'a, 'c>, NoMemory>
    ensures { IfOk result (λ given. (chain : AbstractChain) → chain.legs ≡ (plan_in plan.now).legs
        → chain.numbers ≡ env.now → leg < last_leg chain.legs
        → (is_some (search_at leg chain.legs) ≡ true
        → chain.source ≡ source_walk (sources_of plan.now.sources.items))
        → PartStands chain leg 0 (size_at chain leg) part.entry → given ≡ given_at chain (leg + 1)) }
{
    let Some(outcome) = part.finish(alloc, env)? else {
        return Ok(Given::walk(GivenWalk::ended(End::Done)));
    };
    match search_at(plan, leg) {
        Some(side) => {
            let answer = outcome.answer();
            Ok(Given::searched(&plan.sources, plan.leg(leg), side, answer))
        }
        None => Ok(Given::walk(outcome.walk())),
    }
}

/// The answer of a job, of the part of its whole last leg, or what the job gives after a fault. `None` if what the leg
/// goes over has to be walked once more, in order.
pub(crate) fn job_answer(
    alloc: Global,
    plan: &JobPlan,
    part: Part<'_>,
    env: &Env,
) -> Result<Option<Answer>, NoMemory>
    ensures some { IfOk result (λ found. IfSome found (λ answer. (chain : AbstractChain)
        → chain.legs ≡ (plan_in plan.now).legs → chain.numbers ≡ env.now
        → PartStands chain (last_leg chain.legs) 0 (size_at chain (last_leg chain.legs)) part.entry
        → answer ≡ instead_of_fault (plan_in plan.now).fallback (legs_answer chain.legs chain.numbers chain.source))) }
    ensures none { IfOk result (λ found. IfNone found (may_search part.entry ≡ true)) }
{
    match part.finish(alloc, env)? {
        Some(outcome) => Ok(Some(plan.without_fault(outcome.answer()))),
        None => Ok(None),
    }
}

/// Whether this leg gives the answer of a job that gives another answer after a fault.
pub(crate) fn catches(plan: &JobPlan, leg: usize) -> bool
    ensures instead { result ≡ true → (plan_in plan.now).fallback ≢ None }
    ensures last { result ≡ true → leg ≡ last_leg (plan_in plan.now).legs }
    ensures all { (plan_in plan.now).fallback ≢ None → leg ≡ last_leg (plan_in plan.now).legs → result ≡ true }
{
    plan.fallback.is_some() && leg == plan.last_leg()
}
