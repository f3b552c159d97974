//! Jobs on one thread, over pieces that a tree cuts.

ghost use Rattle.std.specs.Prelude.{◌≡◌, ◌≤◌, ◌<◌, length, pos, None, IfOk, IfSome, slice_get, OnSome, Some};
ghost use Rattle.trace.specs.Trace.{Trace};
ghost use Rattle.job_plan.specs.Parts.{StandsFor, walk_in};
ghost use Rattle.job_routes.specs.Legs.{leg_in, legs_in, segment_in, leg_outcome, legs_answer};
ghost use Rattle.job_language.specs.Jobs.{sources_of};
ghost use Rattle.job_meaning.specs.Walks.{source_walk};
ghost use Rattle.job_plan.specs.Plans.{plan_in, planned_answer};
ghost use Rattle.prefix_walks.specs.Pieces.{piece_of};

use crate::given::Given;
use crate::leaves::leaf_until;
use crate::part::Part;
use crate::plan::JobPlan;
use crate::source::{Source, Walked};
use crate::streaming::streamed;
use batch_eval::Registers;
use early_stop::Never;
use job_meaning::Answer;
use job_routes::{Leg, Outcome};
use lambda_values::Env;
use prefix_walks::Window;
use std::alloc::Global;
use trace::NoMemory;

/// A tree that cuts a list of items in pieces, its leaves. For other programs, as `walk_tree`.
#[derive(Drop)]
pub enum SplitTree {
    /// The items in one piece.
    Leaf,
    /// A tree for this number of items, or for all if there are fewer, and a tree for the items after them.
    Node(u64, Box<SplitTree>, Box<SplitTree>),
}

/// The answer of a job. The tree is laid over what each leg goes over, unless the leg goes through slices: then it is
/// one piece.
///
/// A piece after one that settles the answer isn't walked.
///
/// For other programs: the workers of `job_runner` walk the pieces of `streamrun`.
pub fn walk_tree(
    alloc: Global,
    job: &JobPlan,
    tree: &SplitTree,
    env: &Env,
) -> Result<Answer, NoMemory>
    ensures { IfOk result (λ answer. answer ≡ planned_answer env.now (plan_in job.now)) }
{
    let mut registers = Registers::new(alloc);
    let given = walk_route(alloc, job, tree, env, &mut registers)?;
    Ok(job.without_fault(given))
}

/// The answer of the legs of a job, of which the first may be a search.
fn walk_route(
    alloc: Global,
    job: &JobPlan,
    tree: &SplitTree,
    env: &Env,
    registers: &mut Registers,
) -> Result<Answer, NoMemory>
    ensures { IfOk result (λ answer. answer
        ≡ legs_answer (plan_in job.now).legs env.now (source_walk (sources_of job.now.sources.items))) }
{
    let source = Source::of_sources(&job.sources);
    let walked = Walked { source, env };
    let (Some(side), Some((leg, later))) = (job.search, job.scans.split_first()) else {
        return walk_legs(alloc, &job.scans, &job.last, walked, tree, registers);
    };
    let answer = walk_leg(alloc, leg, walked, tree, registers)?.answer();
    let given = Given::searched(&job.sources, leg, side, answer);
    let source = Source::of_given(&given);
    walk_legs(
        alloc,
        later,
        &job.last,
        Walked { source, env },
        tree,
        registers,
    )
}

/// The answer of a job, each leg in one piece. For other programs, as `walk_tree`.
pub fn walk(alloc: Global, job: &JobPlan, env: &Env) -> Result<Answer, NoMemory>
    ensures { IfOk result (λ answer. answer ≡ planned_answer env.now (plan_in job.now)) }
{
    walk_tree(alloc, job, &SplitTree::Leaf, env)
}

/// The answer of legs up to prefixes and a last one. The first of them goes over this source.
fn walk_legs<'p>(
    alloc: Global,
    scans: &'p [Leg],
    last: &'p Leg,
    walked: Walked<'_, 'p, '_, '_>,
    tree: &SplitTree,
    registers: &mut Registers,
) -> Result<Answer, NoMemory>
    ensures { IfOk result (λ answer. answer
        ≡ legs_answer (record { search = None; scans = legs_in scans.now; last = leg_in last.now })
        walked.entry.env.now (walk_in walked.entry.source)) }
{
    let Some((leg, later)) = scans.split_first() else {
        let outcome = walk_leg(alloc, last, walked, tree, registers)?;
        return Ok(outcome.answer());
    };
    let given = Given::walk(walk_leg(alloc, leg, walked, tree, registers)?.walk());
    let source = Source::of_given(&given);
    let env = walked.env;
    walk_legs(alloc, later, last, Walked { source, env }, tree, registers)
}

/// What a leg makes of its source, in the pieces of a tree if it goes through no slices.
fn walk_leg<'p>(
    alloc: Global,
    leg: &'p Leg,
    walked: Walked<'_, 'p, '_, '_>,
    tree: &SplitTree,
    registers: &mut Registers,
) -> Result<Outcome<'p>, NoMemory>
    ensures { IfOk result (λ outcome. outcome
        ≡ leg_outcome (leg_in leg.now) walked.entry.env.now (walk_in walked.entry.source)) }
{
    let env = walked.env;
    let source = walked.source.of_leg(leg);
    let walked = Walked { source, env };
    if !leg.streams() {
        let all = Window { from: 0, to: None };
        let part = walk_piece(alloc, leg, walked, all, tree, registers)?;
        if let Some(outcome) = part.finish(alloc, env)? {
            return Ok(outcome);
        }
    }
    let part = streamed(alloc, leg, walked, registers)?;
    match part.finish(alloc, env)? {
        Some(outcome) => Ok(outcome),
        None => unreachable!(),
    }
}

/// The part of the items at these positions, in the pieces of a tree.
fn walk_piece<'p>(
    alloc: Global,
    leg: &'p Leg,
    walked: Walked<'_, 'p, '_, '_>,
    window: Window,
    tree: &SplitTree,
    registers: &mut Registers,
) -> Result<Part<'p>, NoMemory>
    requires ordered { IfSome window.to (λ last. window.from ≤ last) }
    ensures { IfOk result (λ part. StandsFor (segment_in leg.now.last) walked.entry.env.now part
        (piece_of window.from window.to (walk_in walked.entry.source))) }
{
    let Window { from, to } = window;
    match tree {
        SplitTree::Leaf => leaf_until(alloc, leg, walked, window, registers, &mut Never),
        SplitTree::Node(size, front, back) => {
            let middle = middle_of(from, to, *size);
            let first = Window {
                from,
                to: Some(middle),
            };
            let left = walk_piece(alloc, leg, walked, first, front, registers)?;
            if left.is_settled() {
                return Ok(left);
            }
            let second = Window { from: middle, to };
            let right = walk_piece(alloc, leg, walked, second, back, registers)?;
            match left.merge(right) {
                Ok(part) => Ok(part),
                Err(_) => Err(NoMemory),
            }
        }
    }
}

/// The position `size` items after `from`, but not after `to`.
fn middle_of(from: u64, to: Option<u64>, size: u64) -> u64
    requires ordered { IfSome to (λ last. from ≤ last) }
    ensures not_before { from ≤ result }
    ensures not_after { IfSome to (λ last. result ≤ last) }
{
    let middle = from.saturating_add(size);
    match to {
        Some(to) => middle.min(to),
        None => middle,
    }
}
