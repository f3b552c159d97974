//! Routes of jobs: what they go over, their walks, and walks on trees that cut them.

use crate::shown::{plan_of, shown};
use job_plan::{JobPlan, SplitTree, walk, walk_tree};
use job_routes::Leg;
use lambda_values::Env;
use std::alloc::{AllocError, Global};
use std::test::Fail;
use tables::Columns;

/// A node of two leaves.
fn cut_at(alloc: Global, items: u64) -> Result<SplitTree, AllocError> {
    Ok(SplitTree::Node(
        items,
        Box::new(alloc, SplitTree::Leaf)?,
        Box::new(alloc, SplitTree::Leaf)?,
    ))
}

/// A tree that cuts this many items off, and each side once more.
fn tree_of(alloc: Global, items: u64) -> Result<SplitTree, AllocError> {
    let left = cut_at(alloc, 1)?;
    let right = cut_at(alloc, u64::MAX)?;
    Ok(SplitTree::Node(items, Box::new(alloc, left)?, Box::new(alloc, right)?))
}

/// Whether the walk of a job gives this answer.
fn walk_gives(alloc: Global, job: &JobPlan, want: &str) -> Result<bool, AllocError> {
    let answer = walk(alloc, job, &Env::empty(alloc))?;
    Ok(shown(alloc, &answer)?.as_str() == want)
}

/// Whether the walk of a job on a tree gives this answer.
fn tree_gives(
    alloc: Global,
    job: &JobPlan,
    tree: &SplitTree,
    want: &str,
) -> Result<bool, AllocError> {
    let answer = walk_tree(alloc, job, tree, &Env::empty(alloc))?;
    Ok(shown(alloc, &answer)?.as_str() == want)
}

/// Adds the positions that a leg goes over, the number of its slices, of the stages after them, and of the first of
/// these.
fn add_leg(alloc: Global, shown: &mut String, leg: &Leg) -> Result<(), AllocError> {
    shown.push_str(format!(in alloc; "from {}", leg.window.from)?.as_str())?;
    if let Some(to) = leg.window.to {
        shown.push_str(format!(in alloc; " to {to}")?.as_str())?;
    }
    let first = leg.last.stages.first;
    let stages = leg.last.stages.list.len();
    let text = format!(in alloc; ", {} slices, {stages} at {first}", leg.links.len())?;
    shown.push_str(text.as_str())
}

/// Whether a job has the route that a text says.
fn has_route(alloc: Global, job: &JobPlan, route: &str) -> Result<bool, AllocError> {
    let mut shown = String::new(alloc);
    let last = job.last_leg();
    for number in 0..last {
        add_leg(alloc, &mut shown, job.leg(number))?;
        shown.push_str("; ")?;
    }
    add_leg(alloc, &mut shown, job.leg(last))?;
    Ok(shown.as_str() == route)
}

/// Jobs, each with its answer, and after it for each leg the positions that it goes over, the number of slices, of
/// stages after them, and of the first of these; worked out by hand. Slices that come before the other stages of a leg,
/// or after maps alone, select positions. A leg before one with another slice looks for the place where it cuts.
/// Nothing is walked before `limit(0)`.
const WALKED: &str = "\
range(0, 9).sum() => 36; from 0, 0 slices, 0 at 1
range(0, 9).skip(1).sum() => 36; from 1, 0 slices, 0 at 2
range(0, 9).skip(1).limit(2).map(x -> x).sum() => 3; from 1 to 3, 0 slices, 1 at 3
range(0, 9).limit(2).skip(0).map(x -> x).skip(1).sum() => 1; from 1 to 2, 0 slices, 1 at 4
range(0, 9).map(x -> x).skip(1).sum() => 36; from 1, 0 slices, 1 at 2
range(0, 9).map(x -> x / -7).skip(1).sum() => -2; from 1, 0 slices, 1 at 2
range(0, 9).limit(1).limit(0).skip(1).sum() => 0; from 0 to 1, 2 slices, 0 at 4
range(0, 9).skip(1).takeWhile(x -> true).skip(1).sum() => 35; from 1, 2 slices, 0 at 4
range(0, 9).dropWhile(x -> true).skip(1).sum() => 0; from 0, 2 slices, 0 at 3
range(0, 9).filter(x -> x > 2).skip(1).map(x -> x).sum() => 30; from 0, 1 slices, 1 at 3; \
from 0, 0 slices, 2 at 2
range(0, 9).dropWhile(x -> x < 4).sum() => 30; from 0, 0 slices, 2 at 1; from 0, 0 slices, 0 at 2
range(0, 9).takeWhile(x -> x < 4).sum() => 6; from 0, 0 slices, 2 at 1; from 0, 0 slices, 0 at 2
range(0, 9).takeWhile(x -> 4 / (x - 9) > -2).sum() => 21; from 0, 0 slices, 2 at 1; from 0, 0 slices, 1 at 1
range(0, 9).takeWhile(x -> x < 4).findFirst() => OptionalLong[0]; from 0, 1 slices, 0 at 2
range(0, 9).flatMap(x -> of(x)).skip(1).sum() => 36; from 0, 1 slices, 0 at 3
range(0, 9).limit(7).filter(x -> x > 2).dropWhile(x -> x < 5).sum() => 11; \
from 0 to 7, 0 slices, 3 at 2; from 0, 0 slices, 1 at 3
of(5, 3, 8).skip(1).map(x -> 24 / x).toArray() => [8, 3]; from 1, 0 slices, 1 at 2
of(5, 3, 0).map(x -> 24 / x).skip(1).toArray() => fault divide-by-zero stage 1 item 2; from 0, 1 slices, 1 at 3; \
from 0, 0 slices, 2 at 1
range(0, 9).skip(9223372036854775807).skip(9223372036854775807).skip(2).sum() => 0; \
from 18446744073709551614, 1 slices, 1 at 4; from 0, 0 slices, 0 at 4
of(3, 0).prefix(sum).map(x -> 6 / (x - 3)).findFirst() => fault divide-by-zero stage 2 item 0; \
from 0, 0 slices, 0 at 1; from 0, 0 slices, 1 at 2
range(0, 9).prefix(sum).skip(2).prefix(max).limit(2).sum() => 9; \
from 0, 0 slices, 0 at 1; from 2, 0 slices, 0 at 3; from 0 to 2, 0 slices, 0 at 5
range(0, 9).skip(1).prefix(sum).map(x -> x).skip(1).limit(3).filter(x -> x > 3).skip(1).sum() => 10; \
from 1, 0 slices, 0 at 2; from 1 to 4, 1 slices, 0 at 8
of(1, 0).prefix(sum).map(x -> 2 / (x - 1)).skip(1).sum() => fault divide-by-zero stage 2 item 0; \
from 0, 0 slices, 0 at 1; from 0, 1 slices, 0 at 4";

/// Whether the jobs of a text are walked so, whatever the first piece.
fn is_walked(alloc: Global, text: &str, answer: &str, route: &str) -> Result<bool, Fail> {
    let columns = Columns::none();
    let plan = plan_of(alloc, text.as_bytes(), &columns)?;
    for job in &plan.jobs {
        if !has_route(alloc, job, route)? || !walk_gives(alloc, job, answer)? {
            return Ok(false);
        }
        for items in [0, 1, 4, u64::MAX] {
            if !tree_gives(alloc, job, &tree_of(alloc, items)?, answer)? {
                return Ok(false);
            }
        }
    }
    Ok(plan.jobs.len() == 1)
}

#[test]
fn jobs_have_routes(rt: HostRuntime) -> Result<(), Fail> {
    let alloc = rt.alloc();
    for row in WALKED.lines() {
        let (job, wanted) = row.split_once(" => ").unwrap_or((row, ""));
        let (answer, route) = wanted.split_once("; ").unwrap_or((wanted, ""));
        let text = format!(in alloc; "q = {job}")?;
        assert!(rt; is_walked(alloc, text.as_str(), answer, route)?, "{row}");
    }
    Ok(())
}

#[test]
fn two_leaves_side_by_side_give_the_answer(rt: HostRuntime) -> Result<(), Fail> {
    let alloc = rt.alloc();
    let columns = Columns::none();
    let plan = plan_of(
        alloc,
        b"q = of(6, 3, 2).map(x -> 12 / x).toArray()",
        &columns,
    )?;
    for job in &plan.jobs {
        for middle in [0, 1, 2, 3] {
            let tree = cut_at(alloc, middle)?;
            assert!(rt; tree_gives(alloc, job, &tree, "[2, 4, 6]")?, "{middle}");
        }
    }
    Ok(())
}
