//! How the start nodes of all jobs are claimed and armed.
ghost use Rattle.std.specs.Prelude.{◌≡◌, ◌+◌, ◌-◌, ◌<◌, ◌≤◌, ◌++◌, ◌∷◌, [], ℕ, length, true, IfOk, IfSome, OnOk};
ghost use Rattle.completion_core.specs.Graph.{copies};
ghost use Rattle.completion_core.specs.Legal.{count};
ghost use Rattle.pending_count.specs.Views.{first_view};
ghost use Rattle.pending_count.specs.Seats.{IsSeatOf, view_of};
ghost use Rattle.job_runner.specs.Tasks.{HasStarts, all_waiting};
ghost use Rattle.job_runner.specs.Waits.{nodes_in};

use crate::NoMemory;
use crate::cut::{CutPiece, TableCounts, TableSeat};
use crate::legs::JobLegs;
use crate::start::{Start, Waiting};
use completion_core::{END, Node};
use pending_count::{Counts, Fits, Seat};
use std::alloc::Global;
use std::mem;

/// The start nodes that are armed, the last job's first, and for each job those that wait for it.
#[derive(Drop)]
struct Armed {
    starts: Vec<Start>,
    waiting: Vec<Vec<Waiting>>,
}

/// No job waits for any of this many jobs.
fn none_waiting(alloc: Global, jobs: usize) -> Result<Vec<Vec<Waiting>>, NoMemory>
    ensures { IfOk result (λ all. (i : ℕ) → count i (all_waiting all.items) ≡ 0) }
{
    let mut all = Vec::new(alloc);
    for _job in 0..jobs {
        all.push(Vec::new(alloc))?;
    }
    Ok(all)
}

/// The nodes of jobs that wait, and END.
fn onward_of(alloc: Global, waiting: &[Waiting]) -> Result<Vec<Node>, NoMemory>
    ensures { IfOk result (λ onward. onward.items ≡ nodes_in waiting.now ++ 0 ∷ []) }
{
    let mut onward = Vec::new(alloc);
    for other in waiting {
        onward.push(other.node)?;
    }
    onward.push(END)?;
    Ok(onward)
}

/// Takes out those that wait for a job.
fn take_waiting(alloc: Global, all: &mut Vec<Vec<Waiting>>, job: usize) -> Vec<Waiting>
    ensures { (i : ℕ)
        → count i (all_waiting all.new.items) + count i (nodes_in result.items) ≡ count i (all_waiting all.old.items) }
{
    if job < all.len() {
        mem::replace(&mut all[job], Vec::new(alloc))
    } else {
        Vec::new(alloc)
    }
}

/// Has a job wait for another one.
fn wait_for(all: &mut Vec<Vec<Waiting>>, named: usize, job: Waiting) -> Result<(), NoMemory>
    ensures { OnOk result ((i : ℕ) → count i (all_waiting all.new.items) ≤ count i (job.node
        ∷ []) + count i (all_waiting all.old.items)) }
{
    if named < all.len() {
        all[named].push(job)?;
    }
    Ok(())
}

/// Has a job wait for each of the jobs that it names.
fn wait_for_all(all: &mut Vec<Vec<Waiting>>, names: &[usize], job: Waiting) -> Result<(), NoMemory>
    ensures { OnOk result ((i : ℕ) → count i (all_waiting all.new.items) ≤ count i (copies (length names.now)
        job.node) + count i (all_waiting all.old.items)) }
{
    for named in names {
        wait_for(all, *named, job)?;
    }
    Ok(())
}

/// Adds the start node of a job that names these ones.
fn add_start(armed: &mut Armed, start: Start, names: &[usize], job: usize) -> Result<(), NoMemory>
    ensures starts { OnOk result (armed.new.starts.items ≡ armed.old.starts.items ++ start ∷ []) }
    ensures waiting { OnOk result ((i : ℕ) → count i (all_waiting armed.new.waiting.items)
        ≤ count i (copies (length names.now) start.node) + count i (all_waiting armed.old.waiting.items)) }
{
    let waiting = Waiting {
        job,
        node: start.node,
    };
    wait_for_all(&mut armed.waiting, names, waiting)?;
    armed.starts.push(start)?;
    Ok(())
}

/// Whether a job that names these ones, and for which these wait, needs no start node.
fn is_lone(names: &[usize], waiting: &[Waiting]) -> bool
    ensures { result ≡ true → (length names.now ≡ 0) × (length waiting.now ≡ 0) }
{
    names.is_empty() && waiting.is_empty()
}

/// Claims and arms the start node of the last job that has none, which names these ones. `None` if there is no node.
/// A lone job has END for its start node.
fn arm_one<V, K: Fits<V, Tag = CutPiece>>(
    alloc: Global,
    counts: &Counts<V, K>,
    job: usize,
    names: &[usize],
    seat: Seat<V, K>,
    armed: &mut Armed,
) -> Result<Option<Seat<V, K>>, NoMemory>
    requires table { IsSeatOf counts.now seat }
    requires has { HasStarts (job + 1) armed.old.starts.items (all_waiting armed.old.waiting.items) (view_of seat) }
    ensures table { IfOk result (λ found. IfSome found (λ later. IsSeatOf counts.now later)) }
    ensures count { IfOk result (λ found. IfSome found (λ _. length armed.new.starts.items
        ≡ length armed.old.starts.items + 1)) }
    ensures has { IfOk result (λ found. IfSome found
        (λ later. HasStarts job armed.new.starts.items (all_waiting armed.new.waiting.items) (view_of later))) }
{
    let Ok(pending) = u32::try_from(names.len()) else {
        return Err(NoMemory);
    };
    let waiting = take_waiting(alloc, &mut armed.waiting, job);
    let onward = onward_of(alloc, &waiting)?;
    if is_lone(names, &waiting) {
        let start = Start {
            node: END,
            onward,
            waiting,
        };
        add_start(armed, start, names, job)?;
        return Ok(Some(seat));
    }
    let (seat, drawn) = counts.claim(seat);
    let Some(node) = drawn else {
        return Ok(None);
    };
    let seat = counts.arm(seat, node, pending, &onward);
    let start = Start {
        node,
        onward,
        waiting,
    };
    add_start(armed, start, names, job)?;
    Ok(Some(seat))
}

/// Claims and arms the start nodes of all jobs, the last job's first, so that what a node keeps has smaller numbers.
/// `None` if there are too few nodes.
pub(crate) fn arm_all<S: JobLegs>(
    alloc: Global,
    jobs: &S,
    counts: &TableCounts<S>,
    first: TableSeat<S>,
) -> Result<Option<(TableSeat<S>, Vec<Start>)>, NoMemory>
    requires table { IsSeatOf counts.now first }
    requires first { view_of first ≡ first_view S.run.jobs }
    ensures table { IfOk result (λ armed. IfSome armed (λ a. IsSeatOf counts.now a.0)) }
    ensures count { IfOk result (λ armed. IfSome armed (λ a. length a.1.items ≡ S.run.jobs)) }
    ensures has { IfOk result (λ armed. IfSome armed (λ a. HasStarts 0 a.1.items [] (view_of a.0))) }
{
    let count = jobs.jobs();
    let mut armed = Armed {
        starts: Vec::new(alloc),
        waiting: none_waiting(alloc, count)?,
    };
    let mut seat = first;
    for done in 0..count {
        let job = count - 1 - done;
        let names = jobs.names(alloc, job)?;
        let Some(later) = arm_one(alloc, counts, job, &names, seat, &mut armed)? else {
            return Ok(None);
        };
        seat = later;
    }
    Ok(Some((seat, armed.starts)))
}
