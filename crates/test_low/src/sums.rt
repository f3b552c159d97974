//! The sum of a thousand numbers, by tasks that split themselves.
ghost use Rattle.std.specs.Prelude.{◌≡◌};

use crate::small_works::{Asked, Open, idle_workers};
use std::alloc::{AllocError, Global};
use std::sync::Wait;
use std::sync::atomic::AtomicU64;
use std::sync::atomic::Ordering::SeqCst;
use std::test::*;
use std::thread::Threads;
use worker_pool::{Gate, Spawn, Work, run_pool};

/// Numbers from `from` up to but not including `to`.
#[derive(Drop)]
struct Part {
    from: u64,
    to: u64,
}

/// Adds up numbers in pieces of at most ten. Counts how often each number was added, and the tasks that another
/// worker's `Idle` came with.
#[derive(Drop)]
struct Sum {
    total: AtomicU64,
    left: AtomicU64,
    times: Vec<AtomicU64>,
    strays: AtomicU64,
}

impl Sum {
    fn of(alloc: Global, numbers: u64) -> Result<Sum, AllocError> {
        let mut times = Vec::new(alloc);
        for _ in 0..numbers {
            times.push(AtomicU64::new(0))?;
        }
        Ok(Sum {
            total: AtomicU64::new(0),
            left: AtomicU64::new(numbers),
            times,
            strays: AtomicU64::new(0),
        })
    }

    fn add_up(&self, from: u64, to: u64) {
        let mut sum = 0u64;
        for number in from..to {
            sum = sum.wrapping_add(number);
            if let Some(times) = self.times.get(number as usize) {
                times.fetch_add(1, SeqCst);
            }
        }
        self.total.fetch_add(sum, SeqCst);
        self.left.fetch_sub(to.saturating_sub(from), SeqCst);
    }

    fn added_each_once(&self) -> bool {
        self.times.iter().all(|times| times.load(SeqCst) == 1)
    }
}

impl Work for Sum {
    type Task = Part;

    type Idle = Asked;

    ghost is_over = { λ _ idle. idle.last ≡ 0 };

    ghost owner_of = { λ idle. idle.worker };

    fn left<R: Wait>(&self, _rt: &R, idle: Asked) -> (Asked, u64) {
        let last = self.left.load(SeqCst);
        let worker = idle.worker;
        (Asked { worker, last }, last)
    }

    fn run<R: Wait, G: Gate, S: Spawn<Part>>(
        &self,
        _rt: &R,
        worker: usize,
        gate: &G,
        idle: Asked,
        task: Part,
        spawn: &mut S,
    ) -> Asked {
        if worker != idle.worker {
            self.strays.fetch_add(1, SeqCst);
        }
        let Part { from, mut to } = task;
        for _ in 0..64 {
            let half = to.saturating_sub(from) / 2;
            if half < 5 {
                break;
            }
            let middle = to.saturating_sub(half);
            if let Err(Part { from, to }) = spawn.push(Part { from: middle, to }) {
                self.add_up(from, to);
            }
            to = middle;
        }
        gate.at_leaf(0, from, to);
        self.add_up(from, to);
        idle
    }
}

/// The sum of the numbers below 1,000 by this many workers, and whether each number was added once, each worker kept
/// its own `Idle`, and the `Idle` of worker 0 came back.
fn sum_by<R: Threads + Wait + Sync>(
    rt: &R,
    alloc: Global,
    workers: usize,
) -> Result<(u64, bool), AllocError> {
    let work = Sum::of(alloc, 1000)?;
    let mut first = Vec::new(alloc);
    for part in 0..4u64 {
        first.push(Part {
            from: part * 250,
            to: part * 250 + 250,
        })?;
    }
    let idle = idle_workers(alloc, workers)?;
    if idle.is_empty() {
        return Ok((0, false));
    }
    let mine = run_pool(rt, alloc, &Open, &work, first, idle);
    let own = mine.worker == 0 && mine.last == 0 && work.strays.load(SeqCst) == 0;
    let once = work.added_each_once() && own;
    Ok((work.total.load(SeqCst), once))
}

#[test]
fn any_number_of_workers_gives_the_sum_and_runs_each_task_once(
    rt: HostRuntime,
) -> Result<(), Fail> {
    for workers in [1, 2, 8, 64] {
        let (sum, once) = sum_by(&rt, rt.alloc(), workers)?;
        assert!(rt; sum == 499_500 && once, "by {workers} workers");
    }
    Ok(())
}
