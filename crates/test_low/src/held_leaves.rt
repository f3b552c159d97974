//! A gate that holds one leaf until another leaf is entered.
ghost use Rattle.std.specs.Prelude.{◌≡◌};

use crate::small_works::{Asked, idle_workers};
use std::alloc::{AllocError, Global};
use std::sync::Wait;
use std::sync::atomic::Ordering::SeqCst;
use std::sync::atomic::{AtomicBool, AtomicU64};
use std::test::*;
use std::thread::Threads;
use worker_pool::{Gate, Spawn, Work, run_pool};

const TURNS: u64 = 100_000_000;

/// Holds leaf 1 until leaf 2 is entered, and keeps how many turns that took: the greatest number if leaf 1 wasn't
/// entered.
#[derive(Drop)]
struct Holding {
    entered: AtomicBool,
    turns: AtomicU64,
}

impl Gate for Holding {
    fn at_leaf(&self, job: usize, _from: u64, _to: u64) {
        if job != 1 {
            self.entered.store(true, SeqCst);
            return;
        }
        for turn in 0..TURNS {
            if self.entered.load(SeqCst) {
                self.turns.store(turn, SeqCst);
                return;
            }
            // On a busy machine the other thread needs the processor.
            if turn % 4096 == 0 {
                std::thread::yield_now();
            }
        }
        self.turns.store(TURNS, SeqCst);
    }
}

/// A task that only enters the gate, as this job.
#[derive(Drop)]
struct Entry(usize);

#[derive(Drop)]
struct Entries {
    left: AtomicU64,
}

impl Work for Entries {
    type Task = Entry;

    type Idle = Asked;

    ghost is_over = { λ _ idle. idle.last ≡ 0 };

    fn left<R: Wait>(&self, _rt: &R, idle: Asked) -> (Asked, u64) {
        let last = self.left.load(SeqCst);
        let worker = idle.worker;
        (Asked { worker, last }, last)
    }

    fn run<R: Wait, G: Gate, S: Spawn<Entry>>(
        &self,
        _rt: &R,
        _worker: usize,
        gate: &G,
        idle: Asked,
        task: Entry,
        _spawn: &mut S,
    ) -> Asked {
        gate.at_leaf(task.0, 0, 1);
        self.left.fetch_sub(1, SeqCst);
        idle
    }
}

fn turns_of<R: Threads + Wait + Sync>(
    rt: &R,
    alloc: Global,
    workers: usize,
) -> Result<u64, AllocError> {
    let gate = Holding {
        entered: AtomicBool::new(false),
        turns: AtomicU64::new(u64::MAX),
    };
    let work = Entries {
        left: AtomicU64::new(2),
    };
    let mut first = Vec::new(alloc);
    first.push(Entry(1))?;
    first.push(Entry(2))?;
    let idle = idle_workers(alloc, workers)?;
    if idle.is_empty() {
        return Ok(u64::MAX);
    }
    run_pool(rt, alloc, &gate, &work, first, idle);
    Ok(gate.turns.load(SeqCst))
}

#[test]
fn two_workers_have_two_leaves_open_at_once(rt: HostRuntime) -> Result<(), Fail> {
    let turns = turns_of(&rt, rt.alloc(), 2)?;
    assert!(rt; turns < TURNS, "by two workers");
    assert!(rt; turns_of(&rt, rt.alloc(), 1)? == TURNS, "by one worker");
    Ok(())
}
