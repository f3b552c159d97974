//! A pool of scoped threads that runs tasks until none is left.
//!
//! A caller gives `run_pool` a `Work`: it says how a task is run and how much is left. Each worker takes tasks from its
//! own deque, from the deques of the others and from a common inbox, in this order, and pauses if it finds none.
//! Stands on `deques` and on `Backoff` of `crossbeam_utils`. Its promise to callers is `run_pool`, clauses `over` and
//! `mine`: what comes back is the first worker's `Idle`, for which `Work::left` answered 0.
//! Begin with `work.rt`, then `worker.rt`; docs/workers.md says what a worker does and what wakes it.
//! Not promised: that the call returns, that a thread starts, or that each task is run (tests show that).
//! Java SE 17: `ForkJoinPool`, whose caller helps.
//!
//! Tested: `driven.rt`, `gates.rt`, `lists.rt`, `runs.rt` of `test_engine`; `held_leaves.rt`, `small_works.rt`,
//! `sums.rt` of `test_low`; runs of the programs in `tests`.
#![tactic(auto)]

mod door;
mod gate;
mod pause;
mod pool;
mod queues;
mod work;
mod worker;

pub use gate::Gate;
pub use pool::run_pool;
pub use work::{Spawn, Work};
