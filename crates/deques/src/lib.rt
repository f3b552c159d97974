//! Deques of tasks that threads share: an owner pushes and pops, thieves steal, and any thread uses an inbox.
//!
//! Stands on `crossbeam_deque`, whose methods keep a rule of the caller between any two steps. The rule here is that
//! there is one history of calls which leads from no task to the tasks that are held (`specs/Rule.antt`). So each call
//! is known to be one step of that history: a push adds its task as the newest, a pop hands out the newest, a steal or
//! a take the oldest, and no task is handed out twice.
//! Used by `worker_pool`, which cites `Owner::push`, clause `pushed`: a refused task comes back.
//! Begin with `specs/Tasks.antt`, then `src/owner.rt`; docs/workers.md says what a worker does with them.
//! Not promised: that a push succeeds, though each among the first 64 calls of an owner does; who gets a task.
//! Java SE 17: the work queues of `ForkJoinPool`.
//!
//! Tested: `handles.rt` of `test_low`; runs of the programs in `tests`.
#![tactic(auto)]

mod calls;
mod handles;
mod inbox;
mod owner;
mod rule;
mod thief;

pub use handles::{Inbox, Owner, Pass, Thief};
pub use std::alloc::AllocError as NoMemory;
