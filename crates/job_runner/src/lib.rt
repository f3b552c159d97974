//! Jobs on workers, leg by leg, over one table of counts, whatever the jobs are.
//!
//! `run_all` works out the jobs of a type that implements `JobLegs`, which says how many jobs there are, how a piece of
//! a leg is walked, how two parts are merged, and what comes of a whole leg. A job that names another one, or is named,
//! has a start node. A piece longer than `longest_piece` says is cut in two if a node can be claimed; parts climb in
//! trees of completers. Whoever gets the part of a whole leg leaves its outcome in a `OnceLock`, and begins the next
//! leg or settles the job.
//!
//! Stands on `completer_tree`, `worker_pool` and `early_stop`, and on `run_settings` for what a run may use. Used by
//! `job_table`, whose jobs are the jobs of a plan.
//! What it promises to its callers: `run_all`, clauses `count` and `each`: each answer is the answer of its job, in
//! order, with any settings and in any schedule.
//! Begin with `legs.rt`, then `run.rt`, `walking.rt` and `ending.rt`; docs/workers.md has a job's way through the
//! threads.
//! Not promised: that the call returns, that there is memory, that an answer comes from the tasks (else whoever reads
//! it works it out), or speed.
//!
//! Tested: `driven.rt`, `lists.rt` of `test_engine`; runs of the programs in `tests`.
#![tactic(auto)]

mod alone;
mod arming;
mod credit;
mod cut;
mod earlier;
mod ending;
mod legs;
mod nodes;
mod opening;
mod parts;
mod piece;
mod places;
mod run;
mod run_nodes;
mod start;
mod stopping;
mod task;
mod tools;
mod walking;
mod watch;
mod work;

pub use cut::{CutPiece, Join, LegPart, Merged, TableCounts, TableKept, TablePart, TableSeat};
pub use earlier::{Earlier, EarlierAnswers};
pub use legs::{Begun, JobLegs};
pub use opening::{FreshCounts, TableFreshCounts};
pub use piece::{LegInput, NextSource, Piece};
pub use places::{JobPlaces, KeptAnswer, KeptGiven, KeptSource};
pub use run::run_all;
pub use run_nodes::RunNodes;
pub use start::{Start, Waiting};
pub use std::alloc::AllocError as NoMemory;
pub use stopping::{RunLegs, RunStops};
pub use task::{
    FinishedLeg, Idle, JobSeat, RunBrand, SideTask, Spare, TableFinishedLeg, TableIdle,
    TableJobSeat, TableSideTask, TableTask, Task, UnopenedJobs,
};
pub use work::{JobWork, TableWork};
