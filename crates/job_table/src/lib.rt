//! The jobs of a plan on workers.
//!
//! `run_jobs` works out the jobs of a plan. To `job_runner`, which runs them, they are a type that implements
//! `JobLegs`: `PlanJobs` says how a piece of a leg of a job is walked, how two parts are merged, and what comes of a
//! whole leg. `likely_size` is what is known of a leg before the run.
//!
//! Stands on `job_plan` and `job_runner`. Used by `engine`.
//! What it promises to its callers: `run_jobs`: the answers of a plan's jobs by their definition, in order, with any
//! settings and in any schedule.
//! Begin with `planned.rt` and `specs/PlanLegs.antt`, then `plan_legs.rt` and `plan_parts.rt`.
//! Not promised: what `job_runner` doesn't promise: that the call returns, that there is memory, or speed.
//!
//! Tested: `driven.rt`, `leaves.rt` of `test_engine`; runs of the programs in `tests`.
#![tactic(auto)]

mod plan_legs;
mod plan_names;
mod plan_parts;
mod planned;
mod walking;

pub use plan_parts::likely_size;
pub use planned::{PlanBrand, PlanJobs, RunFault, run_jobs};
