//! Early stop: for each segment of a run the least place known to decide what the segment gives, in an atomic word.
//!
//! Stands on `trace` and `atomic_table`. Used by `job_plan`, whose leaves ask a `Stop`, and by `job_runner`, whose
//! workers share a `Cut`.
//! Begin with `specs/Decisive.antt` and `specs/Leaving.antt`, then `stop.rt` and `steps.rt`; `laws.rt` says what may be
//! left out.
//! Not promised: that a place is ever seen. No call waits, and none but `Cut::new` takes memory.
//!
//! Tested: `lists.rt` of `test_engine`; `words.rt` of `test_low`; runs of the programs in `tests`.
#![tactic(auto)]

mod cut;
mod laws;
mod rule;
mod segments;
mod steps;
mod stop;
mod view;

pub use cut::{Cut, CutSeat};
pub use laws::{faults_settle, parts_may_be_joined, settled_parts_decide};
pub use segments::Segments;
pub use std::alloc::AllocError as NoMemory;
pub use stop::{Never, Stop};
