//! The answers over a table, merged from the answers over its parts.
//!
//! Stands on `job_meaning`, for answers and what jobs mean, on `job_language`, for jobs, and on definitions and lemmas
//! of the crates below. Used by `merge_run`.
//! Begin with `merged` of `specs/Merging.antt`, then `specs/Mergeable.antt`: which jobs can be merged.
//! `specs/Cuts.antt` says what a table in parts is, `specs/Possible.antt` which answers a job can have. Of the code
//! begin with `merging.rt`.
//! What it promises to its users is the contract of `merge`: if the answers of each part are what the jobs mean over
//! its rows, the merged answers are what they mean over the whole table.
//! Not promised: that a part's answers are of its rows, and that the parts are handed in in their order.
//!
//! Tested: runs of the programs in `tests`.
#![tactic(auto)]

mod fault;
mod joining;
mod laws;
mod merging;
mod part;
mod possible;
mod stage_faults;
mod unmergeable;

pub use fault::MergeFault;
pub use laws::{a_refusal_names_one_part_and_one_job, the_first_refused_part_refuses_the_table};
pub use merging::merge;
pub use part::PartAnswers;
pub use possible::first_impossible;
pub use unmergeable::{Unmergeable, first_unmergeable};
