//! Walks through stages a batch of items at a time.
//!
//! `feed_all` of `trace` takes one item through all stages before the next one, and goes over the tree of an expression
//! for each item. Here up to 1,024 items lie in registers, lane by lane, and each operator goes over all lanes before
//! the next operator: one loop per operator and batch. A fault cuts the batch at its lane. The next operator goes over
//! the lanes before it only, and may meet the fault of an earlier lane, which cuts further. What is left is what a walk
//! item by item gives.
//!
//! Stands on `lambda_values` and `trace`. What it promises to its users: `feed_batches`, clauses `fed`, `flow` and
//! `refused`, which repeat the clauses of `feed_all` word for word.
//! Of stages alone, `are_maps` and `are_faultless` say what no walk through them can meet (`faultless.rt`).
//! Begin with `feeding.rt`, `batch.rt` and `register.rt`, and `specs/Lanes.antt` (`Reaches`).
//! Not promised: how fast it is (`bench/` measures it), and that memory for registers is there.
//!
//! Tested: `batches.rt`, `full_sinks.rt` of `test_low`; runs of the programs in `tests`.
#![tactic(auto)]

mod batch;
mod batch_items;
mod cheap;
mod choice;
mod choose;
mod constant;
mod counted;
mod dispatch;
mod division;
mod exact;
mod faultless;
mod feeding;
mod few;
mod filtering;
mod flag;
mod flagged;
mod flagged_lanes;
mod in_place;
mod inner_columns;
mod keep;
mod kernel;
mod lane_items;
mod lanes;
mod listing;
mod loops;
mod multiply;
mod number_test;
mod operands;
mod passing;
mod pipeline;
mod plain;
mod power;
mod reached;
mod reciprocal;
mod register;
mod registers;
mod room;
mod rows;
mod sink;
mod staging;
mod step;

pub use batch_items::BatchItems;
pub use faultless::{after_stages, are_faultless, are_maps};
pub use feeding::{feed_at_once, feed_batches};
pub use flagged::accept_each_flagged;
pub use flagged_lanes::{FlaggedLanes, LaneValues};
pub use lane_items::LaneItems;
pub use number_test::NumberTest;
pub use passing::count_passing;
pub use pipeline::Pipeline;
pub use registers::Registers;
pub use sink::{BatchSink, accept_each};
