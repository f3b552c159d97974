//! The routes of jobs, and the parts of their walks.
//!
//! Stands on `job_routes`, which makes the legs of a job, on `job_meaning`, which says what the answer of a job is, on
//! `job_language`, for jobs, on `trace` and `batch_eval`, for walks, and on `reduce_ops`, `slice_ops`, `find_ops` and
//! `prefix_walks`, for what stages and terminals keep of a walk. Used by whatever runs jobs.
//! Begin with `specs/Plans.antt`. `Plan::of` makes the route of each job and finds the earlier jobs that it names.
//! `leaf_until` takes a piece of what a leg goes over to a `Part`, two parts side by side merge, and `Part::finish`
//! gives the next source or the answer. `walk_tree` does all of this on one thread.
//! Not promised: that pieces are walked at the same time, or that a piece is walked no further than needed.
//!
//! Tested: `driven.rt`, `plans.rt`, `refusals.rt`, `shown.rt` of `test_engine`; runs of the programs in `tests`.
#![tactic(auto)]

mod array_part;
mod closing;
mod counted_part;
mod distinct_end;
mod end_part;
mod exact_end;
mod find_end;
mod fold_part;
mod found;
mod fronts;
mod given;
mod laws;
mod leaves;
mod lent_arrays;
mod lent_part;
mod likely;
mod likely_values;
mod link_sink;
mod looking;
mod named;
mod names;
mod nest;
mod part;
mod part_sink;
mod plan;
mod prefix_end;
mod room;
mod sorted_end;
mod source;
mod sources;
mod streaming;
mod stretches;
mod walks;

pub use array_part::ArrayPart;
pub use fold_part::FoldPart;
pub use given::Given;
pub use laws::routes_answer_as_their_jobs;
pub use leaves::{leaf_until, unwalked};
pub use part::Part;
pub use plan::{JobPlan, Named, Plan};
pub use source::{Source, Walked};
pub use streaming::streamed;
pub use walks::{SplitTree, walk, walk_tree};
