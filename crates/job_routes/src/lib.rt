//! What a run walks of a job: its legs.
//!
//! Stands on the definitions of `job_meaning`, which says what a job answers, on `job_language`, for stages, on `trace`
//! and `batch_eval`, for walks, and on `reduce_ops`, `slice_ops`, `find_ops` and `prefix_walks`, for what ends them.
//! Used by `job_plan`, which walks legs.
//! Begin with `specs/Legs.antt`. `route_of` makes the legs of a job of its stages and its terminal. The first leg goes
//! over positions of the job's sources, each further one over positions of what the prefix at the end of the leg before
//! gives. `fallback_of` says what a job gives after a fault.
//! What it promises to its callers: `route_of`: the legs have the job's answer, over any sources.
//! Not promised: that a leg walks no more than its job needs.
//!
//! Tested: `plans.rt` of `test_engine`; runs of the programs in `tests`.
#![tactic(auto)]

mod asking;
mod building;
mod copies;
mod ends;
mod fallback;
mod leg;
mod many;
mod numbered_stages;
mod outcome;
mod placeless;
mod route;
mod searches;
mod segment;

pub use ends::{Fold, SegmentEnd};
pub use fallback::{Fallback, fallback_of};
pub use leg::{Leg, Link};
pub use numbered_stages::NumberedStages;
pub use outcome::Outcome;
pub use route::{PlaceSide, Route, route_of};
pub use segment::Segment;
