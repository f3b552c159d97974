//! What the jobs of a file mean: the answer of each.
//!
//! Stands on `job_language`, for jobs, and on the definitions of `trace`, `reduce_ops`, `slice_ops`, `find_ops` and
//! `prefix_scan`, for walks. Used by `job_routes`, which makes the legs of a job, by `job_plan`, which finds the jobs
//! that a job names, by `report`, which writes answers, and by `engine`, whose contract cites it.
//! Begin with `meaning_of` of `specs/FileAnswers.antt`, then `specs/Walks.antt`: the walk of a job, and the answer that
//! its terminal gives. The code is the answer as a value: `Answer`, and the `Values` of an array in the pieces in which
//! they were made; and `names_in_job`, the names in a job.
//! What it promises to its users: what an answer is to a job that names it (`is_usable`, `number`, `array`), and that
//! no call of `Values` changes a value or its place.
//! Not promised: that anything is run. `job_plan` does that, a piece at a time.
//!
//! Tested: `leaves.rt`, `reports.rt`, `shown.rt` of `test_engine`; `values.rt` of `test_low`; runs of the programs in
//! `tests`.
#![tactic(auto)]

mod answer;
mod laws;
mod names;
mod values;

pub use answer::Answer;
pub use laws::{answers_have_64_bits, walks_go_item_by_item};
pub use names::names_in_job;
pub use values::Values;
