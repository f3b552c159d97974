//! The report of a table, merged from the reports of its parts.
//!
//! Stands on `report_merge`, which says what the answers of a table are, given the answers of its parts, on
//! `job_language`, which reads the job file, and on `report` for reports. Used by `streamrun_merge`.
//! What it promises to it is the contract of `ended_run`: it writes the report that `merged_report` gives for what its
//! files hold, and answers the exit status. `merged_report` gives the report of the merged answers of the parts.
//! Begin with `specs/Merged.antt`, then `merging.rt`; `part_answers.rt` reads a report, `running.rt` files.
//! Not promised: that the reports are those of the parts of one table, in order, that no job file is refused which
//! could be merged, or that there is memory.
//!
//! Tested: runs of the programs in `tests`.
#![tactic(auto)]

mod fault;
mod laws;
mod merging;
mod named_columns;
mod numbers;
mod objects;
mod part_answers;
mod part_report;
mod running;
mod taking;
mod telling;

pub use fault::{PartCause, ReportMergeFault};
pub use laws::one_report;
pub use merging::merged_report;
pub use part_report::PartReport;
pub use running::{MergeAsked, PartFile, ended_run};
