//! The run: from the bytes of a column file and a job file to the bytes of the report.
//!
//! Stands on `columns` and `job_language`, which read the two files, on `job_meaning`, which says what the jobs mean,
//! on `job_plan` and `job_table`, which cut and run them, and on `report`: on their contracts, and on lemmas about
//! their definitions. Used by the program `streamrun`, and by any other program that has a column file or none, a job
//! file and a writer. What it promises to them is the contract of `run`: the writer gets exactly the report that
//! `specs/Run.antt` defines, or the fault says why not and what was written.
//! Begin with `specs/Run.antt`, then `running.rt`; `telling.rt` has the line and the status of each fault.
//! Not promised: that a file can be read or written, or that memory is there.
//! The operations are defined as in `java.util.stream.LongStream` (Java SE 17), the arithmetic as for `long`.
//!
//! Tested: `runs.rt` of `test_engine`; runs of the programs in `tests`.
#![tactic(auto)]

mod fault;
mod gate;
mod laws;
mod reporting;
mod running;
mod table;
mod telling;

pub use fault::EngineFault;
pub use gate::RunGate;
pub use laws::{
    a_later_language_changes_no_report, by_default_tables_of_integers_are_read,
    each_input_has_one_outcome, refusals_are_outcomes, settings_change_no_byte, worked_files,
};
pub use running::run;
pub use telling::{status_after, tell, write_line};
