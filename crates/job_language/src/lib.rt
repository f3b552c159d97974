//! The language of job files: the grammar of a job, and the table of its operations.
//!
//! A job is `NAME = SOURCE`, stages and a terminal, each after a dot, and at most one `;`; from version 2 of the
//! language on a fallback may stand after the terminal, and in version 3 lambdas may have cells and rows, and columns
//! decimal places. Each source, stage, terminal and fallback is a call of an operation, and each operation is one row
//! of a table (`row.rt`, `specs/Table.antt`): where it stands, what a call takes between its parentheses, and what it
//! builds of that. The grammar, the reader and what a job means share that table.
//!
//! Stands on `stream_tokens`, which cuts the text of a job once (`CutText`), on `lambda_expr`, which reads a lambda
//! from its part of that text, on `job_names`, which has the names of columns with decimal places, on `tables`, and on
//! the crates whose stages, terminals and operators a job is made of. `read_job` gives the job that a text spells, or
//! the first cause in order of writing for which it is refused (`specs/Verdicts.antt`, `IsRead`); `Scope` has the
//! earlier jobs and the columns. `read_jobs` gives the jobs of a file, or its first fault (`specs/Files.antt`), and
//! reads no version after 2; `read_jobs_within` takes the newest version. `each_file_has_an_answer` and `one_file` say
//! that bytes have exactly one of the two, `by_default_nothing_changes` and `a_later_language_reads_more` what the
//! newest version changes. `parse_job` gives the calls of a job in order of writing exactly when the text is a job;
//! `one_job` says that words are one job at most.
//!
//! Begin with `specs/Grammar.antt` and `specs/Verdicts.antt`, then `read.rt`, `parts.rt` and `argument.rt`; for
//! the grammar `shape.rt`. Which texts are refused, and why, is tested over the program (`tests/soak/refused.txt`).
//!
//! Not promised: that memory is there.
//!
//! Tested: `refusals.rt`, `shown.rt` of `test_engine`; `decimal_jobs.rt` of `test_low`; runs of the programs in
//! `tests`.
#![tactic(auto)]

mod argument;
mod call;
mod causes;
mod fault;
mod file;
mod job;
mod laws;
mod mode;
mod numbers;
mod operation;
mod operator;
mod params;
mod parts;
mod piece;
mod read;
mod row;
mod scope;
mod shape;
mod sound;
mod terminal;
mod word;

pub use call::one_call;
pub use causes::name_cause;
pub use fault::{Cause, JobFault};
pub use file::{read_jobs, read_jobs_within};
pub use job::{Job, JobStage, PlainSource};
pub use laws::{
    a_call_is_no_syntax_fault, a_job_has_a_name, a_later_language_reads_more,
    by_default_nothing_changes, each_file_has_an_answer, each_text_has_a_verdict, one_file,
    one_verdict,
};
pub use operation::{Operation, Param, Params, Role, one_operation, operation_of};
pub use params::{allows, param_of, params_of, role_of};
pub use piece::WrittenCall;
pub use read::read_job;
pub use scope::Scope;
pub use shape::{one_job, parse_job};
pub use terminal::{Gives, Terminal};
