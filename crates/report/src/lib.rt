//! The report of the answers, as text and as JSON.
//!
//! Stands on `job_meaning`, whose answers it prints, on `stream_tokens` for the bytes of a name, on `counted_io` for
//! writers, on `itoa` for digits and on `serde_json`. Used by `engine` and `merge_run`. What it promises to them:
//! `text` and `text_by` give exactly the bytes that `specs/Text.antt` defines, `json` and `json_by` the bytes of
//! `specs/Json.antt`, and `write_report` writes them all, or says how many of the first ones went out.
//! `specs/Reports.antt` defines the report of a run, over `columns`, `job_language` and `run_settings`.
//! `specs/AnswerForms.antt` and `answer_forms.rt` say what an answer looks like in either form.
//! Begin with these, then `as_text.rt`, and `draft.rt` for arrays that are printed on threads.
//! Not promised: what a file or a terminal holds afterwards; that is known of writers over memory.
//!
//! Tested: `reports.rt` of `test_engine`; runs of the programs in `tests`.
#![tactic(auto)]

mod answer_forms;
mod as_json;
mod as_text;
mod by_threads;
mod draft;
mod groups;
mod long_json;
mod long_text;
mod numbers;
mod pieces;
mod printable;
mod separator;
mod worked;

pub use as_json::json;
pub use as_text::text;
pub use long_json::json_by;
pub use long_text::text_by;
pub use pieces::{Report, write_report};
pub use printable::a_meaning_has_a_report;
pub use std::alloc::AllocError as NoMemory;
pub use worked::{worked_reports, worked_reports_of_each_kind, worked_versions};
