//! The settings of a run: workers, threshold, nodes, the form of the report, the newest language that is read, and how
//! the column file is read.
//!
//! Stands on nothing. Used by `job_runner`, which runs jobs by them, by `columns`, and by whoever asks for a form of
//! the report. What it promises to its users: `Settings::of`, clauses `taken` and `none`: settings are within their
//! limits, and each number within its limits is taken; `Settings::reading`: the language alone changes;
//! `Settings::over`: how the column file is read alone changes; `Settings::adaptive`: whether shorter pieces may be
//! cut.
//! Begin with `settings.rt` and `specs/Settings.antt`.
//!
//! Tested: `driven.rt`, `leaves.rt`, `list_runs.rt`, `lists.rt`, `runs.rt` of `test_engine`; `decimals.rt`, `pieces.rt`
//! of `test_low`; runs of the programs in `tests`.
#![tactic(auto)]

mod settings;
mod table;

pub use settings::{Form, Language, Settings};
pub use table::{Separator, TableSetting};
