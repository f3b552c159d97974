//! Tables in memory: columns of numbers, by their names.
//!
//! Stands on nothing. Used by `columns`, which reads them, and by each crate that looks a cell up. What it promises to
//! them: `Columns::get`, clause without a name: the cells of the first column with a name.
//! Begin with `specs/Table.antt`, then `table.rt`.
//! Not promised: that columns have one length or different names; `columns` promises it of what it reads.
//!
//! Tested: `leaves.rt`, `plans.rt`, `refusals.rt` of `test_engine`; `decimal_jobs.rt` of `test_low`; runs of the
//! programs in `tests`.
#![tactic(auto)]

mod table;

pub use table::{Column, Columns};
