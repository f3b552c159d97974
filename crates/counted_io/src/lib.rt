//! Readers and writers that count what failed.
//!
//! Stands on std and on `thiserror`. `columns` reads column files by it, `report` writes reports, and the run reads its
//! job file.
//!
//! A contract can't say when a file fails, but it can compare two counts: `read_all_of`, clause `failed`, and
//! `write_all_of`, clause `failed`, report a fault of the reader or the writer only if the count rose. Of a
//! reader or a writer over memory they also say which bytes were read (`bytes`) and which went out (`ok`, `err`).
//!
//! Begin with `specs/FailureCounts.antt`, then `counted_read.rt` and `counted_write.rt`.
//!
//! Not promised: what a file gives, and that an interrupted call is tried again; the tests show that it is.
//!
//! Tested: `runs.rt`, `shown.rt`, `writers.rt` of `test_engine`; `decimals.rt`, `messages.rt`, `pieces.rt`,
//! `readers.rt` of `test_low`; runs of the programs in `tests`.
#![tactic(auto)]

mod counted_read;
mod counted_write;
mod failure_count;

pub use counted_read::{Counted, CountedRead, ReadAllFault, read_all_of, read_up_to};
pub use counted_write::{CountedOut, CountedWrite, WriteFault, write_all_of};
