//! Column files: tables with columns of integers and of decimals, read into columns of integers or refused.
//!
//! Stands on `csv`, whose own definition of the records of a text is cited here, on `counted_io`, whose readers it
//! reads from, on `run_settings`, whose separators stand between cells, on `job_names`, whose keys name columns, and on
//! `tables`. It is for the job reader, which takes a job's cells from `Columns::get`, and for the program. What it
//! promises to them: `read_columns_as`, clause `cells`: the columns that the bytes give in a form, names and cells in
//! order, or the first fault with its row and column; clause `read`: a failed read is reported only if one was counted.
//! `read_columns` and, on threads, `read_columns_by` are its default. `read_decimal`, clauses `spells` and `only`: what
//! a cell with decimal places is.
//! Laws: by default a table of integers is read (`by_default_tables_are_as_before`), and else what a cut to the columns
//! that are looked at leaves (`named_columns_are_what_a_cut_leaves`).
//!
//! Begin with `specs/Cells.antt` (bytes to columns), then `specs/Table.antt`, `specs/Refusals.antt` and
//! `specs/Cell.antt` (the grammar of one number), `specs/TableForms.antt` (other forms) and `specs/Decimals.antt`; of
//! the code with `reading.rt`. `records.rt` alone opens a `csv` reader; `text_rows.rt` reads rows without it, numbers
//! by `numbers.rt`, decimals by `text_decimals.rt` and other cells by `text_cell.rt`, and `pieces.rt` reads them on
//! threads, with `put_pieces.rt`.
//!
//! Not promised: anything of the bytes that a file or a pipe holds, and that there is memory.
//!
//! Tested: `runs.rt`, `shown.rt` of `test_engine`; `decimals.rt`, `messages.rt`, `pieces.rt`, `readers.rt` of
//! `test_low`; runs of the programs in `tests`.
#![tactic(auto)]

mod by_records;
mod cell;
mod decimals;
mod digits;
mod fault;
mod header;
mod laws;
mod layout;
mod numbers;
mod pieces;
mod put_cell;
mod put_pieces;
mod reading;
mod records;
mod round_bytes;
mod rounds;
mod rows;
mod team;
mod text_cell;
mod text_decimals;
mod text_rows;

pub use cell::read_cell;
pub use decimals::read_decimal;
pub use fault::ColumnFault;
pub use laws::{by_default_tables_are_as_before, named_columns_are_what_a_cut_leaves};
pub use layout::TableForm;
pub use reading::{read_columns, read_columns_as, read_columns_by};
pub use tables::Columns;
