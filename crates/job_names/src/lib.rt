//! The names that stand in the jobs of a file: the columns of a table that its jobs can name, and how they look at
//! them.
//!
//! Stands on `stream_tokens`, whose texts of jobs it reads. Used by `engine`, which looks at the named columns alone
//! where the settings ask for it, by `merge_run`, which reads jobs over them, and by the readers of lambdas and jobs.
//! What it promises to them: `key_of`, clause without a name, and `places_of`, `value`: the name of a column that is
//! looked at with decimal places, and the numbers of places; `names_in`, clause without a name: the keys of what stands
//! between double quotes, in order.
//! Begin with `specs/ColumnKeys.antt` and `specs/JobNames.antt`, then `names.rt`.
//! Not promised: that a text is a job, and that a name is the name of a column.
//!
//! Tested: `calls.rt`, `decimals.rt` of `test_low`; runs of the programs in `tests`.
#![tactic(auto)]

mod keys;
mod names;

pub use keys::{key_of, places_of};
pub use names::names_in;
