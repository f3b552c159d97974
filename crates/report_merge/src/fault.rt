//! Why answers can't be merged.

ghost use Rattle.std.specs.Prelude.{◌≡◌, Some};
ghost use Rattle.report_merge.specs.FaultTexts.{merge_fault_text};
ghost use Rattle.report_merge.specs.declared.fault.MergeFault.TheVariants.{NoMemory};

use std::alloc::{AllocError, AllocFailed};
use std::fmt;
use std::fmt::{Display, Formatter, Write};
use thiserror::Error;

/// Why answers of parts can't be merged.
#[derive(Clone, Copy, Debug, PartialEq, Eq, Error)]
pub enum MergeFault {
    /// There is no part.
    NoPart,
    /// The answers of the part at this index, from 0, can't be merged with those of the parts before it: this job, from
    /// 0, is the first for which they can't. Of a single part: it hasn't one answer for each job.
    Part { part: usize, job: usize },
    /// There are more than 2^62 rows.
    TooManyRows,
    /// An allocation failed.
    NoMemory,
}

impl Display for MergeFault {
    ghost output = { λ fault. Some (merge_fault_text fault) };

    fn fmt<W: Write>(&self, f: &mut Formatter<W>) -> fmt::Result {
        match self {
            MergeFault::NoPart => f.write_str("there is no report"),
            MergeFault::Part { part, job } => {
                write!(f, "the answer of part {part} can't be of job {job}")
            }
            MergeFault::TooManyRows => f.write_str("more rows than a table has"),
            MergeFault::NoMemory => f.write_str("out of memory"),
        }
    }
}

impl From<AllocError> for MergeFault {
    ghost from_gives = { λ _ fault. fault ≡ NoMemory };

    fn from(_error: AllocError) -> MergeFault {
        MergeFault::NoMemory
    }
}

impl<T: Drop> From<AllocFailed<T>> for MergeFault {
    ghost from_gives = { λ _ fault. fault ≡ NoMemory };

    fn from(_error: AllocFailed<T>) -> MergeFault {
        MergeFault::NoMemory
    }
}
