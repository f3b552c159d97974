//! Why a column file is refused.
ghost use Rattle.std.specs.Prelude.{◌≡◌, Some};
ghost use Rattle.columns.specs.FaultTexts.{fault_text};
ghost use Rattle.columns.specs.Refusals.{number_of_fault};
ghost use Rattle.columns.specs.declared.fault.ColumnFault.TheVariants.{NoMemory};

use std::alloc::AllocError;
use std::fmt;
use std::fmt::{Display, Formatter, Write};
use thiserror::Error;

/// Why a column file gives no columns. Rows and columns count from 1; the header isn't counted.
#[derive(Clone, Copy, Debug, PartialEq, Eq, Error)]
pub enum ColumnFault {
    /// The file has no record at all.
    NoHeader,
    /// Two names of the header are equal.
    SameName,
    /// The row's leftmost cell that spells no number of 64 bits.
    BadNumber { row: usize, column: usize },
    /// The row has more or fewer cells than the header has names.
    RowLength { row: usize },
    /// The header has more than 256 names.
    TooManyColumns,
    /// The file couldn't be read to its end.
    Read,
    /// The memory for the file or its columns was refused.
    NoMemory,
}

impl ColumnFault {
    /// The number of a fault, from 1 to 7.
    pub fn number(&self) -> u8
        ensures { result ≡ number_of_fault self.now }
    {
        match self {
            ColumnFault::NoHeader => 1,
            ColumnFault::SameName => 2,
            ColumnFault::BadNumber { .. } => 3,
            ColumnFault::RowLength { .. } => 4,
            ColumnFault::TooManyColumns => 5,
            ColumnFault::Read => 6,
            ColumnFault::NoMemory => 7,
        }
    }
}

impl Display for ColumnFault {
    ghost output = { λ fault. Some (fault_text fault) };

    fn fmt<W: Write>(&self, f: &mut Formatter<W>) -> fmt::Result {
        match self {
            ColumnFault::NoHeader => f.write_str("columns: no header"),
            ColumnFault::SameName => f.write_str("columns: same name"),
            ColumnFault::BadNumber { row, column } => {
                write!(f, "columns: bad number in row {row} column {column}")
            }
            ColumnFault::RowLength { row } => write!(f, "columns: wrong length of row {row}"),
            ColumnFault::TooManyColumns => f.write_str("columns: more than 256 columns"),
            ColumnFault::Read => f.write_str("columns: read failed"),
            ColumnFault::NoMemory => f.write_str("out of memory"),
        }
    }
}

impl From<AllocError> for ColumnFault {
    ghost from_gives = { λ _ fault. fault ≡ NoMemory };

    fn from(_refused: AllocError) -> ColumnFault {
        ColumnFault::NoMemory
    }
}
