//! Why a run fails, and what a message says of it.
ghost use Rattle.std.specs.Prelude.{Some};
ghost use Rattle.engine.specs.FaultTexts.{fault_text};

use columns::ColumnFault;
use job_language::{Cause, JobFault};
use std::fmt;
use std::fmt::{Display, Formatter, Write};
use thiserror::Error;

/// Why a run gives no report, or only a part of it. Unless it is `Write`, nothing was written.
///
/// The numbers are stable; there is no 6 and no 7. The text is the program's line on standard error, without the
/// program's name.
#[derive(Clone, Copy, Debug, PartialEq, Eq, Error)]
pub enum EngineFault {
    /// 1: the column file is refused, a read of it failed, or memory for it was refused.
    Columns(ColumnFault),
    /// 2: a job of the file is refused, or memory ran out while the file was checked.
    Jobs(JobFault),
    /// 3: a read of the job file failed.
    JobsRead,
    /// 4: an allocation failed.
    NoMemory,
    /// 5: a write failed; the first `written` bytes of the report went out, and no others.
    Write { written: u64 },
}

impl Display for EngineFault {
    ghost output = { λ fault. Some (fault_text fault) };

    fn fmt<W: Write>(&self, f: &mut Formatter<W>) -> fmt::Result {
        match self {
            EngineFault::Columns(fault) => write!(f, "{fault}"),
            EngineFault::Jobs(refused) => match refused.cause {
                Cause::NoMemory => write!(f, "{refused}"),
                _ => write!(f, "jobs: {refused}"),
            },
            EngineFault::JobsRead => f.write_str("jobs: read failed"),
            EngineFault::NoMemory => f.write_str("out of memory"),
            EngineFault::Write { written } => write!(f, "write failed after {written} bytes"),
        }
    }
}
