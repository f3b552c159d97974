//! Why a file of jobs is refused.
ghost use Rattle.std.specs.Prelude.{◌≡◌, ◌≢◌, Some};
ghost use Rattle.job_language.specs.declared.fault.Cause.TheVariants.{NoMemory};
ghost use Rattle.job_language.specs.FaultCauses.{cause_of, fault_of};
ghost use Rattle.job_language.specs.FaultTexts.{cause_text, job_fault_text};

use lambda_expr::ReadFault;
use std::alloc::{AllocError, AllocFailed};
use std::fmt;
use std::fmt::{Display, Formatter, Write};
use stream_tokens::TextFault;
use thiserror::Error;

/// Why a job is refused. The numbers are stable codes.
#[derive(Clone, Copy, Debug, PartialEq, Eq, Error)]
pub enum Cause {
    /// 1: the text is not in the grammar.
    Syntax,
    /// 2: an earlier job has the name.
    SameName,
    /// 3: no column has the name.
    UnknownColumn,
    /// 4: no earlier job has the name.
    UnknownJob,
    /// 5: the earlier job gives no number.
    NotANumber,
    /// 6: the earlier job gives no array.
    NotAnArray,
    /// 7: a count below 0.
    NegativeCount,
    /// 8: the number is not the identity of the operator.
    NotIdentity,
    /// 9: the operator has no identity.
    NoIdentity,
    /// 10: an operator that is not one of the ten.
    OperatorNotListed,
    /// 11: a range that begins below 0 or ends before it begins.
    BadRange,
    /// 12: more than 256 jobs, 65,536 bytes of a job, 64 bytes of a name, 1,024 values of `of`,
    /// or 32 stages.
    TooLong,
    /// 13: a number or a lambda is refused; never `ReadFault::NoMemory`.
    Expr(ReadFault),
    /// 14: an allocation failed.
    NoMemory,
    /// 15: `onFault` after a terminal that gives no number.
    NotScalar,
    /// 16: a cell in a job whose source isn't one column.
    NoRow,
}

impl Display for Cause {
    ghost output = { λ cause. Some (cause_text cause) };

    fn fmt<W: Write>(&self, f: &mut Formatter<W>) -> fmt::Result {
        match self {
            Cause::Syntax => f.write_str("syntax"),
            Cause::SameName => f.write_str("same name"),
            Cause::UnknownColumn => f.write_str("unknown column"),
            Cause::UnknownJob => f.write_str("unknown job"),
            Cause::NotANumber => f.write_str("not a number"),
            Cause::NotAnArray => f.write_str("not an array"),
            Cause::NegativeCount => f.write_str("negative count"),
            Cause::NotIdentity => f.write_str("not identity"),
            Cause::NoIdentity => f.write_str("no identity"),
            Cause::OperatorNotListed => f.write_str("operator not listed"),
            Cause::BadRange => f.write_str("bad range"),
            Cause::TooLong => f.write_str("too long"),
            Cause::Expr(fault) => write!(f, "{fault}"),
            Cause::NoMemory => f.write_str("out of memory"),
            Cause::NotScalar => f.write_str("not scalar"),
            Cause::NoRow => f.write_str("no row"),
        }
    }
}

impl From<AllocError> for Cause {
    ghost from_gives = { λ _ cause. cause ≡ NoMemory };

    fn from(_error: AllocError) -> Cause {
        Cause::NoMemory
    }
}

impl<T: Drop> From<AllocFailed<T>> for Cause {
    ghost from_gives = { λ _ cause. cause ≡ NoMemory };

    fn from(_error: AllocFailed<T>) -> Cause {
        Cause::NoMemory
    }
}

/// Out of memory is a cause of its own, whatever was read.
impl From<ReadFault> for Cause {
    ghost from_gives = { λ fault cause. cause ≡ cause_of fault };

    fn from(fault: ReadFault) -> Cause {
        match fault {
            ReadFault::NoMemory => Cause::NoMemory,
            _ => Cause::Expr(fault),
        }
    }
}

/// The first job that is refused: the line that begins it, from 1, and why. With `NoMemory` the
/// line is 0.
#[derive(Clone, Copy, Debug, PartialEq, Eq, Error)]
pub struct JobFault {
    pub line: u64,
    pub cause: Cause,
}

impl JobFault {
    /// The cause, at the line that begins its job.
    pub fn at(line: u64, cause: Cause) -> JobFault
        ensures cause { result.cause ≡ cause }
        ensures line { cause ≢ Cause.NoMemory → result.line ≡ line }
        ensures memory { cause ≡ Cause.NoMemory → result.line ≡ 0 }
    {
        match cause {
            Cause::NoMemory => JobFault { line: 0, cause },
            _ => JobFault { line, cause },
        }
    }
}

impl Display for JobFault {
    ghost output = { λ fault. Some (job_fault_text fault) };

    fn fmt<W: Write>(&self, f: &mut Formatter<W>) -> fmt::Result {
        let line = self.line;
        match self.cause {
            Cause::NoMemory => f.write_str("out of memory"),
            cause => write!(f, "line {line}: {cause}"),
        }
    }
}

impl From<AllocError> for JobFault {
    ghost from_gives = { λ _ fault. (fault.cause ≡ NoMemory) × (fault.line ≡ 0) };

    fn from(_error: AllocError) -> JobFault {
        JobFault::at(0, Cause::NoMemory)
    }
}

impl<T: Drop> From<AllocFailed<T>> for JobFault {
    ghost from_gives = { λ _ fault. (fault.cause ≡ NoMemory) × (fault.line ≡ 0) };

    fn from(_error: AllocFailed<T>) -> JobFault {
        JobFault::at(0, Cause::NoMemory)
    }
}

/// A line that belongs to no job is `Syntax` there.
impl From<TextFault> for JobFault {
    ghost from_gives = { λ text fault. fault ≡ fault_of text };

    fn from(fault: TextFault) -> JobFault {
        match fault {
            TextFault::Syntax { line } => JobFault::at(line, Cause::Syntax),
            TextFault::NoMemory => JobFault::at(0, Cause::NoMemory),
        }
    }
}
