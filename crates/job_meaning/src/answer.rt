//! What a job gives.

ghost use Rattle.std.specs.Prelude.{◌≡◌, [], IfNone, IfOk, IfSome};
ghost use Rattle.job_meaning.specs.Walks.{array_of, is_usable, number_of};

use crate::values::Values;
use std::alloc::Global;
use trace::{Fault, NoMemory};

/// What a job gives.
#[derive(Debug, Drop)]
pub enum Answer {
    /// The number that `sum`, `count` or `reduce` with an identity gives.
    Number(i64),
    /// The boolean that a match gives.
    Truth(bool),
    /// A number, or none if the stream has no items (`OptionalLong`).
    Optional(Option<i64>),
    /// The values in encounter order (`LongStream.toArray`).
    Array(Values),
    /// The first fault that the walk over the stream meets.
    Fault(Fault),
    /// The job can't be run: the earlier job at this index, from 0 in file order, gave no number or
    /// array that this job could use.
    Unusable(usize),
}

impl Answer {
    /// Whether a job that names a job with this answer can be run: not if that is a fault, an empty optional or
    /// unusable.
    pub fn is_usable(&self) -> bool
        ensures { result ≡ is_usable self.now }
    {
        match self {
            Answer::Number(_) | Answer::Truth(_) | Answer::Optional(Some(_)) | Answer::Array(_) =>
                true,
            Answer::Optional(None) | Answer::Fault(_) | Answer::Unusable(_) => false,
        }
    }

    /// The number that `$` and the job's name give in later jobs, if the answer is a number or an optional with a
    /// value.
    pub fn number(&self) -> Option<i64>
        ensures { result ≡ number_of self.now }
    {
        match self {
            Answer::Number(number) => Some(*number),
            Answer::Optional(value) => *value,
            Answer::Truth(_) | Answer::Array(_) | Answer::Fault(_) | Answer::Unusable(_) => None,
        }
    }

    /// The values, if the answer is an array.
    pub fn array(&self) -> Option<&Values>
        ensures some { IfSome result (λ values. values.now ≡ array_of self.now) }
        ensures none { IfNone result (array_of self.now ≡ []) }
    {
        match self {
            Answer::Array(values) => Some(values),
            Answer::Number(_)
            | Answer::Truth(_)
            | Answer::Optional(_)
            | Answer::Fault(_)
            | Answer::Unusable(_) => None,
        }
    }

    /// This answer, with an array in one piece at most, so that a caller can go over it as a slice; the values of
    /// several pieces are copied once, 8 bytes each.
    pub fn in_one_piece(self, alloc: Global) -> Result<Answer, NoMemory>
        ensures { IfOk result (λ answer. answer ≡ self) }
    {
        match self {
            Answer::Array(values) => Ok(Answer::Array(values.in_one_piece(alloc)?)),
            other => Ok(other),
        }
    }
}
