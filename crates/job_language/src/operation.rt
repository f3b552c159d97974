//! The operations of jobs and their names, and the words of the table of operations.
ghost use Rattle.std.specs.Prelude.{◌≡◌};
ghost use Rattle.job_language.specs.declared.operation.Operation.{Operation as operation};
ghost use Rattle.job_language.specs.Table.{name_of, operation_of};

use crate::row::row;

/// An operation of a job; `row` says how it is written, and what a call of it takes.
#[derive(Clone, Copy, PartialEq, Eq)]
pub enum Operation {
    Range,
    RangeClosed,
    Of,
    Empty,
    Column,
    Result,
    Concat,
    Map,
    Filter,
    FlatMap,
    Limit,
    Skip,
    TakeWhile,
    DropWhile,
    Prefix,
    Sorted,
    Distinct,
    Sum,
    Count,
    Min,
    Max,
    FindFirst,
    ToArray,
    Reduce,
    AnyMatch,
    AllMatch,
    NoneMatch,
    SumExact,
    OnFault,
}

/// Where an operation stands in a job.
#[derive(Clone, Copy, PartialEq, Eq)]
pub enum Role {
    /// As the source, or a part of a `concat`.
    Source,
    /// As a source whose parts are sources.
    Concatenation,
    /// After the source.
    Stage,
    /// At the end.
    Terminal,
    /// After the terminal, from version 2 on.
    Fallback,
}

/// What a part between the parentheses of a call is.
#[derive(Clone, Copy, PartialEq, Eq)]
pub enum Param {
    Number,
    /// A string.
    Text,
    /// A number of decimal places, from version 3 on.
    Places,
    /// The name of a job.
    Name,
    /// A lambda from a number to a number.
    Long,
    /// A lambda from a number to a boolean.
    Bool,
    /// A lambda from a number to a stream.
    Stream,
    /// An operator of two numbers.
    Operator,
}

/// What stands between the parentheses of a call.
#[derive(Clone, Copy, PartialEq, Eq)]
pub enum Params {
    Nothing,
    /// Two numbers.
    Bounds,
    /// Any number of numbers.
    Values,
    Number,
    /// A number that isn't negative.
    Count,
    /// The name of a column, and its decimal places or nothing.
    Column,
    /// The name of an earlier job.
    Job,
    /// A lambda from a number to a number.
    Long,
    /// A lambda from a number to a boolean.
    Test,
    /// A lambda from a number to a stream.
    Stream,
    /// An operator, or two positions and an operator.
    Positions,
    /// An operator, or its identity and the operator.
    Identity,
    /// Sources.
    Sources,
}

/// All operations.
const OPERATIONS: [Operation; 29] = [
    Operation::Range,
    Operation::RangeClosed,
    Operation::Of,
    Operation::Empty,
    Operation::Column,
    Operation::Result,
    Operation::Concat,
    Operation::Map,
    Operation::Filter,
    Operation::FlatMap,
    Operation::Limit,
    Operation::Skip,
    Operation::TakeWhile,
    Operation::DropWhile,
    Operation::Prefix,
    Operation::Sorted,
    Operation::Distinct,
    Operation::Sum,
    Operation::Count,
    Operation::Min,
    Operation::Max,
    Operation::FindFirst,
    Operation::ToArray,
    Operation::Reduce,
    Operation::AnyMatch,
    Operation::AllMatch,
    Operation::NoneMatch,
    Operation::SumExact,
    Operation::OnFault,
];

/// The operation with this name.
pub fn operation_of(name: &[u8]) -> Option<Operation>
    ensures { result ≡ operation_of name.now }
{
    for operation in OPERATIONS {
        if name == row(operation).0.as_bytes() {
            return Some(operation);
        }
    }
    None
}

/// One operation at most has a name.
#[tactic(auto, using(crate::proofs::Names::one_name))]
pub fn one_operation()
    ensures { (a b : operation) → name_of a ≡ name_of b → a ≡ b }
{}
