//! What the table of operations says of an operation: where it stands, how many arguments it takes, and what each is.

ghost use Rattle.std.specs.Prelude.{◌≡◌, ◌<◌};
ghost use Rattle.job_language.specs.Causes.{version_of_call};
ghost use Rattle.job_language.specs.Table.{role_of, params_of, allows, param_of, version_of_operation};

use crate::operation::{Operation, Param, Params, Role};
use crate::row::row;

/// The first version of the language that has an operation.
pub fn version_of_operation(operation: Operation) -> u8
    ensures { result ≡ version_of_operation operation }
{
    match operation {
        Operation::OnFault => 2,
        Operation::SumExact | Operation::Sorted | Operation::Distinct => 3,
        _ => 1,
    }
}

/// The first version of the language that has a call of an operation with this number of parts.
pub fn version_of_call(operation: Operation, count: usize) -> u8
    ensures { result ≡ version_of_call operation count }
{
    match operation {
        Operation::Column if count == 2 => 3,
        _ => version_of_operation(operation),
    }
}

/// Where an operation stands in a job.
pub fn role_of(operation: Operation) -> Role
    ensures { result ≡ role_of operation }
{
    row(operation).1
}

/// What stands between the parentheses of a call.
pub fn params_of(operation: Operation) -> Params
    ensures { result ≡ params_of operation }
{
    row(operation).2
}

/// Whether a call may have this number of parts.
pub fn allows(operation: Operation, count: usize) -> bool
    ensures { result ≡ allows operation count }
{
    match params_of(operation) {
        Params::Nothing => count == 0,
        Params::Bounds => count == 2,
        Params::Values => true,
        Params::Number
        | Params::Count
        | Params::Job
        | Params::Long
        | Params::Test
        | Params::Stream => count == 1,
        Params::Positions => count == 1 || count == 3,
        Params::Column | Params::Identity => count == 1 || count == 2,
        Params::Sources => false,
    }
}

/// What part `place` of a call of `count` parts is.
pub fn param_of(operation: Operation, count: usize, place: usize) -> Param
    requires { place < count }
    ensures { result ≡ param_of operation count place }
{
    match params_of(operation) {
        Params::Nothing
        | Params::Bounds
        | Params::Values
        | Params::Number
        | Params::Count
        | Params::Sources => Param::Number,
        Params::Column => {
            if place == 0 {
                Param::Text
            } else {
                Param::Places
            }
        }
        Params::Job => Param::Name,
        Params::Long => Param::Long,
        Params::Test => Param::Bool,
        Params::Stream => Param::Stream,
        Params::Positions | Params::Identity => {
            if place + 1 < count {
                Param::Number
            } else {
                Param::Operator
            }
        }
    }
}
