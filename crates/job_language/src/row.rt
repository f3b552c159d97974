//! The table of operations: what each takes between its parentheses, and what it builds.
ghost use Rattle.std.specs.Prelude.{◌≡◌, ◌≢◌, ℤ, List, ◌∷◌, []};
ghost use Rattle.lambda_values.specs.Term.{truth_of};
ghost use Rattle.job_language.specs.Jobs.{terminal_of};
ghost use Rattle.job_language.specs.Rows.{nothing, exact, from_identity};
ghost use Rattle.job_language.specs.Rows.{test as test_argument, operator as operator_argument};
ghost use Rattle.job_language.specs.Table.{name_of, role_of, params_of, built_of};
ghost use Rattle.job_language.specs.Parts.{argument_in, part_in, answer_in};

use crate::argument::Argument;
use crate::fault::Cause;
use crate::job::{JobStage, PlainSource};
use crate::operation::{Operation, Params, Role};
use crate::params::{params_of, role_of};
use crate::terminal::Terminal;
use find_ops::FindTerminal;
use lambda_values::BoolExpr;
use reduce_ops::Op;
use slice_ops::Slice;
use trace::Stage;

/// What a call of a job builds.
#[derive(Drop)]
pub enum CallPart<'c> {
    Source(PlainSource<'c>),
    Stage(JobStage),
    Terminal(Terminal),
    /// The number that the job gives after a fault.
    Fallback(i64),
}

/// The row of an operation: how it is written, where it stands, and what stands between its parentheses.
pub(crate) fn row(operation: Operation) -> (&'static str, Role, Params)
    ensures name { result.0.now ≡ name_of operation }
    ensures role { result.1 ≡ role_of operation }
    ensures params { result.2 ≡ params_of operation }
{
    match operation {
        Operation::Range => ("range", Role::Source, Params::Bounds),
        Operation::RangeClosed => ("rangeClosed", Role::Source, Params::Bounds),
        Operation::Of => ("of", Role::Source, Params::Values),
        Operation::Empty => ("empty", Role::Source, Params::Nothing),
        Operation::Column => ("column", Role::Source, Params::Column),
        Operation::Result => ("result", Role::Source, Params::Job),
        Operation::Concat => ("concat", Role::Concatenation, Params::Sources),
        Operation::Map => ("map", Role::Stage, Params::Long),
        Operation::Filter => ("filter", Role::Stage, Params::Test),
        Operation::FlatMap => ("flatMap", Role::Stage, Params::Stream),
        Operation::Limit => ("limit", Role::Stage, Params::Count),
        Operation::Skip => ("skip", Role::Stage, Params::Count),
        Operation::TakeWhile => ("takeWhile", Role::Stage, Params::Test),
        Operation::DropWhile => ("dropWhile", Role::Stage, Params::Test),
        Operation::Prefix => ("prefix", Role::Stage, Params::Positions),
        Operation::Sorted => ("sorted", Role::Stage, Params::Nothing),
        Operation::Distinct => ("distinct", Role::Stage, Params::Nothing),
        Operation::Sum => ("sum", Role::Terminal, Params::Nothing),
        Operation::Count => ("count", Role::Terminal, Params::Nothing),
        Operation::Min => ("min", Role::Terminal, Params::Nothing),
        Operation::Max => ("max", Role::Terminal, Params::Nothing),
        Operation::FindFirst => ("findFirst", Role::Terminal, Params::Nothing),
        Operation::ToArray => ("toArray", Role::Terminal, Params::Nothing),
        Operation::Reduce => ("reduce", Role::Terminal, Params::Identity),
        Operation::AnyMatch => ("anyMatch", Role::Terminal, Params::Test),
        Operation::AllMatch => ("allMatch", Role::Terminal, Params::Test),
        Operation::NoneMatch => ("noneMatch", Role::Terminal, Params::Test),
        Operation::SumExact => ("sumExact", Role::Terminal, Params::Nothing),
        Operation::OnFault => ("onFault", Role::Fallback, Params::Number),
    }
}

/// What a call without parts builds.
fn of_nothing<'c>(operation: Operation, numbers: Vec<i64>) -> Result<CallPart<'c>, Cause>
    requires other { operation ≢ Operation.Of }
    requires empty { numbers.items ≡ [] }
    ensures { answer_in part_in result ≡ built_of operation nothing [] }
{
    let terminal = match operation {
        Operation::Empty => return Ok(CallPart::Source(PlainSource::Values(numbers))),
        Operation::Sorted => return Ok(CallPart::Stage(JobStage::Sorted)),
        Operation::Distinct => return Ok(CallPart::Stage(JobStage::Distinct)),
        Operation::Sum => Terminal::Sum,
        Operation::Count => Terminal::Count,
        Operation::Min => Terminal::Min,
        Operation::Max => Terminal::Max,
        Operation::FindFirst => Terminal::Find(FindTerminal::First),
        Operation::ToArray => Terminal::ToArray,
        Operation::SumExact => Terminal::ExactSum,
        _ => return Err(Cause::Syntax),
    };
    Ok(CallPart::Terminal(terminal))
}

/// What a call of one number builds.
fn of_number<'c>(operation: Operation, number: i64) -> Result<CallPart<'c>, Cause>
    requires { operation ≢ Operation.Of }
    ensures { answer_in part_in result ≡ built_of operation nothing (number ∷ []) }
{
    let count = number.unsigned_abs();
    match operation {
        Operation::Limit => Ok(CallPart::Stage(JobStage::Slice(Slice::Limit(count)))),
        Operation::Skip => Ok(CallPart::Stage(JobStage::Slice(Slice::Skip(count)))),
        Operation::OnFault => Ok(CallPart::Fallback(number)),
        _ => Err(Cause::Syntax),
    }
}

/// What a call of numbers alone builds.
fn of_numbers<'c>(operation: Operation, numbers: Vec<i64>) -> Result<CallPart<'c>, Cause>
    ensures { answer_in part_in result ≡ built_of operation nothing numbers.items }
{
    if operation == Operation::Of {
        return Ok(CallPart::Source(PlainSource::Values(numbers)));
    }
    match numbers.as_slice() {
        [] => of_nothing(operation, numbers),
        [number] => of_number(operation, *number),
        [from, to] => match operation {
            Operation::Range => Ok(CallPart::Source(PlainSource::Range {
                from: *from,
                to: *to,
            })),
            Operation::RangeClosed => {
                Ok(CallPart::Source(PlainSource::RangeClosed {
                    from: *from,
                    to: *to,
                }))
            }
            _ => Err(Cause::Syntax),
        },
        _ => Err(Cause::Syntax),
    }
}

/// What a call of a lambda from a number to a boolean builds.
fn of_test<'c>(operation: Operation, test: BoolExpr) -> Result<CallPart<'c>, Cause>
    ensures { (ks : List ℤ)
        → answer_in part_in result ≡ built_of operation (test_argument (truth_of test)) ks }
{
    let find = match operation {
        Operation::Filter => return Ok(CallPart::Stage(JobStage::Item(Stage::Filter(test)))),
        Operation::TakeWhile => return Ok(CallPart::Stage(JobStage::Slice(Slice::TakeWhile(test)))),
        Operation::DropWhile => return Ok(CallPart::Stage(JobStage::Slice(Slice::DropWhile(test)))),
        Operation::AnyMatch => FindTerminal::AnyMatch(test),
        Operation::AllMatch => FindTerminal::AllMatch(test),
        Operation::NoneMatch => FindTerminal::NoneMatch(test),
        _ => return Err(Cause::Syntax),
    };
    Ok(CallPart::Terminal(Terminal::Find(find)))
}

/// Refuses a number that isn't the identity of an operator.
fn from_identity(identity: Option<i64>, number: i64, terminal: Terminal) -> Result<Terminal, Cause>
    ensures { answer_in terminal_of result
        ≡ from_identity identity number (terminal_of terminal) }
{
    match identity {
        None => Err(Cause::NoIdentity),
        Some(identity) if identity == number => Ok(terminal),
        Some(_) => Err(Cause::NotIdentity),
    }
}

/// What a call of an operator, after these numbers, builds.
fn of_operator<'c>(operation: Operation, numbers: &[i64], op: Op) -> Result<CallPart<'c>, Cause>
    ensures { answer_in part_in result ≡ built_of operation (operator_argument op) numbers.now }
{
    match operation {
        Operation::Prefix => {
            let positions = match numbers {
                [] => None,
                [from, to] => Some((from.unsigned_abs(), to.unsigned_abs())),
                _ => return Err(Cause::Syntax),
            };
            Ok(CallPart::Stage(JobStage::Prefix { positions, op }))
        }
        Operation::Reduce => match numbers {
            [] => Ok(CallPart::Terminal(Terminal::Reduce(op))),
            [number] => {
                let identity = *number;
                let terminal = Terminal::ReduceFrom { identity, op };
                Ok(CallPart::Terminal(from_identity(op.identity(), identity, terminal)?))
            }
            _ => Err(Cause::Syntax),
        },
        _ => Err(Cause::Syntax),
    }
}

/// What a call of the addition of exact sums, after these numbers, builds. `reduce` takes it after 0 alone.
fn of_exact_sum<'c>(operation: Operation, numbers: &[i64]) -> Result<CallPart<'c>, Cause>
    ensures { answer_in part_in result ≡ built_of operation exact numbers.now }
{
    match operation {
        Operation::Prefix => Err(Cause::OperatorNotListed),
        Operation::Reduce => match numbers {
            [number] => {
                let terminal = from_identity(Some(0), *number, Terminal::ExactSum)?;
                Ok(CallPart::Terminal(terminal))
            }
            _ => Err(Cause::OperatorNotListed),
        },
        _ => Err(Cause::Syntax),
    }
}

/// What a call of this last part, after these numbers, builds.
pub fn built<'c>(
    operation: Operation,
    numbers: Vec<i64>,
    last: Argument<'c>,
) -> Result<CallPart<'c>, Cause>
    ensures { answer_in part_in result
        ≡ built_of operation (argument_in last.entry) numbers.items }
{
    match last {
        Argument::Nothing => of_numbers(operation, numbers),
        Argument::Column(cells) => match operation {
            Operation::Column => Ok(CallPart::Source(PlainSource::Column(cells))),
            _ => Err(Cause::Syntax),
        },
        Argument::Job(name) => match operation {
            Operation::Result => Ok(CallPart::Source(PlainSource::Result(name))),
            _ => Err(Cause::Syntax),
        },
        Argument::Number(expr) => match operation {
            Operation::Map => Ok(CallPart::Stage(JobStage::Item(Stage::Map(expr)))),
            _ => Err(Cause::Syntax),
        },
        Argument::Stream(inner) => match operation {
            Operation::FlatMap => Ok(CallPart::Stage(JobStage::Item(Stage::FlatMap(inner)))),
            _ => Err(Cause::Syntax),
        },
        Argument::Test(test) => of_test(operation, test),
        Argument::Operator(op) => of_operator(operation, &numbers, op),
        Argument::ExactSum => of_exact_sum(operation, &numbers),
    }
}
