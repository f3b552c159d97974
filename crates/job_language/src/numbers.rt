//! The numbers of a call, and what they are refused for.
ghost use Rattle.std.specs.Prelude.{◌≡◌, ◌≢◌, ◌++◌, length, IfErr, IfOk, None, Some};
ghost use Rattle.job_language.specs.declared.fault.Cause.TheVariants.{NoMemory};
ghost use Rattle.job_language.specs.Table.{params_of};
ghost use Rattle.lambda_expr.specs.CodeWords.{words_in};
ghost use Rattle.job_language.specs.Shapes.{StandsIn, call_in};
ghost use Rattle.job_language.specs.Causes.{first_cause, when, count_of, number_cause, number_causes};
ghost use Rattle.job_language.specs.Causes.{number_in, numbers_of, values_cause, early_causes};

use crate::causes::{part_of, when};
use crate::fault::Cause;
use crate::operation::{Param, Params};
use crate::params::{param_of, params_of};
use crate::piece::WrittenCall;
use lambda_expr::{ReadFault, number_read};
use std::alloc::Global;
use stream_tokens::CutText;

/// How many values `of` may have.
const MAX_VALUES: usize = 1024;

/// Whether a call has too many values.
fn count_cause(call: &WrittenCall) -> Option<Cause>
    ensures { result ≡ count_of (params_of call.now.operation) (length call.now.ends.items) }
{
    match params_of(call.operation) {
        Params::Values => when(call.ends.as_slice().len() > MAX_VALUES, Cause::TooLong),
        _ => None,
    }
}

/// Puts the number that a part is, if the row says so, after the others.
fn add_number(numbers: &mut Vec<i64>, param: Param, part: &CutText) -> Result<(), Cause>
    ensures ok { IfOk result (λ _. (number_cause param (words_in part.now) ≡ None)
        × (numbers.new.items ≡ numbers.old.items ++ number_in param (words_in part.now))) }
    ensures refused { IfErr result (λ cause. cause ≢ NoMemory
        → number_cause param (words_in part.now) ≡ Some cause) }
{
    if param != Param::Number {
        return Ok(());
    }
    match number_read(part) {
        Some(number) => {
            numbers.push(number)?;
            Ok(())
        }
        None => Err(Cause::Expr(ReadFault::LiteralTooLarge)),
    }
}

/// The numbers of a call.
fn read_numbers(alloc: Global, text: &CutText, call: &WrittenCall) -> Result<Vec<i64>, Cause>
    requires { StandsIn (words_in text.now) call.now }
    ensures ok { let c = call_in (words_in text.now) call.now in
        IfOk result (λ numbers. (first_cause (number_causes c.operation (length c.parts) 0 c.parts) ≡ None)
        × (numbers.items ≡ numbers_of c.operation (length c.parts) 0 c.parts)) }
    ensures refused { let c = call_in (words_in text.now) call.now in
        IfErr result (λ cause. cause ≢ NoMemory
        → first_cause (number_causes c.operation (length c.parts) 0 c.parts) ≡ Some cause) }
{
    let mut numbers = Vec::new(alloc);
    let count = call.ends.as_slice().len();
    for place in 0..count {
        let param = param_of(call.operation, count, place);
        add_number(&mut numbers, param, &part_of(text, call, place))?;
    }
    Ok(numbers)
}

/// Why the numbers of a call are refused.
fn values_cause(params: Params, numbers: &[i64]) -> Option<Cause>
    ensures { result ≡ values_cause params numbers.now }
{
    match params {
        Params::Count => match numbers {
            [count] => when(*count < 0, Cause::NegativeCount),
            _ => None,
        },
        Params::Positions => match numbers {
            [from, to] => when(*from < 0 || *to < *from, Cause::BadRange),
            _ => None,
        },
        _ => None,
    }
}

/// The numbers of a call, each read once. Takes memory for them if there are any.
pub fn read_values(alloc: Global, text: &CutText, call: &WrittenCall) -> Result<Vec<i64>, Cause>
    requires { StandsIn (words_in text.now) call.now }
    ensures ok { let c = call_in (words_in text.now) call.now in
        IfOk result (λ numbers. (first_cause (early_causes c) ≡ None)
        × (numbers.items ≡ numbers_of c.operation (length c.parts) 0 c.parts)) }
    ensures refused { let c = call_in (words_in text.now) call.now in
        IfErr result (λ cause. cause ≢ NoMemory → first_cause (early_causes c) ≡ Some cause) }
{
    if let Some(cause) = count_cause(call) {
        return Err(cause);
    }
    let numbers = read_numbers(alloc, text, call)?;
    match values_cause(params_of(call.operation), &numbers) {
        Some(cause) => Err(cause),
        None => Ok(numbers),
    }
}
