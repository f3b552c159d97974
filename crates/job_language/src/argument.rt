//! The last part of a call: a column, an earlier job, a lambda, an operator.
ghost use Rattle.std.specs.Prelude.{◌≡◌, ◌<◌, IfOk, Ok, length, option_map};
ghost use Rattle.tables.specs.Table.{cells_named};
ghost use Rattle.lambda_values.specs.Lambda.{body_of};
ghost use Rattle.lambda_expr.specs.CodeWords.{words_in};
ghost use Rattle.job_language.specs.Shapes.{StandsIn, call_in, placed_in};
ghost use Rattle.job_language.specs.Scopes.{scope_of};
ghost use Rattle.job_language.specs.Causes.{first_cause};
ghost use Rattle.job_language.specs.Operators.{is_add_exact, spelled_op};
ghost use Rattle.job_language.specs.Arguments.{argument_text, column_answer, key_answer, key_in, keyed};
ghost use Rattle.job_language.specs.Arguments.{name_answer, argument_of, pair_argument};
ghost use Rattle.job_language.specs.Arguments.{cell_cause, cell_causes, reference_cause, reference_causes};
ghost use Rattle.job_language.specs.Arguments.{lambda_answer};
ghost use Rattle.job_language.specs.Arguments.{IsLambdaRead, IsOperatorRead, IsReadBy, IsArgumentRead};
ghost use Rattle.job_language.specs.Rows.{job as named_job};
ghost use Rattle.job_language.specs.Parts.{argument_in, Answers};

use crate::causes::{inside_quotes, part_of};
use crate::fault::Cause;
use crate::operation::Param;
use crate::operator::{is_add_exact, spelled_op};
use crate::params::param_of;
use crate::piece::WrittenCall;
use crate::scope::{Scope, given};
use crate::terminal::Gives;
use crate::word::{name_in, places_in, string_in};
use job_names::key_of;
use lambda_expr::{Want, read_lambda_within};
use lambda_values::{Body, BoolExpr, InnerExpr, Lambda, LongExpr, PairForm};
use reduce_ops::Op;
use std::alloc::{AllocError, Global};
use stream_tokens::{Bytes, CutText};

/// What the last part of a call is.
#[derive(Drop)]
pub enum Argument<'c> {
    /// A number, or there is no part.
    Nothing,
    /// The cells of a column.
    Column(&'c [i64]),
    /// The name of an earlier job.
    Job(Bytes),
    Number(LongExpr),
    Test(BoolExpr),
    Stream(InnerExpr),
    Operator(Op),
    /// The addition of exact sums.
    ExactSum,
}

/// The column with this key.
fn column_answer<'c>(scope: Scope<'_, 'c>, key: &[u8]) -> Result<Argument<'c>, Cause>
    ensures { Answers argument_in
        (λ r. column_answer (cells_named key.now (scope_of scope.entry).columns) ≡ r) result }
{
    match scope.columns.get(key) {
        Some(cells) => Ok(Argument::Column(cells)),
        None => Err(Cause::UnknownColumn),
    }
}

/// The column by its name in quotes and its number of decimal places.
fn read_key<'c>(
    alloc: Global,
    scope: Scope<'_, 'c>,
    string: Option<&[u8]>,
    places: Option<u8>,
) -> Result<Argument<'c>, Cause>
    ensures { let key = keyed (option_map (λ w. w.now) string.entry) places in
        Answers argument_in (λ r. key_answer (scope_of scope.entry) key ≡ r) result }
{
    let Some(string) = string else {
        return Ok(Argument::Nothing);
    };
    let Some(places) = places else {
        return Ok(Argument::Nothing);
    };
    let key = key_of(alloc, inside_quotes(string), places)?;
    column_answer(scope, key.as_slice())
}

/// The column that the parts of a call name.
fn read_column<'c>(
    alloc: Global,
    scope: Scope<'_, 'c>,
    text: &CutText,
    call: &WrittenCall,
) -> Result<Argument<'c>, Cause>
    requires stands { StandsIn (words_in text.now) call.now }
    requires parts { 0 < length call.now.ends.items }
    ensures { let key = key_in (call_in (words_in text.now) call.now).parts in
        Answers argument_in (λ r. key_answer (scope_of scope.entry) key ≡ r) result }
{
    let name = part_of(text, call, 0);
    match call.ends.as_slice().len() {
        1 => read_key(alloc, scope, string_in(&name), Some(0)),
        2 => {
            let places = places_in(&part_of(text, call, 1));
            read_key(alloc, scope, string_in(&name), places)
        }
        _ => Ok(Argument::Nothing),
    }
}

fn copy_name<'c>(alloc: Global, name: &[u8]) -> Result<Argument<'c>, AllocError>
    ensures { IfOk result (λ last. argument_in last ≡ named_job name.now) }
{
    let bytes = name.to_vec(alloc)?;
    Ok(Argument::Job(Bytes::from(bytes)))
}

/// The earlier job with this name, if it gives an array.
fn read_name<'c>(alloc: Global, scope: Scope, name: Option<&[u8]>) -> Result<Argument<'c>, Cause>
    ensures { let w = option_map (λ w. w.now) name.entry in
        Answers argument_in (λ r. name_answer (scope_of scope.entry) w ≡ r) result }
{
    let Some(name) = name else {
        return Ok(Argument::Nothing);
    };
    match given(scope.jobs, name) {
        None => Err(Cause::UnknownJob),
        Some(Gives::Array) => Ok(copy_name(alloc, name)?),
        Some(_) => Err(Cause::NotAnArray),
    }
}

/// What a lambda of two parameters is, by the form of its body.
fn pair_argument<'c>(form: PairForm) -> Result<Argument<'c>, Cause>
    ensures { Answers argument_in (λ r. pair_argument form ≡ r) result }
{
    let op = match form {
        PairForm::First => Op::First,
        PairForm::Second => Op::Last,
        PairForm::Sum => Op::Sum,
        PairForm::Product => Op::Product,
        PairForm::Min => Op::Min,
        PairForm::Max => Op::Max,
        PairForm::And => Op::And,
        PairForm::Or => Op::Or,
        PairForm::Xor => Op::Xor,
        PairForm::ExactSum => return Ok(Argument::ExactSum),
        PairForm::Other => return Err(Cause::OperatorNotListed),
    };
    Ok(Argument::Operator(op))
}

fn argument_of<'c>(body: Body) -> Result<Argument<'c>, Cause>
    ensures { Answers argument_in (λ r. argument_of (body_of body) ≡ r) result }
{
    match body {
        Body::Long(expr) => Ok(Argument::Number(expr)),
        Body::Bool(test) => Ok(Argument::Test(test)),
        Body::Stream(inner) => Ok(Argument::Stream(inner)),
        Body::Pair(form) => pair_argument(form),
    }
}

fn reference_cause(gives: Option<Gives>) -> Option<Cause>
    ensures { result ≡ reference_cause gives }
{
    match gives {
        None => Some(Cause::UnknownJob),
        Some(Gives::Number) => None,
        Some(_) => Some(Cause::NotANumber),
    }
}

/// Why references are refused, the first of them in order of writing.
fn references_cause(scope: Scope, names: &[Bytes]) -> Option<Cause>
    ensures { result ≡ first_cause (reference_causes (scope_of scope.entry) names.now) }
{
    for name in names {
        if let Some(cause) = reference_cause(given(scope.jobs, name.as_slice())) {
            return Some(cause);
        }
    }
    None
}

/// Why a cell of the column with this name is refused.
fn cell_cause(scope: Scope, name: &[u8]) -> Option<Cause>
    ensures { let s = scope_of scope.entry in result ≡ cell_cause s.rows (cells_named name.now s.columns) }
{
    if !scope.rows {
        return Some(Cause::NoRow);
    }
    match scope.columns.get(name) {
        Some(_) => None,
        None => Some(Cause::UnknownColumn),
    }
}

/// Why cells of columns with these names are refused, the first of them in order of writing.
fn cells_cause(scope: Scope, names: &[Bytes]) -> Option<Cause>
    ensures { result ≡ first_cause (cell_causes (scope_of scope.entry) names.now) }
{
    for name in names {
        if let Some(cause) = cell_cause(scope, name.as_slice()) {
            return Some(cause);
        }
    }
    None
}

/// A lambda whose references and cells are checked.
fn checked<'c>(alloc: Global, scope: Scope, lambda: Lambda) -> Result<Argument<'c>, Cause>
    ensures { Answers argument_in
        (λ r. lambda_answer (scope_of scope.entry) (Ok (body_of lambda.body)) ≡ r) result }
{
    let names = lambda.names(alloc)?;
    if let Some(cause) = references_cause(scope, &names) {
        return Err(cause);
    }
    let cells = lambda.cells(alloc)?;
    match cells_cause(scope, &cells) {
        Some(cause) => Err(cause),
        None => argument_of(lambda.body),
    }
}

/// A lambda of this want.
fn read_lambda_part<'c>(
    alloc: Global,
    scope: Scope,
    text: &CutText,
    want: Want,
) -> Result<Argument<'c>, Cause>
    ensures { Answers argument_in (IsLambdaRead (scope_of scope.entry) text.now.bytes want) result }
{
    let lambda = read_lambda_within(alloc, text, want, scope.version >= 3)?;
    checked(alloc, scope, lambda)
}

/// An operator: named by its words, or a lambda.
fn read_operator<'c>(
    alloc: Global,
    scope: Scope<'_, 'c>,
    text: &CutText,
) -> Result<Argument<'c>, Cause>
    ensures { let ws = words_in text.now in Answers argument_in
        (IsOperatorRead (is_add_exact ws) (spelled_op ws) (scope_of scope.entry) text.now.bytes) result }
{
    if is_add_exact(text) {
        return Ok(Argument::ExactSum);
    }
    match spelled_op(text) {
        Some(Some(op)) => Ok(Argument::Operator(op)),
        Some(None) => Err(Cause::OperatorNotListed),
        None => read_lambda_part(alloc, scope, text, Want::Pair),
    }
}

/// A call, by what the row says of its last part.
fn read_by<'c>(
    alloc: Global,
    scope: Scope<'_, 'c>,
    param: Param,
    text: &CutText,
    call: &WrittenCall,
) -> Result<Argument<'c>, Cause>
    requires stands { StandsIn (words_in text.now) call.now }
    requires parts { 0 < length call.now.ends.items }
    ensures { let c = placed_in (words_in text.now) call.now in Answers argument_in
        (IsReadBy param (scope_of scope.entry) c.call.parts (argument_text text.now c).bytes) result }
{
    let last = part_of(text, call, call.ends.as_slice().len() - 1);
    match param {
        Param::Number => Ok(Argument::Nothing),
        Param::Text | Param::Places => read_column(alloc, scope, text, call),
        Param::Name => read_name(alloc, scope, name_in(&last)),
        Param::Long => read_lambda_part(alloc, scope, &last, Want::Long),
        Param::Bool => read_lambda_part(alloc, scope, &last, Want::Bool),
        Param::Stream => read_lambda_part(alloc, scope, &last, Want::Stream),
        Param::Operator => read_operator(alloc, scope, &last),
    }
}

/// The last part of a call, by what the row says of it, or a column by all its parts; a call without parts has none.
pub fn read_argument<'c>(
    alloc: Global,
    scope: Scope<'_, 'c>,
    text: &CutText,
    call: &WrittenCall,
) -> Result<Argument<'c>, Cause>
    requires { StandsIn (words_in text.now) call.now }
    ensures { Answers argument_in (IsArgumentRead (scope_of scope.entry) text.now
        (placed_in (words_in text.now) call.now)) result }
{
    let count = call.ends.as_slice().len();
    if count == 0 {
        return Ok(Argument::Nothing);
    }
    let param = param_of(call.operation, count, count - 1);
    read_by(alloc, scope, param, text, call)
}
