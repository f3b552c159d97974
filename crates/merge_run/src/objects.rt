//! The object of a job, read from its text.
ghost use Rattle.std.specs.Prelude.{◌≡◌, ◌≢◌, ◌<◌, ◌^◌, ℕ, ℤ, All, List, IfOk, IfSome, IfNone, Some, true};
ghost use Rattle.std.specs.Prelude.{[], Bool, Option, length, slice_index_or};
ghost use Rattle.job_meaning.specs.Longs.{AllFit, AnswerFits, FaultFits, IsFirst, OptionFits};
ghost use Rattle.job_meaning.specs.declared.answer.Answer.{Answer as meant_answer};
ghost use Rattle.job_meaning.specs.declared.answer.Answer.TheVariants as said;
ghost use Rattle.lambda_values.specs.FaultTexts.{kind_text};
ghost use Rattle.lambda_values.specs.declared.fault.FaultKind.{FaultKind as meant_kind};
ghost use Rattle.merge_run.specs.Objects.{IsObject, IsSaid, array_then, fault_then, named_then, object_then};
ghost use Rattle.merge_run.specs.Objects.{optional_then, said_then, truth_then};
ghost use Rattle.merge_run.specs.Small.{IsHeld};
ghost use Rattle.merge_run.specs.Taken.{IsTaken, is_plain};
ghost use Rattle.report.specs.Named.{IsNamed};
ghost use Rattle.trace.specs.declared.item.Fault.{Fault as meant_fault};

use crate::numbers::take_numbers;
use crate::taking::{after, take_count, take_last_number, take_place, take_text};
use job_meaning::{Answer, Values};
use lambda_values::FaultKind;
use report::NoMemory;
use std::alloc::Global;
use stream_tokens::Bytes;
use trace::Fault;

/// What the object of a job says, and what follows it.
#[derive(Drop)]
pub(crate) struct JobObject<'a> {
    pub(crate) name: &'a [u8],
    pub(crate) answer: Answer,
    pub(crate) rest: &'a [u8],
}

/// The object of a job as a report writes it, given the names of all jobs. Its first bracket stands before the bytes.
pub(crate) fn take_object<'a>(
    alloc: Global,
    names: &[Bytes],
    bytes: &'a [u8],
) -> Result<Option<JobObject<'a>>, NoMemory>
    requires { All (λ name. is_plain name ≡ true) names.now }
    ensures complete { IfOk result (λ found. (name : List ℕ) (a : meant_answer) (rest : List ℕ)
        → is_plain name ≡ true → IsHeld names.now a → bytes.now ≡ object_then names.now name a rest
        → IsObject name a rest found) }
    ensures named { IfOk result (λ found. IfSome found (λ object. IsNamed names.now object.answer)) }
    ensures small { IfOk result (λ found. IfSome found (λ object. AnswerFits names.now object.answer)) }
{
    if let Some(begun) = after(bytes, b"\"array\":[") {
        return take_array(alloc, begun);
    }
    if let Some(begun) = after(bytes, b"\"fault\":") {
        return Ok(take_fault(begun));
    }
    Ok(take_named(names, bytes))
}

/// The object of a job whose answer is an array, from the first number on.
fn take_array<'a>(alloc: Global, bytes: &'a [u8]) -> Result<Option<JobObject<'a>>, NoMemory>
    ensures complete { IfOk result (λ found. (name : List ℕ) (values : List ℤ) (rest : List ℕ) → is_plain name ≡ true
        → AllFit values → bytes.now ≡ array_then name values rest
        → IsObject name (said.Array values) rest found) }
    ensures array { IfOk result (λ found. IfSome found
        (λ object. (values : List ℤ) × (object.answer ≡ said.Array values) × AllFit values)) }
{
    let Some((values, left)) = take_numbers(alloc, bytes)? else {
        return Ok(None);
    };
    let Some((name, left)) = take_text(left, b",\"name\":\"") else {
        return Ok(None);
    };
    let Some(rest) = after(left, b"}") else {
        return Ok(None);
    };
    let answer = Answer::Array(Values::from_vec(values)?);
    Ok(Some(JobObject { name, answer, rest }))
}

/// The object of a job whose answer is a fault, from the kind of fault on.
fn take_fault(bytes: &[u8]) -> Option<JobObject<'_>>
    ensures complete { (name : List ℕ) (f : meant_fault) (rest : List ℕ) → is_plain name ≡ true → FaultFits f
        → f.stage < 2 ^ 32 → bytes.now ≡ fault_then name f rest → IsObject name (said.Fault f) rest result }
    ensures fault { IfSome result (λ object. (f : meant_fault) × (object.answer ≡ said.Fault f) × FaultFits f) }
{
    let (kind, left) = take_text(bytes, b"\"")?;
    let (origin, left) = take_place(after(left, b",\"item\":")?)?;
    let (name, left) = take_text(left, b",\"name\":\"")?;
    let (stage, left) = take_count(after(left, b",\"stage\":")?)?;
    let rest = after(left, b"}")?;
    let answer = Answer::Fault(Fault {
        kind: kind_of(kind)?,
        stage: u32::try_from(stage).ok()?,
        origin,
    });
    Some(JobObject { name, answer, rest })
}

/// The kind of fault with this name.
fn kind_of(name: &[u8]) -> Option<FaultKind>
    ensures { (kind : meant_kind) → name.now ≡ kind_text kind → result ≡ Some kind }
{
    for kind in KINDS {
        if kind.name().as_bytes() == name {
            return Some(kind);
        }
    }
    None
}

/// All kinds of faults.
const KINDS: [FaultKind; 4] = [
    FaultKind::DivideByZero,
    FaultKind::Overflow,
    FaultKind::OutOfArray,
    FaultKind::SourceTooLong,
];

/// The object of a job that begins with the job's name.
fn take_named<'a>(names: &[Bytes], bytes: &'a [u8]) -> Option<JobObject<'a>>
    requires { All (λ name. is_plain name ≡ true) names.now }
    ensures complete { (name : List ℕ) (a : meant_answer) (rest : List ℕ) → is_plain name ≡ true → IsSaid a
        → IsHeld names.now a → bytes.now ≡ named_then names.now name a rest → IsObject name a rest result }
    ensures named { IfSome result (λ object. IsNamed names.now object.answer) }
    ensures small { IfSome result (λ object. AnswerFits names.now object.answer) }
{
    let (name, left) = take_text(bytes, b"\"name\":\"")?;
    let (answer, rest) = take_answer(names, left)?;
    Some(JobObject { name, answer, rest })
}

/// The answer that stands after the name of its job, and what follows the job's object.
fn take_answer<'a>(names: &[Bytes], bytes: &'a [u8]) -> Option<(Answer, &'a [u8])>
    requires { All (λ name. is_plain name ≡ true) names.now }
    ensures complete { (a : meant_answer) (rest : List ℕ) → IsSaid a → IsHeld names.now a
        → bytes.now ≡ said_then names.now a rest → IsTaken a rest result }
    ensures named { IfSome result (λ taken. IsNamed names.now taken.0) }
    ensures small { IfSome result (λ taken. AnswerFits names.now taken.0) }
{
    if let Some(number) = after(bytes, b",\"number\":") {
        let (number, rest) = take_last_number(number)?;
        return Some((Answer::Number(number), rest));
    }
    if let Some(optional) = after(bytes, b",\"optional\":") {
        return take_optional(optional);
    }
    if let Some(truth) = after(bytes, b",\"truth\":") {
        return take_truth(truth);
    }
    let (name, left) = take_text(bytes, b",\"unusable\":\"")?;
    let rest = after(left, b"}")?;
    Some((Answer::Unusable(place_of(names, name)?), rest))
}

/// The optional number up to the bracket that ends its object, and what follows it.
fn take_optional(bytes: &[u8]) -> Option<(Answer, &[u8])>
    ensures complete { (o : Option ℤ) (rest : List ℕ) → OptionFits o → bytes.now ≡ optional_then o rest
        → IsTaken (said.Optional o) rest result }
    ensures small { IfSome result (λ taken. (o : Option ℤ) × (taken.0 ≡ said.Optional o) × OptionFits o) }
{
    if let Some(rest) = after(bytes, b"null}") {
        return Some((Answer::Optional(None), rest));
    }
    let (number, rest) = take_last_number(bytes)?;
    Some((Answer::Optional(Some(number)), rest))
}

/// The boolean up to the bracket that ends its object, and what follows it.
fn take_truth(bytes: &[u8]) -> Option<(Answer, &[u8])>
    ensures complete { (b : Bool) (rest : List ℕ) → bytes.now ≡ truth_then b rest → IsTaken (said.Truth b) rest result }
    ensures truth { IfSome result (λ taken. (b : Bool) × (taken.0 ≡ said.Truth b)) }
{
    if let Some(rest) = after(bytes, b"true}") {
        return Some((Answer::Truth(true), rest));
    }
    Some((Answer::Truth(false), after(bytes, b"false}")?))
}

/// The first place of a name among these.
fn place_of(names: &[Bytes], name: &[u8]) -> Option<usize>
    ensures within { IfSome result (λ place. place < length names.now) }
    ensures first { IfSome result (IsFirst names.now) }
    ensures same { IfSome result (λ place. slice_index_or names.now place [] ≡ name.now) }
    ensures none { IfNone result ((i : ℕ) → i < length names.now → slice_index_or names.now i [] ≢ name.now) }
{
    names.iter().position(|other| other.as_slice() == name)
}
