//! What an answer looks like in each form of the report: its text, and the JSON object of its job.
ghost use Rattle.std.specs.Prelude.{◌≡◌, ◌++◌, All, codes, false, IfOk, OnOk, Some};
ghost use Rattle.std.specs.Fmt.{decimal};
ghost use Rattle.serde_json.specs.Data.{member, no_members, object, put, string};
ghost use Rattle.serde_json.specs.View.{view};
ghost use Rattle.serde_json.specs.Written.{compact_text, has_float};
ghost use Rattle.report.specs.AnswerForms.{answer_text, array_text, fault_json};
ghost use Rattle.report.specs.AnswerForms.{fault_text, job_json, optional_text};
ghost use Rattle.report.specs.Named.{IsNamed, IsText};
ghost use Rattle.report.specs.Numbers.{array_end, array_object};

use crate::NoMemory;
use crate::numbers::{write_number, write_numbers};
use crate::separator::Separator;
use itoa::Buffer;
use job_meaning::{Answer, Values};
use serde_json::{Map, Value, json};
use std::alloc::Global;
use stream_tokens::Bytes;
use trace::Fault;

/// What stands before the numbers of the object of an array.
pub(crate) const ARRAY_BEGIN: &[u8] = b"{\"array\":[";

/// Appends the text of an answer.
pub(crate) fn write_answer(
    report: &mut Vec<u8>,
    names: &[Bytes],
    answer: &Answer,
) -> Result<(), NoMemory>
    requires { IsNamed names.now answer.now }
    ensures { OnOk result (report.new.items ≡ report.old.items ++ answer_text names.now answer.now) }
{
    match answer {
        Answer::Number(value) => write_number(report, *value),
        Answer::Truth(true) => report.extend_from_slice(b"true"),
        Answer::Truth(false) => report.extend_from_slice(b"false"),
        Answer::Optional(Some(value)) => write_present(report, *value),
        Answer::Optional(None) => report.extend_from_slice(b"OptionalLong.empty"),
        Answer::Array(values) => write_array_text(report, values),
        Answer::Fault(fault) => write_fault_text(report, *fault),
        Answer::Unusable(job) => {
            report.extend_from_slice(b"unusable ")?;
            report.extend_from_slice(names[*job].as_slice())
        }
    }
}

/// Appends the object of a job.
pub(crate) fn write_object(
    report: &mut Vec<u8>,
    names: &[Bytes],
    name: &str,
    answer: &Answer,
) -> Result<(), NoMemory>
    requires named { IsNamed names.now answer.now }
    requires text { All IsText names.now }
    ensures { OnOk result
        (report.new.items ≡ report.old.items ++ compact_text (job_json names.now name.now answer.now)) }
{
    match answer {
        Answer::Number(value) => write_member(report, name, "number", Value::from(*value)),
        Answer::Truth(holds) => write_member(report, name, "truth", Value::from(*holds)),
        Answer::Optional(value) => write_member(report, name, "optional", Value::from(*value)),
        Answer::Array(values) => write_array_object(report, name, values),
        Answer::Fault(fault) => write_fault_object(report, name, *fault),
        Answer::Unusable(job) => {
            let unusable = Value::try_from_str(*report.allocator(), text_of(&names[*job]))?;
            write_member(report, name, "unusable", unusable)
        }
    }
}

fn write_count(report: &mut Vec<u8>, count: u64) -> Result<(), NoMemory>
    ensures { OnOk result (report.new.items ≡ report.old.items ++ decimal count) }
{
    report.extend_from_slice(Buffer::new().format(count).as_bytes())
}

fn write_present(report: &mut Vec<u8>, value: i64) -> Result<(), NoMemory>
    ensures { OnOk result (report.new.items ≡ report.old.items ++ optional_text (Some value)) }
{
    report.extend_from_slice(b"OptionalLong[")?;
    write_number(report, value)?;
    report.extend_from_slice(b"]")
}

fn write_array_text(report: &mut Vec<u8>, values: &Values) -> Result<(), NoMemory>
    ensures { OnOk result (report.new.items ≡ report.old.items ++ array_text values.now) }
{
    report.extend_from_slice(b"[")?;
    write_numbers(report, Separator::CommaAndBlank, values)?;
    report.extend_from_slice(b"]")
}

fn write_fault_text(report: &mut Vec<u8>, fault: Fault) -> Result<(), NoMemory>
    ensures { OnOk result (report.new.items ≡ report.old.items ++ fault_text fault) }
{
    report.extend_from_slice(b"fault ")?;
    report.extend_from_slice(fault.kind.name().as_bytes())?;
    report.extend_from_slice(b" stage ")?;
    write_count(report, u64::from(fault.stage))?;
    report.extend_from_slice(b" item ")?;
    match fault.origin {
        Some(place) => write_count(report, place),
        None => report.extend_from_slice(b"-"),
    }
}

/// The text of a name.
pub(crate) fn text_of(name: &Bytes) -> &str
    requires { IsText name.now }
    ensures { result.now ≡ name.now }
{
    match str::from_utf8(name.as_slice()) {
        Ok(text) => text,
        Err(_) => unreachable!(),
    }
}

/// Appends the object of a name and one more member.
fn write_member(report: &mut Vec<u8>, name: &str, key: &str, value: Value) -> Result<(), NoMemory>
    requires { has_float (view value) ≡ false }
    ensures { OnOk result (report.new.items ≡ report.old.items ++ compact_text
        (object (put key.now (view value) (member (codes "name") (string name.now) no_members)))) }
{
    let object = with_name(*report.allocator(), name, key, value)?;
    write_value(report, &object)
}

/// The object of a name and one more member.
fn with_name(alloc: Global, name: &str, key: &str, value: Value) -> Result<Value, NoMemory>
    ensures { IfOk result (λ v. view v
        ≡ object (put key.now (view value) (member (codes "name") (string name.now) no_members))) }
{
    let mut members = Map::new(alloc);
    let text = Value::try_from_str(alloc, name)?;
    serde_json::put(&mut members, alloc, "name", text)?;
    serde_json::put(&mut members, alloc, key, value)?;
    Ok(Value::Object(members))
}

/// Appends the object of a job whose answer is a fault.
fn write_fault_object(report: &mut Vec<u8>, name: &str, fault: Fault) -> Result<(), NoMemory>
    ensures { OnOk result (report.new.items ≡ report.old.items ++ compact_text (fault_json name.now fault)) }
{
    let object = fault_object(*report.allocator(), name, fault)?;
    write_value(report, &object)
}

/// The object of a job whose answer is a fault.
fn fault_object(alloc: Global, name: &str, fault: Fault) -> Result<Value, NoMemory>
    ensures { IfOk result (λ v. view v ≡ fault_json name.now fault) }
{
    let kind = fault.kind.name();
    json!(in alloc; {"fault": kind, "item": fault.origin, "name": name, "stage": fault.stage})
}

/// Appends the object of a job whose answer is an array. No value of a number is built.
fn write_array_object(report: &mut Vec<u8>, name: &str, values: &Values) -> Result<(), NoMemory>
    ensures { OnOk result (report.new.items ≡ report.old.items ++ array_object name.now values.now) }
{
    report.extend_from_slice(ARRAY_BEGIN)?;
    write_numbers(report, Separator::Comma, values)?;
    write_array_end(report, name)
}

/// Appends what stands after the numbers of the object of an array.
pub(crate) fn write_array_end(report: &mut Vec<u8>, name: &str) -> Result<(), NoMemory>
    ensures { OnOk result (report.new.items ≡ report.old.items ++ array_end name.now) }
{
    report.extend_from_slice(b"],\"name\":")?;
    write_text(report, name)?;
    report.extend_from_slice(b"}")
}

/// Appends a text in quotes.
fn write_text(report: &mut Vec<u8>, text: &str) -> Result<(), NoMemory>
    ensures { OnOk result (report.new.items ≡ report.old.items ++ compact_text (string text.now)) }
{
    let value = Value::try_from_str(*report.allocator(), text)?;
    write_value(report, &value)
}

/// Appends the text of a value.
fn write_value(report: &mut Vec<u8>, value: &Value) -> Result<(), NoMemory>
    requires { has_float (view value.now) ≡ false }
    ensures { OnOk result (report.new.items ≡ report.old.items ++ compact_text (view value.now)) }
{
    let text = value.to_string(*report.allocator())?;
    report.extend_from_slice(text.as_bytes())
}
