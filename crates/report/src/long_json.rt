//! The report as JSON, in which several threads make the text of a long array.
ghost use Rattle.report.specs.AnswerForms.{job_json};
ghost use Rattle.report.specs.Json.{report_json};
ghost use Rattle.report.specs.Named.{IsNamed, IsText};
ghost use Rattle.report.specs.Numbers.{array_object};
ghost use Rattle.report.specs.Pieces.{draft_bytes};
ghost use Rattle.serde_json.specs.Written.{comma_if, compact_text};
ghost use Rattle.std.specs.Prelude.{◌≡◌, ◌++◌, All, length, IfOk, OnOk};

use crate::NoMemory;
use crate::answer_forms::{ARRAY_BEGIN, text_of, write_array_end};
use crate::as_json::{write_comma_if, write_item};
use crate::draft::Draft;
use crate::pieces::Report;
use crate::separator::Separator;
use job_meaning::{Answer, Values};
use std::alloc::Global;
use std::thread::Threads;
use stream_tokens::Bytes;

/// The bytes that `json` gives. The text of a long array is made in pieces by a thread for each worker, as `text_by`
/// makes it.
pub fn json_by<H: Threads + Sync>(
    rt: &H,
    alloc: Global,
    workers: usize,
    names: &[Bytes],
    answers: &[Answer],
) -> Result<Report, NoMemory>
    requires paired { length names.now ≡ length answers.now }
    requires named { All (IsNamed names.now) answers.now }
    requires text { All IsText names.now }
    ensures { IfOk result (λ report. report ≡ report_json names.now answers.now) }
{
    let mut draft = Draft::new(alloc);
    draft.last.extend_from_slice(b"[")?;
    let mut later = false;
    for (name, answer) in names.iter().zip(answers) {
        let job = NamedAnswer {
            name: text_of(name),
            answer,
        };
        write_item_by(rt, workers, &mut draft, later, names, job)?;
        later = true;
    }
    draft.last.extend_from_slice(b"]\n")?;
    draft.finish()
}

/// A job as the report has it.
#[derive(Clone, Copy)]
struct NamedAnswer<'a> {
    name: &'a str,
    answer: &'a Answer,
}

/// Adds the object of a job, after a comma if it is a later one.
fn write_item_by<H: Threads + Sync>(
    rt: &H,
    workers: usize,
    draft: &mut Draft,
    later: bool,
    names: &[Bytes],
    job: NamedAnswer,
) -> Result<(), NoMemory>
    requires named { IsNamed names.now job.answer.now }
    requires text { All IsText names.now }
    ensures { OnOk result (draft_bytes draft.new
        ≡ draft_bytes draft.old
        ++ (comma_if later ++ compact_text (job_json names.now job.entry.name.now job.entry.answer.now))) }
{
    let NamedAnswer { name, answer } = job;
    match answer {
        Answer::Array(values) => {
            write_comma_if(&mut draft.last, later)?;
            write_array_by(rt, workers, draft, name, values)
        }
        _ => write_item(&mut draft.last, later, names, name, answer),
    }
}

/// Adds the object of a job whose answer is an array.
fn write_array_by<H: Threads + Sync>(
    rt: &H,
    workers: usize,
    draft: &mut Draft,
    name: &str,
    values: &Values,
) -> Result<(), NoMemory>
    ensures { OnOk result (draft_bytes draft.new ≡ draft_bytes draft.old ++ array_object name.now values.now) }
{
    draft.last.extend_from_slice(ARRAY_BEGIN)?;
    draft.add_numbers(rt, workers, Separator::Comma, values)?;
    write_array_end(&mut draft.last, name)
}
