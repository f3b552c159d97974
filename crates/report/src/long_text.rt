//! The report as text, in which several threads make the text of a long array.
//!
//! What takes time in a long array is the text of its numbers after the first one. Each thread makes the text of a part
//! of them, into a piece of its own.
ghost use Rattle.report.specs.AnswerForms.{array_text};
ghost use Rattle.report.specs.Named.{IsNamed};
ghost use Rattle.report.specs.Pieces.{draft_bytes};
ghost use Rattle.report.specs.Text.{line_of, report_text};
ghost use Rattle.std.specs.Prelude.{◌≡◌, ◌≢◌, ◌++◌, [], All, codes, length, IfOk, OnErr, OnOk};

use crate::NoMemory;
use crate::as_text::write_line;
use crate::draft::Draft;
use crate::pieces::Report;
use crate::separator::Separator;
use job_meaning::{Answer, Values};
use std::alloc::Global;
use std::thread::Threads;
use stream_tokens::Bytes;

/// The bytes that `text` gives. The text of a long array is made in pieces by a thread for each worker.
///
/// The pieces aren't copied. With one worker, and for arrays of few numbers, no thread is started. If a thread, or
/// memory for a piece, is refused, the text is made as `text` makes it.
pub fn text_by<H: Threads + Sync>(
    rt: &H,
    alloc: Global,
    workers: usize,
    names: &[Bytes],
    answers: &[Answer],
) -> Result<Report, NoMemory>
    requires paired { length names.now ≡ length answers.now }
    requires named { All (IsNamed names.now) answers.now }
    ensures ok { IfOk result (λ report. report ≡ report_text names.now answers.now) }
    ensures memory { OnErr result (answers.now ≢ []) }
{
    let mut draft = Draft::new(alloc);
    for (name, answer) in names.iter().zip(answers) {
        write_line_by(rt, workers, &mut draft, names, name.as_slice(), answer)?;
    }
    draft.finish()
}

fn write_line_by<H: Threads + Sync>(
    rt: &H,
    workers: usize,
    draft: &mut Draft,
    names: &[Bytes],
    name: &[u8],
    answer: &Answer,
) -> Result<(), NoMemory>
    requires { IsNamed names.now answer.now }
    ensures { OnOk result (draft_bytes draft.new ≡ draft_bytes draft.old ++ line_of names.now name.now answer.now) }
{
    match answer {
        Answer::Array(values) => write_array_line(rt, workers, draft, name, values),
        _ => write_line(&mut draft.last, names, name, answer),
    }
}

/// The line of an array.
fn write_array_line<H: Threads + Sync>(
    rt: &H,
    workers: usize,
    draft: &mut Draft,
    name: &[u8],
    values: &Values,
) -> Result<(), NoMemory>
    ensures { OnOk result (draft_bytes draft.new ≡ draft_bytes draft.old
        ++ (name.now ++ codes " = " ++ array_text values.now ++ codes "\n")) }
{
    draft.last.extend_from_slice(name)?;
    draft.last.extend_from_slice(b" = [")?;
    draft.add_numbers(rt, workers, Separator::CommaAndBlank, values)?;
    draft.last.extend_from_slice(b"]\n")
}
