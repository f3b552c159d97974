//! The report as JSON: one array on one line, with an object per job.
ghost use Rattle.std.specs.Prelude.{◌≡◌, ◌++◌, All, length, IfOk, OnOk};
ghost use Rattle.serde_json.specs.Written.{comma_if, compact_text};
ghost use Rattle.report.specs.AnswerForms.{job_json};
ghost use Rattle.report.specs.Json.{report_json};
ghost use Rattle.report.specs.Named.{IsNamed, IsText};

use crate::NoMemory;
use crate::answer_forms::{text_of, write_object};
use job_meaning::Answer;
use std::alloc::Global;
use stream_tokens::Bytes;

/// The report of answers as JSON: an object per job, in the order given, and then a line feed.
///
/// The names are texts in UTF-8, as in every job file. The numbers of an array are written as `text` writes them. For
/// every other job the object is built first, and dropped when its text is written.
///
/// For other programs: `streamrun` makes long arrays on threads, by `json_by`.
pub fn json(alloc: Global, names: &[Bytes], answers: &[Answer]) -> Result<Vec<u8>, NoMemory>
    requires paired { length names.now ≡ length answers.now }
    requires named { All (IsNamed names.now) answers.now }
    requires text { All IsText names.now }
    ensures { IfOk result (λ report. report.items ≡ report_json names.now answers.now) }
{
    let mut report = Vec::new(alloc);
    report.extend_from_slice(b"[")?;
    let mut later = false;
    for (name, answer) in names.iter().zip(answers) {
        write_item(&mut report, later, names, text_of(name), answer)?;
        later = true;
    }
    report.extend_from_slice(b"]\n")?;
    Ok(report)
}

/// Appends the object of a job, after a comma if it is a later one.
pub(crate) fn write_item(
    report: &mut Vec<u8>,
    later: bool,
    names: &[Bytes],
    name: &str,
    answer: &Answer,
) -> Result<(), NoMemory>
    requires named { IsNamed names.now answer.now }
    requires text { All IsText names.now }
    ensures { OnOk result (report.new.items
        ≡ report.old.items ++ (comma_if later ++ compact_text (job_json names.now name.now answer.now))) }
{
    write_comma_if(report, later)?;
    write_object(report, names, name, answer)
}

/// Appends a comma, if an object stands before.
pub(crate) fn write_comma_if(report: &mut Vec<u8>, later: bool) -> Result<(), NoMemory>
    ensures { OnOk result (report.new.items ≡ report.old.items ++ comma_if later) }
{
    if later {
        return report.extend_from_slice(b",");
    }
    Ok(())
}
