//! The report as text: one line per job.
ghost use Rattle.std.specs.Prelude.{◌≡◌, ◌≢◌, ◌++◌, [], All, length, IfOk, OnErr, OnOk};
ghost use Rattle.report.specs.Named.{IsNamed};
ghost use Rattle.report.specs.Text.{line_of, report_text};

use crate::NoMemory;
use crate::answer_forms::write_answer;
use job_meaning::Answer;
use std::alloc::Global;
use stream_tokens::Bytes;

/// The report of answers: one line per job, in the order given.
///
/// The bytes are written once, into one buffer that grows by doubling; numbers are printed on the stack.
/// Without answers nothing is allocated. If an allocation fails, the report is dropped.
///
/// For other programs: `streamrun` makes long arrays on threads, by `text_by`.
pub fn text(alloc: Global, names: &[Bytes], answers: &[Answer]) -> Result<Vec<u8>, NoMemory>
    requires paired { length names.now ≡ length answers.now }
    requires named { All (IsNamed names.now) answers.now }
    ensures ok { IfOk result (λ report. report.items ≡ report_text names.now answers.now) }
    ensures memory { OnErr result (answers.now ≢ []) }
{
    let mut report = Vec::new(alloc);
    for (name, answer) in names.iter().zip(answers) {
        write_line(&mut report, names, name.as_slice(), answer)?;
    }
    Ok(report)
}

/// Appends the line of one job: its name, ` = `, its answer and a line feed.
pub(crate) fn write_line(
    report: &mut Vec<u8>,
    names: &[Bytes],
    name: &[u8],
    answer: &Answer,
) -> Result<(), NoMemory>
    requires { IsNamed names.now answer.now }
    ensures { OnOk result (report.new.items ≡ report.old.items ++ line_of names.now name.now answer.now) }
{
    report.extend_from_slice(name)?;
    report.extend_from_slice(b" = ")?;
    write_answer(report, names, answer)?;
    report.extend_from_slice(b"\n")
}
