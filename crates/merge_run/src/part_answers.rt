//! The answers of a part of a table, read from its report.
ghost use Rattle.std.specs.Prelude.{◌≡◌, ◌≢◌, ◌++◌, ◌∷◌, ◌<◌, ℕ, All, List, MatchOption, length, IfErr, IfOk};
ghost use Rattle.job_meaning.specs.Longs.{AnswersFit};
ghost use Rattle.job_meaning.specs.declared.answer.Answer.{Answer as meant_answer};
ghost use Rattle.merge_run.specs.declared.part_answers.ReportFault.TheVariants as read_fault;
ghost use Rattle.merge_run.specs.Small.{AreAnswersOf, IsReportOfNone};
ghost use Rattle.report.specs.Json.{report_json};
ghost use Rattle.report.specs.Named.{IsNamed};
ghost use Rattle.serde_json.specs.Written.{comma_if};
ghost use Rattle.stream_tokens.specs.Forms.{IsName};

use crate::objects::{JobObject, take_object};
use crate::taking::after;
use job_meaning::Answer;
use report::{NoMemory, json};
use std::alloc::{AllocFailed, Global};
use stream_tokens::Bytes;

/// Why bytes aren't the report of jobs with these names.
#[derive(Clone, Copy, Debug, PartialEq, Eq)]
pub enum ReportFault {
    /// They are no report as JSON, or not as `streamrun` writes it.
    NoReport,
    /// Another job's answer stands where job `job` has its own, or none.
    OtherJobs { job: usize },
    /// There is an answer after the last job's.
    MoreJobs,
    /// An allocation failed.
    NoMemory,
}

impl From<NoMemory> for ReportFault {
    ghost from_gives = { λ _ fault. fault ≡ read_fault.NoMemory };

    fn from(_: NoMemory) -> ReportFault {
        ReportFault::NoMemory
    }
}

impl<T: Drop> From<AllocFailed<T>> for ReportFault {
    ghost from_gives = { λ _ fault. fault ≡ read_fault.NoMemory };

    fn from(_: AllocFailed<T>) -> ReportFault {
        ReportFault::NoMemory
    }
}

/// The answers whose report as JSON these bytes are, given the names of the jobs.
///
/// The answers that were read are written again, and the bytes are refused if they aren't the report that this gives.
/// So the reader need only read what `report` writes. Takes memory for a second report.
pub fn read_answers(
    alloc: Global,
    names: &[Bytes],
    bytes: &[u8],
) -> Result<Vec<Answer>, ReportFault>
    requires { All IsName names.now }
    ensures written { IfOk result (λ answers. bytes.now ≡ report_json names.now answers.items) }
    ensures paired { IfOk result (λ answers. length names.now ≡ length answers.items) }
    ensures named { IfOk result (λ answers. All (IsNamed names.now) answers.items) }
    ensures small { IfOk result (λ answers. AnswersFit names.now answers.items) }
    ensures other { IfErr result (λ fault. (job : ℕ) → fault ≡ ReportFault.OtherJobs job → job < length names.now) }
    ensures none { IfErr result (λ fault. fault ≢ ReportFault.NoMemory → IsReportOfNone names.now bytes.now) }
{
    let answers = answers_in(alloc, names, bytes)?;
    let written = json(alloc, names, &answers)?;
    if written.as_slice() != bytes {
        return Err(ReportFault::NoReport);
    }
    Ok(answers)
}

/// The answers that these bytes list, which are those of these jobs. Each report of theirs is read.
fn answers_in(alloc: Global, names: &[Bytes], bytes: &[u8]) -> Result<Vec<Answer>, ReportFault>
    requires { All IsName names.now }
    ensures complete { IfOk result (λ answers. (others : List meant_answer) → AreAnswersOf names.now others
        → bytes.now ≡ report_json names.now others → answers.items ≡ others) }
    ensures paired { IfOk result (λ answers. length names.now ≡ length answers.items) }
    ensures named { IfOk result (λ answers. All (IsNamed names.now) answers.items) }
    ensures small { IfOk result (λ answers. AnswersFit names.now answers.items) }
    ensures other { IfErr result (λ fault. (job : ℕ) → fault ≡ ReportFault.OtherJobs job → job < length names.now) }
    ensures none { IfErr result (λ fault. fault ≢ ReportFault.NoMemory → IsReportOfNone names.now bytes.now) }
{
    let Some(mut left) = after(bytes, b"[") else {
        return Err(ReportFault::NoReport);
    };
    let mut answers = Vec::new(alloc);
    let mut later = false;
    for name in names {
        let job = answers.len();
        let Some(begun) = next_object(left, later) else {
            return Err(ended_at(left, ReportFault::OtherJobs { job }));
        };
        let Some(object) = take_object(alloc, names, begun)? else {
            return Err(ReportFault::NoReport);
        };
        if object.name != name.as_slice() {
            return Err(ReportFault::OtherJobs { job });
        }
        left = object.rest;
        answers.push(object.answer)?;
        later = true;
    }
    if left == b"]\n".as_slice() {
        return Ok(answers);
    }
    Err(match next_object(left, later) {
        Some(_) => ReportFault::MoreJobs,
        None => ReportFault::NoReport,
    })
}

/// The object that comes next, without its first bracket, and what follows it.
fn next_object(bytes: &[u8], later: bool) -> Option<&[u8]>
    ensures { MatchOption result ((rest : List ℕ) → bytes.now ≢ comma_if later ++ 123 ∷ rest)
        (λ rest. bytes.now ≡ comma_if later ++ 123 ∷ rest.now) }
{
    if later {
        after(bytes, b",{")
    } else {
        after(bytes, b"{")
    }
}

/// This fault if the report ends here, and else that it is no report.
fn ended_at(bytes: &[u8], fault: ReportFault) -> ReportFault
    ensures { result ≢ ReportFault.NoReport → result ≡ fault }
{
    if bytes == b"]\n".as_slice() {
        return fault;
    }
    ReportFault::NoReport
}
