//! The texts of the jobs of a file.
ghost use Rattle.std.specs.Prelude.{◌≡◌, ◌≢◌, [], Ok, Err, IfOk, IfErr, IfSome, IfNone};
ghost use Rattle.stream_tokens.specs.JobTexts.{job_texts_of, job_texts_within, jobs_after, jobs_of_lines, version_of};
ghost use Rattle.stream_tokens.specs.TextsLeft.{Gives, HasText, IsWhole, lines_at};

use crate::line::{LineKind, kind_of};
use crate::lines_left::LinesLeft;
use crate::text::Text;
use crate::version::{job_lines, version_of};
use std::alloc::{AllocError, AllocFailed, Global};
use std::fmt;
use std::fmt::{Display, Formatter, Write};
use std::marker::Model;
use thiserror::Error;

/// The text of one job.
#[derive(Drop)]
pub struct JobText<'a> {
    /// The number of the line that begins the job, from 1 over all lines of the file.
    pub line: u64,
    /// The lines of the job without their ends, joined by one space.
    pub text: Text<'a>,
}

/// Why the texts of a file can't be listed.
#[derive(Clone, Copy, Debug, PartialEq, Eq, Error)]
pub enum TextFault {
    /// A line that continues a job, with no job above it.
    Syntax { line: u64 },
    /// An allocation failed.
    NoMemory,
}

impl Display for TextFault {
    ghost use Rattle.std.specs.Prelude.{Some};
    ghost use Rattle.stream_tokens.specs.FaultTexts.{text_fault_text};

    ghost output = { λ fault. Some (text_fault_text fault) };

    fn fmt<W: Write>(&self, f: &mut Formatter<W>) -> fmt::Result {
        match self {
            TextFault::Syntax { line } => write!(f, "line {line}: syntax"),
            TextFault::NoMemory => f.write_str("out of memory"),
        }
    }
}

impl From<AllocError> for TextFault {
    ghost use Rattle.stream_tokens.specs.declared.job_text.TextFault.TheVariants.{NoMemory};

    ghost from_gives = { λ _ fault. fault ≡ NoMemory };

    fn from(_: AllocError) -> TextFault {
        TextFault::NoMemory
    }
}

impl<T: Drop> From<AllocFailed<T>> for TextFault {
    ghost use Rattle.stream_tokens.specs.declared.job_text.TextFault.TheVariants.{NoMemory};

    ghost from_gives = { λ _ fault. fault ≡ NoMemory };

    fn from(_: AllocFailed<T>) -> TextFault {
        TextFault::NoMemory
    }
}

/// The texts of the jobs of a file, one after the other. To contracts they are the texts that are left, or one fault
/// and no texts.
#[derive(Drop)]
pub struct JobTexts<'a> {
    lines: LinesLeft<'a>,
}

impl<'a> Model for JobTexts<'a> {
    ghost use Rattle.std.specs.Prelude.{List, Result};
    ghost use Rattle.stream_tokens.specs.JobTexts.{jobs_of_lines};
    ghost use Rattle.stream_tokens.specs.TextsLeft.{lines_at};
    ghost use Rattle.stream_tokens.specs.declared.job_text.JobText.{JobText};
    ghost use Rattle.stream_tokens.specs.declared.job_text.TextFault.{TextFault};

    ghost Value = { Result (List JobText) TextFault };

    ghost view = { λ texts. jobs_of_lines (lines_at texts.lines) };
}

impl<'a> JobTexts<'a> {
    /// All texts of a file; a first line `version 2` is none of them. Takes no memory.
    pub fn of(bytes: &'a [u8]) -> JobTexts<'a>
        ensures { result ≡ job_texts_of bytes.now }
    {
        JobTexts::within(2, bytes)
    }

    /// All texts of a file, if the newest version is this; a first line that says a version is none of them. Takes no
    /// memory.
    pub fn within(newest: u8, bytes: &'a [u8]) -> JobTexts<'a>
        ensures { result ≡ job_texts_within newest bytes.now }
    {
        JobTexts {
            lines: job_lines(newest, bytes),
        }
    }

    /// The next text, or `None` after the last one.
    ///
    /// A text of one line lies in the file; memory is taken for the copy of a text that has more. Takes time
    /// in proportion to the lines up to the next job. After a fault it isn't known what is left.
    pub fn next_text(&mut self, alloc: Global) -> Result<Option<JobText<'a>>, TextFault>
        ensures gives { Gives self.old result self.new }
        ensures memory { IfErr result (λ fault. fault ≡ TextFault.NoMemory → HasText self.old) }
    {
        match next_begun(&mut self.lines)? {
            Some(begun) => Ok(Some(join_lines(alloc, &mut self.lines, begun)?)),
            None => Ok(None),
        }
    }
}

/// The job that the next line begins that isn't skipped, with that line alone.
fn next_begun<'a>(lines: &mut LinesLeft<'a>) -> Result<Option<JobText<'a>>, TextFault>
    ensures some { IfOk result (λ found. IfSome found
        (λ job. jobs_of_lines (lines_at lines.old) ≡ Ok (jobs_after job (lines_at lines.new)))) }
    ensures none { IfOk result (λ found. IfNone found
        ((jobs_of_lines (lines_at lines.old) ≡ Ok []) × (lines_at lines.new ≡ []))) }
    ensures refused { IfErr result (λ fault. (fault ≢ TextFault.NoMemory)
        × (jobs_of_lines (lines_at lines.old) ≡ Err fault)) }
{
    while let Some((line, after)) = lines.first() {
        *lines = after;
        match kind_of(line.bytes) {
            LineKind::Skipped => {}
            LineKind::Continues => return Err(TextFault::Syntax { line: line.number }),
            LineKind::Begins => {
                return Ok(Some(JobText {
                    line: line.number,
                    text: Text::of_line(line.bytes),
                }));
            }
        }
    }
    Ok(None)
}

/// The job with the lines that continue it.
fn join_lines<'a>(
    alloc: Global,
    lines: &mut LinesLeft<'a>,
    begun: JobText<'a>,
) -> Result<JobText<'a>, AllocError>
    ensures { IfOk result (λ job. IsWhole begun.entry (lines_at lines.old) job (lines_at lines.new)) }
{
    let mut job = begun;
    while let Some((line, after)) = lines.first() {
        match kind_of(line.bytes) {
            LineKind::Skipped => {}
            LineKind::Continues => {
                job = JobText {
                    line: job.line,
                    text: job.text.join(alloc, line.bytes)?,
                };
            }
            LineKind::Begins => return Ok(job),
        }
        *lines = after;
    }
    Ok(job)
}

/// The version of the language, 1 or 2, and the texts of the jobs, in the order of the file.
///
/// A file is of version 2 if its first line that isn't skipped is `version 2`, which begins no job.
/// Lines end with LF or CR LF. A blank line and one that begins with `#` or `//` are skipped, one that begins
/// with `.` continues the job above it, and every other line begins a job; blanks before that don't matter.
/// A byte order mark at the start of the file is skipped. Takes memory for the vector, and for the bytes of
/// texts of more than one line; time in proportion to the bytes.
///
/// For other programs: `streamrun` takes one text at a time, by `JobTexts`.
pub fn job_texts<'a>(alloc: Global, bytes: &'a [u8]) -> Result<(u8, Vec<JobText<'a>>), TextFault>
    ensures version { IfOk result (λ found. version_of bytes.now ≡ found.0) }
    ensures texts { IfOk result (λ found. job_texts_of bytes.now ≡ Ok found.1.items) }
    ensures refused { IfErr result
        (λ fault. fault ≢ TextFault.NoMemory → job_texts_of bytes.now ≡ Err fault) }
    ensures memory { IfErr result
        (λ fault. fault ≡ TextFault.NoMemory → HasText (job_texts_of bytes.now)) }
{
    let mut left = JobTexts::of(bytes);
    let mut texts = Vec::new(alloc);
    while let Some(text) = left.next_text(alloc)? {
        texts.push(text)?;
    }
    Ok((version_of(bytes), texts))
}
