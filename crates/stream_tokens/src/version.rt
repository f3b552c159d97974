//! The version of the language in which a file of jobs is written.
ghost use Rattle.std.specs.Prelude.{◌≡◌, ◌⊎◌, ℕ, List};
ghost use Rattle.std.specs.List.{list_all};
ghost use Rattle.stream_tokens.specs.Bytes.{is_blank};
ghost use Rattle.stream_tokens.specs.JobTexts.{begins_blank, job_texts_of, job_texts_within, jobs_of_lines};
ghost use Rattle.stream_tokens.specs.JobTexts.{named_version, said_version, texts_of_lines, version_after_blanks};
ghost use Rattle.stream_tokens.specs.JobTexts.{version_in, version_of, version_within, without_blanks};
ghost use Rattle.stream_tokens.specs.TextsLeft.{lines_at};

use crate::line::{LineKind, kind_of, without_mark};
use crate::lines_left::LinesLeft;
use crate::scanner::is_blank;

/// The bytes from the first on that is no blank.
fn without_blanks(bytes: &[u8]) -> &[u8]
    ensures { result.now ≡ without_blanks bytes.now }
{
    let mut rest = bytes;
    while let [first, more @ ..] = rest {
        if !is_blank(*first) {
            return rest;
        }
        rest = more;
    }
    rest
}

fn begins_blank(bytes: &[u8]) -> bool
    ensures { result ≡ begins_blank bytes.now }
{
    match bytes {
        [first, ..] => is_blank(*first),
        [] => false,
    }
}

/// Whether all bytes are blanks.
fn are_blank(bytes: &[u8]) -> bool
    ensures { result ≡ list_all is_blank bytes.now }
{
    let mut rest = bytes;
    while let [first, more @ ..] = rest {
        if !is_blank(*first) {
            return false;
        }
        rest = more;
    }
    true
}

/// The version, from 2 to the newest, that these bytes name: its digit and blanks.
fn named_version(newest: u8, bytes: &[u8]) -> Option<u8>
    ensures { result ≡ named_version newest bytes.now }
{
    let [digit, rest @ ..] = bytes else {
        return None;
    };
    if !are_blank(rest) {
        return None;
    }
    match *digit {
        b'2' => Some(2),
        b'3' if newest >= 3 => Some(3),
        _ => None,
    }
}

/// The version that these bytes say: `version`, blanks, and its digit.
fn version_after_blanks(newest: u8, bytes: &[u8]) -> Option<u8>
    ensures { result ≡ version_after_blanks newest bytes.now }
{
    if !bytes.starts_with(b"version") {
        return None;
    }
    let rest = &bytes[7..];
    if !begins_blank(rest) {
        return None;
    }
    named_version(newest, without_blanks(rest))
}

/// The version that a line of two tokens says.
fn said_version(newest: u8, line: &[u8]) -> Option<u8>
    ensures { result ≡ said_version newest line.now }
{
    version_after_blanks(newest, without_blanks(line))
}

/// The version that some lines say, and the lines of their jobs.
fn after_version(newest: u8, lines: LinesLeft) -> (u8, LinesLeft)
    ensures version { result.0 ≡ version_in newest (lines_at lines.entry) }
    ensures texts { texts_of_lines newest (lines_at lines.entry) ≡ jobs_of_lines (lines_at result.1) }
{
    let mut left = lines;
    while let Some((line, after)) = left.first() {
        match kind_of(line.bytes) {
            LineKind::Skipped => left = after,
            LineKind::Continues => return (1, left),
            LineKind::Begins => {
                return match said_version(newest, line.bytes) {
                    Some(version) => (version, after),
                    None => (1, left),
                };
            }
        }
    }
    (1, left)
}

/// The lines of the jobs of a file.
#[tactic(auto, unfolding(crate::specs::JobTexts::job_texts_within))]
pub(crate) fn job_lines<'a>(newest: u8, bytes: &'a [u8]) -> LinesLeft<'a>
    ensures { jobs_of_lines (lines_at result) ≡ job_texts_within newest bytes.now }
{
    after_version(newest, LinesLeft::of(without_mark(bytes))).1
}

/// The version of the language in which a file is written: 2 if its first line that isn't skipped is `version 2`, else
/// 1. Reads no further than that line. For other programs: `streamrun` calls `version_within`.
pub fn version_of(bytes: &[u8]) -> u8
    ensures { result ≡ version_of bytes.now }
{
    version_within(2, bytes)
}

/// The version of the language in which a file is written, if the newest one is this: what its first line that isn't
/// skipped says, `version 2` or `version 3`, else 1.
#[tactic(auto, unfolding(crate::specs::JobTexts::version_within))]
pub fn version_within(newest: u8, bytes: &[u8]) -> u8
    ensures { result ≡ version_within newest bytes.now }
{
    after_version(newest, LinesLeft::of(without_mark(bytes))).0
}

/// A file that doesn't say version 3 has one version and the same texts, whether 2 or 3 is the newest version.
pub fn later_versions_are_said()
    ensures { (bytes : List ℕ) → (version_within 3 bytes ≡ 3)
        ⊎ ((version_within 3 bytes ≡ version_of bytes) × (job_texts_within 3 bytes ≡ job_texts_of bytes)) }
{}
