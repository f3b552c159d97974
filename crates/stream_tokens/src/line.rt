//! The lines of a file, and what each is for.
ghost use Rattle.std.specs.Prelude.{◌≡◌, ◌∷◌, ◌<◌, ◌==◌, length, position};
ghost use Rattle.std.specs.Str.Lines.{strip_carriage_return};
ghost use Rattle.stream_tokens.specs.JobTexts.{kind_of, kind_of_solid, without_mark};
ghost use Rattle.stream_tokens.specs.Lines.{lines_of};

use crate::scanner::is_blank;

/// What a line of a job file is for.
#[derive(Clone, Copy)]
pub(crate) enum LineKind {
    /// It is blank or a comment.
    Skipped,
    /// It belongs to the job above it.
    Continues,
    /// It begins a job.
    Begins,
}

/// What a line is for, by its first bytes that are no blanks.
pub(crate) fn kind_of(line: &[u8]) -> LineKind
    ensures { result ≡ kind_of line.now }
{
    let mut rest = line;
    while let [first, more @ ..] = rest {
        if !is_blank(*first) {
            return kind_of_solid(rest);
        }
        rest = more;
    }
    LineKind::Skipped
}

fn kind_of_solid(line: &[u8]) -> LineKind
    ensures { result ≡ kind_of_solid line.now }
{
    if line.starts_with(b"#") || line.starts_with(b"//") {
        LineKind::Skipped
    } else if line.starts_with(b".") {
        LineKind::Continues
    } else {
        LineKind::Begins
    }
}

/// A line of a file, without its end.
#[derive(Clone, Copy)]
pub(crate) struct Line<'a> {
    /// Its number, from 1.
    pub(crate) number: u64,
    pub(crate) bytes: &'a [u8],
}

/// The bytes of a file without the byte order mark at its start.
pub(crate) fn without_mark(bytes: &[u8]) -> &[u8]
    ensures { result.now ≡ without_mark bytes.now }
{
    if bytes.starts_with(b"\xef\xbb\xbf") {
        &bytes[3..]
    } else {
        bytes
    }
}

/// Where the first line feed stands.
fn line_end(bytes: &[u8]) -> Option<usize>
    ensures { result ≡ position (λ b. b == 10) bytes.now }
{
    bytes.iter().position(|byte| *byte == b'\n')
}

/// A line without the one CR at its end.
fn without_return(line: &[u8]) -> &[u8]
    ensures { result.now ≡ strip_carriage_return line.now }
{
    match line.last() {
        Some(b'\r') => &line[..line.len() - 1],
        _ => line,
    }
}

/// The first line, without its end, and the bytes after it.
pub(crate) fn first_line(bytes: &[u8]) -> (&[u8], &[u8])
    requires { 0 < length bytes.now }
    ensures lines { lines_of bytes.now ≡ result.0.now ∷ lines_of result.1.now }
    ensures shorter { length result.1.now < length bytes.now }
{
    match line_end(bytes) {
        Some(end) => (without_return(&bytes[..end]), &bytes[end + 1..]),
        None => (bytes, &bytes[bytes.len()..]),
    }
}
