//! The line on standard error, and the exit status.

ghost use Rattle.std.specs.Io.KnownBytes.{Appends};
ghost use Rattle.std.specs.Prelude.{◌≡◌, OnOk};
ghost use Rattle.merge_run.specs.FaultTexts.{line_of, path_of};
ghost use Rattle.merge_run.specs.Run.{status_after, status_of, status_of_merge};

use crate::fault::ReportMergeFault;
use crate::running::{MergeAsked, MergeRunFault};
use std::io;
use std::io::Write;

/// The program's exit status after a run: 0 unless it answered a fault, whose line is then written. If that can't be
/// written, it is skipped.
pub(crate) fn status_after<W: Write>(
    answer: &Result<(), MergeRunFault>,
    asked: &MergeAsked<'_>,
    writer: &mut W,
) -> u8
    ensures { result ≡ status_after answer.now }
{
    match answer {
        Ok(()) => 0,
        Err(fault) => {
            let _ = write_line(fault, asked, writer);
            status_of(fault)
        }
    }
}

/// 4 for a file that can't be read or written, 3 for out of memory, 1 for input that is refused.
fn status_of(fault: &MergeRunFault) -> u8
    ensures { result ≡ status_of fault.now }
{
    match fault {
        MergeRunFault::JobsRead | MergeRunFault::ReportRead { .. } => 4,
        MergeRunFault::Write { .. } => 4,
        MergeRunFault::Merge(fault) => status_of_merge(fault),
        MergeRunFault::NoMemory => 3,
    }
}

/// The status if there is no merged report.
fn status_of_merge(fault: &ReportMergeFault) -> u8
    ensures { result ≡ status_of_merge fault.now }
{
    match fault {
        ReportMergeFault::NoMemory => 3,
        ReportMergeFault::Jobs { .. }
        | ReportMergeFault::Unmergeable { .. }
        | ReportMergeFault::NoPart
        | ReportMergeFault::Part { .. }
        | ReportMergeFault::TooManyRows => 1,
    }
}

/// Writes the fault's line: the file that it is about, if it is about one, and its message. After an error some bytes
/// of it may have gone out.
fn write_line<W: Write>(
    fault: &MergeRunFault,
    asked: &MergeAsked<'_>,
    writer: &mut W,
) -> io::Result<()>
    ensures { OnOk result (Appends (W.contents writer.old) (W.contents writer.new) (line_of asked.now fault.now)) }
{
    match fault {
        MergeRunFault::JobsRead => writeln!(writer, "streamrun-merge: {}: read failed", asked.jobs),
        MergeRunFault::ReportRead { part } => {
            let path = path_of(asked, *part);
            writeln!(writer, "streamrun-merge: {path}: read failed")
        }
        MergeRunFault::Merge(fault) => write_merge_line(fault, asked, writer),
        MergeRunFault::Write { written } => {
            writeln!(
                writer,
                "streamrun-merge: write failed after {written} bytes"
            )
        }
        MergeRunFault::NoMemory => writeln!(writer, "streamrun-merge: out of memory"),
    }
}

/// Writes the line of a fault of the merge.
fn write_merge_line<W: Write>(
    fault: &ReportMergeFault,
    asked: &MergeAsked<'_>,
    writer: &mut W,
) -> io::Result<()>
    ensures { OnOk result (Appends (W.contents writer.old) (W.contents writer.new)
        (line_of asked.now (MergeRunFault.Merge fault.now))) }
{
    match fault {
        ReportMergeFault::Jobs { .. } | ReportMergeFault::Unmergeable { .. } => {
            writeln!(writer, "streamrun-merge: {}: {fault}", asked.jobs)
        }
        ReportMergeFault::NoPart | ReportMergeFault::TooManyRows | ReportMergeFault::NoMemory => {
            writeln!(writer, "streamrun-merge: {fault}")
        }
        ReportMergeFault::Part { part, cause } => {
            let path = path_of(asked, *part);
            writeln!(writer, "streamrun-merge: {path}: {cause}")
        }
    }
}

/// The path of the report with this index.
fn path_of<'a>(asked: &MergeAsked<'a>, part: usize) -> &'a str
    ensures { result.now ≡ path_of asked.now part }
{
    asked.reports.get(part).copied().unwrap_or("")
}
