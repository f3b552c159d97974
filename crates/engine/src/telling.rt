//! One line on standard error for each fault of a run, and the status of the program.

ghost use Rattle.engine.specs.FaultTexts.{line_of};
ghost use Rattle.engine.specs.Statuses.{status_after, status_of};
ghost use Rattle.std.specs.Io.KnownBytes.{Appends};
ghost use Rattle.std.specs.Prelude.{◌≡◌, OnOk};

use crate::fault::EngineFault;
use columns::ColumnFault;
use job_language::Cause;
use std::io;
use std::io::Write;

/// Writes the fault's line. After an error some bytes of it may have gone out.
///
/// A clause can't say that a line goes out at all, since a `Display` may answer an error; the runs of the program show
/// it.
pub fn write_line<W: Write>(fault: &EngineFault, writer: &mut W) -> io::Result<()>
    ensures { OnOk result (Appends (W.contents writer.old) (W.contents writer.new) (line_of fault.now)) }
{
    writeln!(writer, "streamrun: {fault}")
}

/// Writes the fault's line and answers the program's exit status: 1 for input that is refused,
/// 3 for out of memory, 4 for a file that can't be read or written.
///
/// If the line can't be written, it is skipped: the status still says what went wrong.
pub fn tell<W: Write>(fault: &EngineFault, writer: &mut W) -> u8
    ensures { result ≡ status_of fault.now }
{
    let _ = write_line(fault, writer);
    match fault {
        EngineFault::Columns(ColumnFault::NoMemory) => 3,
        EngineFault::Columns(ColumnFault::Read) => 4,
        EngineFault::Columns(_) => 1,
        EngineFault::Jobs(refused) if refused.cause == Cause::NoMemory => 3,
        EngineFault::Jobs(_) => 1,
        EngineFault::NoMemory => 3,
        EngineFault::JobsRead | EngineFault::Write { .. } => 4,
    }
}

/// The program's exit status after a run: 0 unless it answered a fault, whose line is then written.
pub fn status_after<W: Write>(answer: &Result<(), EngineFault>, writer: &mut W) -> u8
    ensures { result ≡ status_after answer.now }
{
    match answer {
        Ok(()) => 0,
        Err(fault) => tell(fault, writer),
    }
}
