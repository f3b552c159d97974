//! A report in pieces, and writing it.
ghost use Rattle.counted_io.specs.FailureCounts.{HasRisen};
ghost use Rattle.report.specs.Pieces.{bytes_of};
ghost use Rattle.std.specs.Io.KnownBytes.{Appends};
ghost use Rattle.std.specs.Prelude.{◌≡◌, ◌≢◌, ◌+◌, ◌^◌, ◌<◌, ◌≤◌, ◌++◌, [], ℕ, length};
ghost use Rattle.std.specs.Prelude.{take, IfErr, IfOk, IfSome, IfNone, OnErr, OnOk};

use crate::NoMemory;
use counted_io::{CountedWrite, WriteFault, write_all_of};
use std::alloc::Global;
use std::marker::Model;

/// The bytes of a report, built whole. Contracts see one list of bytes.
///
/// They are stored in pieces, so that what several threads have made isn't copied.
#[derive(Drop)]
pub struct Report {
    pieces: Vec<Vec<u8>>,
    last: Vec<u8>,
    ghost counted: { length (bytes_of pieces.items last.items) < 2 ^ 64 },
}

impl Model for Report {
    ghost use Rattle.std.specs.Prelude.{List, ℕ};
    ghost use Rattle.report.specs.Pieces.{bytes_of};

    ghost Value = { List ℕ };

    ghost view = { λ report. bytes_of report.pieces.items report.last.items };
}

impl Report {
    /// A report of the pieces and of what comes after them, if a `u64` counts its bytes, as it does of all that fits
    /// into a memory.
    pub(crate) fn of_pieces(pieces: Vec<Vec<u8>>, last: Vec<u8>) -> Result<Report, NoMemory>
        ensures ok { IfOk result (λ report. report ≡ bytes_of pieces.items last.items) }
        ensures err { OnErr result (pieces.items ≢ []) }
    {
        match count(&pieces, &last) {
            Some(_) => Ok(Report { pieces, last }),
            None => Err(NoMemory),
        }
    }
}

/// How many bytes the pieces and the last one have, if a `u64` counts them.
fn count(pieces: &[Vec<u8>], last: &[u8]) -> Option<u64>
    ensures some { IfSome result (λ count. length (bytes_of pieces.now last.now) ≡ count) }
    ensures none { IfNone result (pieces.now ≢ []) }
{
    let mut count = last.len() as u64;
    for piece in pieces {
        count = count.checked_add(piece.len() as u64)?;
    }
    Some(count)
}

/// Writes the whole report, as `write_all_of` writes bytes.
pub fn write_report<W: CountedWrite>(writer: &mut W, report: &Report) -> Result<(), WriteFault>
    ensures ok { OnOk result (Appends (W.contents writer.old) (W.contents writer.new) report.now) }
    ensures err { IfErr result (λ fault. Appends (W.contents writer.old) (W.contents writer.new)
        (take fault.written report.now)) }
    ensures short { IfErr result (λ fault. fault.written < length report.now) }
    ensures failed { OnErr result (HasRisen (W.failures writer.old) (W.failures writer.new)) }
    ensures counts { W.failures writer.old ≤ W.failures writer.new }
{
    let mut written = 0;
    for piece in report.pieces.as_slice() {
        if let Err(fault) = write_after(writer, piece, written) {
            return Err(fault);
        }
        written += piece.len() as u64;
    }
    write_after(writer, &report.last, written)
}

/// Writes the rest of the bytes of a report, after the first `written` ones.
fn write_after<W: CountedWrite>(
    writer: &mut W,
    bytes: &[u8],
    written: u64,
) -> Result<(), WriteFault>
    requires { written + length bytes.now < 2 ^ 64 }
    ensures ok { OnOk result (Appends (W.contents writer.old) (W.contents writer.new) bytes.now) }
    ensures err { IfErr result (λ fault. (n : ℕ) × (fault.written ≡ written + n) × (n < length bytes.now)
        × Appends (W.contents writer.old) (W.contents writer.new) (take n bytes.now)) }
    ensures failed { OnErr result (HasRisen (W.failures writer.old) (W.failures writer.new)) }
    ensures counts { W.failures writer.old ≤ W.failures writer.new }
{
    match write_all_of(writer, bytes) {
        Ok(()) => Ok(()),
        Err(fault) => Err(WriteFault {
            written: written + fault.written,
        }),
    }
}
