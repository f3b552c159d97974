//! The records of a text, one after another.
ghost use Rattle.std.specs.Prelude.{ℕ, List, IfOk, OnOk};
ghost use Rattle.csv.specs.Records.{fields_of};
ghost use Rattle.columns.specs.Layouts.{records_in};
ghost use Rattle.columns.specs.Records.{GaveNext, IsReading, IsSetUp};

use csv::{ByteRecord, ErrorKind, Reader, ReaderBuilder};
use std::alloc::{AllocError, Global};

/// A reader of the records of `bytes`, whose cells this separator parts. It skips one byte order mark by itself.
pub(crate) fn reader_of(alloc: Global, bytes: &[u8], separator: u8) -> Reader<&[u8]>
    ensures { IsReading result (records_in separator bytes.now) }
{
    ReaderBuilder::new()
        .delimiter(separator)
        .has_headers(false)
        .flexible(true)
        .from_reader(alloc, bytes)
}

/// Takes the next record into `row`, or answers false if there is none.
///
/// Records may have any length and any bytes, so an error is one of memory; bytes in memory can
/// always be read.
pub(crate) fn next_record(
    reader: &mut Reader<&[u8]>,
    row: &mut ByteRecord,
) -> Result<bool, AllocError>
    requires { IsSetUp reader.old }
    ensures set_up { OnOk result (IsSetUp reader.new) }
    ensures gave { IfOk result (λ found. (rows : List (List (List ℕ))) → IsReading reader.old rows
        → GaveNext rows found (fields_of row.new) reader.new) }
{
    match reader.read_byte_record(row) {
        Ok(found) => Ok(found),
        Err(error) => match error.into_kind() {
            ErrorKind::OutOfMemory | ErrorKind::Io(_) => Err(AllocError),
            _ => unreachable!(),
        },
    }
}
