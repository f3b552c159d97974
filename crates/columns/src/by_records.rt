//! Rows that are read by their records: those from the first row on that isn't plain, and the rows of a file whose
//! header isn't plain.
ghost use Rattle.std.specs.Prelude.{◌≡◌, ◌≢◌, ◌++◌, ◌≤◌, ◌-◌, ℕ, List, IfErr, length, map};
ghost use Rattle.std.specs.Io.KnownBytes.{Consumes};
ghost use Rattle.counted_io.specs.FailureCounts.{HasRisen};
ghost use Rattle.csv.specs.Reading.{strip_bom};
ghost use Rattle.columns.specs.Fronts.{ArePutUnder, IsPutBy, IsReadWhole};
ghost use Rattle.columns.specs.Layouts.{Fits, IsAnswerBy, form_of, records_in};
ghost use Rattle.columns.specs.Records.{IsReading};
ghost use Rattle.tables.specs.TableOfColumns.{named};

use crate::fault::ColumnFault;
use crate::header::{has_mark, rows_to_expect};
use crate::layout::{Layout, TableForm, layout_of, look_count};
use crate::records::{next_record, reader_of};
use crate::round_bytes::read_on;
use crate::rounds::MARK;
use crate::rows::{columns_of_header, read_rows};
use crate::text_rows::row_count;
use counted_io::CountedRead;
use csv::{ByteRecord, Reader};
use std::alloc::Global;
use tables::{Column, Columns};

/// The columns of these bytes and of all that the reader has left, read by their records.
pub(crate) fn columns_by_records<R: CountedRead>(
    alloc: Global,
    reader: &mut R,
    mut bytes: Vec<u8>,
    form: &TableForm,
) -> Result<Columns, ColumnFault>
    ensures answer { (gone : List ℕ) × Consumes (R.remaining reader.old) (R.remaining reader.new) gone
        × IsAnswerBy (form_of form.now) (bytes.items ++ gone) result }
    ensures end { IsReadWhole (R.remaining reader.new) result }
    ensures read { IfErr result (λ fault. fault ≡ ColumnFault.Read
        → HasRisen (R.failures reader.old) (R.failures reader.new)) }
    ensures counts { R.failures reader.old ≤ R.failures reader.new }
{
    if !read_on(reader, &mut bytes, usize::MAX)? {
        return Err(ColumnFault::NoMemory);
    }
    columns_in(alloc, &bytes, form)
}

/// Puts the rows of these bytes and of all that the reader has left under the columns, by their records.
pub(crate) fn put_by_records<R: CountedRead>(
    alloc: Global,
    reader: &mut R,
    bytes: &[u8],
    layout: &Layout,
    columns: &mut [Column],
) -> Result<(), ColumnFault>
    requires fits { Fits layout.now (length columns.old) }
    ensures put { IsPutBy layout.now (R.remaining reader.old) (R.remaining reader.new) bytes.now
        (map named columns.old) result (map named columns.new) }
    ensures end { IsReadWhole (R.remaining reader.new) result }
    ensures read { IfErr result (λ fault. fault ≡ ColumnFault.Read
        → HasRisen (R.failures reader.old) (R.failures reader.new)) }
    ensures counts { R.failures reader.old ≤ R.failures reader.new }
{
    // The mark that `csv` skips stands before the bytes, so it skips none of theirs.
    let mut text = Vec::from_slice(alloc, &MARK)?;
    text.extend_from_slice(bytes)?;
    if !read_on(reader, &mut text, usize::MAX)? {
        return Err(ColumnFault::NoMemory);
    }
    put_records(alloc, &text, layout, columns)
}

/// Puts the rows of these bytes under the columns, by their records.
pub(crate) fn put_rest(
    alloc: Global,
    bytes: &[u8],
    layout: &Layout,
    columns: &mut [Column],
) -> Result<(), ColumnFault>
    requires fits { Fits layout.now (length columns.old) }
    ensures put { ArePutUnder layout.now bytes.now (map named columns.old) result (map named columns.new) }
    ensures unread { IfErr result (λ fault. fault ≢ ColumnFault.Read) }
{
    if bytes.is_empty() {
        return Ok(());
    }
    if !has_mark(bytes) {
        return put_records(alloc, bytes, layout, columns);
    }
    let mut text = Vec::from_slice(alloc, &MARK)?;
    text.extend_from_slice(bytes)?;
    put_records(alloc, &text, layout, columns)
}

/// Puts the rows of a text, after a mark at its start if it has one, under the columns.
fn put_records(
    alloc: Global,
    text: &[u8],
    layout: &Layout,
    columns: &mut [Column],
) -> Result<(), ColumnFault>
    requires fits { Fits layout.now (length columns.old) }
    ensures put { ArePutUnder layout.now (strip_bom text.now) (map named columns.old) result (map named columns.new) }
    ensures unread { IfErr result (λ fault. fault ≢ ColumnFault.Read) }
{
    let mut reader = reader_of(alloc, text, layout.separator);
    let mut row = ByteRecord::new(alloc);
    let number = row_count(columns) + 1;
    read_rows(&mut reader, &mut row, columns, layout, number)
}

/// The columns of some bytes by their records, whatever these are.
pub(crate) fn columns_in(
    alloc: Global,
    bytes: &[u8],
    form: &TableForm,
) -> Result<Columns, ColumnFault>
    ensures tells { IsAnswerBy (form_of form.now) bytes.now result }
    ensures unread { IfErr result (λ fault. fault ≢ ColumnFault.Read) }
{
    let mut reader = reader_of(alloc, bytes, form.separator.byte());
    let mut row = ByteRecord::new(alloc);
    columns_from(alloc, bytes, &mut reader, &mut row, form)
}

/// The columns of some bytes, by a reader of their records.
fn columns_from(
    alloc: Global,
    bytes: &[u8],
    reader: &mut Reader<&[u8]>,
    row: &mut ByteRecord,
    form: &TableForm,
) -> Result<Columns, ColumnFault>
    requires { IsReading reader.old (records_in (form_of form.now).separator bytes.now) }
    ensures tells { IsAnswerBy (form_of form.now) bytes.now result }
    ensures unread { IfErr result (λ fault. fault ≢ ColumnFault.Read) }
{
    if !next_record(reader, row)? {
        return Err(ColumnFault::NoHeader);
    }
    let layout = layout_of(alloc, row, form)?;
    let rows = rows_to_expect(bytes, bytes.len(), look_count(&layout.looks));
    let mut columns = columns_of_header(alloc, row, &layout.looks, rows)?;
    read_rows(reader, row, columns.as_mut_slice(), &layout, 1)?;
    Ok(Columns::of(columns))
}
