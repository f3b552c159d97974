//! The header of a file, and where the records after it begin.
ghost use Rattle.std.specs.Prelude.{◌≡◌, ◌≤◌, ◌&&◌, ◌||◌, ◌==◌, [], true, false, IfSome, IfNone, None};
ghost use Rattle.std.specs.Prelude.{length, map, drop, get_or, nat_lt};
ghost use Rattle.csv.specs.Machine.{is_end, step};
ghost use Rattle.csv.specs.Reading.{is_bom, strip_bom};
ghost use Rattle.csv.specs.Records.{fields_of};
ghost use Rattle.columns.specs.Fronts.{IsFront};
ghost use Rattle.columns.specs.Layouts.{Fits, IsLayout, form_of, looks_in, records_in};
ghost use Rattle.columns.specs.Places.{state_of};
ghost use Rattle.columns.specs.Records.{IsReading};
ghost use Rattle.columns.specs.Refusals.{header_fault};
ghost use Rattle.columns.specs.Table.{columns_under};
ghost use Rattle.columns.specs.TableForms.{config_of, kept_names};
ghost use Rattle.tables.specs.TableOfColumns.{named};
ghost use Rattle.columns.specs.TextRows.{EndsFirst, HaveRows, IsBetween, IsSeparator};

use crate::layout::{Layout, TableForm, layout_of, look_count};
use crate::records::{next_record, reader_of};
use crate::rows::columns_of_header;
use csv::{ByteRecord, Reader};
use std::alloc::Global;
use tables::Column;

/// Where a reading stands in a record.
#[derive(Clone, Copy)]
enum RecordPlace {
    RecordStart,
    FieldStart,
    Field,
    Quoted,
    AfterQuote,
}

/// The bytes without a byte order mark at their start.
pub(crate) fn without_mark(bytes: &[u8]) -> &[u8]
    ensures { result.now ≡ strip_bom bytes.now }
{
    &bytes[mark_end(bytes)..]
}

/// Where a byte order mark at the start of the bytes ends, or 0 if there is none.
pub(crate) fn mark_end(bytes: &[u8]) -> usize
    ensures within { result ≤ length bytes.now }
    ensures rest { drop result bytes.now ≡ strip_bom bytes.now }
{
    if has_mark(bytes) { 3 } else { 0 }
}

/// Whether the bytes begin with a byte order mark.
pub(crate) fn has_mark(bytes: &[u8]) -> bool
    ensures length { result ≡ true → 3 ≤ length bytes.now }
    ensures is { result
        ≡ (nat_lt 2 (length bytes.now) && is_bom (get_or bytes.now 0 0) (get_or bytes.now 1 0) (get_or bytes.now 2 0)) }
{
    bytes.len() >= 3 && bytes[0] == 0xEF && bytes[1] == 0xBB && bytes[2] == 0xBF
}

/// Where the first record of a text ends, if a line end ends it.
pub(crate) fn header_end(text: &[u8], separator: u8) -> Option<usize>
    requires { IsSeparator separator }
    ensures within { IfSome result (λ end. end ≤ length text.now) }
    ensures first { IfSome result (λ end. EndsFirst separator text.now end) }
{
    let mut place = RecordPlace::RecordStart;
    for at in 0..text.len() {
        match place_after(place, text[at], separator) {
            Some(next) => place = next,
            None => return Some(at + 1),
        }
    }
    None
}

/// The place after a byte, or `None` if the byte ends the record.
fn place_after(place: RecordPlace, byte: u8, separator: u8) -> Option<RecordPlace>
    requires { IsSeparator separator }
    ensures goes { IfSome result (λ next. (is_end (step (config_of separator) (state_of place) byte).1 ≡ false)
        × ((step (config_of separator) (state_of place) byte).0 ≡ state_of next)) }
    ensures ends { IfNone result ((is_end (step (config_of separator) (state_of place) byte).1 ≡ true)
        × IsBetween (step (config_of separator) (state_of place) byte).0) }
{
    match place {
        RecordPlace::Quoted if byte == b'"' => Some(RecordPlace::AfterQuote),
        RecordPlace::Quoted => Some(RecordPlace::Quoted),
        RecordPlace::AfterQuote if byte == b'"' => Some(RecordPlace::Quoted),
        RecordPlace::RecordStart if byte == b'\r' || byte == b'\n' => Some(
            RecordPlace::RecordStart,
        ),
        RecordPlace::RecordStart | RecordPlace::FieldStart if byte == b'"' => Some(
            RecordPlace::Quoted,
        ),
        _ if byte == separator => Some(RecordPlace::FieldStart),
        _ if byte == b'\r' || byte == b'\n' => None,
        _ => Some(RecordPlace::Field),
    }
}

/// The columns under the header of some bytes, without cells and with room for the rows of `total` bytes, the layout of
/// the rows, and where the first row may start in what follows a byte order mark. `None` if no column is looked at.
pub(crate) fn plain_header(
    alloc: Global,
    bytes: &[u8],
    total: usize,
    form: &TableForm,
) -> Option<(Vec<Column>, Layout, usize)>
    ensures front { IfSome result (λ header.
        IsFront (form_of form.now) header.1 (strip_bom bytes.now) (drop header.2 (strip_bom bytes.now))
        (map named header.0.items)) }
    ensures fits { IfSome result (λ header. Fits header.1 (length header.0.items)) }
    ensures empty { IfSome result (λ header. HaveRows 0 (map named header.0.items)) }
    ensures within { IfSome result (λ header. header.2 ≤ length (strip_bom bytes.now)) }
{
    let mut reader = reader_of(alloc, bytes, form.separator.byte());
    let mut row = ByteRecord::new(alloc);
    plain_header_from(alloc, bytes, total, &mut reader, &mut row, form)
}

/// What `plain_header` answers, by a reader of the records.
fn plain_header_from(
    alloc: Global,
    bytes: &[u8],
    total: usize,
    reader: &mut Reader<&[u8]>,
    row: &mut ByteRecord,
    form: &TableForm,
) -> Option<(Vec<Column>, Layout, usize)>
    requires { IsReading reader.old (records_in (form_of form.now).separator bytes.now) }
    ensures front { IfSome result (λ header.
        IsFront (form_of form.now) header.1 (strip_bom bytes.now) (drop header.2 (strip_bom bytes.now))
        (map named header.0.items)) }
    ensures fits { IfSome result (λ header. Fits header.1 (length header.0.items)) }
    ensures empty { IfSome result (λ header. HaveRows 0 (map named header.0.items)) }
    ensures within { IfSome result (λ header. header.2 ≤ length (strip_bom bytes.now)) }
{
    let end = header_end(without_mark(bytes), form.separator.byte())?;
    let Ok(true) = next_record(reader, row) else {
        return None;
    };
    let (columns, layout) = columns_and_layout(alloc, bytes, total, row, form)?;
    if columns.is_empty() {
        return None;
    }
    Some((columns, layout, end))
}

/// The columns under a header, without cells and with room for the rows of `total` bytes, and the layout of the rows,
/// if there is no fault.
fn columns_and_layout(
    alloc: Global,
    bytes: &[u8],
    total: usize,
    header: &ByteRecord,
    form: &TableForm,
) -> Option<(Vec<Column>, Layout)>
    ensures layout { IfSome result (λ both. IsLayout (form_of form.now) both.1 (fields_of header.now)) }
    ensures fits { IfSome result (λ both. header_fault (kept_names (looks_in both.1) (fields_of header.now)) ≡ None) }
    ensures under { IfSome result (λ both.
        map named both.0.items ≡ columns_under (kept_names (looks_in both.1) (fields_of header.now)) []) }
{
    let Ok(layout) = layout_of(alloc, header, form) else {
        return None;
    };
    let rows = rows_to_expect(bytes, total, look_count(&layout.looks));
    match columns_of_header(alloc, header, &layout.looks, rows) {
        Ok(columns) => Some((columns, layout)),
        Err(_) => None,
    }
}

/// How many bytes at the start of a file its row count is estimated from.
const SAMPLE: usize = 64 * 1024;

/// How many rows to expect in `total` bytes that begin with these: the number of rows if all lines are as long as the
/// first ones. It is never more than a file of numbers can have, whose rows take two bytes or more for each cell.
pub(crate) fn rows_to_expect(bytes: &[u8], total: usize, columns: usize) -> usize {
    let sample = &bytes[..bytes.len().min(SAMPLE)];
    let line_feeds = sample.iter().filter(|byte| **byte == b'\n').count();
    let returns = sample.iter().filter(|byte| **byte == b'\r').count();
    let samples = total / SAMPLE + 1;
    line_feeds
        .max(returns)
        .saturating_mul(samples)
        .min(total / 2 / columns.max(1))
}
