//! The header and the rows of a column file, from their records.
ghost use Rattle.std.specs.Prelude.{◌≡◌, ◌≢◌, ◌++◌, [], ℕ, List, None, Some, IfErr, IfOk};
ghost use Rattle.std.specs.Prelude.{MatchResult, OnOk, get_or, length, map};
ghost use Rattle.std.specs.List.{list_any};
ghost use Rattle.std.specs.Str.{bytes_eq};
ghost use Rattle.csv.specs.Records.{fields_of};
ghost use Rattle.job_names.specs.ColumnKeys.{key_of};
ghost use Rattle.columns.specs.Fronts.{fault_by, kept_rows};
ghost use Rattle.columns.specs.Layouts.{looks_in, places_in};
ghost use Rattle.columns.specs.Records.{IsReading, IsSetUp};
ghost use Rattle.columns.specs.Refusals.{has_twice, header_fault};
ghost use Rattle.columns.specs.Table.{columns_under};
ghost use Rattle.columns.specs.TableForms.{filled, kept, kept_names, row_fault_in};
ghost use Rattle.columns.specs.TableOfColumns.{with_row, with_rows};
ghost use Rattle.tables.specs.TableOfColumns.{named};
ghost use Rattle.columns.specs.TextRows.{look_count};

use crate::fault::ColumnFault;
use crate::layout::{Layout, Look, look_count};
use crate::put_cell::put_cell;
use crate::records::next_record;
use csv::{ByteRecord, Reader};
use job_names::key_of;
use std::alloc::{AllocError, Global};
use tables::Column;

/// How many columns are looked at, at most.
const MAX_COLUMNS: usize = 256;

/// The columns under the keys of a header, with no cells yet and room for this many rows.
pub(crate) fn columns_of_header(
    alloc: Global,
    header: &ByteRecord,
    looks: &[Look],
    rows: usize,
) -> Result<Vec<Column>, ColumnFault>
    requires { length looks.now ≡ length (fields_of header.now) }
    ensures fits { OnOk result (header_fault (kept_names (map places_in looks.now) (fields_of header.now)) ≡ None) }
    ensures ok { IfOk result (λ columns.
        map named columns.items ≡ columns_under (kept_names (map places_in looks.now) (fields_of header.now)) []) }
    ensures refused { IfErr result (λ fault. fault ≢ ColumnFault.NoMemory
        → header_fault (kept_names (map places_in looks.now) (fields_of header.now)) ≡ Some fault) }
    ensures unread { IfErr result (λ fault. fault ≢ ColumnFault.Read) }
{
    let count = look_count(looks);
    if count > MAX_COLUMNS {
        return Err(ColumnFault::TooManyColumns);
    }
    let columns = columns_named(alloc, header, looks, count, rows)?;
    if has_same_names(&columns) {
        return Err(ColumnFault::SameName);
    }
    Ok(columns)
}

fn columns_named(
    alloc: Global,
    header: &ByteRecord,
    looks: &[Look],
    count: usize,
    rows: usize,
) -> Result<Vec<Column>, AllocError>
    requires { length looks.now ≡ length (fields_of header.now) }
    ensures { IfOk result (λ columns.
        map named columns.items ≡ columns_under (kept_names (map places_in looks.now) (fields_of header.now)) []) }
{
    let mut columns = Vec::with_capacity(alloc, count)?;
    for place in 0..looks.len() {
        let name = field_in(header, place);
        add_columns(alloc, name, looks[place].places(), rows, &mut columns)?;
    }
    Ok(columns)
}

/// Adds a column under each key of a name.
fn add_columns(
    alloc: Global,
    name: &[u8],
    places: &[u8],
    rows: usize,
    columns: &mut Vec<Column>,
) -> Result<(), AllocError>
    ensures { OnOk result (map named columns.new.items
        ≡ map named columns.old.items ++ columns_under (map (key_of name.now) places.now) []) }
{
    for at in 0..places.len() {
        columns.push(Column {
            name: key_of(alloc, name, places[at])?,
            cells: Vec::with_capacity(alloc, rows)?,
            is_whole: true,
        })?;
    }
    Ok(())
}

#[tactic(auto, using(crate::proofs::RowLemmas::field_at_is))]
fn field_in(row: &ByteRecord, place: usize) -> &[u8]
    ensures { result.now ≡ get_or (fields_of row.now) place [] }
{
    match row.get(place) {
        Some(field) => field,
        None => &[],
    }
}

/// Compares each name with those after it: 32,640 times at the most.
#[tactic(auto, using(crate::proofs::RowLemmas::has_twice_more))]
fn has_same_names(columns: &[Column]) -> bool
    ensures { result ≡ has_twice (map (λ c. c.name.items) columns.now) }
{
    for (place, column) in columns.iter().enumerate() {
        if is_named(&columns[place + 1..], column.name.as_slice()) {
            return true;
        }
    }
    false
}

fn is_named(columns: &[Column], name: &[u8]) -> bool
    ensures { result ≡ list_any (λ c. bytes_eq name.now c.name.items) columns.now }
{
    columns.iter().any(|column| name == column.name.as_slice())
}

/// Puts the numbers of one row under the others.
fn read_row(
    columns: &mut [Column],
    row: &ByteRecord,
    layout: &Layout,
    number: usize,
) -> Result<(), ColumnFault>
    requires { look_count (looks_in layout.now) ≡ length columns.old }
    ensures fits { OnOk result
        (row_fault_in (looks_in layout.now) number (map (filled layout.now.blank) (fields_of row.now)) ≡ None) }
    ensures ok { OnOk result (map named columns.new ≡ with_row (map named columns.old)
        (kept (looks_in layout.now) (map (filled layout.now.blank) (fields_of row.now)))) }
    ensures refused { IfErr result (λ fault. fault ≢ ColumnFault.NoMemory
        → row_fault_in (looks_in layout.now) number (map (filled layout.now.blank) (fields_of row.now)) ≡ Some fault) }
    ensures unread { IfErr result (λ fault. fault ≢ ColumnFault.Read) }
{
    let looks = layout.looks.as_slice();
    if row.len() != looks.len() {
        return Err(ColumnFault::RowLength { row: number });
    }
    let mut column = 0;
    for place in 0..looks.len() {
        let places = looks[place].places();
        let cell = field_in(row, place);
        if !put_cell(cell, places, layout.blank, &mut columns[column..])? {
            return Err(ColumnFault::BadNumber {
                row: number,
                column: place + 1,
            });
        }
        column += places.len();
    }
    Ok(())
}

/// Puts the rows that are left under the columns, row by row. The next row is number `first` of its file.
pub(crate) fn read_rows(
    reader: &mut Reader<&[u8]>,
    row: &mut ByteRecord,
    columns: &mut [Column],
    layout: &Layout,
    first: usize,
) -> Result<(), ColumnFault>
    requires set_up { IsSetUp reader.old }
    requires width { look_count (looks_in layout.now) ≡ length columns.old }
    ensures rows { (rows : List (List (List ℕ))) → IsReading reader.old rows → MatchResult result
        (λ _. (fault_by layout.now first rows ≡ None)
        × (map named columns.new ≡ with_rows (map named columns.old) (kept_rows layout.now rows)))
        (λ fault. fault ≢ ColumnFault.NoMemory → fault_by layout.now first rows ≡ Some fault) }
    ensures unread { IfErr result (λ fault. fault ≢ ColumnFault.Read) }
{
    for number in first..usize::MAX {
        if !next_record(reader, row)? {
            return Ok(());
        }
        read_row(columns, row, layout, number)?;
    }
    // No memory holds that many rows.
    Err(ColumnFault::NoMemory)
}
