//! Rows of numbers and of cells that aren't looked at, read where they stand in a text, without `csv`.
ghost use Rattle.std.specs.Prelude.{◌≡◌, ◌∷◌, ◌++◌, [], ◌<◌, ◌≤◌, ◌^◌, ◌==◌, ◌||◌, ℕ, ℤ, List};
ghost use Rattle.std.specs.Prelude.{false, IfNone, IfSome, length, map, drop, get_or};
ghost use Rattle.columns.specs.Layouts.{AreReadBy, Fits, looks_in, places_in};
ghost use Rattle.columns.specs.Pieces.{cells_at};
ghost use Rattle.columns.specs.TextRows.{AreEven, HaveRows, IsBegun, IsCellThere, IsMarkThere, IsNumberThere, IsRowIn};
ghost use Rattle.columns.specs.TextRows.{IsSeparator, IsTextThere, cut_to, ends_cell};
ghost use Rattle.tables.specs.Table.{NamedColumn};
ghost use Rattle.tables.specs.TableOfColumns.{named};

use crate::cell::read_filled;
use crate::layout::{Layout, Look};
use crate::numbers::short_number;
use crate::text_cell::{cell_end, ends_cell, has_quote, mark_from, quote_from};
use crate::text_decimals::put_decimals;
use tables::Column;

/// A number that was read, and where to read on: at the next field, or after the last one at the next record.
#[derive(Clone, Copy)]
struct NumberCell {
    value: i64,
    next: usize,
    is_last: bool,
}

/// Reads rows from place `from` on, which is the start of a record, under the columns, until one ends at `to` or after
/// it, and answers where it ended: before `to` if a row isn't plain. The columns get the rows before that place.
pub(crate) fn read_text_rows(
    text: &[u8],
    from: usize,
    to: usize,
    layout: &Layout,
    columns: &mut [Column],
) -> usize
    requires within { (from ≤ to) × (to ≤ length text.now) }
    requires fits { Fits layout.now (length columns.old) }
    requires even { AreEven (map named columns.old) }
    ensures read { AreReadBy layout.now (drop from text.now) (drop result text.now)
        (map named columns.old) (map named columns.new) }
    ensures within { (from ≤ result) × (result ≤ length text.now) }
{
    let mut at = from;
    while at < to {
        if is_line_end(text[at]) {
            at += 1;
        } else {
            let rows = row_count(columns);
            let Some(next) = read_text_row(text, at, layout, columns) else {
                take_back(columns, rows);
                return at;
            };
            at = next;
        }
    }
    at
}

/// How many rows the columns have, if each has as many cells as the first.
pub(crate) fn row_count(columns: &[Column]) -> usize
    requires { 0 < length columns.now }
    ensures rows { result ≡ length (cells_at (map named columns.now) 0) }
    ensures held { result < 2 ^ 63 }
{
    columns[0].cells.len()
}

fn is_line_end(byte: u8) -> bool
    ensures { result ≡ ((byte == 13) || (byte == 10)) }
{
    byte == b'\r' || byte == b'\n'
}

/// Leaves each column this many cells.
fn take_back(columns: &mut [Column], rows: usize)
    ensures { map named columns.new ≡ map (cut_to rows) (map named columns.old) }
{
    for column in columns.iter_mut() {
        column.cells.truncate(rows);
    }
}

/// Reads a row whose first field starts at `at`, and answers where the next record may start. If it isn't plain, the
/// columns may have some of its cells.
fn read_text_row(text: &[u8], at: usize, layout: &Layout, columns: &mut [Column]) -> Option<usize>
    requires within { at < length text.now }
    requires fits { Fits layout.now (length columns.old) }
    ensures read { IfSome result (λ next. IsRowIn layout.now.separator layout.now.blank (looks_in layout.now)
        (drop at text.now) (drop next text.now) (map named columns.old) (map named columns.new)) }
    ensures on { IfSome result (λ next. (at < next) × (next ≤ length text.now)) }
    ensures begun { IfNone result ((n : ℕ) → HaveRows n (map named columns.old)
        → IsBegun n (map named columns.old) (map named columns.new)) }
{
    let looks = layout.looks.as_slice();
    let last = looks.len() - 1;
    let mut next = at;
    let mut column = 0;
    for place in 0..last {
        let look = &looks[place];
        next = put_cell_at(text, next, layout, look, &mut columns[column..], false)?;
        column += look.places().len();
    }
    put_cell_at(
        text,
        next,
        layout,
        &looks[last],
        &mut columns[column..],
        true,
    )
}

/// Puts the cell at `at` under the first columns, as its column is looked at, and answers where to read on, if the cell
/// is the last of its row exactly if it is to be.
#[inline(always)]
fn put_cell_at(
    text: &[u8],
    at: usize,
    layout: &Layout,
    look: &Look,
    columns: &mut [Column],
    is_last: bool,
) -> Option<usize>
    requires within { at ≤ length text.now }
    requires separator { IsSeparator layout.now.separator }
    requires room { length (places_in look.now) ≤ length columns.old }
    ensures read { IfSome result (λ next. IsCellThere layout.now.separator layout.now.blank (places_in look.now)
        (drop at text.now) is_last (drop next text.now) (map named columns.old) (map named columns.new)) }
    ensures on { IfSome result (λ next. (at < next) × (next ≤ length text.now)) }
    ensures begun { (n : ℕ) (first : List NamedColumn) → HaveRows n first
        → IsBegun n first (map named columns.old) → IsBegun n first (map named columns.new) }
{
    let separator = layout.separator;
    let blank = layout.blank;
    match look {
        Look::Other => pass_cell(text, at, separator, is_last),
        Look::Integers => put_number(text, at, separator, blank, &mut columns[0], is_last),
        Look::Decimals(places) => put_decimals(text, at, layout, places, columns, is_last),
    }
}

/// Skips the cell at `at`, whatever it holds, and answers where to read on, if it is the last of its row exactly if it
/// is to be.
#[inline(always)]
fn pass_cell(text: &[u8], at: usize, separator: u8, is_last: bool) -> Option<usize>
    requires within { at ≤ length text.now }
    requires separator { IsSeparator separator }
    ensures read { IfSome result (λ next. IsTextThere separator (drop at text.now) is_last (drop next text.now)) }
    ensures on { IfSome result (λ next. (at < next) × (next ≤ length text.now)) }
{
    let end = cell_end(text, at, separator)?;
    if (text[end] != separator) != is_last {
        return None;
    }
    Some(end + 1)
}

/// Puts the number of the cell at `at` under its column and answers where to read on, if the cell is one
/// and is the last of its row exactly if it is to be.
#[inline(always)]
fn put_number(
    text: &[u8],
    at: usize,
    separator: u8,
    blank: Option<i64>,
    column: &mut Column,
    is_last: bool,
) -> Option<usize>
    requires within { at ≤ length text.now }
    requires separator { IsSeparator separator }
    ensures read { IfSome result (λ next. (n : ℤ)
        × IsNumberThere separator blank (drop at text.now) n is_last (drop next text.now)
        × (named column.new ≡ record { name = column.old.name.items; cells = column.old.cells.items ++ n ∷ [] })) }
    ensures on { IfSome result (λ next. (at < next) × (next ≤ length text.now)) }
    ensures kept { IfNone result (named column.new ≡ named column.old) }
{
    let cell = number_cell(text, at, separator, blank)?;
    if cell.is_last != is_last || column.cells.push(cell.value).is_err() {
        return None;
    }
    Some(cell.next)
}

/// The cell that starts at `at`, if it is a number.
#[inline(always)]
fn number_cell(text: &[u8], at: usize, separator: u8, blank: Option<i64>) -> Option<NumberCell>
    requires within { at ≤ length text.now }
    requires separator { IsSeparator separator }
    ensures read { IfSome result (λ cell. IsNumberThere separator blank (drop at text.now) cell.value cell.is_last
        (drop cell.next text.now)) }
    ensures on { IfSome result (λ cell. (at < cell.next) × (cell.next ≤ length text.now)) }
{
    if let Some((value, end)) = short_number(text, at) {
        let cell = cell_before(text, value, end, separator);
        if cell.is_some() {
            return cell;
        }
    }
    if has_quote(text, at) {
        return quoted_cell(text, at, separator, blank);
    }
    other_cell(text, at, separator, blank)
}

/// The cell whose number is `value`, if a field ends at `end`.
#[inline(always)]
fn cell_before(text: &[u8], value: i64, end: usize, separator: u8) -> Option<NumberCell>
    requires { end ≤ length text.now }
    ensures after { IfSome result (λ cell.
        IsMarkThere separator (drop end text.now) cell.is_last (drop cell.next text.now)) }
    ensures value { IfSome result (λ cell. cell.value ≡ value) }
    ensures on { IfSome result (λ cell. (end < cell.next) × (cell.next ≤ length text.now)) }
{
    if end == text.len() || !ends_cell(text[end], separator) {
        return None;
    }
    Some(NumberCell {
        value,
        next: end + 1,
        is_last: text[end] != separator,
    })
}

/// A cell with a plus sign, blanks or many digits, or of blanks alone.
#[cold]
#[inline(never)]
fn other_cell(text: &[u8], at: usize, separator: u8, blank: Option<i64>) -> Option<NumberCell>
    requires within { at ≤ length text.now }
    requires bare { (get_or text.now at 0 == 34) ≡ false }
    requires separator { IsSeparator separator }
    ensures read { IfSome result (λ cell. IsNumberThere separator blank (drop at text.now) cell.value cell.is_last
        (drop cell.next text.now)) }
    ensures on { IfSome result (λ cell. (at < cell.next) × (cell.next ≤ length text.now)) }
{
    let end = mark_from(text, at, separator)?;
    let value = read_filled(blank, &text[at..end])?;
    cell_before(text, value, end, separator)
}

/// A cell whole in quotes, the first at `at`.
#[inline(always)]
fn quoted_cell(text: &[u8], at: usize, separator: u8, blank: Option<i64>) -> Option<NumberCell>
    requires within { at < length text.now }
    requires quote { get_or text.now at 0 ≡ 34 }
    requires separator { IsSeparator separator }
    ensures read { IfSome result (λ cell. IsNumberThere separator blank (drop at text.now) cell.value cell.is_last
        (drop cell.next text.now)) }
    ensures on { IfSome result (λ cell. (at < cell.next) × (cell.next ≤ length text.now)) }
{
    if let Some((value, end)) = short_number(text, at + 1) {
        if end < text.len() && text[end] == b'"' {
            return cell_before(text, value, end + 1, separator);
        }
    }
    other_quoted_cell(text, at, separator, blank)
}

/// A cell in quotes with a plus sign, blanks or many digits, or of blanks alone.
#[cold]
#[inline(never)]
fn other_quoted_cell(
    text: &[u8],
    at: usize,
    separator: u8,
    blank: Option<i64>,
) -> Option<NumberCell>
    requires within { at < length text.now }
    requires quote { get_or text.now at 0 ≡ 34 }
    requires separator { IsSeparator separator }
    ensures read { IfSome result (λ cell. IsNumberThere separator blank (drop at text.now) cell.value cell.is_last
        (drop cell.next text.now)) }
    ensures on { IfSome result (λ cell. (at < cell.next) × (cell.next ≤ length text.now)) }
{
    let end = quote_from(text, at + 1)?;
    let value = read_filled(blank, &text[at + 1..end])?;
    cell_before(text, value, end + 1, separator)
}
