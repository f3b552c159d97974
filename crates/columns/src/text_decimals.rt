//! Cells that are looked at with decimal places, read where they stand in a text.
ghost use Rattle.std.specs.Prelude.{◌≡◌, ◌<◌, ◌≤◌, ◌-◌, ℕ, List, Bool, IfSome, length, map, take, drop};
ghost use Rattle.columns.specs.TextRows.{HaveRows, IsBegun, IsCellThere, IsFieldThere, IsMarkThere, IsSeparator};
ghost use Rattle.tables.specs.Table.{NamedColumn};
ghost use Rattle.tables.specs.TableOfColumns.{named};

use crate::layout::Layout;
use crate::put_cell::put_cell;
use crate::text_cell::{ends_cell, has_quote, mark_from, quote_from};
use tables::Column;

/// The bytes of a cell, without its quotes if it is whole in quotes, and where the byte stands that ends it.
#[derive(Clone, Copy)]
struct CellText {
    from: usize,
    to: usize,
    end: usize,
}

/// Puts the numbers of the cell at `at`, one for each number of decimal places, under the first columns and answers
/// where to read on, if the cell is the last of its row exactly if it is to be.
pub(crate) fn put_decimals(
    text: &[u8],
    at: usize,
    layout: &Layout,
    places: &[u8],
    columns: &mut [Column],
    is_last: bool,
) -> Option<usize>
    requires within { at ≤ length text.now }
    requires separator { IsSeparator layout.now.separator }
    requires room { length places.now ≤ length columns.old }
    ensures read { IfSome result (λ next. IsCellThere layout.now.separator layout.now.blank places.now
        (drop at text.now) is_last (drop next text.now) (map named columns.old) (map named columns.new)) }
    ensures on { IfSome result (λ next. (at < next) × (next ≤ length text.now)) }
    ensures begun { (n : ℕ) (first : List NamedColumn) → HaveRows n first
        → IsBegun n first (map named columns.old) → IsBegun n first (map named columns.new) }
{
    let separator = layout.separator;
    let cell = cell_text(text, at, separator)?;
    if cell.end == text.len() || !ends_cell(text[cell.end], separator) {
        return None;
    }
    if (text[cell.end] != separator) != is_last {
        return None;
    }
    match put_cell(&text[cell.from..cell.to], places, layout.blank, columns) {
        Ok(true) => Some(cell.end + 1),
        _ => None,
    }
}

/// The bytes of the cell at `at`, if a separator or a line end stands after them.
fn cell_text(text: &[u8], at: usize, separator: u8) -> Option<CellText>
    requires within { at ≤ length text.now }
    requires separator { IsSeparator separator }
    ensures reads { IfSome result (λ cell. (is_last : Bool) (ys : List ℕ)
        → IsMarkThere separator (drop cell.end text.now) is_last ys
        → IsFieldThere separator (drop at text.now) (take (cell.to - cell.from) (drop cell.from text.now)) is_last ys) }
    ensures on { IfSome result (λ cell. (cell.from ≤ cell.to) × (cell.to ≤ cell.end) × (at ≤ cell.end)
        × (cell.end ≤ length text.now)) }
{
    if has_quote(text, at) {
        let to = quote_from(text, at + 1)?;
        return Some(CellText {
            from: at + 1,
            to,
            end: to + 1,
        });
    }
    let end = mark_from(text, at, separator)?;
    Some(CellText {
        from: at,
        to: end,
        end,
    })
}
