//! A cell that is put under the columns that it belongs to: one for each look at its column.
ghost use Rattle.std.specs.Prelude.{◌≡◌, ◌≤◌, ℕ, List, IfOk, true, false, length, map};
ghost use Rattle.columns.specs.TableForms.{filled, is_good};
ghost use Rattle.columns.specs.TextRows.{HaveRows, IsBegun, IsCellPut};
ghost use Rattle.tables.specs.Table.{NamedColumn};
ghost use Rattle.tables.specs.TableOfColumns.{named};

use crate::decimals::read_with;
use std::alloc::AllocError;
use tables::Column;

/// Puts the numbers of a cell, one for each number of decimal places, under the first columns, and answers whether it
/// spells all of them. If it doesn't, some may be put.
pub(crate) fn put_cell(
    cell: &[u8],
    places: &[u8],
    blank: Option<i64>,
    columns: &mut [Column],
) -> Result<bool, AllocError>
    requires { length places.now ≤ length columns.old }
    ensures put { IfOk result (λ is_put. is_put ≡ true
        → IsCellPut places.now (filled blank cell.now) (map named columns.old) (map named columns.new)) }
    ensures bad { IfOk result (λ is_put. is_put ≡ false → is_good places.now (filled blank cell.now) ≡ false) }
    ensures begun { (n : ℕ) (first : List NamedColumn) → HaveRows n first
        → IsBegun n first (map named columns.old) → IsBegun n first (map named columns.new) }
{
    for place in 0..places.len() {
        let Some(number) = read_with(places[place], blank, cell) else {
            return Ok(false);
        };
        columns[place].cells.push(number)?;
    }
    Ok(true)
}
