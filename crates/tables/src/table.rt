//! Columns of numbers, by their names.
ghost use Rattle.std.specs.Prelude.{◌≡◌, [], IfOk, find, map, option_map};
ghost use Rattle.std.specs.Option.{option_copied};
ghost use Rattle.std.specs.Str.{bytes_eq};
ghost use Rattle.tables.specs.Table.{bare, cells_named};

use std::alloc::{AllocError, Global};
use std::marker::Model;

/// One column: its name and its cells, from the top. If it isn't whole, some of a piece's cells are missing, since an
/// allocation failed.
#[derive(Debug, Drop)]
pub struct Column {
    pub name: Vec<u8>,
    pub cells: Vec<i64>,
    pub is_whole: bool,
}

/// The columns of a file, in its order. `read_columns` gives columns of one length and different names.
#[derive(Debug, Drop)]
pub struct Columns {
    // `None` is no column: an empty vector would want an allocator.
    columns: Option<Vec<Column>>,
}

impl Model for Columns {
    ghost use Rattle.std.specs.Prelude.{List, map};
    ghost use Rattle.tables.specs.Table.{NamedColumn};
    ghost use Rattle.tables.specs.TableOfColumns.{named, columns_in};

    ghost Value = { List NamedColumn };

    ghost view = { λ c. map named (columns_in c.columns) };
}

impl Columns {
    ghost use Rattle.tables.specs.TableOfColumns.{named};

    /// No columns, for a run without a column file. Takes no memory.
    pub fn none() -> Columns
        ensures { result ≡ [] }
    {
        Columns { columns: None }
    }

    /// The columns of a header without rows: one without cells for each of these names, in their order. Any number of
    /// names is taken, and a name may come twice.
    pub fn without_cells(alloc: Global, names: Vec<Vec<u8>>) -> Result<Columns, AllocError>
        ensures { IfOk result (λ columns. columns ≡ map (λ name. bare name.items) names.items) }
    {
        let mut columns = Vec::with_capacity(alloc, names.len())?;
        for name in names {
            columns.push(Column {
                name,
                cells: Vec::new(alloc),
                is_whole: true,
            })?;
        }
        Ok(Columns::of(columns))
    }

    /// The table of columns that were read, in their order.
    pub fn of(columns: Vec<Column>) -> Columns
        ensures { result ≡ map named columns.items }
    {
        Columns {
            columns: Some(columns),
        }
    }

    /// The cells under a name, from the top. Looks at the names in turn.
    pub fn get(&self, name: &[u8]) -> Option<&[i64]>
        ensures { option_map (λ cells. cells.now) result ≡ cells_named name.now self.now }
    {
        match &self.columns {
            None => None,
            Some(columns) => cells_under(columns, name),
        }
    }
}

ghost use Rattle.tables.specs.TableOfColumns.{named};

fn cells_under<'a>(columns: &'a [Column], name: &[u8]) -> Option<&'a [i64]>
    ensures { option_map (λ cells. cells.now) result ≡ cells_named name.now (map named columns.now) }
{
    let column = column_under(columns, name)?;
    Some(column.cells.as_slice())
}

fn column_under<'a>(columns: &'a [Column], name: &[u8]) -> Option<&'a Column>
    ensures { option_copied result ≡ find (λ c. bytes_eq c.name.items name.now) columns.now }
{
    columns.iter().find(|column| column.name.as_slice() == name)
}
