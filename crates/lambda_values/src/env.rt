//! What the names in lambdas stand for: the numbers of earlier jobs, and the columns whose rows the items are.

ghost use Rattle.tables.specs.Table.{cells_named};
ghost use Rattle.lambda_values.specs.Earlier.{cell_at, nothing_named, number_under, table_in};
ghost use Rattle.std.specs.Prelude.{◌≡◌, [], ◌∷◌, ◌++◌, OnErr, OnOk, option_map, pos, slice_index_or};

use std::alloc::{AllocError, Global};
use std::marker::Model;
use stream_tokens::Bytes;
use tables::Columns;

/// The number that an earlier job gave, under the name of that job.
#[derive(Drop)]
pub struct NamedNumber {
    pub name: Bytes,
    pub number: i64,
}

/// The numbers of earlier jobs, by name, and a table whose rows the items of a walk are, if they are rows.
///
/// Contracts see the numbers as a list, in the order in which they were added.
#[derive(Drop)]
pub struct Env<'t> {
    numbers: Vec<NamedNumber>,
    table: Option<&'t Columns>,
}

impl<'t> Model for Env<'t> {
    ghost use Rattle.lambda_values.specs.Earlier.{Numbers, table_in};

    ghost Value = { Numbers };

    ghost view = { λ env. record { earlier = env.numbers.items; table = table_in env.table } };
}

impl<'t> Env<'t> {
    /// An environment without numbers and without a table. It takes no memory.
    pub fn empty(alloc: Global) -> Env<'t>
        ensures { result ≡ nothing_named }
    {
        Env::over(alloc, None)
    }

    /// An environment without numbers, over this table, if there is one. It takes no memory.
    pub fn over(alloc: Global, table: Option<&'t Columns>) -> Env<'t>
        ensures { result ≡ record { earlier = []; table = table_in table.entry } }
    {
        Env {
            numbers: Vec::new(alloc),
            table,
        }
    }

    /// Adds a number after the others, in amortized constant time.
    ///
    /// If the allocation fails, the environment stays as it was.
    pub fn push(&mut self, name: Bytes, number: i64) -> Result<(), AllocError>
        ensures ok { OnOk result (self.new.earlier
            ≡ self.old.earlier ++ record { name = name; number = number } ∷ []) }
        ensures table { OnOk result (self.new.table ≡ self.old.table) }
        ensures err { OnErr result (self.new ≡ self.old) }
    {
        self.numbers.push(NamedNumber { name, number })?;
        Ok(())
    }

    /// The first number under this name, if there is one. It compares the names from the first on.
    pub fn number(&self, name: &[u8]) -> Option<i64>
        ensures { result ≡ number_under name.now self.now.earlier }
    {
        let numbers = self.numbers.as_slice();
        for earlier in numbers {
            if earlier.name.as_slice() == name {
                return Some(earlier.number);
            }
        }
        None
    }

    /// The cells of the first column of the table with this name, if there is one. It looks at the names in turn.
    pub fn cells(&self, name: &[u8]) -> Option<&[i64]>
        ensures { option_map (λ cells. cells.now) result ≡ cells_named name.now self.now.table }
    {
        self.table?.get(name)
    }

    /// The cell of a row in the first column with this name; 0 if there is none.
    pub fn cell(&self, name: &[u8], row: u64) -> i64
        ensures { result ≡ cell_at row (cells_named name.now self.now.table) }
    {
        match self.cells(name) {
            Some(cells) => cell_in(cells, row),
            None => 0,
        }
    }
}

/// The cell of a row; 0 if there is none.
fn cell_in(cells: &[i64], row: u64) -> i64
    ensures { result ≡ slice_index_or cells.now row (pos 0) }
{
    if row < cells.len() as u64 {
        cells[row as usize]
    } else {
        0
    }
}
