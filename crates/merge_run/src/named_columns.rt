//! The columns that a job file names.
ghost use Rattle.std.specs.Prelude.{◌≡◌, IfOk};
ghost use Rattle.merge_run.specs.Merged.{columns_named};

use job_names::names_in;
use std::alloc::{AllocError, Global};
use stream_tokens::JobTexts;
use tables::Columns;

/// A column without cells for each name in the jobs of a file, so that they can be read without their table. The newest
/// version of the language is this.
pub fn columns_named(alloc: Global, newest: u8, jobs: &[u8]) -> Result<Columns, AllocError>
    ensures { IfOk result (λ columns. columns ≡ columns_named newest jobs.now) }
{
    let names = names_in(alloc, &mut JobTexts::within(newest, jobs))?;
    Columns::without_cells(alloc, names)
}
