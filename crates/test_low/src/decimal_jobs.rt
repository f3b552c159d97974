//! Columns with decimal places in jobs.
use job_language::{Cause, read_jobs_within};
use lambda_expr::ReadFault;
use std::alloc::{AllocError, Global};
use tables::Columns;

/// Columns without cells of these keys.
fn columns_of(alloc: Global, keys: &[&str]) -> Result<Columns, AllocError> {
    let mut names = Vec::new(alloc);
    for key in keys {
        names.push(Vec::from_slice(alloc, key.as_bytes())?)?;
    }
    Columns::without_cells(alloc, names)
}

/// Why the job over this source is refused in a file of this version, if it is; the columns are `a`, and `a` with two
/// decimal places.
fn cause_of(alloc: Global, version: u8, source: &str) -> Result<Option<Cause>, AllocError> {
    let columns = columns_of(alloc, &["a", "a\"\u{2}"])?;
    let file = format!(in alloc; "version {version}\ns = {source}.sum()")?;
    Ok(
        match read_jobs_within(alloc, file.as_str().as_bytes(), &columns, 3) {
            Ok(_) => None,
            Err(fault) => Some(fault.cause),
        },
    )
}

/// Whether a column has decimal places in version 3, and in version 2 none.
pub(crate) fn are_read(alloc: Global) -> Result<bool, AllocError> {
    let syntax = Some(Cause::Syntax);
    let unknown = Some(Cause::UnknownColumn);
    let stops = Some(Cause::Expr(ReadFault::Syntax { column: 16 }));
    for (version, source, cause) in [
        (2, "column(\"a\")", None),
        (2, "column(\"a\", 2)", syntax),
        (2, "column(\"a\", 0)", syntax),
        (2, "concat(of(1), column(\"a\", 2))", syntax),
        (3, "column(\"a\")", None),
        (3, "column(\"a\", 2)", None),
        (3, "column ( \"a\" ,2 )", None),
        (3, "column(\"a\", 0)", None),
        (3, "concat(column(\"a\"), column(\"a\", 2))", None),
        (3, "column(\"a\", 1)", unknown),
        (3, "column(\"a\", 18)", unknown),
        (3, "column(\"b\", 2)", unknown),
        (3, "column(\"a\", 19)", syntax),
        (3, "column(\"a\", -1)", syntax),
        (3, "column(\"a\", 02)", syntax),
        (3, "column(\"a\", 2L)", syntax),
        (3, "column(\"a\", )", syntax),
        (3, "column(\"a\", 2, 2)", syntax),
        (3, "column(2, \"a\")", syntax),
        (3, "column(\"a\", 2).map(x -> cell(\"a\", 2))", None),
        (3, "column(\"a\").map(x -> cell(\"a\", 3))", unknown),
        (3, "column(\"a\").map(x -> cell(\"a\", 19))", stops),
    ] {
        if cause_of(alloc, version, source)? != cause {
            return Ok(false);
        }
    }
    Ok(true)
}
